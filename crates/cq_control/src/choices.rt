// A stack of choices over a world that is undone to a choice's mark when the search comes back to it. Each mark of the
// world belongs to a choice.

ghost use Rattle.std.specs.Prelude.{◌≡◌, ◌<◌, ◌≤◌, ◌+◌, ◌++◌, [], ◌∷◌, List, length, IfSome, IfNone, OnOk, OnErr};
ghost use Rattle.cq_control.specs.Open.{AreMarked, last, open_choices};

use cq_trail::{Mark, Undo};
use std::alloc::{AllocError, Global};
use std::marker::Model;
use std::mem;

/// The open choices of a search. A choice has the alternatives that are left of one call, and goes back to the world of
/// the call. It is there while an alternative is left that was not begun.
///
/// Contracts see what the choices leave to try, the newest first. Over a world with a mark for each they are
/// `open_choices`. A height is a number of choices: those are below it that have fewer older ones.
#[derive(Drop)]
pub struct Choices<C> {
    contents: Vec<C>,
}

impl<C> Model for Choices<C> {
    ghost use Rattle.std.specs.Prelude.{List, reverse};

    ghost Value = { List C };

    ghost view = { λ s. reverse s.contents.items };
}

impl<C: Drop> Choices<C> {
    /// No choice; it takes no memory until the first is pushed.
    pub fn new(alloc: Global) -> Self
        ensures { result ≡ [] }
    {
        Choices {
            contents: Vec::new(alloc),
        }
    }

    /// How many choices are open.
    pub fn height(&self) -> usize
        ensures { result ≡ length self.now }
    {
        self.contents.len()
    }

    /// Marks the world, and puts a choice on top.
    pub fn push<W: Undo>(&mut self, world: &mut W, content: C) -> Result<(), AllocError>
        requires marked { AreMarked (W.saved world.old) self.old }
        ensures contents { OnOk result (self.new ≡ content ∷ self.old) }
        ensures open { OnOk result (open_choices (W.saved world.new) self.new ≡ (W.now world.old, content) ∷ open_choices (W.saved world.old) self.old) }
        ensures err { OnErr result (self.new ≡ self.old) }
        ensures err_saved { OnErr result (W.saved world.new ≡ W.saved world.old) }
        ensures now { W.now world.new ≡ W.now world.old }
        ensures room { W.room world.old ≤ W.room world.new + 1 }
        ensures marked { AreMarked (W.saved world.new) self.new }
    {
        self.contents.reserve(1)?;
        world.mark()?;
        self.contents.push(content).unwrap();
        Ok(())
    }

    /// What the newest choice leaves to try; None where no choice is open.
    pub fn top(&self) -> Option<&C>
        ensures none { IfNone result (self.now ≡ []) }
        ensures some { IfSome result (λ c. (older : List C) × (self.now ≡ c.now ∷ older)) }
    {
        self.contents.last()
    }

    /// Undoes the world to the newest choice, which stays open for what is then left to try, and gives what it left before.
    pub fn retry<W: Undo>(&mut self, world: &mut W, content: C) -> C
        requires marked { AreMarked (W.saved world.old) self.old }
        requires some { 0 < length self.old }
        ensures contents { (older : List C) × (self.old ≡ result ∷ older) × (self.new ≡ content ∷ older) }
        ensures open { (older : List (W.Value × C)) × (open_choices (W.saved world.old) self.old ≡ (W.now world.new, result) ∷ older)
            × (open_choices (W.saved world.new) self.new ≡ (W.now world.new, content) ∷ older) }
        ensures room { W.room world.old ≤ W.room world.new }
        ensures marked { AreMarked (W.saved world.new) self.new }
    {
        let number = self.contents.len() - 1;
        world.undo(Mark { number });
        world.mark().unwrap();
        mem::replace(&mut self.contents[number], content)
    }

    /// Undoes the world to the newest choice, which stays as it is.
    pub fn resume<W: Undo>(&self, world: &mut W)
        requires marked { AreMarked (W.saved world.old) self.now }
        requires some { 0 < length self.now }
        ensures open { (content : C) × (older : List C) × (others : List (W.Value × C)) × (self.now ≡ content ∷ older)
            × (open_choices (W.saved world.old) self.now ≡ (W.now world.new, content) ∷ others) }
        ensures saved { W.saved world.new ≡ W.saved world.old }
        ensures room { W.room world.old ≤ W.room world.new }
        ensures marked { AreMarked (W.saved world.new) self.now }
    {
        world.undo(Mark {
            number: self.contents.len() - 1,
        });
        world.mark().unwrap();
    }

    /// Takes the newest choice off, and undoes the world to it; None where no choice is open.
    pub fn back<W: Undo>(&mut self, world: &mut W) -> Option<C>
        requires marked { AreMarked (W.saved world.old) self.old }
        ensures none { IfNone result ((self.old ≡ []) × (self.new ≡ [])) }
        ensures none_now { IfNone result (W.now world.new ≡ W.now world.old) }
        ensures none_saved { IfNone result (W.saved world.new ≡ W.saved world.old) }
        ensures contents { IfSome result (λ content. self.old ≡ content ∷ self.new) }
        ensures open { IfSome result (λ content. open_choices (W.saved world.old) self.old
            ≡ (W.now world.new, content) ∷ open_choices (W.saved world.new) self.new) }
        ensures room { W.room world.old ≤ W.room world.new }
        ensures marked { AreMarked (W.saved world.new) self.new }
    {
        let content = self.contents.pop()?;
        world.undo(Mark {
            number: self.contents.len(),
        });
        Some(content)
    }

    /// Keeps the choices below a height and the world's value. The marks of the others end: it takes constant time for each
    /// choice that is taken away.
    pub fn cut<W: Undo>(&mut self, world: &mut W, height: usize)
        requires marked { AreMarked (W.saved world.old) self.old }
        ensures contents { self.new ≡ last height self.old }
        ensures open { open_choices (W.saved world.new) self.new ≡ last height (open_choices (W.saved world.old) self.old) }
        ensures now { W.now world.new ≡ W.now world.old }
        ensures room { W.room world.old ≤ W.room world.new }
        ensures marked { AreMarked (W.saved world.new) self.new }
    {
        if height < self.contents.len() {
            world.forget(Mark { number: height });
            self.contents.truncate(height);
        }
    }

    /// Leaves the newest choice this to try, in place of what it left.
    #[inline(always)]
    pub fn renew(&mut self, content: C)
        requires { 0 < length self.old }
        ensures { (before : C) × (older : List C) × (self.old ≡ before ∷ older) × (self.new ≡ content ∷ older) }
    {
        let number = self.contents.len() - 1;
        self.contents[number] = content;
    }

    /// Puts other contents in place of what the choice with so many older ones leaves to try, and gives those.
    pub fn replace_at(&mut self, height: usize, content: C) -> C
        requires { height < length self.old }
        ensures { (newer : List C) × (self.old ≡ newer ++ result ∷ last height self.old) × (self.new ≡ newer ++ content ∷ last height self.old) }
    {
        mem::replace(&mut self.contents[height], content)
    }
}
