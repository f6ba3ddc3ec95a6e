// One part of a pattern, with the marks that a walk reads off it.

ghost use Rattle.std.specs.Prelude.{◌≡◌, ◌<◌, ◌^◌, ℕ, IfSome, IfNone, IfOk};
ghost use Rattle.cq_term.specs.declared.view.View.TheVariants.{Compound, Number};
ghost use Rattle.cq_resolve.specs.Pattern.{IsBelow};
ghost use Rattle.cq_resolve.specs.Marks.{shown, size_of, top_of, IsLeaf};

use cq_frac::{Frac, VarId};
use cq_term::{Atom, View};
use std::alloc::{AllocError, Global};

/// A part of a term: a variable, a number, a name, or the head of a compound, whose arguments stand behind it. It takes 24
/// bytes.
#[derive(Drop)]
pub enum Part {
    /// A variable that stands here first.
    New(usize),
    /// A variable that stands further left, too.
    Again(usize),
    /// A whole number that fits a word.
    Whole(i64),
    /// Any other number.
    Wide(Box<Frac>),
    Name(Atom),
    /// How many arguments it has, how many parts with this one, and one more than the greatest number of a variable among
    /// them, or 0 where there is none.
    Compound {
        arity: u32,
        size: u32,
        top: u32,
        name: Atom,
    },
}

impl Part {
    /// A number as a part.
    pub(crate) fn number(alloc: Global, number: Frac) -> Result<Part, AllocError>
        ensures { IfOk result (λ p. shown p ≡ Number number) }
    {
        match number.to_i64() {
            Some(whole) => Ok(Part::Whole(whole)),
            None => {
                let wide = Box::new(alloc, number)?;
                Ok(Part::Wide(wide))
            }
        }
    }

    /// What the part shows.
    pub fn view(&self) -> View
        ensures { result ≡ shown self.now }
    {
        match self {
            Part::New(variable) | Part::Again(variable) => View::Var(VarId(*variable)),
            Part::Whole(number) => View::Number(Frac::from(*number)),
            Part::Wide(number) => View::Number(**number),
            Part::Name(name) => View::Name(*name),
            Part::Compound { arity, name, .. } => View::Compound(*name, *arity as usize),
        }
    }

    /// How many arguments a compound has, and its name.
    pub(crate) fn as_compound(&self) -> Option<(u32, Atom)>
        ensures some { IfSome result (λ r. shown self.now ≡ Compound r.1 r.0) }
        ensures none { IfNone result (IsLeaf self.now) }
    {
        match self {
            Part::New(_) | Part::Again(_) | Part::Whole(_) | Part::Wide(_) | Part::Name(_) => None,
            Part::Compound { arity, name, .. } => Some((*arity, *name)),
        }
    }

    /// How many parts the term has that begins with this one.
    #[inline(always)]
    pub fn size(&self) -> usize
        ensures { result ≡ size_of self.now }
    {
        match self {
            Part::New(_) | Part::Again(_) | Part::Whole(_) | Part::Wide(_) | Part::Name(_) => 1,
            Part::Compound { size, .. } => *size as usize,
        }
    }

    /// One more than the greatest number of a variable in that term, or 0 where there is none.
    pub(crate) fn top(&self) -> usize
        requires { (count : ℕ) × (count < 2 ^ 64) × IsBelow count (shown self.now) }
        ensures { result ≡ top_of self.now }
    {
        match self {
            Part::New(variable) | Part::Again(variable) => *variable + 1,
            Part::Whole(_) | Part::Wide(_) | Part::Name(_) => 0,
            Part::Compound { top, .. } => *top as usize,
        }
    }
}
