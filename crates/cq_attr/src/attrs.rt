// Numeric variables, and what waits for variables, that go back to what they were at a mark.

ghost use Rattle.std.specs.Prelude.{◌≡◌, ◌⊎◌, ◌<◌, ◌≤◌, ◌++◌, [], ◌∷◌, ℕ, List, length, All, Contains, Some, slice_get, IsTrue, IsOk, IfOk, OnOk, OnErr};
ghost use Rattle.cq_term.specs.Places.{numbers_of};
ghost use Rattle.cq_attr.specs.Attributes.{nothing, is_numeric, marked, numbers, Ascends, suspended, watched_more, without, find, IsWokenBy};
ghost use Rattle.cq_attr.specs.Layout.{HaveSlots, IsAwake};

use crate::notes::Notes;
use crate::susp::{Slot, Susp, SuspNo};
use cq_frac::VarId;
use cq_trail::counted::Counted;
use cq_trail::{Both, Mark, Trail, Undo};
use std::alloc::{AllocError, Global};
use std::marker::Model;

/// The numeric variables; the numbers that are to be looked at once a variable is bound, where those that no longer wait
/// stand too; and what was suspended, by number.
type Parts = Both<Notes<()>, Both<Notes<usize>, Trail<Slot>>>;

/// Which variables are numeric, and what waits for which variables, by ascending number. `mark` takes constant time and no
/// memory, `undo` the time of the changes since. The first change behind marks takes the time of these marks, and memory
/// may run out there.
#[derive(Drop)]
pub struct Attrs {
    parts: Counted<Parts>,
    alloc: Global,
}

impl Model for Attrs {
    ghost use Rattle.cq_attr.specs.Attributes.{AttrsValue};

    ghost Value = { AttrsValue };

    ghost use Rattle.cq_attr.specs.Layout.{parts_of, parts_saved, attrs_value, AreParts};

    ghost view = { λ a. attrs_value a.parts.inner.first a.parts.inner.second.first a.parts.inner.second.second a.parts.marks };

    ghost invariant = { λ a.
        AreParts (parts_of a.parts.inner.first a.parts.inner.second.first a.parts.inner.second.second)
        (parts_saved a.parts.inner.first a.parts.inner.second.first a.parts.inner.second.second a.parts.marks) };
}

impl Attrs {
    /// Nothing is numeric, and nothing waits. It takes no memory.
    pub fn new(alloc: Global) -> Attrs
        ensures now { result.now ≡ nothing }
        ensures saved { result.saved ≡ [] }
    {
        let waiting = Both {
            first: Notes::new(alloc),
            second: Trail::new(alloc),
        };
        let parts = Both {
            first: Notes::new(alloc),
            second: waiting,
        };
        Attrs {
            parts: Counted {
                inner: parts,
                marks: 0,
                own: 0,
            },
            alloc,
        }
    }

    /// Makes a variable numeric. Fails for want of memory, with everything as it was; a variable that is numeric already needs
    /// none.
    pub fn set_numeric(&mut self, variable: VarId) -> Result<(), AllocError>
        ensures ok { OnOk result (self.new.now ≡ marked self.old.now variable.0) }
        ensures again { IsTrue (is_numeric self.old.now variable.0) → IsOk result }
        ensures err { OnErr result (self.new.now ≡ self.old.now) }
        ensures saved { self.new.saved ≡ self.old.saved }
        ensures room { self.old.room ≤ self.new.room }
    {
        if self.parts.inner.first.contains(variable) {
            return Ok(());
        }
        self.parts.put_marks()?;
        self.parts.inner.first.extend(&[variable], ())?;
        Ok(())
    }

    /// Whether a variable is numeric.
    #[inline(always)]
    pub fn is_numeric(&self, variable: VarId) -> bool
        ensures { result ≡ is_numeric self.now.now variable.0 }
    {
        self.parts.inner.first.contains(variable)
    }

    /// Lets a goal or a constraint wait for the variables, behind all that waits. Fails for want of memory, with
    /// everything as it was.
    pub fn suspend(&mut self, variables: &[VarId], susp: Susp) -> Result<SuspNo, AllocError>
        ensures number { IfOk result (λ n. n ≡ self.old.now.next) }
        ensures ok { OnOk result (self.new.now ≡ suspended self.old.now (numbers_of variables.now) susp) }
        ensures err { OnErr result (self.new.now ≡ self.old.now) }
        ensures saved { self.new.saved ≡ self.old.saved }
        ensures room { self.old.room ≤ self.new.room }
    {
        self.parts.put_marks()?;
        let waiting = &mut self.parts.inner.second;
        let number = waiting.second.len();
        waiting.second.reserve_places(1)?;
        waiting.first.extend(variables, number)?;
        waiting.second.push(Slot { susp, waits: true }).unwrap();
        Ok(SuspNo::new(number))
    }

    /// Lets what waits under the number wait for further variables too. Fails for want of memory, with everything as it
    /// was.
    pub fn watch(&mut self, number: SuspNo, variables: &[VarId]) -> Result<(), AllocError>
        requires { Contains (numbers self.old.now.waiting) number }
        ensures ok { OnOk result (self.new.now ≡ watched_more self.old.now number (numbers_of variables.now)) }
        ensures err { OnErr result (self.new.now ≡ self.old.now) }
        ensures saved { self.new.saved ≡ self.old.saved }
        ensures room { self.old.room ≤ self.new.room }
    {
        self.parts.put_marks()?;
        let watchers = &mut self.parts.inner.second.first;
        watchers.extend(variables, number.index())?;
        Ok(())
    }

    /// The numbers that wait for one of the variables, ascending and each once. Only what waited for these variables is
    /// looked at. Fails for want of memory, and only where there is such a number.
    #[inline(always)]
    pub fn woken(&self, newly: &[VarId]) -> Result<Vec<SuspNo>, AllocError>
        ensures woken { IfOk result (λ ns. (n : ℕ) → Contains ns.items n → IsWokenBy self.now.now (numbers_of newly.now) n) }
        ensures all { IfOk result (λ ns. (n : ℕ) → IsWokenBy self.now.now (numbers_of newly.now) n → Contains ns.items n) }
        ensures ascending { IfOk result (λ ns. Ascends ns.items) }
        ensures err { OnErr result ((n : ℕ) × IsWokenBy self.now.now (numbers_of newly.now) n) }
    {
        let mut found = Vec::new(self.alloc);
        if self.parts.inner.second.second.is_empty() {
            return Ok(found);
        }
        for variable in newly {
            let waiting = &self.parts.inner.second;
            find_awake(&waiting.first, &waiting.second, *variable, &mut found)?;
        }
        if found.len() < 2 {
            return Ok(found);
        }
        found.sort_unstable();
        found.dedup();
        Ok(found)
    }

    /// What waits under the number waits no more. Fails for want of memory, with everything as it was.
    pub fn take(&mut self, number: SuspNo) -> Result<(), AllocError>
        requires { Contains (numbers self.old.now.waiting) number }
        ensures ok { OnOk result (self.new.now ≡ without self.old.now number) }
        ensures err { OnErr result (self.new.now ≡ self.old.now) }
        ensures saved { self.new.saved ≡ self.old.saved }
        ensures room { self.old.room ≤ self.new.room }
    {
        self.parts.put_marks()?;
        let slots = &mut self.parts.inner.second.second;
        let susp = slots.get(number.index()).susp;
        slots.set(number.index(), Slot { susp, waits: false })?;
        Ok(())
    }

    /// What waits under the number.
    pub fn susp(&self, number: SuspNo) -> &Susp
        requires { Contains (numbers self.now.now.waiting) number }
        ensures { find self.now.now.waiting number ≡ Some result.now }
    {
        let slots = &self.parts.inner.second.second;
        &slots.get(number.index()).susp
    }

    /// The numbers that wait, ascending. Fails for want of memory, and only where one waits.
    pub fn waiting(&self) -> Result<Vec<SuspNo>, AllocError>
        ensures ok { IfOk result (λ ns. ns.items ≡ numbers self.now.now.waiting) }
        ensures err { OnErr result (0 < length self.now.now.waiting) }
    {
        let mut numbers = Vec::new(self.alloc);
        let slots = &self.parts.inner.second.second;
        for (number, slot) in slots.as_slice().iter().enumerate() {
            if slot.waits {
                numbers.push(SuspNo::new(number))?;
            }
        }
        Ok(numbers)
    }

    /// The numbers that wait ascend, and each is below the next one to be given. This does nothing but prove it.
    pub fn numbers_ascend(&self)
        ensures ascending { Ascends (numbers self.now.now.waiting) }
        ensures below { All (λ n. n < self.now.now.next) (numbers self.now.now.waiting) }
    {
        let _ = &self.parts;
    }
}

/// Finds the numbers that wait for the variable; one may be found more than once.
fn find_awake(
    watchers: &Notes<usize>,
    slots: &Trail<Slot>,
    variable: VarId,
    found: &mut Vec<SuspNo>,
) -> Result<(), AllocError>
    requires { HaveSlots watchers.now.now slots.now.now }
    ensures kept { (n : ℕ) → Contains found.old.items n → Contains found.new.items n }
    ensures awake { (n : ℕ) → Contains found.new.items n → Contains found.old.items n ⊎ IsAwake watchers.now.now slots.now.now variable.0 n }
    ensures all { OnOk result ((n : ℕ) → IsAwake watchers.now.now slots.now.now variable.0 n → Contains found.new.items n) }
    ensures err { OnErr result ((n : ℕ) × IsAwake watchers.now.now slots.now.now variable.0 n) }
{
    let mut place = watchers.newest(variable);
    while place > 0 {
        let (number, earlier) = watchers.note(place - 1);
        if slots.get(number).waits {
            found.push(SuspNo::new(number))?;
        }
        place = earlier;
    }
    Ok(())
}

impl Undo for Attrs {
    ghost use Rattle.cq_attr.specs.Attributes.{Attributes};

    ghost Value = { Attributes };

    ghost now = { λ a. a.now };

    ghost saved = { λ a. a.saved };

    ghost room = { λ a. a.room };

    fn mark(&mut self) -> Result<Mark, AllocError> {
        let m = self.parts.mark()?;
        Ok(m)
    }

    fn undo(&mut self, m: Mark) {
        self.parts.undo(m);
    }

    fn forget(&mut self, m: Mark) {
        self.parts.forget(m);
    }

    fn reserve(&mut self, n: usize) -> Result<(), AllocError> {
        self.parts.reserve(n)?;
        Ok(())
    }

    fn spare(&self) -> usize {
        self.parts.spare()
    }
}
