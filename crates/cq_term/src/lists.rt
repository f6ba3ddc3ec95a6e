// The lists that a heap is made of: cells of one small size, and beside them what has no room there.

ghost use Rattle.std.specs.Prelude.{◌≡◌, ◌≤◌, ◌<◌, ◌+◌, ◌++◌, length, take, drop, reverse, vec_len, vec_capacity, IfSome, IfOk, OnOk, OnErr};
ghost use Rattle.cq_term.specs.Layout.{AreLearnt, AreNoted, Closes, IsWhole, Leads, Learns, contents, forgotten, open_cell, restored, with_vars};

use crate::atoms::Atom;
use crate::names::TermId;
use cq_frac::Frac;
use std::alloc::AllocError;

/// What was built, in two words: a variable, a number, a name, or a name over terms that were built before.
///
/// The name of a compound is its number in 32 bits. Names are numbered in the order in which they are first met, and each
/// keeps its text and a place in a table, some fifty bytes or more; before 2^32 of them there is no memory for the next one.
#[derive(Clone, Copy)]
pub(crate) enum Cell {
    Var(usize),
    /// A whole number that fits a word.
    Whole(i64),
    /// Another number, by its place among those.
    Wide(usize),
    Name(Atom),
    /// Its arguments are so many from `start` on among the arguments of all compounds. The flag, the count and the name
    /// stand first, where they share a word with the kind of cell.
    Compound {
        ground: bool,
        count: u16,
        name: u32,
        start: usize,
    },
    /// A compound of more arguments than are counted in 16 bits: how many stands at `start`, and they stand behind it.
    Long {
        ground: bool,
        name: u32,
        start: usize,
    },
}

const _: () = prove!(size_of::<Cell>() == 16);

/// What was built and bound. The lists only grow, and are cut off at `undo`; of what stands in them only a variable's
/// place in `vars` changes, where it is bound and unbound, and a compound's flag, where it is learnt and forgotten.
#[derive(Drop)]
pub(crate) struct Lists {
    pub cells: Vec<Cell>,
    /// The numbers that do not fit a word.
    pub wide: Vec<Frac>,
    /// The arguments of all compounds, side by side, and in front of those of a long one how many they are.
    pub args: Vec<TermId>,
    /// Of each variable its own cell while it is unbound, and then the term that it was bound to.
    pub vars: Vec<TermId>,
    /// The cells of the variables that were bound, the oldest binding first.
    pub order: Vec<TermId>,
    /// The compounds whose flag was set after they were built, and that a mark may have without it, in order.
    pub learnt: Vec<TermId>,
}

impl Lists {
    /// Where the bindings lead from a term.
    pub fn resolve(&self, id: TermId) -> TermId
        requires live { id < length self.now.cells.items }
        requires whole { IsWhole (contents self.now) }
        ensures { Leads (contents self.now) id result }
    {
        let mut end = id;
        while let Cell::Var(variable) = self.cells[end.index()] {
            let next = self.vars[variable];
            if next == end {
                break;
            }
            end = next;
        }
        end
    }

    /// Sets the flag of a compound that has no variable, with a note of it where that is to be taken back. Without memory
    /// for the note nothing changes.
    pub fn learn(&mut self, id: TermId, is_noted: bool)
        requires { id < length self.old.cells.items }
        ensures { Learns (contents self.old) (contents self.new) id is_noted }
    {
        if let Some(closed) = closed(self.cells[id.index()]) {
            if is_noted {
                if let Err(_) = self.learnt.push(id) {
                    return;
                }
            }
            self.cells[id.index()] = closed;
        }
    }

    /// So many arguments from a place on.
    #[inline(always)]
    pub fn part(&self, start: usize, count: usize) -> &[TermId]
        requires { start + count ≤ length self.now.args.items }
        ensures { result.now ≡ take count (drop start self.now.args.items) }
    {
        &self.args[start..start + count]
    }

    /// Makes so many variables, and says which number the first has. Fails for want of memory, with every list as it was.
    #[inline(never)]
    pub fn add_vars(&mut self, count: usize) -> Result<usize, AllocError>
        ensures first { IfOk result (λ first. first ≡ length self.old.vars.items) }
        ensures ok { OnOk result (contents self.new ≡ with_vars count (contents self.old)) }
        ensures err { OnErr result (contents self.new ≡ contents self.old) }
    {
        let first = self.vars.len();
        self.cells.reserve(count)?;
        self.vars.reserve(count)?;
        for _made in 0..count {
            let id = self.cells.len();
            let variable = self.vars.len();
            self.cells.push_reserved(Cell::Var(variable));
            self.vars.push_reserved(TermId::new(id));
        }
        Ok(first)
    }
}

/// A compound without the flag, with it.
fn closed(cell: Cell) -> Option<Cell>
    ensures { IfSome result (λ new. Closes cell new) }
{
    match cell {
        Cell::Compound {
            ground,
            count,
            name,
            start,
        } => {
            if ground {
                None
            } else {
                Some(Cell::Compound {
                    ground: true,
                    count,
                    name,
                    start,
                })
            }
        }
        Cell::Long {
            ground,
            name,
            start,
        } => {
            if ground {
                None
            } else {
                Some(Cell::Long {
                    ground: true,
                    name,
                    start,
                })
            }
        }
        _ => None,
    }
}

/// The same cell without the flag.
fn opened(cell: Cell) -> Cell
    ensures { result ≡ open_cell cell }
{
    match cell {
        Cell::Compound {
            count,
            name,
            start,
            ..
        } => Cell::Compound {
            ground: false,
            count,
            name,
            start,
        },
        Cell::Long { name, start, .. } => Cell::Long {
            ground: false,
            name,
            start,
        },
        other => other,
    }
}

/// Puts ids behind a list that has room for them, the last one first.
pub(crate) fn push_reversed(list: &mut Vec<TermId>, ids: &[TermId])
    requires { vec_len list.old + length ids.now ≤ vec_capacity list.old }
    ensures { list.new.items ≡ list.old.items ++ reverse ids.now }
{
    for i in (0..ids.len()).rev() {
        list.push_reserved(ids[i]);
    }
}

/// Takes back the bindings from a place in their order on, the newest first.
pub(crate) fn unbind(cells: &[Cell], vars: &mut Vec<TermId>, order: &mut Vec<TermId>, from: usize)
    requires from { from ≤ length order.old.items }
    requires noted { AreNoted cells.now (length vars.old.items) order.old.items }
    ensures vars { vars.new.items ≡ restored cells.now (drop from order.old.items) vars.old.items }
    ensures order { order.new.items ≡ take from order.old.items }
{
    while order.len() > from {
        if let Some(own) = order.pop() {
            if let Cell::Var(variable) = cells[own.index()] {
                vars[variable] = own;
            }
        }
    }
}

/// Takes back the flags that are noted from a place on, the newest first.
pub(crate) fn unlearn(cells: &mut Vec<Cell>, learnt: &mut Vec<TermId>, from: usize)
    requires from { from ≤ length learnt.old.items }
    requires there { AreLearnt (length cells.old.items) learnt.old.items }
    ensures cells { cells.new.items ≡ forgotten cells.old.items (drop from learnt.old.items) }
    ensures learnt { learnt.new.items ≡ take from learnt.old.items }
{
    while learnt.len() > from {
        if let Some(id) = learnt.pop() {
            cells[id.index()] = opened(cells[id.index()]);
        }
    }
}
