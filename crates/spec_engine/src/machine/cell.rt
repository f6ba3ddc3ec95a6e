// What an engine has still to do for a branch.

use cq_term::TermId;

/// A goal or a mark. Heights are numbers of choices.
#[derive(Clone, Copy, Drop)]
pub enum Cell {
    /// A goal, and the height that a cut in it goes back to.
    Goal(TermId, usize),
    /// `call` of a term, which a cut in it can't see.
    Call(TermId),
    /// Cuts to the height, and goes on.
    CutTo(usize),
    /// Cuts to the height, and comes back.
    CutFail(usize),
    /// The end of a catch: the height of its choice, which keeps the world of its call, and its two other arguments.
    CatchEnd(usize, TermId, TermId),
    /// The end of a findall's goal: the height of its choice, which gathers, and the template.
    Collect(usize, TermId),
}
