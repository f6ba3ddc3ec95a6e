// What arguments ask of a part of a text.

ghost use Rattle.std.specs.Prelude.{◌≡◌, ◌+◌, ◌≤◌, ◌∷◌, [], None, length, IfSome, IfNone};
ghost use Rattle.cq_predicates.specs.Places.{admits, admits_text, fits, fitting, place, IsFree, IsOnly, IsOnlyBefore, IsFirst};

use crate::text::characters::are_same;

/// Where a part of a text stands: how many characters before it, and how many in it.
#[derive(Clone, Copy)]
pub(crate) struct Place {
    pub(crate) before: usize,
    pub(crate) len: usize,
}

/// What is asked of a count of characters.
#[derive(Clone, Copy)]
pub(crate) enum Wanted {
    Any,
    Count(usize),
    /// It is to be what no count is.
    Never,
}

/// What is asked of a part of a text: how many characters stand before it, in it and after it, and which it has.
#[derive(Drop)]
pub(crate) struct Sought {
    pub(crate) before: Wanted,
    pub(crate) len: Wanted,
    pub(crate) after: Wanted,
    pub(crate) part: Option<Vec<char>>,
}

/// Whether a count is as asked.
fn admits(wanted: Wanted, count: usize) -> bool
    ensures { result ≡ admits wanted count }
{
    match wanted {
        Wanted::Any => true,
        Wanted::Count(wanted) => wanted == count,
        Wanted::Never => false,
    }
}

/// Whether the characters are those asked for, if some are.
pub(crate) fn admits_text(wanted: &Option<Vec<char>>, characters: &[char]) -> bool
    ensures { result ≡ admits_text wanted.now characters.now }
{
    match wanted {
        None => true,
        Some(wanted) => are_same(wanted, characters),
    }
}

impl Sought {
    /// Whether the part at this place is as asked.
    pub(crate) fn fits(&self, characters: &[char], place: Place) -> bool
        requires { place.before + place.len ≤ length characters.now }
        ensures { result ≡ fits self.now characters.now place }
    {
        let end = place.before + place.len;
        admits(self.before, place.before)
            && admits(self.len, place.len)
            && admits(self.after, characters.len() - place.before - place.len)
            && admits_text(&self.part, &characters[place.before..end])
    }

    /// The only length that a part behind so many characters can have; none where any will do.
    fn only_length(&self, characters: &[char], before: usize) -> Option<usize>
        requires { before ≤ length characters.now }
        ensures only { IfSome result (IsOnly self.now characters.now before) }
        ensures any { IfNone result (IsFree self.now) }
    {
        match self.len {
            Wanted::Count(len) => Some(len),
            Wanted::Never => Some(0),
            Wanted::Any => self.only_length_before(characters.len() - before),
        }
    }

    /// The same, of which at most so many characters are left, where no length is asked for.
    fn only_length_before(&self, most: usize) -> Option<usize>
        ensures only { IfSome result (IsOnlyBefore self.now most) }
        ensures any { IfNone result ((self.now.after ≡ Wanted.Any) × (self.now.part ≡ None)) }
    {
        match self.after {
            Wanted::Count(after) => Some(most.saturating_sub(after)),
            Wanted::Never => Some(0),
            Wanted::Any => match &self.part {
                Some(part) => Some(part.len()),
                None => None,
            },
        }
    }

    /// The length from this one on to be tried first of a part behind so many characters.
    fn first_try(&self, characters: &[char], before: usize, low: usize) -> usize
        requires { before ≤ length characters.now }
        ensures { IsFirst self.now characters.now before low result }
    {
        match self.only_length(characters, before) {
            Some(len) => len,
            None => low,
        }
    }

    /// The first length from this one on of a part as asked, behind so many characters.
    pub(crate) fn first_length(
        &self,
        characters: &[char],
        before: usize,
        low: usize,
    ) -> Option<usize>
        requires { before ≤ length characters.now }
        ensures within { IfSome result (λ len. before + len ≤ length characters.now) }
        ensures some { IfSome result (λ len. fitting self.now characters.now before low ≡ place before len ∷ fitting self.now characters.now before (len + 1)) }
        ensures none { IfNone result (fitting self.now characters.now before low ≡ []) }
    {
        let most = characters.len() - before;
        let len = self.first_try(characters, before, low);
        if low <= len && len <= most && self.fits(characters, Place { before, len }) {
            Some(len)
        } else {
            None
        }
    }
}
