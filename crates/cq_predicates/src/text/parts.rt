// The parts of a text that arguments ask for, one at a time: by their place, then by their length.

ghost use Rattle.std.specs.Prelude.{◌≡◌, ◌+◌, ◌≤◌, ◌∷◌, [], length, IfSome, IfNone};
ghost use Rattle.cq_predicates.specs.Places.{place, parts_left};

use crate::text::sought::{Place, Sought};

/// The characters of a text, and what is asked of its parts.
#[derive(Drop)]
pub(crate) struct Parts {
    pub(crate) characters: Vec<char>,
    pub(crate) sought: Sought,
}

impl Parts {
    /// The place of the first part as asked that stands at this place or behind it.
    pub(crate) fn first_from(&self, from: Place) -> Option<Place>
        ensures within { IfSome result (λ p. p.before + p.len ≤ length self.now.characters.items) }
        ensures some { IfSome result (λ p. parts_left self.now from ≡ p ∷ parts_left self.now (place p.before (p.len + 1))) }
        ensures none { IfNone result (parts_left self.now from ≡ []) }
    {
        let mut before = from.before;
        let mut low = from.len;
        while before <= self.characters.len() {
            if let Some(len) = self.sought.first_length(&self.characters, before, low) {
                return Some(Place { before, len });
            }
            before += 1;
            low = 0;
        }
        None
    }
}
