// The splits of a text into two that arguments ask for, one at a time: the shorter first text first.

ghost use Rattle.std.specs.Prelude.{◌≡◌, ◌+◌, ◌≤◌, ◌∷◌, [], length, IfSome, IfNone};
ghost use Rattle.cq_predicates.specs.Places.{splits_left};

use crate::text::sought::admits_text;

/// The characters of a text, and those of the two texts into which it is to be split, where they are given.
#[derive(Drop)]
pub(crate) struct Splits {
    pub(crate) characters: Vec<char>,
    pub(crate) first: Option<Vec<char>>,
    pub(crate) last: Option<Vec<char>>,
}

impl Splits {
    /// How many characters the first text has of the first split as asked where it has so many or more.
    pub(crate) fn first_from(&self, from: usize) -> Option<usize>
        ensures within { IfSome result (λ n. n ≤ length self.now.characters.items) }
        ensures some { IfSome result (λ n. splits_left self.now from ≡ n ∷ splits_left self.now (n + 1)) }
        ensures none { IfNone result (splits_left self.now from ≡ []) }
    {
        let mut count = from;
        while count <= self.characters.len() {
            let (first, last) = self.characters.split_at(count);
            if admits_text(&self.first, first) && admits_text(&self.last, last) {
                return Some(count);
            }
            count += 1;
        }
        None
    }
}
