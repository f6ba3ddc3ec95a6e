// Lines and columns of a text.

ghost use Rattle.std.specs.Prelude.{◌≡◌, ◌<◌, ◌≤◌, ◌+◌, ◌^◌, ◌⊎◌, length};
ghost use Rattle.cq_lint.specs.Lines.{first_place, goes_on, place_behind, place_of};

/// The place of a byte: its line, its column in characters, both from 1, and where its line starts.
#[derive(Clone, Copy)]
pub struct Place {
    pub at: usize,
    pub line: usize,
    pub column: usize,
    pub start: usize,
}

impl Place {
    /// The start of a text.
    pub fn first() -> Place
        ensures { result ≡ first_place }
    {
        Place {
            at: 0,
            line: 1,
            column: 1,
            start: 0,
        }
    }

    /// The place behind a byte more.
    fn behind(self, byte: u8) -> Place
        requires room { self.at + 2 < 2 ^ 64 }
        requires line { self.line ≤ self.at + 1 }
        requires column { self.column ≤ self.at + 1 }
        ensures { result ≡ place_behind self byte }
    {
        let at = self.at + 1;
        if byte == b'\n' {
            return Place {
                at,
                line: self.line + 1,
                column: 1,
                start: at,
            };
        }
        if goes_on(byte) {
            return Place { at, ..self };
        }
        Place {
            at,
            column: self.column + 1,
            ..self
        }
    }

    /// The place of a byte of the text. From an earlier place of the text it is found without looking at the text before it anew.
    #[tactic(auto, using(crate::proofs::Columns::place_there, crate::proofs::Columns::place_step))]
    pub fn of(self, text: &[u8], at: usize) -> Place
        requires { self ≡ place_of text.now self.at }
        ensures { result ≡ place_of text.now at }
    {
        let end = at.min(text.len());
        let mut place = self.up_to(end);
        for i in place.at..end {
            place = place.behind(text[i]);
        }
        place
    }

    /// The place itself, or the start of a text if it is behind another.
    fn up_to(self, end: usize) -> Place
        ensures place { (result ≡ self) ⊎ (result ≡ first_place) }
        ensures before { result.at ≤ end }
    {
        if self.at <= end { self } else { Place::first() }
    }
}

/// Whether a byte goes on with a character.
pub(crate) fn goes_on(byte: u8) -> bool
    ensures { result ≡ goes_on byte }
{
    128 <= byte && byte < 192
}
