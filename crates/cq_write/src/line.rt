//! The text of the pieces so far, with blanks where their neighbours ask for one.

ghost use Rattle.std.specs.Prelude.{◌≡◌, ◌||◌, OnOk, IsAscii, chars};
ghost use Rattle.spec_syntax.specs.Characters.{first_char as first_char_of};
ghost use Rattle.spec_text.specs.Texts.{last_of};
ghost use Rattle.cq_write.specs.Spelled.{Spelled, written, blank_line, run_together as run_together_of, would_bind as would_bind_of, is_apart as is_apart_of, put};
ghost use Rattle.cq_write.specs.Work.{plain, mark_text};

use crate::characters::{continues_name, ends_name, is_symbol};
use crate::jobs::Mark;
use cq_read::lex::first_char;
use std::alloc::{AllocError, Global};

/// What round a piece decides about blanks, apart from its text.
#[derive(Clone, Copy)]
pub(crate) struct Manner {
    /// It has a blank on each side.
    pub(crate) has_blanks: bool,
    /// It is a prefix operator, in front of its operand.
    pub(crate) is_prefix: bool,
}

impl Manner {
    pub(crate) const PLAIN: Manner = Manner {
        has_blanks: false,
        is_prefix: false,
    };

    pub(crate) const SPACED: Manner = Manner {
        has_blanks: true,
        is_prefix: false,
    };

    pub(crate) const PREFIX: Manner = Manner {
        has_blanks: false,
        is_prefix: true,
    };
}

/// What the next piece has to know of the last one.
#[derive(Clone, Copy)]
pub(crate) struct Last {
    manner: Manner,
    character: Option<char>,
    /// Its text is `-`.
    is_minus: bool,
}

/// The text so far. A piece that leaves nothing, as the name of no characters does where names are written as they are,
/// is passed over.
#[derive(Drop)]
pub(crate) struct Line {
    text: Vec<u8>,
    last: Option<Last>,
}

/// Whether texts run together, of which the first ends with one character and the other begins with the other.
fn run_together(last: Option<char>, first: Option<char>) -> bool
    ensures { result ≡ run_together_of last first }
{
    let (Some(last), Some(first)) = (last, first) else {
        return false;
    };
    (is_symbol(last) && is_symbol(first)) || (ends_name(last) && continues_name(first))
}

/// Whether this text makes the prefix operator before it a functor or a sign.
fn would_bind(is_minus: bool, text: &str) -> bool
    ensures { result ≡ would_bind_of is_minus text.now }
{
    match text.as_bytes().first() {
        None => false,
        Some(&first) => first == b'(' || (is_minus && first.is_ascii_digit()),
    }
}

/// Whether a blank stands between neighbours of which neither has its own.
fn is_apart(last: Last, text: &str, manner: Manner) -> bool
    ensures { result ≡ is_apart_of last (record { text = text.now; manner = manner }) }
{
    !(last.manner.has_blanks || manner.has_blanks)
        && (run_together(last.character, first_char(text.as_bytes()))
            || (last.manner.is_prefix && would_bind(last.is_minus, text)))
}

/// The last of these bytes, as a character.
fn last_byte(bytes: &[u8]) -> Option<char>
    ensures { result ≡ last_of bytes.now }
{
    match bytes.split_last() {
        None => None,
        Some((&last, _)) => Some(char::from(last)),
    }
}

/// The last character. Most texts are ASCII, where it is the last byte.
fn last_char(text: &str) -> Option<char>
    ensures { result ≡ last_of (chars text.now) }
{
    if text.is_ascii() {
        return last_byte(text.as_bytes());
    }
    let mut last = None;
    for c in text.chars() {
        last = Some(c);
    }
    last
}

impl Line {
    pub(crate) fn new(alloc: Global) -> Line
        ensures { written result ≡ blank_line }
    {
        Line {
            text: Vec::new(alloc),
            last: None,
        }
    }

    pub(crate) fn into_text(self) -> Vec<u8>
        ensures { result ≡ self.text }
    {
        let Line { text, last: _ } = self;
        text
    }

    /// A piece with this text of ASCII.
    pub(crate) fn push_ascii(&mut self, piece: &str, manner: Manner) -> Result<(), AllocError>
        requires { IsAscii piece.now }
        ensures { OnOk result (written self.new ≡ put (written self.old) (record { text = piece.now; manner = manner })) }
    {
        self.place(piece, manner, last_byte(piece.as_bytes()))
    }

    /// A mark.
    pub(crate) fn push_mark(&mut self, mark: Mark) -> Result<(), AllocError>
        ensures { OnOk result (written self.new ≡ put (written self.old) (plain (mark_text mark))) }
    {
        self.push_ascii(mark.text(), Manner::PLAIN)
    }

    /// A piece with this text.
    pub(crate) fn push(&mut self, piece: &str, manner: Manner) -> Result<(), AllocError>
        ensures { OnOk result (written self.new ≡ put (written self.old) (record { text = piece.now; manner = manner })) }
    {
        self.place(piece, manner, last_char(piece))
    }

    /// A piece with this text and this last character.
    fn place(
        &mut self,
        piece: &str,
        manner: Manner,
        character: Option<char>,
    ) -> Result<(), AllocError>
        requires { character ≡ last_of (chars piece.now) }
        ensures { OnOk result (written self.new ≡ put (written self.old) (record { text = piece.now; manner = manner })) }
    {
        if piece.is_empty() && !manner.has_blanks {
            return Ok(());
        }
        if let Some(last) = self.last
            && is_apart(last, piece, manner)
        {
            self.text.push(b' ')?;
        }
        if manner.has_blanks {
            self.text.push(b' ')?;
        }
        self.text.extend_from_slice(piece.as_bytes())?;
        if manner.has_blanks {
            self.text.push(b' ')?;
        }
        self.last = Some(Last {
            manner,
            character,
            is_minus: piece == "-",
        });
        Ok(())
    }
}
