//! The writer: what is written, and the texts of its pieces.

ghost use Rattle.std.specs.Prelude.{◌≡◌, ◌<◌, OnOk, IfSome, false, length};
ghost use Rattle.cq_term.specs.Texts.{text_of};
ghost use Rattle.spec_syntax.specs.Writing.{is_spaced as is_spaced_of};
ghost use Rattle.spec_text.specs.Numbers.{number_text};
ghost use Rattle.cq_write.specs.Spelled.{Spelled, written, put};
ghost use Rattle.cq_write.specs.Work.{IsReadyWord, plain, spelled_name, infix_word, spelled_word};
ghost use Rattle.cq_write.specs.Looks.{IsPlainText};
ghost use Rattle.cq_write.specs.Settings.{setting, IsIndexed};

use crate::jobs::{Mark, Word};
use crate::line::{Line, Manner};
use crate::looks::{Looks, looks_of};
use crate::names::{needs_quotes, push_name};
use crate::numbers::push_number;
use crate::variables::Names;
use cq_frac::{Frac, VarId};
use cq_ops::Ops;
use cq_read::lex::first_char;
use cq_term::Heap;
use cq_term::atoms::{Atom, Atoms};
use spec_text::writing::Style;
use std::alloc::AllocError;

/// What is written, in which style, and with which names of variables.
#[derive(Drop)]
pub(crate) struct Writer<'a> {
    pub(crate) heap: &'a Heap,
    pub(crate) atoms: &'a Atoms,
    pub(crate) ops: &'a Ops,
    pub(crate) style: Style,
    pub(crate) names: Names<'a>,
}

/// Whether an infix name has a blank on each side.
#[tactic(auto, unfolding(spec_syntax::specs::Writing::is_spaced))]
fn is_spaced(name: &str) -> bool
    ensures { result ≡ is_spaced_of name.now }
{
    match first_char(name.as_bytes()) {
        Some(first) => crate::characters::continues_name(first) || needs_quotes(name),
        None => needs_quotes(name),
    }
}

/// Puts a number that is not below zero into a line; `text` is lent to hold it.
fn write_number(number: Frac, text: &mut String, line: &mut Line) -> Result<(), AllocError>
    ensures { OnOk result (written line.new ≡ put (written line.old) (plain (number_text number))) }
{
    text.clear();
    push_number(text, number)?;
    line.push(text.as_str(), Manner::PLAIN)
}

impl Writer<'_> {
    /// The text of a name, where its looks say that it stands as it is.
    pub(crate) fn plain_text(&self, name: Atom) -> Option<&str>
        requires { name < length self.now.atoms.now }
        ensures { IfSome result (λ text. IsPlainText (setting self.now) name text.now) }
    {
        let text = self.text(name);
        match looks_of(text) {
            Looks::Other => None,
            Looks::Letters | Looks::Symbols => Some(text),
        }
    }

    /// Puts a name into a line; `text` is lent to hold it.
    fn write_name(
        &self,
        name: Atom,
        manner: Manner,
        text: &mut String,
        line: &mut Line,
    ) -> Result<(), AllocError>
        requires { name < length self.now.atoms.now }
        ensures { OnOk result (written line.new ≡ put (written line.old) (spelled_name self.now.style (text_of self.now.atoms.now name) manner)) }
    {
        if let Some(plain) = self.plain_text(name) {
            return line.push_ascii(plain, manner);
        }
        text.clear();
        push_name(self.style, self.text(name), text)?;
        line.push(text.as_str(), manner)
    }

    /// Puts an infix operator that is no comma into a line.
    fn write_operator(
        &self,
        name: Atom,
        text: &mut String,
        line: &mut Line,
    ) -> Result<(), AllocError>
        requires { name < length self.now.atoms.now }
        ensures { OnOk result (written line.new ≡ put (written line.old) (infix_word self.now.style false (text_of self.now.atoms.now name))) }
    {
        let operator = self.text(name);
        match looks_of(operator) {
            Looks::Letters => line.push_ascii(operator, Manner::SPACED),
            Looks::Symbols => line.push_ascii(operator, Manner::PLAIN),
            Looks::Other => {
                let manner = Manner {
                    has_blanks: is_spaced(operator),
                    is_prefix: false,
                };
                self.write_name(name, manner, text, line)
            }
        }
    }

    /// Puts an infix operator into a line: the comma is never in quotes.
    fn write_infix(&self, name: Atom, text: &mut String, line: &mut Line) -> Result<(), AllocError>
        requires { name < length self.now.atoms.now }
        ensures { OnOk result (written line.new ≡ put (written line.old) (spelled_word (setting self.now) (Word.Infix name))) }
    {
        if self.text(name) == "," {
            line.push_mark(Mark::Comma)
        } else {
            self.write_operator(name, text, line)
        }
    }

    fn write_variable(
        &self,
        variable: VarId,
        text: &mut String,
        line: &mut Line,
    ) -> Result<(), AllocError>
        requires { IsIndexed self.now.names }
        ensures { OnOk result (written line.new ≡ put (written line.old) (spelled_word (setting self.now) (Word.Variable variable))) }
    {
        text.clear();
        self.names.push_shown(variable, text)?;
        line.push(text.as_str(), Manner::PLAIN)
    }

    /// Puts a word into a line; `text` is lent to hold it.
    pub(crate) fn write(
        &self,
        word: Word,
        text: &mut String,
        line: &mut Line,
    ) -> Result<(), AllocError>
        requires ready { IsReadyWord (setting self.now) word }
        requires names { IsIndexed self.now.names }
        ensures { OnOk result (written line.new ≡ put (written line.old) (spelled_word (setting self.now) word)) }
    {
        match word {
            Word::Mark(mark) => line.push_mark(mark),
            Word::Name(name) => self.write_name(name, Manner::PLAIN, text, line),
            Word::Prefix(name) => self.write_name(name, Manner::PREFIX, text, line),
            Word::Infix(name) => self.write_infix(name, text, line),
            Word::Variable(variable) => self.write_variable(variable, text, line),
            Word::Numeral(number) => write_number(number, text, line),
        }
    }
}
