//! Parts of terms taken apart: each into the pieces and the smaller parts of which it is made.

ghost use Rattle.std.specs.Prelude.{◌≡◌, ◌<◌, OnOk, bytes_eq, codes, false, length, Some};
ghost use Rattle.cq_term.specs.Texts.{text_of};
ghost use Rattle.cq_write.specs.Spelled.{written};
ghost use Rattle.cq_write.specs.Work.{HasShape, IsKnown, Setting, Begins, BeginsOperand, Expands, PutsCell, IsReadyPart, IsOperand, one_word, functional_jobs, at_id};
ghost use Rattle.cq_write.specs.Settings.{setting};

use crate::jobs::{Job, Mark, Part, Word, push_all};
use crate::line::{Line, Manner};
use crate::operands::is_negative;
use crate::shapes::{Shape, Tail};
use crate::writer::Writer;
use cq_frac::Frac;
use cq_term::TermId;
use cq_term::atoms::Atom;
use itoa::Buffer;
use spec_syntax::operators::OpDef;
use std::alloc::AllocError;

/// A term, in parentheses where it does not stand bare.
pub(crate) fn operand_job(bare: bool, term: TermId) -> Job
    ensures { (s : Setting) → IsKnown s term → IsOperand s bare term result }
{
    if bare {
        Job::Part(Part::Term(term))
    } else {
        Job::Part(Part::Enclosed(term))
    }
}

impl Writer<'_> {
    /// A number that is not below zero, written at once where it is an integer.
    fn numeral(&self, number: Frac, jobs: &mut Vec<Job>, line: &mut Line) -> Result<(), AllocError>
        ensures { OnOk result (Begins (setting self.now) (one_word (Word.Numeral number)) (written line.old) (written line.new) jobs.old.items jobs.new.items) }
    {
        let (numerator, denominator) = number.parts();
        if denominator != 1 {
            return push_all(jobs, &[Job::Word(Word::Numeral(number))]);
        }
        let mut buffer = Buffer::new();
        line.push_ascii(buffer.format(numerator), Manner::PLAIN)
    }

    fn number(
        &self,
        term: TermId,
        number: Frac,
        jobs: &mut Vec<Job>,
        line: &mut Line,
    ) -> Result<(), AllocError>
        requires { HasShape (setting self.now) (at_id (setting self.now) term) (Shape.Number number) }
        ensures { OnOk result (Expands (setting self.now) (Part.Term term) (written line.old) (written line.new) jobs.old.items jobs.new.items) }
    {
        if is_negative(number) {
            line.push_mark(Mark::Minus)?;
            self.numeral(number.neg(), jobs, line)
        } else {
            self.numeral(number, jobs, line)
        }
    }

    /// A name, written at once where its looks say that it stands as it is.
    fn name(&self, name: Atom, jobs: &mut Vec<Job>, line: &mut Line) -> Result<(), AllocError>
        requires { name < length self.now.atoms.now }
        ensures { OnOk result (Begins (setting self.now) (one_word (Word.Name name)) (written line.old) (written line.new) jobs.old.items jobs.new.items) }
    {
        match self.plain_text(name) {
            Some(plain) => line.push_ascii(plain, Manner::PLAIN),
            None => push_all(jobs, &[Job::Word(Word::Name(name))]),
        }
    }

    fn atom(
        &self,
        term: TermId,
        name: Atom,
        jobs: &mut Vec<Job>,
        line: &mut Line,
    ) -> Result<(), AllocError>
        requires { HasShape (setting self.now) (at_id (setting self.now) term) (Shape.Name name) }
        ensures { OnOk result (Expands (setting self.now) (Part.Term term) (written line.old) (written line.new) jobs.old.items jobs.new.items) }
    {
        let text = self.text(name);
        if text == "[]" {
            line.push_mark(Mark::OpenList)?;
            line.push_mark(Mark::CloseList)
        } else if text == "{}" {
            line.push_mark(Mark::OpenCurly)?;
            line.push_mark(Mark::CloseCurly)
        } else {
            self.name(name, jobs, line)
        }
    }

    /// A name and all the arguments of a term, in parentheses.
    fn functional(
        &self,
        term: TermId,
        name: Atom,
        jobs: &mut Vec<Job>,
        line: &mut Line,
    ) -> Result<(), AllocError>
        requires { name < length self.now.atoms.now }
        ensures { OnOk result (Begins (setting self.now) (functional_jobs term name) (written line.old) (written line.new) jobs.old.items jobs.new.items) }
    {
        let open = Job::Word(Word::Mark(Mark::Open));
        let arguments = Job::Part(Part::Arguments(term, 0));
        let close = Job::Word(Word::Mark(Mark::Close));
        match self.plain_text(name) {
            Some(plain) => {
                line.push_ascii(plain, Manner::PLAIN)?;
                line.push_mark(Mark::Open)?;
                push_all(jobs, &[arguments, close])
            }
            None => push_all(jobs, &[Job::Word(Word::Name(name)), open, arguments, close]),
        }
    }

    /// An operand, an argument or an element, written at once where it is a number or a name by itself.
    fn operand(
        &self,
        bare: bool,
        term: TermId,
        jobs: &mut Vec<Job>,
        line: &mut Line,
    ) -> Result<(), AllocError>
        requires { IsKnown (setting self.now) term }
        ensures { OnOk result (BeginsOperand (setting self.now) bare term (written line.old) (written line.new) jobs.old.items jobs.new.items) }
    {
        if bare {
            match self.shape(term) {
                Shape::Number(number) => self.number(term, number, jobs, line),
                Shape::Name(name) => self.atom(term, name, jobs, line),
                _ => push_all(jobs, &[Job::Part(Part::Term(term))]),
            }
        } else {
            push_all(jobs, &[Job::Part(Part::Enclosed(term))])
        }
    }

    /// A prefix operator and its operand. A number behind `-` stands in functional notation, since it would take the sign.
    fn prefixed(
        &self,
        term: TermId,
        name: Atom,
        op: OpDef,
        operand: TermId,
        jobs: &mut Vec<Job>,
        line: &mut Line,
    ) -> Result<(), AllocError>
        requires shape { HasShape (setting self.now) (at_id (setting self.now) term) (Shape.Unary name operand) }
        requires known { IsKnown (setting self.now) term }
        requires no_braces { bytes_eq (text_of self.now.atoms.now name) (codes "{}") ≡ false }
        requires operator { (setting self.now).ops.prefix (text_of self.now.atoms.now name) ≡ Some op }
        ensures { OnOk result (Expands (setting self.now) (Part.Term term) (written line.old) (written line.new) jobs.old.items jobs.new.items) }
    {
        if self.is_signed(name, operand) {
            return self.functional(term, name, jobs, line);
        }
        let bare = self.is_bare_right(op, operand);
        push_all(
            jobs,
            &[Job::Word(Word::Prefix(name)), operand_job(bare, operand)],
        )
    }

    /// A name with one argument.
    fn unary(
        &self,
        term: TermId,
        name: Atom,
        argument: TermId,
        jobs: &mut Vec<Job>,
        line: &mut Line,
    ) -> Result<(), AllocError>
        requires shape { HasShape (setting self.now) (at_id (setting self.now) term) (Shape.Unary name argument) }
        requires known { IsKnown (setting self.now) term }
        ensures { OnOk result (Expands (setting self.now) (Part.Term term) (written line.old) (written line.new) jobs.old.items jobs.new.items) }
    {
        if self.text(name) == "{}" {
            let inside = Job::Part(Part::Term(argument));
            line.push_mark(Mark::OpenCurly)?;
            return push_all(jobs, &[inside, Job::Word(Word::Mark(Mark::CloseCurly))]);
        }
        if let Some(op) = self.prefix(name) {
            return self.prefixed(term, name, op, argument, jobs, line);
        }
        match self.postfix(name) {
            Some(op) => {
                let bare = self.is_bare_left(op, argument);
                push_all(
                    jobs,
                    &[operand_job(bare, argument), Job::Word(Word::Name(name))],
                )
            }
            None => self.functional(term, name, jobs, line),
        }
    }

    /// A name with two arguments that is no list's cell.
    fn binary(
        &self,
        term: TermId,
        name: Atom,
        left: TermId,
        right: TermId,
        jobs: &mut Vec<Job>,
        line: &mut Line,
    ) -> Result<(), AllocError>
        requires shape { HasShape (setting self.now) (at_id (setting self.now) term) (Shape.Binary name left right) }
        requires known { IsKnown (setting self.now) term }
        requires no_cell { bytes_eq (text_of self.now.atoms.now name) (codes ".") ≡ false }
        ensures { OnOk result (Expands (setting self.now) (Part.Term term) (written line.old) (written line.new) jobs.old.items jobs.new.items) }
    {
        match self.infix(name) {
            Some(op) => {
                let bare = self.is_bare_left(op, left);
                let right = operand_job(self.is_bare_right(op, right), right);
                push_all(jobs, &[Job::Word(Word::Infix(name)), right])?;
                self.operand(bare, left, jobs, line)
            }
            None => self.functional(term, name, jobs, line),
        }
    }

    /// A list's cell behind this mark: its first element, and its rest.
    fn cell(
        &self,
        opens: Mark,
        element: TermId,
        rest: TermId,
        jobs: &mut Vec<Job>,
        line: &mut Line,
    ) -> Result<(), AllocError>
        requires element { IsKnown (setting self.now) element }
        ensures { OnOk result (PutsCell (setting self.now) opens element rest (written line.old) (written line.new) jobs.old.items jobs.new.items) }
    {
        let bare = self.is_bare_argument(element);
        line.push_mark(opens)?;
        push_all(jobs, &[Job::Part(Part::Rest(rest))])?;
        self.operand(bare, element, jobs, line)
    }

    /// A term by itself.
    fn term(&self, term: TermId, jobs: &mut Vec<Job>, line: &mut Line) -> Result<(), AllocError>
        requires { IsKnown (setting self.now) term }
        ensures { OnOk result (Expands (setting self.now) (Part.Term term) (written line.old) (written line.new) jobs.old.items jobs.new.items) }
    {
        match self.shape(term) {
            Shape::Variable(variable) => push_all(jobs, &[Job::Word(Word::Variable(variable))]),
            Shape::Number(number) => self.number(term, number, jobs, line),
            Shape::Name(name) => self.atom(term, name, jobs, line),
            Shape::Unary(name, argument) => self.unary(term, name, argument, jobs, line),
            Shape::Binary(name, left, right) => {
                if self.text(name) == "." {
                    self.cell(Mark::OpenList, left, right, jobs, line)
                } else {
                    self.binary(term, name, left, right, jobs, line)
                }
            }
            Shape::Many(name) => self.functional(term, name, jobs, line),
        }
    }

    /// The rest of a list.
    fn rest(&self, term: TermId, jobs: &mut Vec<Job>, line: &mut Line) -> Result<(), AllocError>
        requires { IsKnown (setting self.now) term }
        ensures { OnOk result (Expands (setting self.now) (Part.Rest term) (written line.old) (written line.new) jobs.old.items jobs.new.items) }
    {
        match self.tail(term) {
            Tail::End => line.push_mark(Mark::CloseList),
            Tail::Cell(element, rest) => self.cell(Mark::Comma, element, rest, jobs, line),
            Tail::Other => {
                let bare = self.is_bare_argument(term);
                line.push_mark(Mark::Bar)?;
                push_all(jobs, &[Job::Word(Word::Mark(Mark::CloseList))])?;
                self.operand(bare, term, jobs, line)
            }
        }
    }

    /// The arguments of a compound from one on.
    fn arguments(
        &self,
        term: TermId,
        at: usize,
        jobs: &mut Vec<Job>,
        line: &mut Line,
    ) -> Result<(), AllocError>
        requires { IsReadyPart (setting self.now) (Part.Arguments term at) }
        ensures { OnOk result (Expands (setting self.now) (Part.Arguments term at) (written line.old) (written line.new) jobs.old.items jobs.new.items) }
    {
        let arity = self.arity(term);
        let argument = self.argument(term, at);
        let bare = self.is_bare_argument(argument);
        if at + 1 < arity {
            let others = Job::Part(Part::Arguments(term, at + 1));
            push_all(jobs, &[Job::Word(Word::Mark(Mark::Comma)), others])?;
            self.operand(bare, argument, jobs, line)
        } else {
            self.operand(bare, argument, jobs, line)
        }
    }

    /// Puts jobs for a part on the stack.
    pub(crate) fn expand(
        &self,
        part: Part,
        jobs: &mut Vec<Job>,
        line: &mut Line,
    ) -> Result<(), AllocError>
        requires { IsReadyPart (setting self.now) part }
        ensures { OnOk result (Expands (setting self.now) part (written line.old) (written line.new) jobs.old.items jobs.new.items) }
    {
        match part {
            Part::Term(term) => self.term(term, jobs, line),
            Part::Enclosed(term) => {
                let inside = Job::Part(Part::Term(term));
                line.push_mark(Mark::Open)?;
                push_all(jobs, &[inside, Job::Word(Word::Mark(Mark::Close))])
            }
            Part::Rest(term) => self.rest(term, jobs, line),
            Part::Arguments(term, at) => self.arguments(term, at, jobs, line),
        }
    }
}
