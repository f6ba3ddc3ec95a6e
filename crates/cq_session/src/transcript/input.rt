// The transcript of the input.

ghost use Rattle.std.specs.Prelude.{◌≡◌, ◌<◌, ℕ, List, [], Option, Some, false, IfOk, IfErr};
ghost use Rattle.spec_command.specs.Causes.{counted};
ghost use Rattle.spec_command.specs.Outside.{Outside};
ghost use Rattle.spec_transcript.specs.Session.{Opening};
ghost use Rattle.cq_session.specs.Breaks.{Breaks, FaultsCountedBy};
ghost use Rattle.cq_session.specs.Pieces.{CountsReads, HasReadInput, IsPiece, IsUnread, taking};
ghost use Rattle.cq_session.specs.Progress.{marks_of};

use crate::transcript::halt::{Halt, Lines};
use crate::transcript::interpreter::Interpreter;
use crate::transcript::reading::{Pause, write_text};
use cq_outside::{SIZE_LIMIT, Sink, Source as Bytes};
use cq_read::Feed;
use spec_transcript::Source;
use std::alloc::Global;

/// What was read of the input.
#[derive(Clone, Copy, PartialEq, Eq)]
enum Piece {
    /// Bytes, behind which there is room for so many more.
    Bytes(usize),
    /// Its end: the text is finished.
    End,
    /// More bytes than there was room for, of which the first were added.
    TooMuch,
}

/// Reads a piece of the input behind a text, where there is room for so many bytes.
fn read_piece<'a, I: Bytes>(input: &mut I, text: &mut Feed, room: usize) -> Result<Piece, Halt<'a>>
    requires unfinished { text.old.finished ≡ false }
    ensures piece { IfOk result (IsPiece room (taking (I.left input.old) (I.left input.new) (I.taken input.old) (I.taken input.new)) text.old text.new) }
    ensures unread { IfErr result (IsUnread (I.left input.old) (I.left input.new)) }
    ensures cause { CountsReads (I.faults input.old) (I.faults input.new) result }
{
    let mut buf = [0u8; 4096];
    let n = input.read(&mut buf)?;
    let taken = n.min(room);
    text.push(&buf[..taken])?;
    if n == 0 {
        text.finish();
        return Ok(Piece::End);
    }
    if taken < n {
        return Ok(Piece::TooMuch);
    }
    Ok(Piece::Bytes(room - taken))
}

/// Writes the transcript of the input. More of it is read only where the bytes so far don't decide what stands next, and once
/// the limit is passed no more.
pub(crate) fn write_input<'a, P: Interpreter, I: Bytes, O: Sink>(
    alloc: Global,
    program: &mut P,
    answers: u64,
    input: &mut I,
    out: &mut O,
) -> Result<Lines, Halt<'a>>
    requires kept { P.kept program.old }
    requires some { 0 < answers }
    requires answers { (P.budgets program.old).answers ≡ answers }
    requires none_waits { (P.program program.old).later ≡ [] }
    ensures whole { IfOk result (λ lines. (o : Outside) → I.left input.old ≡ Some o.input
        → HasReadInput (P.budgets program.old) o (I.left input.new) (Opening (P.program program.old).database []) (marks_of lines) (O.held out.old) (O.held out.new)) }
    ensures part { IfErr result (λ halt. (o : Outside) → I.left input.old ≡ Some o.input
        → Breaks (P.budgets program.old) o (I.left input.new) (Opening (P.program program.old).database []) halt (O.held out.old) (O.held out.new)) }
    ensures cause { (failed refused : ℕ) → FaultsCountedBy (counted failed refused (I.faults input.old) (I.taken input.old) (O.faults out.old))
        (counted failed refused (I.faults input.new) (I.taken input.new) (O.faults out.new)) result }
{
    let mut text = Feed::new(alloc);
    let mut lines = Lines::none();
    let mut room = SIZE_LIMIT;
    'pieces: loop {
        let (pause, more) = write_text(alloc, program, &mut text, Source::Input, answers, out)?;
        lines = lines.and(more);
        match pause {
            Pause::End => return Ok(lines),
            Pause::Needs => {}
        }
        match read_piece(input, &mut text, room)? {
            Piece::Bytes(left) => room = left,
            Piece::End => {}
            Piece::TooMuch => {
                write_text(alloc, program, &mut text, Source::Input, answers, out)?;
                return Err(Halt::TooMuchInput);
            }
        }
    }
}
