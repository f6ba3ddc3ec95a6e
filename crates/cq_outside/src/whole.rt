// Reading a source to its end, and writing a whole text.
ghost use Rattle.std.specs.Prelude.{◌≡◌, ◌≤◌, ◌<◌, ℕ, List, IfOk, IfSome, OnOk, OnErr, IsErrOf, length};
ghost use Rattle.std.specs.Io.KnownBytes.{IsAtEnd};
ghost use Rattle.cq_outside.specs.Counts.{HasCause, RoseBeyond};
ghost use Rattle.cq_outside.specs.Bytes.{Adds, Appends, Begins};
ghost use Rattle.cq_outside.specs.Whole.{TakesBytes, CountsFault};

use crate::{Sink, SinkFailed, Source, SourceFailed};
use std::alloc::{AllocError, Global};

/// Why a source wasn't read to its end.
#[derive(Clone, Copy, Debug, PartialEq, Eq)]
pub enum ReadFault {
    /// There is no memory for the bytes.
    NoMemory,
    /// The source has more bytes than the limit.
    TooLarge,
    /// A read failed.
    Failed,
}

impl From<AllocError> for ReadFault {
    ghost use Rattle.cq_outside.specs.declared.whole.ReadFault.TheVariants.{NoMemory};

    ghost from_gives = { λ _ e. e ≡ NoMemory };

    fn from(_: AllocError) -> Self {
        ReadFault::NoMemory
    }
}

impl From<SourceFailed> for ReadFault {
    ghost use Rattle.cq_outside.specs.declared.whole.ReadFault.TheVariants.{Failed};

    ghost from_gives = { λ _ e. e ≡ Failed };

    fn from(_: SourceFailed) -> Self {
        ReadFault::Failed
    }
}

#[tactic(auto, using(crate::proofs::Told::told))]
/// Reads a source to its end, or until it has given more than `limit` bytes. After a fault the bytes that
/// were read are lost.
pub fn read_whole<S: Source>(
    alloc: Global,
    source: &mut S,
    limit: usize,
) -> Result<Vec<u8>, ReadFault>
    ensures whole { IfOk result (λ bytes. TakesBytes (S.left source.old) (S.left source.new) (S.taken source.old) (S.taken source.new) bytes.items) }
    ensures end { OnOk result (IsAtEnd (S.left source.new)) }
    ensures within { IfOk result (λ bytes. length bytes.items ≤ limit) }

    ensures part { OnErr result ((bytes : List ℕ) × TakesBytes (S.left source.old) (S.left source.new) (S.taken source.old) (S.taken source.new) bytes) }
    ensures too_large { IsErrOf result ReadFault.TooLarge → RoseBeyond limit (S.taken source.old) (S.taken source.new) }
    ensures too_many { IsErrOf result ReadFault.TooLarge → IfSome (S.left source.old) (λ left. limit < length left) }
    ensures cause { CountsFault (S.faults source.old) (S.faults source.new) result }
{
    let mut bytes = Vec::new(alloc);
    let mut buf = [0u8; 4096];
    'pieces: loop {
        let n = source.read(&mut buf)?;
        if n == 0 {
            return Ok(bytes);
        }
        bytes.extend_from_slice(&buf[..n])?;
        if bytes.len() > limit {
            return Err(ReadFault::TooLarge);
        }
    }
}

#[tactic(auto, using(crate::proofs::Told::told))]
/// Writes a whole text, in as many pieces as the sink asks for, or a beginning of it where a write fails.
pub fn write_whole<K: Sink>(sink: &mut K, text: &[u8]) -> Result<(), SinkFailed>
    ensures whole { OnOk result (Appends (K.held sink.old) (K.held sink.new) text.now) }
    ensures part { OnErr result (Adds (K.held sink.old) (K.held sink.new) (λ part. Begins part text.now)) }
    ensures cause { HasCause (K.faults sink.old) (K.faults sink.new) result }
{
    let mut at = 0;
    while at < text.len() {
        at += sink.write(&text[at..])?;
    }
    Ok(())
}
