// Sources over bytes in memory: one that never fails, and one whose reads are short and fail where told.
ghost use Rattle.std.specs.Prelude.{◌≡◌, ◌↔◌, ◌≤◌, ◌<◌, None, Some, IfOk, IsOk, IsErr, length, min, drop};

use crate::calls::Calls;
use crate::{Source, SourceFailed};
use std::alloc::{AllocError, Global};

/// Bytes in memory, read as they are asked for. No read fails.
#[derive(Drop)]
pub struct SteadySource {
    bytes: Vec<u8>,
    at: usize,
    ghost within: { at ≤ length bytes.items },
}

impl SteadySource {
    ghost use Rattle.cq_outside.specs.Memory.{steady_source_bytes, steady_source_taken};

    /// A source of these bytes.
    pub fn new(alloc: Global, bytes: &[u8]) -> Result<Self, AllocError>
        ensures bytes { IfOk result (λ source. steady_source_bytes source ≡ bytes.now) }
        ensures taken { IfOk result (λ source. steady_source_taken source ≡ 0) }
    {
        Ok(SteadySource {
            bytes: bytes.to_vec(alloc)?,
            at: 0,
        })
    }
}

impl Source for SteadySource {
    ghost left = { λ s. Some (drop s.at s.bytes.items) };

    ghost faults = { λ _. 0 };

    ghost taken = { λ s. s.at };

    ghost use Rattle.std.specs.Io.{ReadsAtMost};
    ghost use Rattle.std.specs.Io.KnownBytes.{ReadConsumes};
    ghost use Rattle.cq_outside.specs.Counts.{HasCause, CountsBytes};
    ghost use Rattle.cq_outside.specs.Memory.{steady_source_bytes, steady_source_taken};

    /// Takes as many bytes as there are and as the buffer has room for.
    fn read(&mut self, buf: &mut [u8]) -> Result<usize, SourceFailed>
        ensures bound { ReadsAtMost result buf.new }
        ensures bytes { ReadConsumes (Some (steady_source_bytes self.old)) (Some (steady_source_bytes self.new)) result buf.new }
        ensures counts { CountsBytes (steady_source_taken self.old) (steady_source_taken self.new) result }
        ensures cause { HasCause 0 0 result }
        ensures never { IsOk result }
        ensures all { IfOk result (λ n. n ≡ min (length buf.old) (length (steady_source_bytes self.old))) }
    {
        let n = buf.len().min(self.bytes.len() - self.at);
        let end = self.at + n;
        buf[..n].copy_from_slice(&self.bytes[self.at..end]);
        self.at = end;
        Ok(n)
    }
}

/// Bytes in memory, read in pieces. The reads that it is told to fail take nothing.
#[derive(Drop)]
pub struct MemSource {
    bytes: SteadySource,
    calls: Calls,
    piece: usize,
    ghost some: { 0 < piece },
}

impl MemSource {
    ghost use Rattle.cq_outside.specs.Memory.{source_bytes, source_calls, source_piece, source_taken};
    ghost use Rattle.cq_outside.specs.Calls.{AreToFail};

    /// A source of these bytes. The reads with these numbers, counted from 1, fail, and no read takes
    /// more than `piece` bytes.
    pub fn new(alloc: Global, bytes: &[u8], fails: &[u64], piece: usize) -> Result<Self, AllocError>
        requires { 0 < piece }
        ensures bytes { IfOk result (λ source. source_bytes source ≡ bytes.now) }
        ensures fails { IfOk result (λ source. AreToFail fails.now (source_calls source)) }
        ensures piece { IfOk result (λ source. source_piece source ≡ piece) }
        ensures taken { IfOk result (λ source. source_taken source ≡ 0) }
    {
        Ok(MemSource {
            bytes: SteadySource::new(alloc, bytes)?,
            calls: Calls::new(alloc, fails)?,
            piece,
        })
    }
}

impl Source for MemSource {
    ghost left = { λ s. Some (drop s.bytes.at s.bytes.bytes.items) };

    ghost faults = { λ s. s.calls.faults };

    ghost taken = { λ s. s.bytes.at };

    ghost use Rattle.std.specs.Io.{ReadsAtMost};
    ghost use Rattle.std.specs.Io.KnownBytes.{ReadConsumes};
    ghost use Rattle.cq_outside.specs.Counts.{HasCause, CountsBytes};
    ghost use Rattle.cq_outside.specs.Calls.{IsNext, NextFails};
    ghost use Rattle.cq_outside.specs.Memory.{source_bytes, source_calls, source_piece, source_taken};

    /// Takes as many bytes as there are, as the buffer has room for and as a piece may have.
    fn read(&mut self, buf: &mut [u8]) -> Result<usize, SourceFailed>
        ensures bound { ReadsAtMost result buf.new }
        ensures bytes { ReadConsumes (Some (source_bytes self.old)) (Some (source_bytes self.new)) result buf.new }
        ensures counts { CountsBytes (source_taken self.old) (source_taken self.new) result }
        ensures cause { HasCause (source_calls self.old).faults (source_calls self.new).faults result }
        ensures fails { IsErr result ↔ NextFails (source_calls self.old) }
        ensures next { IsNext (source_calls self.old) (source_calls self.new) }
        ensures all { IfOk result (λ n. n ≡ min (min (length buf.old) (source_piece self.old)) (length (source_bytes self.old))) }
        ensures piece { source_piece self.new ≡ source_piece self.old }
    {
        if self.calls.next_fails() {
            return Err(SourceFailed);
        }
        let room = buf.len().min(self.piece);
        self.bytes.read(&mut buf[..room])
    }
}
