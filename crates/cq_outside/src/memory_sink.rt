// A sink that keeps its bytes in memory, whose writes are short and fail where told.
ghost use Rattle.std.specs.Prelude.{◌≡◌, ◌≤◌, ◌<◌, [], Some, IfOk, IsErr, length, min};

use crate::calls::Calls;
use crate::{Sink, SinkFailed};
use std::alloc::{AllocError, Global};

/// Bytes in memory, written in pieces. The writes that it is told to fail take nothing, nor do those for
/// which memory is wanting, which count as faults too.
#[derive(Drop)]
pub struct MemSink {
    bytes: Vec<u8>,
    calls: Calls,
    piece: usize,
    ghost some: { 0 < piece },
}

impl MemSink {
    ghost use Rattle.cq_outside.specs.Memory.{sink_bytes, sink_calls, sink_piece};
    ghost use Rattle.cq_outside.specs.Calls.{AreToFail};

    /// A sink that holds nothing yet. The writes with these numbers, counted from 1, fail, and no write
    /// takes more than `piece` bytes.
    pub fn new(alloc: Global, fails: &[u64], piece: usize) -> Result<Self, AllocError>
        requires { 0 < piece }
        ensures bytes { IfOk result (λ sink. sink_bytes sink ≡ []) }
        ensures fails { IfOk result (λ sink. AreToFail fails.now (sink_calls sink)) }
        ensures piece { IfOk result (λ sink. sink_piece sink ≡ piece) }
    {
        Ok(MemSink {
            bytes: Vec::new(alloc),
            calls: Calls::new(alloc, fails)?,
            piece,
        })
    }

    /// The bytes that were written.
    pub fn bytes(&self) -> &[u8]
        ensures { result.now ≡ sink_bytes self.now }
    {
        &self.bytes
    }
}

impl Sink for MemSink {
    ghost held = { λ s. Some s.bytes.items };

    ghost faults = { λ s. s.calls.faults };

    ghost use Rattle.cq_outside.specs.Bytes.{Takes};
    ghost use Rattle.cq_outside.specs.Counts.{HasCause};
    ghost use Rattle.cq_outside.specs.Calls.{IsNext, NextFails};
    ghost use Rattle.cq_outside.specs.Memory.{sink_bytes, sink_calls, sink_piece};

    /// Takes as much as a piece may have. A write for which memory is wanting fails too.
    fn write(&mut self, piece: &[u8]) -> Result<usize, SinkFailed>
        ensures bound { IfOk result (λ n. n ≤ length piece.now) }
        ensures some { IfOk result (λ n. 0 < length piece.now → 0 < n) }
        ensures bytes { Takes (Some (sink_bytes self.old)) (Some (sink_bytes self.new)) result piece.now }
        ensures cause { HasCause (sink_calls self.old).faults (sink_calls self.new).faults result }
        ensures fails { NextFails (sink_calls self.old) → IsErr result }
        ensures next { IsNext (sink_calls self.old) (sink_calls self.new) }
        ensures all { IfOk result (λ n. n ≡ min (length piece.now) (sink_piece self.old)) }
        ensures piece { sink_piece self.new ≡ sink_piece self.old }
    {
        if self.calls.next_fails() {
            return Err(SinkFailed);
        }
        let n = piece.len().min(self.piece);
        if self.bytes.extend_from_slice(&piece[..n]).is_err() {
            self.calls.count_fault();
            return Err(SinkFailed);
        }
        Ok(n)
    }
}
