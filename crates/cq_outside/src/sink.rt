// What a sink of bytes is to its writers.
ghost use Rattle.std.specs.Prelude.{◌≡◌, ◌≤◌, ◌<◌, ℕ, List, length, IfOk, Option};
ghost use Rattle.cq_outside.specs.Counts.{HasCause};
ghost use Rattle.cq_outside.specs.Bytes.{Takes};

/// A write that failed, for a cause that lies outside the program.
#[derive(Clone, Copy, Debug, PartialEq, Eq)]
pub struct SinkFailed;

/// Bytes that are written in pieces, such as the standard output.
pub trait Sink {
    /// The bytes that it holds, where the sink tells them.
    ghost held: { Self → Option (List ℕ) };

    /// How often a write failed.
    ghost faults: { Self → ℕ };

    /// Appends a first part of the piece, and says how long it is. Of a piece that isn't empty at least
    /// one byte is taken.
    fn write(&mut self, piece: &[u8]) -> Result<usize, SinkFailed>
        ensures bound { IfOk result (λ n. n ≤ length piece.now) }
        ensures some { IfOk result (λ n. 0 < length piece.now → 0 < n) }
        ensures bytes { Takes (held self.old) (held self.new) result piece.now }
        ensures cause { HasCause (faults self.old) (faults self.new) result };
}
