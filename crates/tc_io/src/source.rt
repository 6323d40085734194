//! What bytes are read from, and what they are written to.

ghost use Rattle.std.specs.Prelude.{◌≡◌, ℕ, ◌<◌, List, Result, length, IfOk, ⊤};
ghost use Rattle.std.specs.Io.{ReadsAtMost, WritesAtMost};
ghost use Rattle.std.specs.Io.KnownBytes.{ReadConsumes, WriteAppends};
ghost use Rattle.tc_io.specs.Causes.{HasCause};
ghost use Rattle.tc_io.specs.Stream.{Stream};
ghost use Rattle.tc_io.specs.declared.source.Failed.{Failed as Fault};

/// A source or a sink failed in this call.
#[derive(Clone, Copy, Debug, PartialEq, Eq)]
pub struct Failed;

/// What bytes are read from.
pub trait Source {
    /// The bytes still to come, if the contract knows them, and the number of faults.
    ghost stream: { Self → Stream };

    /// The results that a read into a buffer of this length may have, and the sources that it may leave.
    ghost read_gives: { Self → ℕ → Result ℕ Fault → Self → Type 0 } = { λ _ _ _ _. ⊤ };

    /// Reads bytes into a prefix of the buffer, and says how many. A call that reads none into a
    /// buffer with room is at the end. A failed call has read nothing.
    fn read(&mut self, buf: &mut [u8]) -> Result<usize, Failed>
        ensures bound { ReadsAtMost result buf.new }
        ensures bytes { ReadConsumes
            (stream self.old).bytes (stream self.new).bytes result buf.new }
        ensures cause { HasCause (stream self.old) (stream self.new) result }
        ensures call { read_gives self.old (length buf.old) result self.new };
}

/// What bytes are written to.
pub trait Sink {
    /// The bytes written so far, if the contract knows them, and the number of faults.
    ghost stream: { Self → Stream };

    /// The results that a write of a piece may have, and the sinks that it may leave.
    ghost write_gives: { Self → List ℕ → Result ℕ Fault → Self → Type 0 } = { λ _ _ _ _. ⊤ };

    /// Takes a prefix of the piece, and says how many bytes: at least one, if the piece has any. A
    /// failed call has taken nothing.
    fn write(&mut self, piece: &[u8]) -> Result<usize, Failed>
        ensures bound { WritesAtMost result piece.now }
        ensures some { IfOk result (λ count. 0 < length piece.now → 0 < count) }
        ensures bytes { WriteAppends
            (stream self.old).bytes (stream self.new).bytes result piece.now }
        ensures cause { HasCause (stream self.old) (stream self.new) result }
        ensures call { write_gives self.old piece.now result self.new };
}
