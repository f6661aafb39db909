//! The sink that the engine writes text to, and the call that writes a whole text.

ghost use Rattle.std.specs.Prelude.{◌≡◌, ◌≤◌, ◌<◌, ℕ, List, Option, length, IfOk, OnOk, OnErr};
ghost use Rattle.std.specs.Io.KnownBytes.{Appends, WriteAppends};
ghost use Rattle.aqe_store.specs.Sink.{HasSinkCause, AppendsFront};

/// Why a sink refused a write.
#[derive(Clone, Copy, Debug, PartialEq, Eq, Drop)]
pub enum SinkFail {
    /// The sink failed to write, and its count of faults rose.
    Failed,
}

/// What text is written to.
pub trait Sink {
    /// The bytes taken so far, where the sink tells them.
    ghost taken: { Self → Option (List ℕ) };

    /// How often the sink has failed.
    ghost faults: { Self → ℕ };

    /// Takes a front of the piece, of at least one byte unless the piece is empty, and tells its length.
    /// Nothing is taken by a write that fails.
    fn write(&mut self, piece: &[u8]) -> Result<usize, SinkFail>
        ensures bound { IfOk result (λ n. n ≤ length piece.now) }
        ensures some { IfOk result (λ n. 0 < length piece.now → 0 < n) }
        ensures bytes { WriteAppends (taken self.old) (taken self.new) result piece.now }
        ensures cause { HasSinkCause (faults self.old) (faults self.new) result };
}

/// Writes all the bytes. After a failure the sink has taken a front of them.
pub fn write_all<O: Sink>(sink: &mut O, bytes: &[u8]) -> Result<(), SinkFail>
    ensures all { OnOk result (Appends (O.taken sink.old) (O.taken sink.new) bytes.now) }
    ensures front { OnErr result (AppendsFront (O.taken sink.old) (O.taken sink.new) bytes.now) }
    ensures cause { HasSinkCause (O.faults sink.old) (O.faults sink.new) result }
{
    let mut at = 0;
    'pieces: while at < bytes.len() {
        at += sink.write(&bytes[at..])?;
    }
    Ok(())
}
