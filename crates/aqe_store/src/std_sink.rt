//! The sink over a real writer, as the standard output.

ghost use Rattle.std.specs.Prelude.{◌≡◌, ◌≤◌, ◌<◌, None, length, IfSome};

use crate::count::raise;
use crate::sink::{Sink, SinkFail};
use std::io::Write;

/// A writer as a sink. It tells no bytes.
///
/// It flushes after each write. An error of the writer is a failure, and so is a write that takes nothing
/// of a piece that is not empty.
#[derive(Drop)]
pub struct StdSink<W: Write + Drop> {
    writer: W,
    faults: u64,
}

impl<W: Write + Drop> StdSink<W> {
    /// A sink over the writer.
    pub fn new(writer: W) -> StdSink<W>
        ensures { result.faults ≡ 0 }
    {
        StdSink { writer, faults: 0 }
    }
}

/// Writes a front of the piece and flushes.
fn write_and_flush<W: Write>(writer: &mut W, piece: &[u8]) -> Option<usize>
    ensures bound { IfSome result (λ n. n ≤ length piece.now) }
    ensures some { IfSome result (λ n. 0 < length piece.now → 0 < n) }
{
    let n = writer.write(piece).ok()?;
    if n == 0 && !piece.is_empty() {
        return None;
    }
    writer.flush().ok()?;
    Some(n)
}

impl<W: Write + Drop> Sink for StdSink<W> {
    ghost taken = { λ _. None };

    ghost faults = { λ s. s.faults };

    fn write(&mut self, piece: &[u8]) -> Result<usize, SinkFail> {
        match write_and_flush(&mut self.writer, piece) {
            Some(n) => Ok(n),
            None => {
                raise(&mut self.faults);
                Err(SinkFail::Failed)
            }
        }
    }
}
