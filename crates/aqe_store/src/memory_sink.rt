//! A sink in memory with a bounded room, whose chosen writes fail.

ghost use Rattle.std.specs.Prelude.{◌≡◌, ◌≤◌, ◌<◌, ◌+◌, ◌-◌, ◌^◌, ◌↔◌, ◌++◌, ◌⊎◌, [], take, min, length, vec_len, vec_capacity, Some, IsTrue, IfOk, OnErr, Err};
ghost use Rattle.aqe_store.specs.Calls.{IsFailingWrite};
ghost use Rattle.aqe_store.specs.Sink.{HasSinkCause};

use crate::calls::WriteNumbers;
use crate::count::raise;
use crate::sink::{Sink, SinkFail};
use aqe_base::Memory;
use std::alloc::Global;

/// A sink that keeps the bytes it takes, up to its room, which is reserved when it is made.
///
/// A write fails where its number is among those chosen for it, or where it brings bytes and the room is used up.
/// Any other takes its piece, up to the room that is left. The first write has the number 1; behind 4294967295
/// writes have no number, so that none of them is a chosen one.
#[derive(Drop)]
pub struct MemorySink {
    bytes: Vec<u8>,
    room: usize,
    failing: WriteNumbers,
    writes: u32,
    faults: u64,
    ghost reserved: { room ≤ vec_capacity bytes },
    ghost within: { vec_len bytes ≤ room },
}

/// Counts a write, and tells whether it is one of those that are to fail.
fn begin_write(failing: &WriteNumbers, writes: &mut u32) -> bool
    ensures fails { IsTrue result ↔ IsFailingWrite failing.now writes.old }
    ensures counts { writes.new ≡ min (writes.old + 1) (2 ^ 32 - 1) }
{
    let Some(number) = writes.checked_add(1) else {
        return false;
    };
    *writes = number;
    failing.slice().contains(&number)
}

impl MemorySink {
    /// An empty sink with this room in bytes, whose writes with these numbers fail.
    pub fn new(alloc: Global, room: u64, failing: WriteNumbers) -> Result<MemorySink, Memory>
        ensures empty { IfOk result (λ sink. sink.bytes.items ≡ []) }
        ensures room { IfOk result (λ sink. sink.room ≡ room) }
        ensures failing { IfOk result (λ sink. sink.failing ≡ failing) }
        ensures unwritten { IfOk result (λ sink. (sink.writes ≡ 0) × (sink.faults ≡ 0)) }
    {
        let Ok(room) = usize::try_from(room) else {
            return Err(Memory);
        };
        let Ok(bytes) = Vec::with_capacity(alloc, room) else {
            return Err(Memory);
        };
        Ok(MemorySink {
            bytes,
            room,
            failing,
            writes: 0,
            faults: 0,
        })
    }

    /// The bytes taken.
    pub fn bytes(&self) -> &[u8]
        ensures { result.now ≡ self.now.bytes.items }
    {
        self.bytes.as_slice()
    }
}

impl Sink for MemorySink {
    ghost taken = { λ s. Some s.bytes.items };

    ghost faults = { λ s. s.faults };

    fn write(&mut self, piece: &[u8]) -> Result<usize, SinkFail>
        ensures fills { IfOk result (λ n. n
            ≡ min (length piece.now) (self.old.room - vec_len self.old.bytes)) }
        ensures taken { IfOk result (λ n. self.new.bytes.items
            ≡ self.old.bytes.items ++ take n piece.now) }
        ensures stays { OnErr result (self.new.bytes.items ≡ self.old.bytes.items) }
        ensures others { (self.new.room ≡ self.old.room) × (self.new.failing ≡ self.old.failing) }
        ensures cause { HasSinkCause self.old.faults self.new.faults result }
        ensures fails { result ≡ Err SinkFail.Failed
            ↔ IsFailingWrite self.old.failing self.old.writes
            ⊎ (0 < length piece.now) × (vec_len self.old.bytes ≡ self.old.room) }
        ensures counted { self.new.writes ≡ min (self.old.writes + 1) (2 ^ 32 - 1) }
    {
        let is_failing = begin_write(&self.failing, &mut self.writes);
        let n = piece.len().min(self.room - self.bytes.len());
        if is_failing || (n == 0 && !piece.is_empty()) {
            raise(&mut self.faults);
            return Err(SinkFail::Failed);
        }
        match self.bytes.extend_from_slice(&piece[..n]) {
            Ok(()) => Ok(n),
            Err(_) => unreachable!(),
        }
    }
}
