//! A sink in memory, for tests.

ghost use Rattle.std.specs.Prelude.{◌≡◌, ◌<◌, ◌≤◌, ◌+◌, take, length, IfOk, OnErr, Some};
ghost use Rattle.std.specs.Result.{result_ok};
ghost use Rattle.mv_files.specs.MemorySink.{empty_sink, write_answer, after_write};
ghost use Rattle.mv_files.specs.Counts.{CountsFaults};
ghost use Rattle.mv_files.specs.Told.{WhereTold};
ghost use Rattle.mv_files.specs.Sending.{TakesSome, Adds};

use crate::calls::Calls;
use crate::failed::Failed;
use crate::sink::Sink;
use sequences::NoMemory;
use std::alloc::Global;
use std::marker::Model;

/// A sink in memory, which takes its bytes in pieces, fails at chosen calls, and has a limited room.
#[derive(Debug, Drop)]
pub struct MemorySink {
    written: Vec<u8>,
    piece: usize,
    room: usize,
    calls: Calls,
    faults: u64,
}

impl Model for MemorySink {
    ghost use Rattle.std.specs.Prelude.{◌≤◌, vec_len, vec_capacity};
    ghost use Rattle.mv_files.specs.MemorySink.{SinkState};

    ghost Value = { SinkState };

    ghost view = { λ s. record { written = s.written.items; piece = s.piece; room = s.room; calls = s.calls; faults = s.faults } };

    ghost invariant = { λ s. (1 ≤ s.piece) × (vec_len s.written ≤ s.room) × (s.room ≤ vec_capacity s.written) };
}

impl MemorySink {
    /// A sink that takes at most `piece` bytes in one call and `room` bytes in all. A call fails where its number stands
    /// in `failing`, the first having the number 0, or where no room is left.
    pub fn make(
        alloc: Global,
        piece: usize,
        failing: Vec<u64>,
        room: u32,
    ) -> Result<MemorySink, NoMemory>
        requires { 1 ≤ piece }
        ensures { IfOk result (λ sink. sink ≡ empty_sink piece failing.items room) }
    {
        let room = room as usize;
        Ok(MemorySink {
            written: Vec::with_capacity(alloc, room)?,
            piece,
            room,
            calls: Calls::make(failing),
            faults: 0,
        })
    }

    /// The bytes that it took.
    pub fn written(&self) -> &[u8]
        ensures { result.now ≡ self.now.written }
    {
        &self.written
    }
}

impl Sink for MemorySink {
    ghost written = { λ sink. Some sink.written };

    ghost faults = { λ sink. sink.faults };

    fn write(&mut self, bytes: &[u8]) -> Result<usize, Failed>
        requires { 0 < length bytes.now }
        ensures answer { result_ok result ≡ write_answer bytes.now self.old }
        ensures state { self.new ≡ after_write bytes.now self.old }

        // What every sink promises.
        ensures takes { IfOk result (λ n. TakesSome n bytes.now) }
        ensures writes { IfOk result (λ n. Adds (take n bytes.now) self.old.written self.new.written) }
        ensures unwritten { OnErr result (self.new.written ≡ self.old.written) }
        ensures faults { CountsFaults self.old.faults self.new.faults result }
    {
        let left = self.room - self.written.len();
        if self.calls.fails() || left == 0 {
            self.faults = self.faults.saturating_add(1);
            return Err(Failed);
        }
        let taken = self.piece.min(bytes.len()).min(left);
        self.written.extend_from_slice(&bytes[..taken]).unwrap();
        Ok(taken)
    }
}
