ghost use Rattle.std.specs.Prelude.{◌≡◌, ◌↔◌, ◌⊎◌, ◌+◌, ◌<◌, ◌≤◌, min, [], length, take, Some, IsSome, OnOk, OnErr};
ghost use Rattle.std.specs.Io.KnownBytes.{Appends};
ghost use Rattle.sf_io.specs.Count.{Rose};
ghost use Rattle.sf_io.specs.Push.{IfTook, pushed_count};
ghost use Rattle.sf_io.specs.Calls.{IsNextListed};
ghost use Rattle.sf_io.specs.MemSink.{sink_after};

use crate::calls::Calls;
use crate::errors::OutOfMemory;
use crate::sink::{Push, Sink};
use std::alloc::Global;
use std::marker::Model;

/// A sink that keeps bytes in memory, in pieces of bounded length. It fails at the calls of a list,
/// and where no room is left.
#[derive(Debug, Drop)]
pub struct MemSink {
    bytes: Vec<u8>,
    room: usize,
    piece: usize,
    calls: Calls,
}

impl Model for MemSink {
    ghost use Rattle.std.specs.Prelude.{◌+◌, ◌<◌, ◌≤◌, vec_len, vec_capacity};
    ghost use Rattle.sf_io.specs.MemSink.{SinkInMemory};

    ghost Value = { SinkInMemory };

    ghost view = { λ s. let bytes = s.bytes.items in
        record { bytes = bytes; piece = s.piece; room = s.room; calls = s.calls } };

    ghost invariant = { λ s. (vec_len s.bytes + s.room ≤ vec_capacity s.bytes) × (0 < s.piece) };
}

impl MemSink {
    /// An empty sink with no room, which takes pieces of at most `piece`. The list has the numbers
    /// of the calls that fail, counted from 1.
    pub fn new(alloc: Global, piece: usize, fails: Vec<u32>) -> Self
        requires { 0 < piece }
        ensures { result ≡ record {
          bytes = [];
          piece = piece;
          room = 0;
          calls = record { fails = fails.items; made = 0; faults = 0 };
        } }
    {
        MemSink {
            bytes: Vec::new(alloc),
            room: 0,
            piece,
            calls: Calls::new(fails),
        }
    }

    /// Adds room for `n` bytes to the room that is left.
    pub fn reserve(&mut self, n: usize) -> Result<(), OutOfMemory>
        ensures ok { OnOk result (self.new ≡ record self.old { room = self.old.room + n }) }
        ensures err { OnErr result (self.new ≡ self.old) }
    {
        let room = self.room.checked_add(n).ok_or(OutOfMemory)?;
        self.bytes.try_reserve(room)?;
        self.room = room;
        Ok(())
    }

    /// The bytes that were written.
    pub fn bytes(&self) -> &[u8]
        ensures { result.now ≡ self.now.bytes }
    {
        &self.bytes
    }
}

impl Sink for MemSink {
    ghost written = { λ s. Some s.bytes };

    ghost faults = { λ s. s.calls.faults };

    fn push(&mut self, piece: &[u8]) -> Push
        requires { 0 < length piece.now }
        ensures count { IfTook result (λ n. (0 < n) × (n ≤ length piece.now)) }
        ensures bytes { let front = take (pushed_count result) piece.now in
            Appends (Some self.old.bytes) (Some self.new.bytes) front }
        ensures told { IsSome (Some self.old.bytes) → IsSome (Some self.new.bytes) }
        ensures failed { result ≡ Push.Failed → Rose self.old.calls.faults self.new.calls.faults }
        ensures later { self.old.calls.faults ≤ self.new.calls.faults }

        // It fails exactly where the list has the call's number or no room is left. Else it takes
        // the greatest piece that there is room for.
        ensures refused { (result ≡ Push.Failed)
            ↔ (IsNextListed self.old.calls ⊎ (self.old.room ≡ 0)) }
        ensures greatest { let most = min self.old.piece (length piece.now) in
            IfTook result (λ n. n ≡ min most self.old.room) }
        ensures after { self.new ≡ sink_after self.old piece.now result }
    {
        let is_listed = self.calls.count_call();
        if is_listed || self.room == 0 {
            self.calls.count_fault();
            return Push::Failed;
        }
        let count = self.piece.min(piece.len()).min(self.room);
        match self.bytes.extend_from_slice(&piece[..count]) {
            Ok(()) => {
                self.room -= count;
                Push::Took(count)
            }
            Err(_) => unreachable!(),
        }
    }
}
