ghost use Rattle.std.specs.Prelude.{◌≡◌, ◌≢◌, ◌↔◌, ◌<◌, ◌≤◌, min, [], length, take, Some, IsSome};
ghost use Rattle.std.specs.Io.KnownBytes.{Consumes};
ghost use Rattle.sf_io.specs.Count.{Rose, RoseBy};
ghost use Rattle.sf_io.specs.Pull.{IfGot, pulled_count};
ghost use Rattle.sf_io.specs.Calls.{IsNextListed};
ghost use Rattle.sf_io.specs.MemSource.{source_after};

use crate::calls::Calls;
use crate::source::{Pull, Source};
use std::marker::Model;

/// A source that gives bytes from memory, in pieces of bounded length, and fails at the calls of a
/// list.
#[derive(Debug, Drop)]
pub struct MemSource {
    bytes: Vec<u8>,
    at: usize,
    piece: usize,
    calls: Calls,
}

impl Model for MemSource {
    ghost use Rattle.std.specs.Prelude.{◌<◌, ◌≤◌, drop, vec_len};
    ghost use Rattle.sf_io.specs.MemSource.{SourceInMemory};

    ghost Value = { SourceInMemory };

    ghost view = { λ s. let rest = drop s.at s.bytes.items in
        record { rest = rest; piece = s.piece; given = s.at; calls = s.calls } };

    ghost invariant = { λ s. (s.at ≤ vec_len s.bytes) × (0 < s.piece) };
}

impl MemSource {
    /// A source of these bytes, in pieces of at most `piece`. The list has the numbers of the calls
    /// that fail, counted from 1.
    pub fn new(bytes: Vec<u8>, piece: usize, fails: Vec<u32>) -> Self
        requires { 0 < piece }
        ensures { result ≡ record {
          rest = bytes.items;
          piece = piece;
          given = 0;
          calls = record { fails = fails.items; made = 0; faults = 0 };
        } }
    {
        MemSource {
            bytes,
            at: 0,
            piece,
            calls: Calls::new(fails),
        }
    }
}

impl Source for MemSource {
    ghost left = { λ s. Some s.rest };

    ghost faults = { λ s. s.calls.faults };

    ghost given = { λ s. s.given };

    fn pull(&mut self, room: &mut [u8]) -> Pull
        requires { 0 < length room.old }
        ensures count { IfGot result (λ n. (0 < n) × (n ≤ length room.old)) }
        ensures bytes { let next = take (pulled_count result) room.new in
            Consumes (Some self.old.rest) (Some self.new.rest) next }
        ensures told { IsSome (Some self.old.rest) → IsSome (Some self.new.rest) }
        ensures given { RoseBy (pulled_count result) self.old.given self.new.given }
        ensures end { result ≡ Pull.End → self.new.rest ≡ [] }
        ensures none_left { Some self.old.rest ≡ Some [] → result ≢ Pull.Failed
            → result ≡ Pull.End }
        ensures failed { result ≡ Pull.Failed → Rose self.old.calls.faults self.new.calls.faults }
        ensures later { self.old.calls.faults ≤ self.new.calls.faults }

        // It fails exactly where the list has the call's number. Else it gives the greatest piece
        // that is left and has room.
        ensures listed { (result ≡ Pull.Failed) ↔ IsNextListed self.old.calls }
        ensures greatest { let most = min self.old.piece (length room.old) in
            IfGot result (λ n. n ≡ min most (length self.old.rest)) }
        ensures after { self.new ≡ source_after self.old result }
    {
        if self.calls.count_call() {
            self.calls.count_fault();
            return Pull::Failed;
        }
        let rest = &self.bytes[self.at..];
        if rest.is_empty() {
            return Pull::End;
        }
        let count = self.piece.min(room.len()).min(rest.len());
        room[..count].copy_from_slice(&rest[..count]);
        self.at += count;
        Pull::Got(count)
    }
}
