//! A sink in memory, for programs that keep their output and for tests of whoever writes.
ghost use Rattle.std.specs.Prelude.{◌≡◌, ◌<◌, ◌≤◌, [], length, Some, IfOk};
ghost use Rattle.byte_streams.specs.Faults.{faults_after};
ghost use Rattle.byte_streams.specs.Sinks.{WriteOf, is_failed_write};
ghost use Rattle.byte_streams.specs.Memory.{next_write, after_write};

use crate::{Put, Sink};
use item_list::List;
use std::alloc::{AllocError, Global};
use std::marker::Model;

/// Room for bytes in memory, filled in pieces, with calls that fail on purpose.
#[derive(Debug, Drop)]
pub struct MemorySink {
    bytes: Vec<u8>,
    room: usize,
    piece: usize,
    fail_at: List<u64>,
    calls: u64,
    faults: u64,
}

impl Model for MemorySink {
    ghost use Rattle.std.specs.Prelude.{◌≤◌, vec_len, vec_capacity};
    ghost use Rattle.byte_streams.specs.Memory.{Store};

    ghost Value = { Store };

    ghost view = { λ s. record {
      held = s.bytes.items;
      room = s.room;
      piece = s.piece;
      fail_at = s.fail_at;
      calls = s.calls;
      faults = s.faults;
    } };

    ghost invariant = { λ s.
        (vec_len s.bytes ≤ s.room) × (s.room ≤ vec_capacity s.bytes) × (1 ≤ s.piece) };
}

impl MemorySink {
    /// An empty sink with room for `room` bytes, which takes at most `piece` of them a call and fails at the calls whose
    /// numbers, from 0, are in `fail_at`, and where it is full. The memory for its bytes is taken here, and none later. The
    /// number of a call and the count of faults stand still at the greatest `u64`.
    pub fn new(
        alloc: Global,
        room: usize,
        piece: usize,
        fail_at: List<u64>,
    ) -> Result<Self, AllocError>
        requires { 1 ≤ piece }
        ensures { IfOk result (λ s. s ≡ record {
          held = [];
          room = room;
          piece = piece;
          fail_at = fail_at;
          calls = 0;
          faults = 0;
        }) }
    {
        Ok(MemorySink {
            bytes: Vec::with_capacity(alloc, room)?,
            room,
            piece,
            fail_at,
            calls: 0,
            faults: 0,
        })
    }

    /// The bytes that it holds.
    pub fn bytes(&self) -> &[u8]
        ensures { result.now ≡ self.now.held }
    {
        &self.bytes
    }

    /// How many calls of `write` there were, which is the number of the next one.
    pub fn calls(&self) -> u64
        ensures { result ≡ self.now.calls }
    {
        self.calls
    }

    /// How many calls of `write` failed.
    pub fn faults(&self) -> u64
        ensures { result ≡ self.now.faults }
    {
        self.faults
    }
}

impl Sink for MemorySink {
    ghost held = { λ s. Some s.held };

    ghost faults = { λ s. s.faults };

    fn write(&mut self, bytes: &[u8]) -> Put
        requires { 0 < length bytes.now }
        ensures took { WriteOf result (Some self.old.held) (Some self.new.held) bytes.now }
        ensures never_falls { self.old.faults ≤ self.new.faults }
        ensures counted { self.new.faults ≡ faults_after (is_failed_write result) self.old.faults }
        ensures outcome { result ≡ next_write self.old (length bytes.now) }
        ensures after { self.new ≡ after_write self.old bytes.now result }
    {
        let fails = self.fail_at.as_slice().contains(&self.calls) || self.bytes.len() == self.room;
        self.calls = self.calls.saturating_add(1);
        if fails {
            self.faults = self.faults.saturating_add(1);
            return Put::Failed;
        }
        let count = self
            .piece
            .min(bytes.len())
            .min(self.room - self.bytes.len());
        match self.bytes.extend_from_slice(&bytes[..count]) {
            Ok(()) => Put::Took(count),
            Err(_) => unreachable!(),
        }
    }
}
