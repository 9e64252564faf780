//! A source in memory, for programs whose input is at hand and for tests of whoever reads.
ghost use Rattle.std.specs.Prelude.{◌≡◌, ◌<◌, ◌≤◌, ◌++◌, min, length, take, drop, Some};
ghost use Rattle.byte_streams.specs.Faults.{faults_after};
ghost use Rattle.byte_streams.specs.Sources.{ReadOf, is_failed_read};
ghost use Rattle.byte_streams.specs.Memory.{next_read, after_read};

use crate::{Source, Took};
use item_list::List;
use std::marker::Model;

/// Bytes in memory, given in pieces, with calls that fail on purpose.
#[derive(Debug, Drop)]
pub struct MemorySource {
    bytes: Vec<u8>,
    taken: usize,
    piece: usize,
    fail_at: List<u64>,
    calls: u64,
    faults: u64,
}

impl Model for MemorySource {
    ghost use Rattle.std.specs.Prelude.{◌≤◌, length, drop};
    ghost use Rattle.byte_streams.specs.Memory.{Supply};

    ghost Value = { Supply };

    ghost view = { λ s. record {
      left = drop s.taken s.bytes.items;
      piece = s.piece;
      fail_at = s.fail_at;
      calls = s.calls;
      faults = s.faults;
    } };

    ghost invariant = { λ s. (s.taken ≤ length s.bytes.items) × (1 ≤ s.piece) };
}

impl MemorySource {
    /// A source that gives these bytes, at most `piece` of them a call, and fails at the calls whose numbers, from 0, are
    /// in `fail_at`. The number of a call and the count of faults stand still at the greatest `u64`.
    pub fn new(bytes: Vec<u8>, piece: usize, fail_at: List<u64>) -> Self
        requires { 1 ≤ piece }
        ensures { result ≡ record {
          left = bytes.items;
          piece = piece;
          fail_at = fail_at;
          calls = 0;
          faults = 0;
        } }
    {
        MemorySource {
            bytes,
            taken: 0,
            piece,
            fail_at,
            calls: 0,
            faults: 0,
        }
    }

    /// The bytes that are left.
    pub fn left(&self) -> &[u8]
        ensures { result.now ≡ self.now.left }
    {
        &self.bytes[self.taken..]
    }

    /// How many calls of `read` there were, which is the number of the next one.
    pub fn calls(&self) -> u64
        ensures { result ≡ self.now.calls }
    {
        self.calls
    }

    /// How many calls of `read` failed.
    pub fn faults(&self) -> u64
        ensures { result ≡ self.now.faults }
    {
        self.faults
    }
}

/// Copies as many bytes as both sides have, and at most `most`. Answers how many.
fn copy_front(from: &[u8], to: &mut [u8], most: usize) -> usize
    ensures count { result ≡ min (min most (length to.old)) (length from.now) }
    ensures copied { to.new ≡ take result from.now ++ drop result to.old }
{
    let count = most.min(to.len()).min(from.len());
    to[..count].copy_from_slice(&from[..count]);
    count
}

impl Source for MemorySource {
    ghost left = { λ s. Some s.left };

    ghost faults = { λ s. s.faults };

    fn read(&mut self, buf: &mut [u8]) -> Took
        requires { 0 < length buf.old }
        ensures took { ReadOf result (Some self.old.left) (Some self.new.left) buf.new }
        ensures never_falls { self.old.faults ≤ self.new.faults }
        ensures counted { self.new.faults ≡ faults_after (is_failed_read result) self.old.faults }
        ensures outcome { result ≡ next_read self.old (length buf.old) }
        ensures after { self.new ≡ after_read self.old result }
    {
        let listed = self.fail_at.as_slice().contains(&self.calls);
        self.calls = self.calls.saturating_add(1);
        if listed {
            self.faults = self.faults.saturating_add(1);
            return Took::Failed;
        }
        let left = &self.bytes[self.taken..];
        if left.is_empty() {
            return Took::End;
        }
        let count = copy_front(left, buf, self.piece);
        self.taken += count;
        Took::Got(count)
    }
}
