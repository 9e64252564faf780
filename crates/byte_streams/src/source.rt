//! Where bytes come from.
ghost use Rattle.std.specs.Prelude.{◌≡◌, ◌<◌, ◌≤◌, ℕ, List, Option, length};
ghost use Rattle.byte_streams.specs.Faults.{faults_after};
ghost use Rattle.byte_streams.specs.Sources.{ReadOf, is_failed_read};

/// What a read gave.
#[derive(Clone, Copy, PartialEq, Eq, Debug)]
pub enum Took {
    /// So many bytes, at least one, which are now the front of the buffer.
    Got(usize),
    /// Nothing, since nothing is left.
    End,
    /// Nothing, since the source failed. What was left still is.
    Failed,
}

/// A source of bytes.
pub trait Source {
    /// The bytes that reads will give from here on, or none where the source does not tell.
    ghost left: { Self → Option (List ℕ) };

    /// How many calls failed. A count that is kept in 64 bits stands still at the greatest of them.
    ghost faults: { Self → ℕ };

    /// Reads at least one byte into the front of the buffer, unless the source is at its end or fails. What stands behind
    /// the bytes read is not told.
    fn read(&mut self, buf: &mut [u8]) -> Took
        requires { 0 < length buf.old }
        ensures took { ReadOf result (left self.old) (left self.new) buf.new }
        ensures never_falls { faults self.old ≤ faults self.new }
        ensures counted { faults self.new ≡
            faults_after (is_failed_read result) (faults self.old) };
}
