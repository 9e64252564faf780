//! Where bytes go.
ghost use Rattle.std.specs.Prelude.{◌≡◌, ◌<◌, ◌≤◌, ℕ, List, Option, length};
ghost use Rattle.byte_streams.specs.Faults.{faults_after};
ghost use Rattle.byte_streams.specs.Sinks.{WriteOf, is_failed_write};

/// What became of a write.
#[derive(Clone, Copy, PartialEq, Eq, Debug)]
pub enum Put {
    /// So many of the first bytes, at least one, were taken.
    Took(usize),
    /// The sink failed. If it tells its bytes, they are as before. One that does not tell them may have passed some of these
    /// on, as a writer does whose flush fails after it took them.
    Failed,
}

/// A sink of bytes.
pub trait Sink {
    /// The bytes that the sink holds, or none where it does not tell.
    ghost held: { Self → Option (List ℕ) };

    /// How many calls failed. A count that is kept in 64 bits stands still at the greatest of them.
    ghost faults: { Self → ℕ };

    /// Takes at least the first byte, unless the sink fails.
    fn write(&mut self, bytes: &[u8]) -> Put
        requires { 0 < length bytes.now }
        ensures took { WriteOf result (held self.old) (held self.new) bytes.now }
        ensures never_falls { faults self.old ≤ faults self.new }
        ensures counted { faults self.new ≡
            faults_after (is_failed_write result) (faults self.old) };
}
