//! Sketches of sets of hashes, from which their size could be guessed.
ghost use Rattle.std.specs.Prelude.{◌≡◌, List, ℕ, length, IfOk};
ghost use Rattle.key_parts.specs.Hashes.{default_state, hash_of};
ghost use Rattle.key_parts.specs.Sketches.{no_hashes, rank_of, with_hash, merged};

use crate::hash::PlRandomState;
use std::alloc::{AllocError, Global};
use std::marker::Model;

/// The bits of a hash that choose its register.
const REGISTER_BITS: u32 = 14;

/// The number of registers.
const NUM_REGISTERS: usize = 16384;

/// 16,384 registers, each the greatest rank among the hashes that chose it. Contracts see them as
/// a list.
#[derive(Debug, Drop)]
pub struct HyperLogLog {
    registers: Vec<u8>,
}

impl Model for HyperLogLog {
    ghost use Rattle.std.specs.Prelude.{◌≡◌, ℕ, List, length};

    ghost Value = { List ℕ };

    ghost view = { λ s. s.registers.items };

    ghost invariant = { λ s. length s.registers.items ≡ 16384 };
}

impl HyperLogLog {
    /// All registers are 0.
    pub fn new(alloc: Global) -> Result<Self, AllocError>
        ensures { IfOk result (λ s. s ≡ no_hashes) }
    {
        let registers = vec![in alloc; 0u8; NUM_REGISTERS]?;
        Ok(HyperLogLog { registers })
    }

    /// Takes the hash of bytes under the default state.
    pub fn add(&mut self, bytes: &[u8])
        ensures { self.new ≡ with_hash self.old (hash_of default_state bytes.now) }
    {
        self.add_hash(PlRandomState::DEFAULT.hash_one(bytes));
    }

    /// Takes a hash: its register becomes at least its rank.
    #[tactic(auto, unfolding(crate::specs::Sketches::with_hash))]
    pub fn add_hash(&mut self, h: u64)
        ensures { self.new ≡ with_hash self.old h }
    {
        let register = &mut self.registers[(h & 16383) as usize];
        *register = (*register).max(rank(h));
    }

    /// Register by register the greatest of both.
    pub fn merge(&mut self, other: &Self)
        ensures { self.new ≡ merged self.old other.now }
    {
        for i in 0..NUM_REGISTERS {
            self.registers[i] = self.registers[i].max(other.registers[i]);
        }
    }

    /// The registers.
    pub fn registers(&self) -> &[u8]
        ensures registers { result.now ≡ self.now }
        ensures count { length result.now ≡ 16384 }
    {
        &self.registers
    }
}

/// The place of the lowest bit set above the register's bits, from 1, and at most 51.
fn rank(h: u64) -> u8
    ensures { result ≡ rank_of h }
{
    (((h >> REGISTER_BITS) | (1 << 50)).trailing_zeros() + 1) as u8
}

/// A sketch of a set of hashes. Contracts see its registers.
#[derive(Debug, Drop)]
pub struct CardinalitySketch {
    sketch: HyperLogLog,
}

impl Model for CardinalitySketch {
    ghost use Rattle.std.specs.Prelude.{ℕ, List};

    ghost Value = { List ℕ };

    ghost view = { λ s. s.sketch };
}

impl CardinalitySketch {
    /// All registers are 0.
    pub fn new(alloc: Global) -> Result<Self, AllocError>
        ensures { IfOk result (λ s. s ≡ no_hashes) }
    {
        Ok(CardinalitySketch {
            sketch: HyperLogLog::new(alloc)?,
        })
    }

    /// Takes a hash.
    pub fn insert(&mut self, h: u64)
        ensures { self.new ≡ with_hash self.old h }
    {
        self.sketch.add_hash(h);
    }

    /// Register by register the greatest of both.
    pub fn combine(&mut self, other: &Self)
        ensures { self.new ≡ merged self.old other.now }
    {
        self.sketch.merge(&other.sketch);
    }

    /// The registers.
    pub fn registers(&self) -> &[u8]
        ensures registers { result.now ≡ self.now }
        ensures count { length result.now ≡ 16384 }
    {
        self.sketch.registers()
    }
}
