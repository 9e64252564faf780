//! Partitions of hashes.
ghost use Rattle.std.specs.Prelude.{◌≡◌, ◌<◌, ◌≤◌, ◌%◌};
ghost use Rattle.key_parts.specs.Partitions.{partition_of_hash};

use std::marker::Model;

/// Deals hashes among partitions. Contracts see how many there are, and the factor.
#[derive(Debug, Drop)]
pub struct HashPartitioner {
    num_partitions: usize,
    pseed: u64,
}

impl Model for HashPartitioner {
    ghost use Rattle.key_parts.specs.Partitions.{Partitioner, IsPartitioner};

    ghost Value = { Partitioner };

    ghost view = { λ p. record { partitions = p.num_partitions; factor = p.pseed } };

    ghost invariant = { λ p. IsPartitioner (record { partitions = p.num_partitions; factor = p.pseed }) };
}

impl HashPartitioner {
    /// The factor that holds where none is given.
    pub const DEFAULT_PSEED: u64 = 0x9E37_79B9_7F4A_7C15;

    /// A partitioner among so many partitions, which spreads hashes by an odd factor.
    pub fn new(num_partitions: usize, pseed: u64) -> Self
        requires some { 0 < num_partitions }
        requires few { num_partitions ≤ 65536 }
        requires odd { pseed % 2 ≡ 1 }
        ensures { result ≡ record { partitions = num_partitions; factor = pseed } }
    {
        HashPartitioner {
            num_partitions,
            pseed,
        }
    }

    /// The number of partitions.
    pub fn num_partitions(&self) -> usize
        ensures count { result ≡ self.now.partitions }
        ensures some { 0 < result }
        ensures few { result ≤ 65536 }
    {
        self.num_partitions
    }

    /// The partition of a hash.
    #[tactic(auto, unfolding(crate::specs::Partitions::partition_of_hash))]
    pub fn hash_to_partition(&self, h: u64) -> usize
        ensures partition { result ≡ partition_of_hash self.now h }
        ensures below { result < self.now.partitions }
    {
        ((u128::from(h.wrapping_mul(self.pseed)) * self.num_partitions as u128) >> 64) as usize
    }
}
