//! The hash of key bytes.
ghost use Rattle.std.specs.Prelude.{◌≡◌};

/// Under which seed and mask bytes are hashed.
#[derive(Clone, Copy, PartialEq, Eq, Debug)]
pub struct PlRandomState {
    /// Where each hash starts.
    pub seed: u64,
    /// The bits of a hash that are kept. Fewer bits give more keys of one hash.
    pub mask: u64,
}

impl PlRandomState {
    /// The seed of FNV-1a at 64 bits.
    pub const DEFAULT_SEED: u64 = 0xcbf2_9ce4_8422_2325;

    /// All bits are kept.
    pub const DEFAULT_MASK: u64 = u64::MAX;

    /// The seed and the mask that hold where none are given.
    pub const DEFAULT: PlRandomState = PlRandomState {
        seed: Self::DEFAULT_SEED,
        mask: Self::DEFAULT_MASK,
    };

    const PRIME: u64 = 1_099_511_628_211;
}

impl PlRandomState {
    ghost use Rattle.key_parts.specs.Hashes.{hash_of};

    /// The hash of bytes.
    #[tactic(auto, unfolding(crate::specs::Hashes::hash_of))]
    pub fn hash_one(&self, bytes: &[u8]) -> u64
        ensures { result ≡ hash_of self.now bytes.now }
    {
        let mut hash = self.seed;
        for byte in bytes {
            hash = (hash ^ u64::from(*byte)).wrapping_mul(Self::PRIME);
        }
        hash & self.mask
    }
}
