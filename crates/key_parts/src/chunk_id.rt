//! Positions of rows in chunks.
ghost use Rattle.std.specs.Prelude.{◌≡◌, ◌<◌, ◌⊎◌, ◌+◌, ◌-◌, ◌*◌, ◌^◌, Some, None, is_none};

use crate::IdxSize;

/// The position of a row in a chunk, or no position, in one word.
#[derive(Clone, Copy, PartialEq, Eq, Debug)]
pub struct ChunkId {
    word: u64,
}

impl ChunkId {
    ghost use Rattle.key_parts.specs.Positions.{position, position_of};

    /// The position of a row in a chunk, which are not both the greatest.
    #[tactic(auto, unfolding(crate::specs::Positions::position, crate::specs::Positions::position_of))]
    pub fn store(chunk: IdxSize, row: IdxSize) -> ChunkId
        requires { (chunk < 2 ^ 32 - 1) ⊎ (row < 2 ^ 32 - 1) }
        ensures { position result ≡ Some (record { chunk = chunk; row = row }) }
    {
        ChunkId {
            word: (u64::from(row) << 32) | u64::from(chunk),
        }
    }

    /// No position.
    #[tactic(auto, unfolding(crate::specs::Positions::position, crate::specs::Positions::position_of))]
    pub fn null() -> ChunkId
        ensures { position result ≡ None }
    {
        ChunkId { word: u64::MAX }
    }

    /// Whether it is no position.
    #[tactic(auto, unfolding(crate::specs::Positions::position, crate::specs::Positions::position_of))]
    pub fn is_null(&self) -> bool
        ensures { result ≡ is_none (position self.now) }
    {
        self.word == u64::MAX
    }

    /// The chunk and the row. Of no position both are the greatest.
    #[tactic(auto, unfolding(crate::specs::Positions::position, crate::specs::Positions::position_of))]
    pub fn extract(&self) -> (IdxSize, IdxSize)
        ensures { position_of (result.1 * 2 ^ 32 + result.0) ≡ position self.now }
    {
        (
            (self.word % 0x1_0000_0000) as IdxSize,
            (self.word / 0x1_0000_0000) as IdxSize,
        )
    }

    /// The word.
    #[tactic(auto, unfolding(crate::specs::Positions::position))]
    pub fn into_inner(self) -> u64
        ensures { position_of result ≡ position self }
    {
        self.word
    }

    /// The position that a word stands for.
    #[tactic(auto, unfolding(crate::specs::Positions::position))]
    pub fn from_inner(word: u64) -> ChunkId
        ensures { position result ≡ position_of word }
    {
        ChunkId { word }
    }
}
