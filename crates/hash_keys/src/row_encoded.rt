//! Keys as the bytes of their rows.
ghost use Rattle.std.specs.Prelude.{◌≡◌, ◌<◌, ◌^◌, ◌==◌, map, length, IfOk, IfSome, option_copied};
ghost use Rattle.std.specs.List.{All};
ghost use Rattle.col_arrays.specs.Items.{item_of};
ghost use Rattle.key_parts.specs.Hashes.{hash_of};
ghost use Rattle.hash_keys.specs.Gathered.{keys_at};
ghost use Rattle.hash_keys.specs.Keys.{key_at};

use col_arrays::{BinaryArray, IdxSize};
use key_parts::PlRandomState;
use std::alloc::{AllocError, Global};
use std::marker::Model;

/// Keys of rows as bytes, of which some may be null, with the hash of each. Contracts see the state
/// that they are hashed under, and the list of keys.
#[derive(Debug, Drop)]
pub struct RowEncodedKeys {
    state: PlRandomState,
    hashes: Vec<u64>,
    keys: BinaryArray,
}

impl Model for RowEncodedKeys {
    ghost use Rattle.std.specs.Prelude.{map};
    ghost use Rattle.col_arrays.specs.Items.{item_of};
    ghost use Rattle.hash_keys.specs.Keys.{Keys};
    ghost use Rattle.hash_keys.specs.Hashed.{AreHashed};

    ghost Value = { Keys };

    ghost view = { λ k. record { state = k.state; keys = map item_of k.keys } };

    ghost invariant = { λ k. AreHashed k.state k.hashes.items k.keys };
}

impl RowEncodedKeys {
    /// The items of an array as keys that are hashed under a state. A null's hash is that of the
    /// bytes that are stored for it.
    pub fn from_array(
        alloc: Global,
        random_state: PlRandomState,
        keys: BinaryArray,
    ) -> Result<Self, AllocError>
        requires { length keys < 2 ^ 32 }
        ensures { IfOk result (λ k. k ≡ record { state = random_state; keys = map item_of keys }) }
    {
        let mut hashes = Vec::with_capacity(alloc, keys.len())?;
        for i in 0..keys.len() {
            hashes.push(random_state.hash_one(keys.value(i)))?;
        }
        Ok(RowEncodedKeys {
            state: random_state,
            hashes,
            keys,
        })
    }

    /// The number of keys, nulls among them.
    pub fn len(&self) -> usize
        ensures count { result ≡ length self.now.keys }
        ensures few { result < 2 ^ 32 }
    {
        self.keys.len()
    }

    /// Whether there is no key.
    pub fn is_empty(&self) -> bool
        ensures { result ≡ (length self.now.keys == 0) }
    {
        self.len() == 0
    }

    /// The bytes of a key, or `None` for a null.
    pub fn key(&self, i: usize) -> Option<&[u8]>
        requires { i < length self.now.keys }
        ensures { option_copied result ≡ key_at self.now.keys i }
    {
        self.keys.get(i)
    }

    /// The hash of a key. Nothing is said of a null's.
    pub fn hash(&self, i: usize) -> u64
        requires { i < length self.now.keys }
        ensures { IfSome (key_at self.now.keys i) (λ key. result ≡ hash_of self.now.state key) }
    {
        self.hashes[i]
    }

    /// The state that the keys are hashed under.
    pub fn state(&self) -> PlRandomState
        ensures { result ≡ self.now.state }
    {
        self.state
    }

    /// The keys at indexes, in the order of the indexes.
    pub fn gather(&self, alloc: Global, idxs: &[IdxSize]) -> Result<RowEncodedKeys, AllocError>
        requires in_bounds { All (λ i. i < length self.now.keys) idxs.now }
        requires few { length idxs.now < 2 ^ 32 }
        ensures { IfOk result (λ k. k ≡ record { state = self.now.state; keys = keys_at self.now.keys idxs.now }) }
    {
        let keys = self.keys.take(alloc, idxs)?;
        let mut hashes = Vec::with_capacity(alloc, idxs.len())?;
        for i in idxs {
            hashes.push(self.hashes[*i as usize])?;
        }
        Ok(RowEncodedKeys {
            state: self.state,
            hashes,
            keys,
        })
    }
}
