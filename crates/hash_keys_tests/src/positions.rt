//! Positions in partitions, in the order of the keys.
ghost use Rattle.std.specs.Prelude.{◌≡◌, length};
ghost use Rattle.hash_keys.specs.Views.{keys_of};

use crate::keys::{FO, FOO, NULL, three_keys};
use hash_keys::HashKeys;
use key_parts::{ChunkId, HashPartitioner, IdxSize};
use std::alloc::{AllocError, Global};

/// Appends the positions of three keys under two partitions: two for the first, and one for each other.
fn gather(alloc: Global, keys: &HashKeys, ids: &mut Vec<ChunkId>) -> Result<(), AllocError>
    requires { length (keys_of keys.now) ≡ 3 }
{
    let partitioner = HashPartitioner::new(2, 1);
    keys.gen_partitioned_gather_idxs(alloc, &partitioner, &[2, 1, 1], ids)
}

/// Whether a position is that of a partition and a number in it.
fn is_at(ids: &[ChunkId], i: usize, partition: IdxSize, number: IdxSize) -> bool {
    i < ids.len() && ids[i].extract() == (partition, number)
}

#[test]
fn positions_behind_others(rt: HostRuntime) -> Result<(), AllocError> {
    let keys = three_keys(rt.alloc(), &[FO, FOO, FO])?;
    let mut ids = vec![in rt.alloc(); ChunkId::store(7, 7)]?;
    gather(rt.alloc(), &keys, &mut ids)?;
    assert!(rt; ids.len() == 5);
    for (i, (partition, number)) in [(7, 7), (0, 0), (0, 1), (1, 0), (0, 2)].iter().enumerate() {
        assert!(rt; is_at(&ids, i, *partition, *number));
    }
    Ok(())
}

#[test]
fn positions_of_a_null(rt: HostRuntime) -> Result<(), AllocError> {
    let keys = three_keys(rt.alloc(), &[FOO, NULL, FO])?;
    let mut ids = Vec::new(rt.alloc());
    gather(rt.alloc(), &keys, &mut ids)?;
    assert!(rt; ids.len() == 4);
    for (i, (partition, number)) in [(1, 0), (1, 1), (0, 0), (0, 1)].iter().enumerate() {
        assert!(rt; is_at(&ids, i, *partition, *number));
    }
    Ok(())
}
