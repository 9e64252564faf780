//! Rows dealt to partitions.
ghost use Rattle.std.specs.Prelude.{◌≡◌, ◌<◌, ◌^◌, map, length, IfOk, OnOk};
ghost use Rattle.hash_keys.specs.Views.{keys_of, state_of};
ghost use Rattle.key_parts.specs.Partitions.{partition_of};
ghost use Rattle.join_laws.specs.Partitions.{deals};

use hash_keys::HashKeys;
use key_parts::{HashPartitioner, IdxSize};
use std::alloc::{AllocError, Global};

/// Lists of rows, all empty.
pub(crate) fn empty_lists(alloc: Global, count: usize) -> Result<Vec<Vec<IdxSize>>, AllocError>
    ensures { IfOk result (λ v. length v.items ≡ count) }
{
    let mut lists = Vec::new(alloc);
    for _i in 0..count {
        lists.push(Vec::new(alloc))?;
    }
    Ok(lists)
}

/// The rows of each partition, in their order, in place of what the lists had. Null keys go to
/// partition 0.
pub(crate) fn deal(
    keys: &HashKeys,
    partitioner: &HashPartitioner,
    lists: &mut Vec<Vec<IdxSize>>,
) -> Result<(), AllocError>
    requires { length lists.old.items ≡ partitioner.now.partitions }
    ensures rows { OnOk result (map (λ v. v.items) lists.new.items
        ≡ deals (partition_of (state_of keys.now) partitioner.now) partitioner.now.partitions
        (keys_of keys.now)) }
    ensures lists { length lists.new.items ≡ length lists.old.items }
{
    keys.gen_partition_idxs(partitioner, lists, &mut [], true)
}
