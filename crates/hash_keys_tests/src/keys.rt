//! Keys of bytes: their hashes, keys at indexes, and rows dealt to partitions.
ghost use Rattle.std.specs.Prelude.{◌≡◌, length, IfOk};
ghost use Rattle.hash_keys.specs.Views.{keys_of};

use col_core::BinaryArray;
use hash_keys::{HashKeys, RowEncodedKeys};
use key_parts::{HashPartitioner, IdxSize, PlRandomState};
use std::alloc::{AllocError, Global};

/// The bytes of keys, and whether each is present.
type Bytes<'a> = &'a [(&'a [u8], bool)];

fn array(alloc: Global, keys: Bytes<'_>) -> Result<BinaryArray, AllocError> {
    let mut array = BinaryArray::new(alloc);
    for key in keys {
        array.push(key.0, key.1)?;
    }
    Ok(array)
}

/// Three keys of bytes, under the default state.
pub fn three_keys(alloc: Global, keys: Bytes<'_>) -> Result<HashKeys, AllocError>
    ensures { IfOk result (λ k. length (keys_of k) ≡ 3) }
{
    let array = array(alloc, keys)?;
    if array.len() != 3 {
        return Err(AllocError);
    }
    Ok(HashKeys::RowEncoded(RowEncodedKeys::from_array(alloc, PlRandomState::DEFAULT, array)?))
}

/// Of two partitions by the highest bit of the hash, "fo" and nulls are of the first, and "foo" is of the second.
pub const FO: (&[u8], bool) = (b"fo", true);

pub const NULL: (&[u8], bool) = (b"foo", false);

pub const FOO: (&[u8], bool) = (b"foo", true);

const FO_HASH: u64 = 0x0898_5907_b541_d342;

const FOO_HASH: u64 = 0xdcb2_7518_fed9_d577;

/// Whether a key is as wanted, and its hash that of its bytes.
fn is_key(keys: &HashKeys, i: usize, key: Option<&[u8]>, hash: u64) -> bool {
    i < keys.len() && keys.key(i) == key && keys.hash(i) == hash
}

#[test]
fn hashes(rt: HostRuntime) -> Result<(), AllocError> {
    let keys = three_keys(rt.alloc(), &[FO, NULL, FOO])?;
    assert!(rt; !keys.is_empty());
    assert!(rt; is_key(&keys, 0, Some(b"fo"), FO_HASH));
    assert!(rt; is_key(&keys, 1, None, FOO_HASH));
    assert!(rt; is_key(&keys, 2, Some(b"foo"), FOO_HASH));
    Ok(())
}

/// The keys at the places 1 and 0.
fn turned(alloc: Global, keys: &HashKeys) -> Result<HashKeys, AllocError>
    requires { length (keys_of keys.now) ≡ 3 }
{
    keys.gather(alloc, &[1, 0])
}

#[test]
fn gathered_keys(rt: HostRuntime) -> Result<(), AllocError> {
    let keys = three_keys(rt.alloc(), &[FO, NULL, FOO])?;
    let turned = turned(rt.alloc(), &keys)?;
    assert!(rt; turned.len() == 2);
    assert!(rt; is_key(&turned, 0, None, FOO_HASH));
    assert!(rt; is_key(&turned, 1, Some(b"fo"), FO_HASH));
    Ok(())
}

/// Lists, each of one row that no key has.
fn lists(alloc: Global, count: usize) -> Result<Vec<Vec<IdxSize>>, AllocError> {
    let mut lists = Vec::new(alloc);
    for _i in 0..count {
        lists.push(vec![in alloc; 99u32]?)?;
    }
    Ok(lists)
}

/// Deals rows to the partitions of their keys by the highest bits of the hashes.
fn deal(
    keys: &HashKeys,
    lists: &mut Vec<Vec<IdxSize>>,
    partition_nulls: bool,
) -> Result<(), AllocError> {
    if lists.len() == 0 || lists.len() > 2 {
        return Err(AllocError);
    }
    let partitioner = HashPartitioner::new(lists.len(), 1);
    keys.gen_partition_idxs(&partitioner, lists, &mut [], partition_nulls)
}

/// Whether the rows of a partition, the last one, are these.
fn has_rows(
    alloc: Global,
    keys: &HashKeys,
    partitions: usize,
    partition_nulls: bool,
    rows: &[IdxSize],
) -> Result<bool, AllocError> {
    let mut lists = lists(alloc, partitions)?;
    deal(keys, &mut lists, partition_nulls)?;
    match lists.last() {
        Some(list) => Ok(list.as_slice() == rows),
        None => Ok(false),
    }
}

#[test]
fn rows_of_partitions(rt: HostRuntime) -> Result<(), AllocError> {
    let keys = three_keys(rt.alloc(), &[FO, NULL, FOO])?;
    assert!(rt; has_rows(rt.alloc(), &keys, 1, true, &[0, 1, 2])?);
    assert!(rt; has_rows(rt.alloc(), &keys, 1, false, &[0, 2])?);
    assert!(rt; has_rows(rt.alloc(), &keys, 2, true, &[2])?);
    Ok(())
}
