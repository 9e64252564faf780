//! Four items and four bits in two parts.
use col_arrays::{Bitmap, MutableBitmap};
use group_parts::{partition_mask, partition_vec, partition_vec_mask};
use std::alloc::{AllocError, Global};

/// Of each item and bit the part: the second, the first, the second, the first.
const PARTS: [u32; 4] = [1, 0, 1, 0];

fn items(alloc: Global) -> Result<Vec<u8>, AllocError> {
    Ok(vec![in alloc; b'a', b'b', b'c', b'd']?)
}

fn bits(alloc: Global) -> Result<Bitmap, AllocError> {
    let mut bits = MutableBitmap::new(alloc);
    for bit in [true, false, true, true] {
        bits.push(bit)?;
    }
    Ok(bits.freeze())
}

/// Whether a mask has two bits, and these.
fn are_bits(mask: &MutableBitmap, first: bool, second: bool) -> bool {
    mask.len() == 2 && mask.get(0) == first && mask.get(1) == second
}

fn lists_are_dealt(alloc: Global) -> Result<bool, AllocError> {
    let items = items(alloc)?;
    if items.len() != 4 {
        return Ok(false);
    }
    match partition_vec(alloc, items, &[2, 2], &PARTS) {
        Ok(lists) => Ok(
            lists.len() == 2
                && lists[0].as_slice() == b"bd".as_slice()
                && lists[1].as_slice() == b"ac".as_slice(),
        ),
        Err(_) => Err(AllocError),
    }
}

fn masks_are_dealt(alloc: Global) -> Result<bool, AllocError> {
    let bits = bits(alloc)?;
    if bits.len() != 4 {
        return Ok(false);
    }
    let masks = partition_mask(alloc, &bits, &[2, 2], &PARTS)?;
    Ok(masks.len() == 2 && are_bits(&masks[0], false, true) && are_bits(&masks[1], true, true))
}

fn pairs_are_dealt(alloc: Global) -> Result<bool, AllocError> {
    let items = items(alloc)?;
    let bits = bits(alloc)?;
    if items.len() != 4 || bits.len() != 4 {
        return Ok(false);
    }
    match partition_vec_mask(alloc, items, &bits, &[2, 2], &PARTS) {
        Ok(pairs) => Ok(
            pairs.len() == 2
                && pairs[0].0.as_slice() == b"bd".as_slice()
                && are_bits(&pairs[0].1, false, true)
                && pairs[1].0.as_slice() == b"ac".as_slice()
                && are_bits(&pairs[1].1, true, true),
        ),
        Err(_) => Err(AllocError),
    }
}

#[test]
fn lists(rt: HostRuntime) -> Result<(), AllocError> {
    assert!(rt; lists_are_dealt(rt.alloc())?);
    Ok(())
}

#[test]
fn masks(rt: HostRuntime) -> Result<(), AllocError> {
    assert!(rt; masks_are_dealt(rt.alloc())?);
    Ok(())
}

#[test]
fn lists_with_masks(rt: HostRuntime) -> Result<(), AllocError> {
    assert!(rt; pairs_are_dealt(rt.alloc())?);
    Ok(())
}
