//! Arrays and bits of the tests.
use col_arrays::{Bitmap, MutableBitmap, Native, PrimitiveArray};
use std::alloc::{AllocError, Global};

/// An array of numbers and nulls over 0.
pub fn array_of<T: Native>(
    alloc: Global,
    items: &[Option<T>],
) -> Result<PrimitiveArray<T>, AllocError> {
    let mut array = PrimitiveArray::new(alloc);
    for item in items {
        match item {
            Some(value) => array.push(*value, true)?,
            None => array.push_null()?,
        }
    }
    Ok(array)
}

/// A bitmap of bits.
pub fn bitmap_of(alloc: Global, bits: &[bool]) -> Result<Bitmap, AllocError> {
    let mut bitmap = MutableBitmap::new(alloc);
    for bit in bits {
        bitmap.push(*bit)?;
    }
    Ok(bitmap.freeze())
}

/// The bits of an answer as a word, the first lowest.
pub fn word_of(answer: Result<Bitmap, AllocError>) -> Result<u64, AllocError> {
    Ok(answer?.mask().lanes(0))
}
