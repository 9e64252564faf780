//! Columns of given chunks: which are refused, and values over several chunks.
ghost use Rattle.std.specs.Prelude.{◌≡◌, length, IfOk};
ghost use Rattle.col_core.specs.Tables.{leaves_of, chunk_leaves};

use crate::values::expect_values;
use col_core::{BinaryArray, Chunk, ColumnError, DataType, LeafRef, Name, PrimitiveArray, Series};
use std::alloc::{AllocError, Global};
use std::test::Fail;

/// One item of bytes that are no UTF-8, or a null over them.
fn no_text(alloc: Global, present: bool) -> Result<Chunk, AllocError> {
    let mut bytes = BinaryArray::new(alloc);
    bytes.push(&[0xff], present)?;
    Ok(Chunk::Bytes(bytes))
}

/// Why one chunk of such an item makes no column of a type.
#[tactic(auto, using(crate::proofs::Guards::one_chunk))]
fn refusal(
    alloc: Global,
    dtype: DataType,
    present: bool,
) -> Result<Option<ColumnError>, AllocError> {
    let chunk = no_text(alloc, present)?;
    let _items = chunk.len();
    let chunks = vec![in alloc; chunk]?;
    Ok(Series::new(alloc, Name::new(alloc, "c")?, dtype, chunks).err())
}

#[test]
fn refused_chunks(rt: HostRuntime) -> Result<(), AllocError> {
    let rows = [
        (DataType::String, true, Some(ColumnError::NotUtf8)),
        (DataType::String, false, None),
        (DataType::Binary, true, None),
        (DataType::Int8, true, Some(ColumnError::WrongPhysical)),
    ];
    for (dtype, present, wanted) in rows {
        assert!(rt; refusal(rt.alloc(), dtype, present)? == wanted);
    }
    Ok(())
}

/// One number, or a null over it.
fn one_number(alloc: Global, number: i32, present: bool) -> Result<Chunk, AllocError>
    ensures { IfOk result (λ chunk. length (chunk_leaves chunk) ≡ 1) }
{
    let mut numbers = PrimitiveArray::new(alloc);
    numbers.push(number, present)?;
    Ok(Chunk::I32(numbers))
}

/// The number 3, and a null: two chunks.
fn two_chunks(alloc: Global) -> Result<Vec<Chunk>, AllocError>
    ensures { IfOk result (λ chunks. length (leaves_of chunks.items) ≡ 2) }
{
    let first = one_number(alloc, 3, true)?;
    let second = one_number(alloc, 5, false)?;
    Ok(vec![in alloc; first, second]?)
}

/// The days 3 and null, which lie in two chunks.
pub fn days(alloc: Global) -> Result<Series, Fail> {
    let name = Name::new(alloc, "day")?;
    let chunks = two_chunks(alloc)?;
    Ok(
        Series::new(alloc, name, DataType::Date, chunks)
            .ok()
            .ok_or("no column")?,
    )
}

#[test]
fn values_of_two_chunks(rt: HostRuntime) -> Result<(), Fail> {
    let days = days(rt.alloc())?;
    assert!(rt; days.null_count() == 1);
    expect_values(&rt, &days, &[LeafRef::Whole(3), LeafRef::Null]);
    let whole = days.rechunk(rt.alloc())?;
    assert!(rt; whole.chunks().len() == 1);
    expect_values(&rt, &whole, &[LeafRef::Whole(3), LeafRef::Null]);
    Ok(())
}
