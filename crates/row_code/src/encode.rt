//! Rows as bytes.
ghost use Rattle.std.specs.Prelude.{◌≡◌, ◌<◌, ◌++◌, ℕ, map, length, OnOk, IfOk};
ghost use Rattle.std.specs.List.{All, flat_map, range_with_len};
ghost use Rattle.col_arrays.specs.Items.{all_present};
ghost use Rattle.col_core.specs.declared.leaf.Leaf.TheVariants as leaves;
ghost use Rattle.col_core.specs.Lent.{lent_leaf};
ghost use Rattle.col_core.specs.Physical.{IsKept, physical_of};
ghost use Rattle.col_core.specs.Refusals.{height_of};
ghost use Rattle.col_core.specs.Tables.{selected};
ghost use Rattle.col_core.specs.Values.{value_at, Fits};
ghost use Rattle.row_code.specs.Spelling.{spelling, width_of, whole_bytes, IsShort, IsValueOf, IsRowOf};
ghost use Rattle.row_code.specs.Columns.{table_of, spellings};

use col_arrays::BinaryArray;
use col_core::{DataType, Frame, LeafRef, PhysicalType, Series};
use std::alloc::{AllocError, Global};

/// The bytes of each row of columns of one length, none of them null.
pub fn encode_rows(alloc: Global, columns: &[Series]) -> Result<BinaryArray, AllocError>
    requires { All (λ c. length c.values ≡ height_of columns.now) columns.now }
    ensures items { IfOk result (λ a. a ≡ all_present (spellings (table_of columns.now))) }
    ensures rows { IfOk result (λ _. All (IsRowOf (table_of columns.now).schema) (table_of columns.now).rows) }
{
    let height = height_of(columns);
    let mut lent = Vec::with_capacity(alloc, columns.len())?;
    for column in columns {
        lent.push(column)?;
    }
    encode_lent(alloc, &lent, height)
}

/// The bytes of each row of some columns of a frame, by their places, none of them null.
pub fn encode_columns(
    alloc: Global,
    frame: &Frame,
    places: &[usize],
) -> Result<BinaryArray, AllocError>
    requires { All (λ i. i < length frame.now.schema) places.now }
    ensures items { IfOk result (λ a. a ≡ all_present (spellings (selected places.now frame.now))) }
    ensures rows { IfOk result (λ _. All (IsRowOf (selected places.now frame.now).schema) (selected places.now frame.now).rows) }
{
    let height = frame.height();
    let mut lent = Vec::with_capacity(alloc, places.len())?;
    for place in places {
        lent.push(frame.column(*place))?;
    }
    encode_lent(alloc, &lent, height)
}

fn height_of(columns: &[Series]) -> usize
    ensures { result ≡ height_of columns.now }
{
    match columns {
        [] => 0,
        [first, ..] => first.len(),
    }
}

/// The bytes of each row of columns of a height, one row after the other in one buffer.
fn encode_lent(alloc: Global, columns: &[&Series], height: usize) -> Result<BinaryArray, AllocError>
    requires { All (λ c. length c.now.values ≡ height) columns.now }
    ensures items { IfOk result (λ a. a ≡ all_present (map (λ i. flat_map (λ c. spelling c.now.dtype (value_at c.now.values i)) columns.now) (range_with_len 0 height))) }
    ensures values { IfOk result (λ _. (i : ℕ) → i < height → All (λ c. IsValueOf c.now.dtype (value_at c.now.values i)) columns.now) }
{
    let mut bytes = Vec::new(alloc);
    let mut offsets = Vec::with_capacity(alloc, height.saturating_add(1))?;
    offsets.push(0)?;
    for i in 0..height {
        push_row(&mut bytes, columns, i)?;
        offsets.push(bytes.len() as u64)?;
    }
    Ok(BinaryArray::from_parts(bytes, offsets))
}

/// Appends the bytes of a row of columns.
fn push_row(out: &mut Vec<u8>, columns: &[&Series], i: usize) -> Result<(), AllocError>
    requires { All (λ c. i < length c.now.values) columns.now }
    ensures ok { OnOk result (out.new.items ≡ out.old.items ++ flat_map (λ c. spelling c.now.dtype (value_at c.now.values i)) columns.now) }
    ensures values { OnOk result (All (λ c. IsValueOf c.now.dtype (value_at c.now.values i)) columns.now) }
{
    for column in columns {
        push_value(out, column.dtype(), column.leaf_ref(i))?;
    }
    Ok(())
}

/// Appends the bytes of a value of a type.
#[inline(always)]
fn push_value(out: &mut Vec<u8>, dtype: DataType, value: LeafRef<'_>) -> Result<(), AllocError>
    requires { Fits dtype (lent_leaf value) }
    ensures ok { OnOk result (out.new.items ≡ out.old.items ++ spelling dtype (lent_leaf value.entry)) }
    ensures short { IsShort (lent_leaf value.entry) }
{
    match value {
        LeafRef::Null => {
            out.push(0)?;
        }
        LeafRef::Bool(b) => {
            out.push(1)?;
            out.push(u8::from(b))?;
        }
        LeafRef::Whole(z) => {
            out.push(1)?;
            push_whole(out, dtype, z)?;
        }
        LeafRef::Bytes(b) => {
            let len = b.len() as u64;
            out.push(1)?;
            out.extend_from_slice(&len.to_le_bytes())?;
            out.extend_from_slice(b)?;
        }
    }
    Ok(())
}

/// Appends the bytes of a whole number of a type.
#[inline(always)]
fn push_whole(out: &mut Vec<u8>, dtype: DataType, z: i128) -> Result<(), AllocError>
    requires { Fits dtype (leaves.Whole z) }
    ensures { OnOk result (out.new.items ≡ out.old.items ++ whole_bytes (width_of (physical_of dtype)) z) }
{
    match dtype.physical() {
        PhysicalType::I8 => out.extend_from_slice(&(z as i8).to_le_bytes()),
        PhysicalType::I16 => out.extend_from_slice(&(z as i16).to_le_bytes()),
        PhysicalType::I32 => out.extend_from_slice(&(z as i32).to_le_bytes()),
        PhysicalType::I64 => out.extend_from_slice(&(z as i64).to_le_bytes()),
        PhysicalType::I128 => out.extend_from_slice(&z.to_le_bytes()),
        PhysicalType::U8 => out.extend_from_slice(&(z as u8).to_le_bytes()),
        PhysicalType::U16 => out.extend_from_slice(&(z as u16).to_le_bytes()),
        PhysicalType::U32 => out.extend_from_slice(&(z as u32).to_le_bytes()),
        PhysicalType::U64 => out.extend_from_slice(&(z as u64).to_le_bytes()),
        PhysicalType::Boolean | PhysicalType::Bytes => unreachable!(),
    }
}
