//! Which rows of a column compare with another column, or with a number, as an operation says.
ghost use Rattle.std.specs.Prelude.{◌≡◌, ◌<◌, ◌&&◌, false, map, length, slice_index_or, IfOk};
ghost use Rattle.std.specs.Simd.Lanes.{zip2};
ghost use Rattle.col_arrays.specs.Items.{stored, presence};
ghost use Rattle.col_core.specs.declared.leaf.Leaf.TheVariants.{Whole};
ghost use Rattle.col_core.specs.Physical.{physical_of};
ghost use Rattle.col_core.specs.Tables.{chunk_leaves, chunk_physical};
ghost use Rattle.col_core.specs.Values.{number_leaf};
ghost use Rattle.join_model.specs.Filtered.{compares, holds, literal};
ghost use Rattle.join_model.specs.Refusals.{literal_type};
ghost use Rattle.lane_kernels.specs.Positions.{compared_bits, compared_with};
ghost use Rattle.join_pairs.specs.Kernels.{HasKernels};

use col_core::{Bitmap, Chunk, MutableBitmap, Native, PrimitiveArray};
use join_query::{FilterOp, IntLiteral};
use lane_kernels::{TotalEqKernel, TotalOrdKernel};
use std::alloc::{AllocError, Global};

/// The array of a chunk that is of this kind.
macro_rules! array_of {
    ($chunk:expr, $kind:path) => {
        match $chunk {
            $kind(items) => items,
            _ => unreachable!(),
        }
    };
}

// The comparisons of what is stored. `>` and `>=` are `<` and `<=` of the operands in turn.
fn compare_stored<T: Native>(
    alloc: Global,
    op: FilterOp,
    left: &PrimitiveArray<T>,
    right: &PrimitiveArray<T>,
) -> Result<Bitmap, AllocError>
    requires { length left.now ≡ length right.now }
    ensures { IfOk result
        (λ bits. bits ≡ compared_bits (compares op) T.value (stored left.now) (stored right.now)) }
{
    match op {
        FilterOp::Eq => left.tot_eq_kernel(alloc, right),
        FilterOp::Ne => left.tot_ne_kernel(alloc, right),
        FilterOp::Lt => left.tot_lt_kernel(alloc, right),
        FilterOp::Le => left.tot_le_kernel(alloc, right),
        FilterOp::Gt => right.tot_lt_kernel(alloc, left),
        FilterOp::Ge => right.tot_le_kernel(alloc, left),
    }
}

// The comparisons of what is stored with a number.
fn compare_stored_with<T: Native>(
    alloc: Global,
    op: FilterOp,
    left: &PrimitiveArray<T>,
    right: T,
) -> Result<Bitmap, AllocError>
    ensures { IfOk result
        (λ bits. bits ≡ compared_with (compares op) T.value (stored left.now) right) }
{
    match op {
        FilterOp::Eq => left.tot_eq_kernel_broadcast(alloc, &right),
        FilterOp::Ne => left.tot_ne_kernel_broadcast(alloc, &right),
        FilterOp::Lt => left.tot_lt_kernel_broadcast(alloc, &right),
        FilterOp::Le => left.tot_le_kernel_broadcast(alloc, &right),
        FilterOp::Gt => left.tot_gt_kernel_broadcast(alloc, &right),
        FilterOp::Ge => left.tot_ge_kernel_broadcast(alloc, &right),
    }
}

// Whether a bit is set in both bitmaps.
fn is_set_in_both(a: &Bitmap, b: &Bitmap, i: usize) -> bool
    requires a { i < length a.now }
    requires b { i < length b.now }
    ensures { result ≡ (slice_index_or a.now i false && slice_index_or b.now i false) }
{
    a.get(i) && b.get(i)
}

// The bits that are set in both bitmaps.
#[tactic(auto, using(crate::proofs::Masks::masking))]
fn both(alloc: Global, a: &Bitmap, b: &Bitmap) -> Result<Bitmap, AllocError>
    requires { length b.now ≡ length a.now }
    ensures { IfOk result (λ bits. bits ≡ zip2 (λ x y. x && y) a.now b.now) }
{
    let mut bits = MutableBitmap::new(alloc);
    bits.reserve(a.len())?;
    for i in 0..a.len() {
        bits.push(is_set_in_both(a, b, i))?;
    }
    Ok(bits.freeze())
}

// The bits whose items are present.
#[tactic(auto, using(crate::proofs::Masks::masking))]
fn where_present<T: Native>(
    alloc: Global,
    bits: Bitmap,
    items: &PrimitiveArray<T>,
) -> Result<Bitmap, AllocError>
    requires { length items.now ≡ length bits }
    ensures { IfOk result (λ kept. kept ≡ zip2 (λ x y. x && y) bits (presence items.now)) }
{
    match items.validity() {
        Some(validity) => both(alloc, &bits, validity),
        None => Ok(bits),
    }
}

// The comparisons of the items of two arrays. A null fails each.
#[tactic(auto, using(crate::proofs::Masks::masking))]
fn compare_arrays<T: Native>(
    alloc: Global,
    op: FilterOp,
    left: &PrimitiveArray<T>,
    right: &PrimitiveArray<T>,
) -> Result<Bitmap, AllocError>
    requires { length left.now ≡ length right.now }
    ensures { IfOk result
        (λ bits. bits ≡ zip2 (holds op) (map (number_leaf T.value) left.now)
        (map (number_leaf T.value) right.now)) }
{
    let stored = compare_stored(alloc, op, left, right)?;
    let bits = where_present(alloc, stored, left)?;
    where_present(alloc, bits, right)
}

// The comparisons of the items of an array with a number. A null fails each.
#[tactic(auto, using(crate::proofs::Masks::masking))]
fn compare_array_with<T: Native>(
    alloc: Global,
    op: FilterOp,
    left: &PrimitiveArray<T>,
    right: T,
) -> Result<Bitmap, AllocError>
    ensures { IfOk result
        (λ bits. bits ≡ map (λ v. holds op v (Whole (T.value right)))
        (map (number_leaf T.value) left.now)) }
{
    let stored = compare_stored_with(alloc, op, left, right)?;
    where_present(alloc, stored, left)
}

/// Which values of two chunks of one kind compare as the operation says, place by place. A null
/// compares with nothing.
pub fn compare_chunks(
    alloc: Global,
    op: FilterOp,
    left: &Chunk,
    right: &Chunk,
) -> Result<Bitmap, AllocError>
    requires kernels { HasKernels (chunk_physical left.now) }
    requires kind { chunk_physical left.now ≡ chunk_physical right.now }
    requires long { length (chunk_leaves left.now) ≡ length (chunk_leaves right.now) }
    ensures { IfOk result
        (λ bits. bits ≡ zip2 (holds op) (chunk_leaves left.now) (chunk_leaves right.now)) }
{
    match left {
        Chunk::I8(left) => compare_arrays(alloc, op, left, array_of!(right, Chunk::I8)),
        Chunk::I16(left) => compare_arrays(alloc, op, left, array_of!(right, Chunk::I16)),
        Chunk::I32(left) => compare_arrays(alloc, op, left, array_of!(right, Chunk::I32)),
        Chunk::I64(left) => compare_arrays(alloc, op, left, array_of!(right, Chunk::I64)),
        Chunk::U8(left) => compare_arrays(alloc, op, left, array_of!(right, Chunk::U8)),
        Chunk::U16(left) => compare_arrays(alloc, op, left, array_of!(right, Chunk::U16)),
        Chunk::U32(left) => compare_arrays(alloc, op, left, array_of!(right, Chunk::U32)),
        Chunk::U64(left) => compare_arrays(alloc, op, left, array_of!(right, Chunk::U64)),
        _ => unreachable!(),
    }
}

/// Which values of a chunk compare with a number of its type as the operation says. A null compares
/// with nothing.
pub fn compare_chunk_with(
    alloc: Global,
    op: FilterOp,
    left: &Chunk,
    right: IntLiteral,
) -> Result<Bitmap, AllocError>
    requires kind { chunk_physical left.now ≡ physical_of (literal_type right) }
    ensures { IfOk result
        (λ bits. bits ≡ map (λ v. holds op v (Whole (literal right))) (chunk_leaves left.now)) }
{
    match right {
        IntLiteral::I8(z) => compare_array_with(alloc, op, array_of!(left, Chunk::I8), z),
        IntLiteral::I16(z) => compare_array_with(alloc, op, array_of!(left, Chunk::I16), z),
        IntLiteral::I32(z) => compare_array_with(alloc, op, array_of!(left, Chunk::I32), z),
        IntLiteral::I64(z) => compare_array_with(alloc, op, array_of!(left, Chunk::I64), z),
        IntLiteral::U8(n) => compare_array_with(alloc, op, array_of!(left, Chunk::U8), n),
        IntLiteral::U16(n) => compare_array_with(alloc, op, array_of!(left, Chunk::U16), n),
        IntLiteral::U32(n) => compare_array_with(alloc, op, array_of!(left, Chunk::U32), n),
        IntLiteral::U64(n) => compare_array_with(alloc, op, array_of!(left, Chunk::U64), n),
    }
}
