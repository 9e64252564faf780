//! The joined rows that pass the filter.
ghost use Rattle.std.specs.Prelude.{◌≡◌, ◌≤◌, true, false, map, filter, length, slice_index_or, IfOk, IfSome};
ghost use Rattle.std.specs.List.{range_with_len};
ghost use Rattle.std.specs.Simd.Lanes.{zip2};
ghost use Rattle.col_core.specs.declared.leaf.Leaf.TheVariants.{Whole};
ghost use Rattle.col_core.specs.Tables.{chunk_leaves, IsOfKind};
ghost use Rattle.join_query.specs.declared.limits.TheConstants.{MAX_ROWS};
ghost use Rattle.join_model.specs.Answers.{joined_schema};
ghost use Rattle.join_model.specs.ColumnRefs.{ref_type, ref_value};
ghost use Rattle.join_model.specs.Filtered.{holds, literal, operand_value, passes};
ghost use Rattle.join_model.specs.Refusals.{is_integer, literal_type, operand_type, filter_is_unsupported, has_mixed_filter};

use crate::columns::joined_column;
use crate::mask::{compare_chunk_with, compare_chunks};
use col_core::{Bitmap, Chunk, Frame, IdxSize, Series};
use join_query::{Filter, FilterOp, IntLiteral, Operand, Query};
use std::alloc::{AllocError, Global};

// The chunk of a column of one chunk.
#[tactic(auto, using(col_core::proofs::Leaves::ones))]
fn only_chunk(column: &Series) -> Option<&Chunk>
    ensures kind { IfSome result (λ chunk. IsOfKind column.now.dtype chunk.now) }
    ensures values { IfSome result (λ chunk. chunk_leaves chunk.now ≡ column.now.values) }
{
    match column.chunks() {
        [chunk] => Some(chunk),
        _ => None,
    }
}

// The values of all chunks of a column, in one.
fn joined_chunk(alloc: Global, column: &Series) -> Result<Chunk, AllocError>
    ensures kind { IfOk result (IsOfKind column.now.dtype) }
    ensures values { IfOk result (λ chunk. chunk_leaves chunk ≡ column.now.values) }
{
    let mut joined = Chunk::new(alloc, column.dtype().physical());
    for chunk in column.chunks() {
        joined.extend_from_range(chunk, 0, chunk.len())?;
    }
    Ok(joined)
}

// Which values of two columns of one type compare as the operation says.
fn compare_columns(
    alloc: Global,
    op: FilterOp,
    left: &Series,
    right: &Series,
) -> Result<Bitmap, AllocError>
    requires integers { is_integer left.now.dtype ≡ true }
    requires one_type { left.now.dtype ≡ right.now.dtype }
    requires long { length left.now.values ≡ length right.now.values }
    ensures { IfOk result (λ bits. bits ≡ zip2 (holds op) left.now.values right.now.values) }
{
    if let Some(left) = only_chunk(left) {
        if let Some(right) = only_chunk(right) {
            return compare_chunks(alloc, op, left, right);
        }
    }
    let left = joined_chunk(alloc, left)?;
    let right = joined_chunk(alloc, right)?;
    compare_chunks(alloc, op, &left, &right)
}

// Which values of a column compare with a number of its type as the operation says.
fn compare_column_with(
    alloc: Global,
    op: FilterOp,
    left: &Series,
    right: IntLiteral,
) -> Result<Bitmap, AllocError>
    requires { left.now.dtype ≡ literal_type right }
    ensures { IfOk result
        (λ bits. bits ≡ map (λ v. holds op v (Whole (literal right))) left.now.values) }
{
    match only_chunk(left) {
        Some(chunk) => compare_chunk_with(alloc, op, chunk, right),
        None => compare_chunk_with(alloc, op, &joined_chunk(alloc, left)?, right),
    }
}

// Which joined rows pass a filter over columns of one integer type.
fn passing_mask(
    alloc: Global,
    query: &Query,
    filter: &Filter,
    rows: &Frame,
) -> Result<Bitmap, AllocError>
    requires joined { rows.now.schema ≡ joined_schema query.now }
    requires integers { is_integer (ref_type query.now filter.now.left) ≡ true }
    requires one_type { ref_type query.now filter.now.left
        ≡ operand_type query.now filter.now.right }
    ensures { IfOk result
        (λ bits. bits ≡ map (λ row. holds filter.now.op (ref_value query.now filter.now.left row)
        (operand_value query.now filter.now.right row)) rows.now.rows) }
{
    let left = joined_column(query, rows, &filter.left);
    match &filter.right {
        Operand::Column(right) => {
            compare_columns(alloc, filter.op, left, joined_column(query, rows, right))
        }
        Operand::Literal(number) => compare_column_with(alloc, filter.op, left, *number),
    }
}

// A place as the number of a row.
fn row_number(i: usize) -> IdxSize
    requires { i ≤ MAX_ROWS }
    ensures { result ≡ i }
{
    i as IdxSize
}

// The places of the bits that are set, in order.
fn set_places(alloc: Global, bits: &Bitmap) -> Result<Vec<IdxSize>, AllocError>
    requires { length bits.now ≤ MAX_ROWS }
    ensures { IfOk result
        (λ places. places.items ≡ filter (λ i. slice_index_or bits.now i false)
        (range_with_len 0 (length bits.now))) }
{
    let mut places = Vec::new(alloc);
    for i in 0..bits.len() {
        if bits.get(i) {
            places.push(row_number(i))?;
        }
    }
    Ok(places)
}

/// The joined rows that pass the query's filter, in order. Without a filter they are all of them, in
/// a copy.
///
/// The frame has the joined schema of the query, and the filter is over integers of one type, as
/// `check_query` tests.
pub fn filter_rows(alloc: Global, query: &Query, rows: &Frame) -> Result<Frame, AllocError>
    requires joined { rows.now.schema ≡ joined_schema query.now }
    requires integers { filter_is_unsupported query.now ≡ false }
    requires one_type { has_mixed_filter query.now ≡ false }
    requires few { length rows.now.rows ≤ MAX_ROWS }
    ensures { IfOk result
        (λ f. f ≡ record {
          schema = joined_schema query.now;
          rows = filter (passes query.now) rows.now.rows;
        }) }
{
    match &query.filter {
        Some(filter) => {
            let mask = passing_mask(alloc, query, filter, rows)?;
            let places = set_places(alloc, &mask)?;
            rows.take(alloc, &places)
        }
        None => rows.slice(alloc, 0, rows.height()),
    }
}
