//! Totals that the values of columns are added to.
ghost use Rattle.std.specs.Prelude.{◌≡◌, ◌<◌, ◌^◌, ℕ, ℤ, List, true, false, None, map, length, slice_index_or};
ghost use Rattle.std.specs.List.{All};
ghost use Rattle.col_core.specs.declared.data_type.DataType.{DataType};
ghost use Rattle.col_core.specs.Physical.{IsNumber};
ghost use Rattle.col_core.specs.Tables.{chunk_leaves, chunk_physical, leaves_of};
ghost use Rattle.col_core.specs.Values.{number_leaf, value_at};
ghost use Rattle.reduce_model.specs.declared.kind.ReductionKind.TheVariants.{Sum};
ghost use Rattle.reduce_model.specs.Folds.{has_no_sum};
ghost use Rattle.reduce_states.specs.States.{State, amount, total, start, merge, after};
ghost use Rattle.reduce_states.specs.Moves.{entered, numbered, ones, states_at};
ghost use Rattle.reduce_sum.specs.Sums.{WrapsAs, is_whole, kept_as, total_states};

use crate::types::SumType;
use col_arrays::{Native, PrimitiveArray};
use col_core::{Chunk, IdxSize, Series};

/// The same for the numbers of a chunk of whole numbers, whichever type they have.
macro_rules! with_numbers {
    ($chunk:expr, $numbers:ident => $body:expr) => {
        match $chunk {
            Chunk::I8($numbers) => $body,
            Chunk::I16($numbers) => $body,
            Chunk::I32($numbers) => $body,
            Chunk::I64($numbers) => $body,
            Chunk::I128($numbers) => $body,
            Chunk::U8($numbers) => $body,
            Chunk::U16($numbers) => $body,
            Chunk::U32($numbers) => $body,
            Chunk::U64($numbers) => $body,
            Chunk::Boolean(_) | Chunk::Bytes(_) => unreachable!(),
        }
    };
}

/// The number at a place in the type of the sums, and 0 for a null.
#[inline(always)]
fn number_at<T: SumType, S: Native>(numbers: &PrimitiveArray<S>, i: usize) -> T
    requires place { i < length numbers.now }
    requires fit { All (IsNumber T.fits) (map (number_leaf S.value) numbers.now) }
    ensures { T.value result ≡ amount (value_at (map (number_leaf S.value) numbers.now) i) }
{
    match numbers.get(i) {
        Some(number) => T::from_whole(number.to_whole()),
        None => T::zero(),
    }
}

/// What `number` gives for `i` is added to total `group_idxs[i]`.
fn add_each<T: SumType, F: Fn(usize) -> T + Drop>(
    totals: &mut [T],
    group_idxs: &[IdxSize],
    number: F,
)
    requires places { All (λ g. g < length totals.old) group_idxs.now }
    requires can { (i : ℕ) → i < length group_idxs.now → F.pre number i }
    ensures long { length totals.new ≡ length totals.old }
    ensures entered { (t : DataType) (ys : List State) → WrapsAs T.wrap t → length ys ≡ length group_idxs.now
        → ((i : ℕ) (x : T) → i < length group_idxs.now → F.post number i x → total t (T.value x) ≡ slice_index_or ys i None)
        → total_states T.value t totals.new ≡ entered (start Sum t) (merge Sum t) (total_states T.value t totals.old) group_idxs.now ys }
{
    for (i, g) in group_idxs.iter().enumerate() {
        let total = totals[*g as usize];
        totals[*g as usize] = total.wrapping_add(&number(i));
    }
}

/// Number `i` is added to total `group_idxs[i]`.
fn add_numbers<T: SumType, S: Native>(
    totals: &mut [T],
    numbers: &PrimitiveArray<S>,
    group_idxs: &[IdxSize],
)
    requires lengths { length numbers.now ≡ length group_idxs.now }
    requires places { All (λ g. g < length totals.old) group_idxs.now }
    requires fit { All (IsNumber T.fits) (map (number_leaf S.value) numbers.now) }
    ensures long { length totals.new ≡ length totals.old }
    ensures entered { (t : DataType) (n : ℕ) → WrapsAs T.wrap t
        → total_states T.value t totals.new ≡ entered (start Sum t) (merge Sum t) (total_states T.value t totals.old) group_idxs.now (ones Sum t n (map (number_leaf S.value) numbers.now)) }
{
    let number = |i: usize| -> T
        requires { (i < length numbers.now) × All (IsNumber T.fits) (map (number_leaf S.value) numbers.now) }
        ensures { T.value result ≡ amount (value_at (map (number_leaf S.value) numbers.entry.now) i) }
    { number_at(numbers, i) };
    add_each(totals, group_idxs, number)
}

/// A total to which numbers are added.
fn with_numbers<T: SumType, S: Native>(sum: T, numbers: &PrimitiveArray<S>) -> T
    requires fit { All (IsNumber T.fits) (map (number_leaf S.value) numbers.now) }
    ensures { (t : DataType) (n : ℕ) → WrapsAs T.wrap t
        → total t (T.value result) ≡ after Sum t (total t (T.value sum)) (numbered n (map (number_leaf S.value) numbers.now)) }
{
    let mut sum = sum;
    for i in 0..numbers.len() {
        sum = sum.wrapping_add(&number_at(numbers, i));
    }
    sum
}

/// Value `i` of a chunk is added to total `group_idxs[i]`.
fn add_chunk<T: SumType>(totals: &mut [T], chunk: &Chunk, group_idxs: &[IdxSize])
    requires whole { is_whole (chunk_physical chunk.now) ≡ true }
    requires lengths { length (chunk_leaves chunk.now) ≡ length group_idxs.now }
    requires places { All (λ g. g < length totals.old) group_idxs.now }
    requires fit { All (IsNumber T.fits) (chunk_leaves chunk.now) }
    ensures long { length totals.new ≡ length totals.old }
    ensures entered { (t : DataType) (n : ℕ) → WrapsAs T.wrap t
        → total_states T.value t totals.new ≡ entered (start Sum t) (merge Sum t) (total_states T.value t totals.old) group_idxs.now (ones Sum t n (chunk_leaves chunk.now)) }
{
    with_numbers!(chunk, numbers => add_numbers(totals, numbers, group_idxs))
}

/// A total to which the values of a chunk are added.
fn with_chunk<T: SumType>(sum: T, chunk: &Chunk) -> T
    requires whole { is_whole (chunk_physical chunk.now) ≡ true }
    requires fit { All (IsNumber T.fits) (chunk_leaves chunk.now) }
    ensures { (t : DataType) (n : ℕ) → WrapsAs T.wrap t
        → total t (T.value result) ≡ after Sum t (total t (T.value sum)) (numbered n (chunk_leaves chunk.now)) }
{
    with_numbers!(chunk, numbers => with_numbers(sum, numbers))
}

/// Value `i` of a column is added to total `group_idxs[i]`.
pub(crate) fn add_values<T: SumType>(totals: &mut [T], values: &Series, group_idxs: &[IdxSize])
    requires sums { has_no_sum values.now.dtype ≡ false }
    requires kept { kept_as values.now.dtype ≡ T.kept }
    requires lengths { length values.now.values ≡ length group_idxs.now }
    requires places { All (λ g. g < length totals.old) group_idxs.now }
    ensures long { length totals.new ≡ length totals.old }
    ensures entered { (n : ℕ) → total_states T.value values.now.dtype totals.new
        ≡ entered (start Sum values.now.dtype) (merge Sum values.now.dtype) (total_states T.value values.now.dtype totals.old) group_idxs.now (ones Sum values.now.dtype n values.now.values) }
{
    let mut rest = group_idxs;
    for chunk in values.chunks() {
        let (front, back) = rest.split_at(chunk.len());
        add_chunk(totals, chunk, front);
        rest = back;
    }
}

/// A total to which the values of a column are added.
pub(crate) fn with_values<T: SumType>(sum: T, values: &Series) -> T
    requires sums { has_no_sum values.now.dtype ≡ false }
    requires kept { kept_as values.now.dtype ≡ T.kept }
    ensures { (n : ℕ) → total values.now.dtype (T.value result)
        ≡ after Sum values.now.dtype (total values.now.dtype (T.value sum)) (numbered n values.now.values) }
{
    let mut sum = sum;
    for chunk in values.chunks() {
        sum = with_chunk(sum, chunk);
    }
    sum
}

/// Total `i` of others is added to total `group_idxs[i]`.
pub(crate) fn add_totals<T: SumType>(totals: &mut [T], others: &[T], group_idxs: &[IdxSize])
    requires lengths { length others.now ≡ length group_idxs.now }
    requires places { All (λ g. g < length totals.old) group_idxs.now }
    ensures long { length totals.new ≡ length totals.old }
    ensures entered { (t : DataType) → WrapsAs T.wrap t → total_states T.value t totals.new
        ≡ entered (start Sum t) (merge Sum t) (total_states T.value t totals.old) group_idxs.now (total_states T.value t others.now) }
{
    let number = |i: usize| -> T
        requires { i < length others.now }
        ensures { (t : DataType) → total t (T.value result) ≡ slice_index_or (total_states T.value t others.entry.now) i None }
    { others[i] };
    add_each(totals, group_idxs, number)
}

/// Total `subset[i]` of others is added to total `group_idxs[i]`.
pub(crate) fn add_totals_at<T: SumType>(
    totals: &mut [T],
    others: &[T],
    subset: &[IdxSize],
    group_idxs: &[IdxSize],
)
    requires lengths { length subset.now ≡ length group_idxs.now }
    requires from { All (λ g. g < length others.now) subset.now }
    requires places { All (λ g. g < length totals.old) group_idxs.now }
    ensures long { length totals.new ≡ length totals.old }
    ensures entered { (t : DataType) → WrapsAs T.wrap t → total_states T.value t totals.new
        ≡ entered (start Sum t) (merge Sum t) (total_states T.value t totals.old) group_idxs.now (states_at Sum t (total_states T.value t others.now) subset.now) }
{
    let number = |i: usize| -> T
        requires { (i < length subset.now) × All (λ g. g < length others.now) subset.now }
        ensures { (t : DataType) → total t (T.value result) ≡ slice_index_or (states_at Sum t (total_states T.value t others.entry.now) subset.entry.now) i None }
    { others[subset[i] as usize] };
    add_each(totals, group_idxs, number)
}
