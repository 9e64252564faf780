//! Values of a column, and kept values, that enter kept values one by one.
ghost use Rattle.std.specs.Prelude.{◌≡◌, ◌<◌, ◌≤◌, ◌-◌, ◌^◌, List, length, true, vec_capacity, IsOk, OnOk, OnErr};
ghost use Rattle.std.specs.List.{All, AllZip};
ghost use Rattle.col_core.specs.declared.data_type.DataType.{DataType};
ghost use Rattle.reduce_states.specs.States.{State, start};
ghost use Rattle.reduce_states.specs.Moves.{cut_or_filled, numbered};
ghost use Rattle.reduce_states.specs.Reductions.{Enters, EntersFront, OnesOf, Gathered, Stays, entered_at};
ghost use Rattle.group_reduce.specs.Reducing.{AllFit, of_kind};

use crate::reducer::Reducer;
use col_core::{DataType, IdxSize, Series};
use std::alloc::AllocError;

/// Value `i` enters kept value `group_idxs[i]`. After `Err` a front part has entered.
pub(crate) fn enter_values<R: Reducer>(
    reducer: R,
    kept: &mut Vec<R::Value>,
    values: &Series,
    group_idxs: &[IdxSize],
    seq_id: u64,
) -> Result<(), AllocError>
    requires served { R.serves values.now.dtype ≡ true }
    requires lengths { length values.now.values ≡ length group_idxs.now }
    requires places { All (λ g. g < length kept.old.items) group_idxs.now }
    requires number { seq_id < 2 ^ 64 - 1 }
    requires fit { AllFit R.fits values.now.dtype kept.old.items }
    ensures long { length kept.new.items ≡ length kept.old.items }
    ensures fit { AllFit R.fits values.now.dtype kept.new.items }
    ensures ok { OnOk result ((t : DataType) → Enters (of_kind R.kind t) (AllZip R.stands kept.old.items)
        (OnesOf (of_kind R.kind t) seq_id values.now.values) (AllZip R.stands kept.new.items) group_idxs.now) }
    ensures err { OnErr result ((t : DataType) → EntersFront (of_kind R.kind t) (AllZip R.stands kept.old.items)
        (OnesOf (of_kind R.kind t) seq_id values.now.values) (AllZip R.stands kept.new.items) group_idxs.now) }
    ensures fixed { R.FIXED ≡ true → IsOk result }
{
    for (i, g) in group_idxs.iter().enumerate() {
        reducer.reduce_at(&mut kept[*g as usize], values, i, seq_id + 1)?;
    }
    Ok(())
}

/// All values, in order, enter one kept value. After `Err` it is as it was.
pub(crate) fn enter_group<R: Reducer>(
    reducer: R,
    kept: &mut Vec<R::Value>,
    values: &Series,
    group_idx: IdxSize,
    seq_id: u64,
) -> Result<(), AllocError>
    requires served { R.serves values.now.dtype ≡ true }
    requires place { group_idx < length kept.old.items }
    requires number { seq_id < 2 ^ 64 - 1 }
    requires fit { AllFit R.fits values.now.dtype kept.old.items }
    ensures long { length kept.new.items ≡ length kept.old.items }
    ensures fit { AllFit R.fits values.now.dtype kept.new.items }
    ensures ok { OnOk result ((t : DataType) (xs : List State) → AllZip R.stands kept.old.items xs
        → AllZip R.stands kept.new.items (entered_at (of_kind R.kind t) xs group_idx (numbered seq_id values.now.values))) }
    ensures err { OnErr result (Stays (AllZip R.stands kept.old.items) (AllZip R.stands kept.new.items)) }
    ensures fixed { R.FIXED ≡ true → IsOk result }
{
    reducer.reduce_ca(&mut kept[group_idx as usize], values, seq_id + 1)
}

/// Kept value `i` of others enters kept value `group_idxs[i]`. After `Err` a front part has entered.
pub(crate) fn merge_values<R: Reducer>(
    reducer: R,
    kept: &mut Vec<R::Value>,
    others: &[R::Value],
    dtype: DataType,
    group_idxs: &[IdxSize],
) -> Result<(), AllocError>
    requires lengths { length others.now ≡ length group_idxs.now }
    requires places { All (λ g. g < length kept.old.items) group_idxs.now }
    requires fit { AllFit R.fits dtype kept.old.items }
    requires others_fit { AllFit R.fits dtype others.now }
    ensures long { length kept.new.items ≡ length kept.old.items }
    ensures fit { AllFit R.fits dtype kept.new.items }
    ensures ok { OnOk result (Enters (of_kind R.kind dtype) (AllZip R.stands kept.old.items) (AllZip R.stands others.now) (AllZip R.stands kept.new.items) group_idxs.now) }
    ensures err { OnErr result (EntersFront (of_kind R.kind dtype) (AllZip R.stands kept.old.items) (AllZip R.stands others.now) (AllZip R.stands kept.new.items) group_idxs.now) }
    ensures fixed { R.FIXED ≡ true → IsOk result }
{
    for (i, g) in group_idxs.iter().enumerate() {
        reducer.combine(&mut kept[*g as usize], &others[i])?;
    }
    Ok(())
}

/// Kept value `subset[i]` of others enters kept value `group_idxs[i]`. After `Err` a front part has
/// entered.
pub(crate) fn gather_values<R: Reducer>(
    reducer: R,
    kept: &mut Vec<R::Value>,
    others: &[R::Value],
    dtype: DataType,
    subset: &[IdxSize],
    group_idxs: &[IdxSize],
) -> Result<(), AllocError>
    requires lengths { length subset.now ≡ length group_idxs.now }
    requires from { All (λ g. g < length others.now) subset.now }
    requires places { All (λ g. g < length kept.old.items) group_idxs.now }
    requires fit { AllFit R.fits dtype kept.old.items }
    requires others_fit { AllFit R.fits dtype others.now }
    ensures long { length kept.new.items ≡ length kept.old.items }
    ensures fit { AllFit R.fits dtype kept.new.items }
    ensures ok { OnOk result (Enters (of_kind R.kind dtype) (AllZip R.stands kept.old.items)
        (Gathered (of_kind R.kind dtype) (AllZip R.stands others.now) subset.now) (AllZip R.stands kept.new.items) group_idxs.now) }
    ensures err { OnErr result (EntersFront (of_kind R.kind dtype) (AllZip R.stands kept.old.items)
        (Gathered (of_kind R.kind dtype) (AllZip R.stands others.now) subset.now) (AllZip R.stands kept.new.items) group_idxs.now) }
    ensures fixed { R.FIXED ≡ true → IsOk result }
{
    for (i, g) in group_idxs.iter().enumerate() {
        reducer.combine(&mut kept[*g as usize], &others[subset[i] as usize])?;
    }
    Ok(())
}

/// Cuts kept values off, or adds values that stand for the state of nothing.
pub(crate) fn resize_values<R: Reducer>(
    reducer: R,
    kept: &mut Vec<R::Value>,
    num_groups: IdxSize,
) -> Result<(), AllocError>
    ensures long { OnOk result (length kept.new.items ≡ num_groups) }
    ensures small { length kept.old.items < 2 ^ 32 → length kept.new.items < 2 ^ 32 }
    ensures fit { (t : DataType) → AllFit R.fits t kept.old.items → AllFit R.fits t kept.new.items }
    ensures ok { OnOk result ((t : DataType) (xs : List State) → AllZip R.stands kept.old.items xs
        → AllZip R.stands kept.new.items (cut_or_filled (start R.kind t) xs num_groups)) }
    ensures err { OnErr result (kept.new.items ≡ kept.old.items) }
{
    let held = kept.len();
    let wanted = num_groups as usize;
    if wanted <= held {
        kept.truncate(wanted);
        return Ok(());
    }
    kept.reserve(wanted - held)?;
    fill_values(reducer, kept, num_groups);
    Ok(())
}

/// Adds values that stand for the state of nothing until there are so many, for which there is room.
pub(crate) fn fill_values<R: Reducer>(reducer: R, kept: &mut Vec<R::Value>, num_groups: IdxSize)
    requires fewer { length kept.old.items ≤ num_groups }
    requires room { num_groups ≤ vec_capacity kept.old }
    ensures long { length kept.new.items ≡ num_groups }
    ensures fit { (t : DataType) → AllFit R.fits t kept.old.items → AllFit R.fits t kept.new.items }
    ensures ok { (t : DataType) (xs : List State) → AllZip R.stands kept.old.items xs
        → AllZip R.stands kept.new.items (cut_or_filled (start R.kind t) xs num_groups) }
{
    let held = kept.len();
    let wanted = num_groups as usize;
    for _i in held..wanted {
        kept.push_reserved(reducer.init());
    }
}
