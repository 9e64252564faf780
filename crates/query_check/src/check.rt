//! The causes of a refusal, in their order.
ghost use Rattle.std.specs.Prelude.{◌≡◌};
ghost use Rattle.std.specs.Result.{result_err};
ghost use Rattle.reduce_model.specs.Folds.{has_no_sum, is_unsupported};
ghost use Rattle.join_model.specs.ColumnRefs.{ref_type};
ghost use Rattle.join_model.specs.Refusals.{lacks_keys, unsupported_reduction, is_integer, filter_is_unsupported, is_good_plan, is_too_large, checked_refusal};

use crate::columns::{ref_type, unknown_column};
use crate::schemas::schemas_differ;
use col_core::{DataType, Frame};
use join_model::{
    MAX_LIMIT, MAX_MORSEL, MAX_PARTITIONS, MAX_ROWS, MAX_STATES, Plan, Query, QueryError,
    ReductionKind, SIDE_LIMIT,
};

fn lacks_keys(query: &Query) -> bool
    ensures { result ≡ lacks_keys query.now }
{
    query.build_keys.as_slice().is_empty()
        || query.probe_keys.as_slice().is_empty()
        || query.group_keys.as_slice().is_empty()
}

fn has_no_sum(dtype: DataType) -> bool
    ensures { result ≡ has_no_sum dtype }
{
    matches!(
        dtype,
        DataType::Boolean
            | DataType::Int128
            | DataType::Date
            | DataType::Time
            | DataType::Datetime(_)
    )
}

fn is_unsupported(kind: ReductionKind, dtype: DataType) -> bool
    ensures { result ≡ is_unsupported kind dtype }
{
    matches!(kind, ReductionKind::Sum) && has_no_sum(dtype)
}

// The place of the first reduction that there is not.
fn unsupported_reduction(query: &Query) -> Option<usize>
    ensures { result ≡ unsupported_reduction query.now }
{
    let reductions = query.reductions.as_slice();
    reductions.iter().position(|reduction| is_unsupported(
        reduction.kind,
        ref_type(query, &reduction.column),
    ))
}

fn is_integer(dtype: DataType) -> bool
    ensures { result ≡ is_integer dtype }
{
    matches!(
        dtype,
        DataType::Int8
            | DataType::Int16
            | DataType::Int32
            | DataType::Int64
            | DataType::UInt8
            | DataType::UInt16
            | DataType::UInt32
            | DataType::UInt64
    )
}

fn filter_is_unsupported(query: &Query) -> bool
    ensures { result ≡ filter_is_unsupported query.now }
{
    match &query.filter {
        Some(filter) => !is_integer(ref_type(query, &filter.left)),
        None => false,
    }
}

fn is_good_plan(plan: &Plan) -> bool
    ensures { result ≡ is_good_plan plan.now }
{
    (1..=MAX_PARTITIONS).contains(&plan.partitions)
        && (1..=MAX_STATES).contains(&plan.states)
        && (1..=MAX_LIMIT).contains(&plan.limit)
        && (1..=MAX_MORSEL).contains(&plan.morsel)
        && (1..=MAX_ROWS).contains(&plan.rows)
        && plan.pseed % 2 == 1
}

// Whether a side has 2^31 or more frames or rows.
#[tactic(auto, using(crate::proofs::Sides::rows_from_frame))]
fn is_too_large(frames: &[Frame]) -> bool
    ensures { result ≡ is_too_large frames.now }
{
    if frames.len() >= SIDE_LIMIT {
        return true;
    }
    let mut rows = 0;
    for frame in frames {
        if frame.height() >= SIDE_LIMIT - rows {
            return true;
        }
        rows += frame.height();
    }
    false
}

/// Whether a query over these frames is refused before any row is read: the first cause of `checked_refusal`, with its place
/// where it has one. No memory is taken. What is left to refuse is a joined list that is longer than the plan allows.
pub fn check_query(query: &Query, build: &[Frame], probe: &[Frame]) -> Result<(), QueryError>
    ensures first { result_err result ≡ checked_refusal query.now build.now probe.now }
    ensures no_memory { ¬ (result ≡ Err QueryError.Memory) }
{
    if lacks_keys(query) {
        return Err(QueryError::NoKeyColumns);
    }
    if let Some(position) = unknown_column(query) {
        return Err(QueryError::UnknownColumn { position });
    }
    if schemas_differ(query, build, probe) {
        return Err(QueryError::SchemaMismatch);
    }
    if let Some(index) = unsupported_reduction(query) {
        return Err(QueryError::UnsupportedReduction { index });
    }
    if filter_is_unsupported(query) {
        return Err(QueryError::UnsupportedFilter);
    }
    if !is_good_plan(&query.plan) {
        return Err(QueryError::BadPlan);
    }
    if is_too_large(build) || is_too_large(probe) {
        return Err(QueryError::TooLarge);
    }
    Ok(())
}
