//! Local states of a query, without groups.
ghost use Rattle.std.specs.Prelude.{◌≡◌, [], None, false, map, length, IfOk};
ghost use Rattle.list_laws.specs.Each.{Each};
ghost use Rattle.reduce_model.specs.Folds.{is_unsupported};
ghost use Rattle.any_reduce.specs.Kinds.{any_shape, any_holds};
ghost use Rattle.group_locals.specs.Locals.{LocalsFit};
ghost use Rattle.group_locals.specs.History.{LocalHolds};
ghost use Rattle.join_model.specs.ColumnRefs.{ref_type};
ghost use Rattle.join_model.specs.Refusals.{lacks_keys, unsupported_reduction};
ghost use Rattle.join_groups.specs.Keyed.{grouping_of_query, shape_of};

use crate::keys::{group_fields, plan_state};
use any_reduce::{AnyReduction, new_reduction};
use col_core::{List, Schema};
use group_locals::LocalState;
use join_query::{Query, Reduction};
use key_groups::new_hash_grouper;
use query_check::ref_type;
use std::alloc::{AllocError, Global};

/// A reduction that there is, without groups.
fn new_supported(alloc: Global, query: &Query, reduction: &Reduction) -> AnyReduction
    requires { is_unsupported reduction.now.kind (ref_type query.now reduction.now.column) ≡ false }
    ensures { any_shape result ≡ shape_of query.now reduction.now }
{
    match new_reduction(alloc, reduction.kind, ref_type(query, &reduction.column)) {
        Ok(made) => made,
        Err(_) => unreachable!(),
    }
}

/// A query's reductions, without groups.
fn new_reductions(alloc: Global, query: &Query) -> Result<List<AnyReduction>, AllocError>
    requires supported { unsupported_reduction query.now ≡ None }
    ensures { IfOk result (λ v. map any_shape v ≡ map (shape_of query.now) query.now.reductions) }
{
    let mut reductions = Vec::with_capacity(alloc, query.reductions.len())?;
    for reduction in query.reductions.as_slice() {
        reductions.push(new_supported(alloc, query, reduction))?;
    }
    Ok(List::from_vec(reductions))
}

/// As many local states as the plan says, without groups.
pub fn new_locals(alloc: Global, query: &Query) -> Result<Vec<LocalState<AnyReduction>>, AllocError>
    requires keys { lacks_keys query.now ≡ false }
    requires supported { unsupported_reduction query.now ≡ None }
    ensures count { IfOk result (λ v. length v.items ≡ query.now.plan.states) }
    ensures fit { IfOk result (λ v. LocalsFit any_shape (grouping_of_query query.now) v.items) }
    ensures new { IfOk result (λ v. Each (LocalHolds any_holds (grouping_of_query query.now) [])
        v.items) }
{
    let schema = Schema::from_fields(group_fields(alloc, query)?);
    let grouper = new_hash_grouper(alloc, schema, plan_state(query))?;
    let reductions = new_reductions(alloc, query)?;
    group_locals::new_locals(alloc, &grouper, &reductions, query.plan.states as usize)
}
