//! The query.
ghost use Rattle.std.specs.Prelude.{◌≡◌, [], ◌∷◌, map, codes, IfOk};
ghost use Rattle.join_generator.specs.Generated.{amount_reduction, generated_query};

use crate::fields::number_fields;
use col_core::{List, Name};
use join_model::{ColumnRef, DEFAULT_PLAN, Query, Reduction, ReductionKind, Side};
use std::alloc::{AllocError, Global};

fn id_key(alloc: Global) -> Result<List<Name>, AllocError>
    ensures { IfOk result (λ keys. keys ≡ codes "id" ∷ []) }
{
    let id = Name::new(alloc, "id")?;
    Ok(List::from_vec(vec![in alloc; id]?))
}

fn column_of(alloc: Global, side: Side, name: &str) -> Result<ColumnRef, AllocError>
    ensures { IfOk result (λ column. column ≡ record { side = side; name = name.now }) }
{
    Ok(ColumnRef {
        side,
        name: Name::new(alloc, name)?,
    })
}

fn group_key(alloc: Global) -> Result<List<ColumnRef>, AllocError>
    ensures { IfOk result (λ keys. keys ≡ record { side = Side.Build; name = codes "grp" } ∷ []) }
{
    let group = column_of(alloc, Side::Build, "grp")?;
    Ok(List::from_vec(vec![in alloc; group]?))
}

/// A reduction of the amounts for each kind.
fn amount_reductions(alloc: Global, kinds: &[ReductionKind]) -> Result<List<Reduction>, AllocError>
    ensures { IfOk result (λ made. made ≡ map amount_reduction kinds.now) }
{
    let mut made = Vec::with_capacity(alloc, kinds.len())?;
    for kind in kinds {
        let column = column_of(alloc, Side::Probe, "amt")?;
        made.push(Reduction {
            kind: *kind,
            column,
        })?;
    }
    Ok(List::from_vec(made))
}

/// The reductions of the amounts of each kind.
fn all_reductions(alloc: Global) -> Result<List<Reduction>, AllocError>
    ensures { IfOk result (λ made. made ≡ generated_query.reductions) }
{
    let kinds = [
        ReductionKind::Sum,
        ReductionKind::Min,
        ReductionKind::Max,
        ReductionKind::First,
        ReductionKind::Last,
    ];
    amount_reductions(alloc, &kinds)
}

/// The query of a generated input: all rows of both sides are kept, and each kind of reduction of the
/// amounts is asked for in each group of the build side.
pub fn generated_query(alloc: Global) -> Result<Query, AllocError>
    ensures { IfOk result (λ query. query ≡ generated_query) }
{
    let build_schema = number_fields(alloc, "id", "grp")?;
    let probe_schema = number_fields(alloc, "id", "amt")?;
    let build_keys = id_key(alloc)?;
    let probe_keys = id_key(alloc)?;
    let group_keys = group_key(alloc)?;
    let reductions = all_reductions(alloc)?;
    Ok(Query {
        build_schema,
        probe_schema,
        build_keys,
        probe_keys,
        null_equal: false,
        keep_probe: true,
        keep_build: true,
        filter: None,
        group_keys,
        reductions,
        plan: DEFAULT_PLAN,
    })
}
