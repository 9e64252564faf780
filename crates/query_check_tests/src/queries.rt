//! A query, and what differs in others.
use col_core::{DataType, Field, List, Name, Schema};
use join_model::{
    ColumnRef, DEFAULT_PLAN, Filter, FilterOp, Operand, Plan, Query, Reduction, ReductionKind, Side,
};
use std::alloc::Global;
use std::test::Fail;

fn schema(alloc: Global, fields: &[(&str, DataType)]) -> Result<Schema, Fail> {
    let mut list = Vec::new(alloc);
    for (name, dtype) in fields {
        list.push(Field {
            name: Name::new(alloc, *name)?,
            dtype: *dtype,
        })?;
    }
    Ok(Schema::from_fields(list))
}

fn names(alloc: Global, name: &str) -> Result<List<Name>, Fail> {
    let mut list = Vec::new(alloc);
    list.push(Name::new(alloc, name)?)?;
    Ok(List::from_vec(list))
}

fn column(alloc: Global, side: Side, name: &str) -> Result<ColumnRef, Fail> {
    Ok(ColumnRef {
        side,
        name: Name::new(alloc, name)?,
    })
}

fn reductions(alloc: Global, kind: ReductionKind, name: &str) -> Result<List<Reduction>, Fail> {
    let mut list = Vec::new(alloc);
    list.push(Reduction {
        kind,
        column: column(alloc, Side::Probe, name)?,
    })?;
    Ok(List::from_vec(list))
}

fn probe_schema(alloc: Global, amount: DataType) -> Result<Schema, Fail> {
    schema(alloc, &[("cust", DataType::Int64), ("amt", amount)])
}

/// The orders of each customer's name, added up.
pub fn query(alloc: Global) -> Result<Query, Fail> {
    let mut group_keys = Vec::new(alloc);
    group_keys.push(column(alloc, Side::Build, "name")?)?;
    Ok(Query {
        build_schema: schema(
            alloc,
            &[("id", DataType::Int64), ("name", DataType::String)],
        )?,
        probe_schema: probe_schema(alloc, DataType::Int64)?,
        build_keys: names(alloc, "id")?,
        probe_keys: names(alloc, "cust")?,
        null_equal: false,
        keep_probe: false,
        keep_build: false,
        filter: None,
        group_keys: List::from_vec(group_keys),
        reductions: reductions(alloc, ReductionKind::Sum, "amt")?,
        plan: DEFAULT_PLAN,
    })
}

// Whether the name is the name.
fn name_filter(alloc: Global) -> Result<Filter, Fail> {
    Ok(Filter {
        op: FilterOp::Eq,
        left: column(alloc, Side::Build, "name")?,
        right: Operand::Column(column(alloc, Side::Build, "name")?),
    })
}

/// What differs in a query.
#[derive(Clone, Copy, Debug)]
pub enum Change {
    Nothing,
    NoGroup,
    BuildKey(&'static str),
    Sum(&'static str),
    Least,
    AmountType(DataType),
    NameFilter,
    KeepProbe,
    Plan(Plan),
}

/// Changes a query.
pub fn make_change(alloc: Global, query: &mut Query, change: Change) -> Result<(), Fail> {
    match change {
        Change::Nothing => {}
        Change::NoGroup => query.group_keys = List::new(alloc),
        Change::BuildKey(name) => query.build_keys = names(alloc, name)?,
        Change::Sum(name) => query.reductions = reductions(alloc, ReductionKind::Sum, name)?,
        Change::Least => query.reductions = reductions(alloc, ReductionKind::Min, "amt")?,
        Change::AmountType(dtype) => query.probe_schema = probe_schema(alloc, dtype)?,
        Change::NameFilter => query.filter = Some(name_filter(alloc)?),
        Change::KeepProbe => query.keep_probe = true,
        Change::Plan(plan) => query.plan = plan,
    }
    Ok(())
}
