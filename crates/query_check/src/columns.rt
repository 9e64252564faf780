//! The columns that a query names: their types, and the first that its side lacks.
ghost use Rattle.std.specs.Prelude.{◌≡◌, ◌+◌, ◌<◌, ◌≤◌, ◌^◌, length, position, IfSome};
ghost use Rattle.std.specs.Option.{option_map, option_or};
ghost use Rattle.join_model.specs.ColumnRefs.{schema_of, type_under, ref_type, is_unknown, filter_columns};
ghost use Rattle.join_model.specs.Refusals.{unknown_column};

use col_core::{DataType, Name, Schema};
use join_model::{ColumnRef, Filter, Operand, Query, Reduction, Side};

/// The schema of a side.
fn schema_of(query: &Query, side: Side) -> &Schema
    ensures { result.now ≡ schema_of query.now side }
{
    match side {
        Side::Build => &query.build_schema,
        Side::Probe => &query.probe_schema,
    }
}

/// The type of the first column of a name. A schema without such a column gives `Binary`.
pub fn type_under(schema: &Schema, name: &Name) -> DataType
    ensures { result ≡ type_under schema.now name.now }
{
    match schema.type_of(name.as_str()) {
        Some(dtype) => dtype,
        None => DataType::Binary,
    }
}

/// The type of a column. One that its side lacks gives `Binary`.
pub fn ref_type(query: &Query, column: &ColumnRef) -> DataType
    ensures { result ≡ ref_type query.now column.now }
{
    type_under(schema_of(query, column.side), &column.name)
}

fn has_no_column(query: &Query, side: Side, name: &Name) -> bool
    ensures { result ≡ is_unknown query.now (record { side = side; name = name.now }) }
{
    schema_of(query, side).type_of(name.as_str()).is_none()
}

fn is_unknown(query: &Query, column: &ColumnRef) -> bool
    ensures { result ≡ is_unknown query.now column.now }
{
    has_no_column(query, column.side, &column.name)
}

// The place of the first name that a side lacks.
fn unknown_name(query: &Query, side: Side, names: &[Name]) -> Option<usize>
    ensures place { result ≡ position
        (λ name. is_unknown query.now (record { side = side; name = name })) names.now }
    ensures within { IfSome result (λ i. i < length names.now) }
{
    names
        .iter()
        .position(|name| has_no_column(query, side, name))
}

// The place of the first column that its side lacks.
fn unknown_group(query: &Query, columns: &[ColumnRef]) -> Option<usize>
    ensures place { result ≡ position (is_unknown query.now) columns.now }
    ensures within { IfSome result (λ i. i < length columns.now) }
{
    columns.iter().position(|column| is_unknown(query, column))
}

// The place of the first reduction of a column that its side lacks.
fn unknown_reduction(query: &Query, reductions: &[Reduction]) -> Option<usize>
    ensures place { result ≡ position (λ r. is_unknown query.now r.column) reductions.now }
    ensures within { IfSome result (λ i. i < length reductions.now) }
{
    reductions
        .iter()
        .position(|reduction| is_unknown(query, &reduction.column))
}

// The number of columns that a filter names.
fn filter_width(filter: &Option<Filter>) -> usize
    ensures width { result ≡ length (filter_columns filter.now) }
    ensures most { result ≤ 2 }
{
    match filter {
        None => 0,
        Some(filter) => match filter.right {
            Operand::Column(_) => 2,
            Operand::Literal(_) => 1,
        },
    }
}

// The place of the first column of the filter that its side lacks. A literal has no place.
fn unknown_operand(query: &Query) -> Option<usize>
    ensures place { result ≡ position (is_unknown query.now) (filter_columns query.now.filter) }
    ensures within { IfSome result (λ i. i < 2) }
{
    let filter = query.filter.as_ref()?;
    if is_unknown(query, &filter.left) {
        return Some(0);
    }
    match &filter.right {
        Operand::Column(right) if is_unknown(query, right) => Some(1),
        _ => None,
    }
}

// The first of two places, where the second counts on from so many items.
fn first_of_two(first: Option<usize>, before: usize, second: Option<usize>) -> Option<usize>
    requires { IfSome second (λ i. before + i < 2 ^ 64) }
    ensures { result ≡ option_or first (option_map (λ i. before + i) second) }
{
    match (first, second) {
        (Some(i), _) => Some(i),
        (None, Some(i)) => Some(before + i),
        (None, None) => None,
    }
}

/// The place of the first column that its side lacks, among the build keys, the probe keys, the columns of the filter, the
/// group keys and the columns of the reductions.
pub fn unknown_column(query: &Query) -> Option<usize>
    ensures { result ≡ unknown_column query.now }
{
    let build = query.build_keys.as_slice();
    let probe = query.probe_keys.as_slice();
    let groups = query.group_keys.as_slice();
    let keys = build.len() + probe.len();
    let operands = keys + filter_width(&query.filter);
    let place = unknown_name(query, Side::Build, build);
    let place = first_of_two(place, build.len(), unknown_name(query, Side::Probe, probe));
    let place = first_of_two(place, keys, unknown_operand(query));
    let place = first_of_two(place, operands, unknown_group(query, groups));
    first_of_two(
        place,
        operands + groups.len(),
        unknown_reduction(query, query.reductions.as_slice()),
    )
}
