//! The schema of joined rows.
ghost use Rattle.std.specs.Prelude.{◌≡◌, ◌++◌, IfOk, OnOk};
ghost use Rattle.join_model.specs.Answers.{joined_schema, prefixed};

use col_core::{Field, Name, Schema};
use join_query::{Query, Side, side_prefix};
use std::alloc::{AllocError, Global};

/// Appends the fields of a schema, each name after a prefix.
fn push_prefixed(
    alloc: Global,
    prefix: &str,
    schema: &Schema,
    fields: &mut Vec<Field>,
) -> Result<(), AllocError>
    ensures { OnOk result (fields.new.items ≡ fields.old.items ++ prefixed prefix.now schema.now) }
{
    for field in schema.fields() {
        fields.push(Field {
            name: Name::joined(alloc, prefix, field.name.as_str())?,
            dtype: field.dtype,
        })?;
    }
    Ok(())
}

/// The schema of joined rows: the probe columns as `probe.x`, and then the build columns as `build.x`.
pub fn joined_schema(alloc: Global, query: &Query) -> Result<Schema, AllocError>
    ensures { IfOk result (λ schema. schema ≡ joined_schema query.now) }
{
    let mut fields = Vec::new(alloc);
    push_prefixed(
        alloc,
        side_prefix(Side::Probe),
        &query.probe_schema,
        &mut fields,
    )?;
    push_prefixed(
        alloc,
        side_prefix(Side::Build),
        &query.build_schema,
        &mut fields,
    )?;
    Ok(Schema::from_fields(fields))
}
