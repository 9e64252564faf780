//! Schemas of two columns of numbers.
ghost use Rattle.std.specs.Prelude.{◌≡◌, [], ◌∷◌, IfOk};
ghost use Rattle.join_generator.specs.Generated.{number_field};

use col_core::{DataType, Field, Name, Schema};
use std::alloc::{AllocError, Global};

fn number_field(alloc: Global, name: &str) -> Result<Field, AllocError>
    ensures { IfOk result (λ f. f ≡ number_field name.now) }
{
    Ok(Field {
        name: Name::new(alloc, name)?,
        dtype: DataType::Int64,
    })
}

/// The schema of two columns of numbers.
pub fn number_fields(alloc: Global, name: &str, other: &str) -> Result<Schema, AllocError>
    ensures { IfOk result (λ s. s ≡ number_field name.now ∷ number_field other.now ∷ []) }
{
    let first = number_field(alloc, name)?;
    let second = number_field(alloc, other)?;
    Ok(Schema::from_fields(vec![in alloc; first, second]?))
}
