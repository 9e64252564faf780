//! Fields and schemas.
ghost use Rattle.std.specs.List.{All};
ghost use Rattle.col_core.specs.Tables.{field_at};
ghost use Rattle.std.specs.Prelude.{◌≡◌, ◌<◌, [], ◌∷◌, ◌++◌, length, map, IfOk, IfErr, OnOk, OnErr, slice_get, Some};
ghost use Rattle.col_core.specs.Schemas.{field_position, type_named, field_eq, schema_eq};

use crate::data_type::DataType;
use crate::text::Name;
use std::alloc::{AllocError, Global};
use std::marker::Model;

/// A column's name and type.
#[derive(Debug, Drop)]
pub struct Field {
    pub name: Name,
    pub dtype: DataType,
}

/// The fields of a frame, in order. A name may repeat. Contracts see a list of fields.
#[derive(Debug, Drop)]
pub struct Schema {
    fields: Vec<Field>,
}

impl Model for Schema {
    ghost use Rattle.std.specs.Prelude.{List};
    ghost use Rattle.col_core.specs.declared.schema.Field.{Field};

    ghost Value = { List Field };

    ghost view = { λ s. s.fields.items };
}

impl Schema {
    /// No fields yet.
    pub fn new(alloc: Global) -> Schema
        ensures { result ≡ [] }
    {
        Schema {
            fields: Vec::new(alloc),
        }
    }

    /// The schema of fields.
    pub fn from_fields(fields: Vec<Field>) -> Schema
        ensures { result ≡ fields.items }
    {
        Schema { fields }
    }

    /// The number of fields.
    pub fn len(&self) -> usize
        ensures { result ≡ length self.now }
    {
        self.fields.len()
    }

    /// The field at a place.
    pub fn field(&self, i: usize) -> &Field
        requires { i < length self.now }
        ensures { slice_get self.now i ≡ Some result.now }
    {
        &self.fields[i]
    }

    /// All fields, in order.
    pub fn fields(&self) -> &[Field]
        ensures { result.now ≡ self.now }
    {
        &self.fields
    }

    /// Appends a field. For want of memory it is handed back, and the schema is as it was.
    pub fn push(&mut self, field: Field) -> Result<(), Field>
        ensures ok { OnOk result (self.new ≡ self.old ++ field ∷ []) }
        ensures err { OnErr result (self.new ≡ self.old) }
        ensures handed_back { IfErr result (λ x. x ≡ field) }
    {
        match self.fields.push(field) {
            Ok(()) => Ok(()),
            Err(failed) => Err(failed.value),
        }
    }

    /// The place of the first field of a name.
    pub fn position(&self, name: &str) -> Option<usize>
        ensures { result ≡ field_position name.now self.now }
    {
        position_in(&self.fields, name)
    }

    /// The type of the first field of a name.
    pub fn type_of(&self, name: &str) -> Option<DataType>
        ensures { result ≡ type_named name.now self.now }
    {
        for field in self.fields() {
            if field.name.as_str() == name {
                return Some(field.dtype);
            }
        }
        None
    }

    /// Whether two schemas have the same names and types, field by field.
    pub fn is_same(&self, other: &Schema) -> bool
        ensures { result ≡ schema_eq self.now other.now }
    {
        are_same_fields(&self.fields, &other.fields)
    }

    /// Some of the fields, by their places.
    #[tactic(auto, using(crate::proofs::Rows::fields))]
    pub fn select(&self, alloc: Global, places: &[usize]) -> Result<Schema, AllocError>
        requires in_bounds { All (λ i. i < length self.now) places.now }
        ensures { IfOk result (λ s. s ≡ map (field_at self.now) places.now) }
    {
        let mut fields = Vec::with_capacity(alloc, places.len())?;
        for place in places {
            let field = self.field(*place);
            fields.push(Field {
                name: Name::new(alloc, field.name.as_str())?,
                dtype: field.dtype,
            })?;
        }
        Ok(Schema { fields })
    }

    /// An equal schema.
    pub fn try_clone(&self, alloc: Global) -> Result<Schema, AllocError>
        ensures { IfOk result (λ s. s ≡ self.now) }
    {
        let mut fields = Vec::new(alloc);
        for field in self.fields() {
            fields.push(Field {
                name: Name::new(alloc, field.name.as_str())?,
                dtype: field.dtype,
            })?;
        }
        Ok(Schema { fields })
    }
}

fn position_in(fields: &[Field], name: &str) -> Option<usize>
    ensures { result ≡ field_position name.now fields.now }
{
    fields.iter().position(|field| field.name.as_str() == name)
}

fn is_same_field(a: &Field, b: &Field) -> bool
    ensures { result ≡ field_eq a.now b.now }
{
    a.name.as_str() == b.name.as_str() && a.dtype == b.dtype
}

#[tactic(auto, using(list_laws::proofs::Pointwise::place_by_place))]
fn are_same_fields(a: &[Field], b: &[Field]) -> bool
    ensures { result ≡ schema_eq a.now b.now }
{
    if a.len() != b.len() {
        return false;
    }
    for i in 0..a.len() {
        if !is_same_field(&a[i], &b[i]) {
            return false;
        }
    }
    true
}
