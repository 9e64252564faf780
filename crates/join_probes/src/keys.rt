//! The keys of a side's rows.
ghost use Rattle.std.specs.Prelude.{◌≡◌, ◌<◌, ◌^◌, Some, map, length, IfOk, IsSome};
ghost use Rattle.std.specs.List.{All};
ghost use Rattle.col_core.specs.Schemas.{field_position};
ghost use Rattle.hash_keys.specs.Views.{keys_of, state_of};
ghost use Rattle.join_probes.specs.Keys.{row_key, AreKnown, HasKey};

use col_core::{Frame, Name, Schema};
use hash_keys::HashKeys;
use key_parts::PlRandomState;
use std::alloc::{AllocError, Global};

/// Where the first column of a name stands in a schema that has one.
fn key_place(schema: &Schema, name: &Name) -> usize
    requires { IsSome (field_position name.now schema.now) }
    ensures { field_position name.now schema.now ≡ Some result }
{
    schema.position(name.as_str()).unwrap()
}

/// Where the columns of some names stand in a schema.
#[tactic(auto, using(crate::proofs::Fields::known_at, crate::proofs::Fields::places_more))]
pub fn key_places(alloc: Global, schema: &Schema, names: &[Name]) -> Result<Vec<usize>, AllocError>
    requires { AreKnown schema.now names.now }
    ensures { IfOk result (λ places.
        map (λ name. field_position name schema.now) names.now ≡ map (λ i. Some i) places.items) }
{
    let mut places = Vec::with_capacity(alloc, names.len())?;
    for name in names {
        places.push(key_place(schema, name))?;
    }
    Ok(places)
}

/// The keys of a frame's rows in columns of some names, hashed under a state.
#[tactic(auto, using(crate::proofs::Sides::side))]
pub(crate) fn side_keys(
    alloc: Global,
    null_equal: bool,
    schema: &Schema,
    names: &[Name],
    frame: &Frame,
    state: PlRandomState,
) -> Result<HashKeys, AllocError>
    requires known { AreKnown schema.now names.now }
    requires same { frame.now.schema ≡ schema.now }
    requires few { length frame.now.rows < 2 ^ 32 }
    ensures keys { IfOk result (λ k.
        keys_of k ≡ map (row_key null_equal schema.now names.now) frame.now.rows) }
    ensures state { IfOk result (λ k. state_of k ≡ state) }
    ensures spelled { IfOk result (λ _. All (HasKey schema.now names.now) frame.now.rows) }
{
    let places = key_places(alloc, schema, names)?;
    HashKeys::from_columns(alloc, frame, &places, state, null_equal)
}
