//! The parts of a request: its sides, the join, columns and reductions.
ghost use Rattle.std.specs.Prelude.{◌≡◌, IfOk, IfErr, Some, option_map};
ghost use Rattle.serde_json.specs.View.{view};
ghost use Rattle.join_request.specs.Parts.{side_of_value, join_of_value, name_on, column_of_text, kind_of_text};
ghost use Rattle.join_request.specs.Refused.{Refuses};

use crate::error::RequestError;
use crate::frames::read_frames;
use crate::from_value::{FromValue, member_or, read_list};
use crate::json::{member, object_named, read_pair, read_text};
use crate::schemas::read_schema;
use col_core::{Frame, List, Name, Schema};
use join_query::{ColumnRef, Reduction, ReductionKind, Side, side_prefix};
use serde_json::Value;
use std::alloc::Global;

/// A side of a request: its schema, and its frames under that schema.
#[derive(Debug, Drop)]
pub struct RequestSide {
    pub schema: Schema,
    pub frames: List<Frame>,
}

/// The names of the key columns of each side, and which rows join and are kept.
#[derive(Debug, Drop)]
pub struct RequestJoin {
    pub build: List<Name>,
    pub probe: List<Name>,
    pub null_equal: bool,
    pub keep_probe: bool,
    pub keep_build: bool,
}

/// The side that a value is.
pub fn read_side(alloc: Global, value: &Value) -> Result<RequestSide, RequestError>
    ensures ok { IfOk result (λ side. side_of_value (view value.now) ≡ Some side) }
    ensures err { IfErr result (Refuses (side_of_value (view value.now))) }
{
    let side = object_named(value, &["schema", "frames"])?;
    let schema = read_schema(alloc, member(side, "schema")?)?;
    let frames = read_frames(alloc, &schema, member(side, "frames")?)?;
    Ok(RequestSide { schema, frames })
}

/// The join that a value is.
pub fn read_join(alloc: Global, value: &Value) -> Result<RequestJoin, RequestError>
    ensures ok { IfOk result (λ join. join_of_value (view value.now) ≡ Some join) }
    ensures err { IfErr result (Refuses (join_of_value (view value.now))) }
{
    let names = ["build", "probe", "null_equal", "keep_probe", "keep_build"];
    let join = object_named(value, &names)?;
    Ok(RequestJoin {
        build: read_list(alloc, member(join, "build")?)?,
        probe: read_list(alloc, member(join, "probe")?)?,
        null_equal: member_or(alloc, join, "null_equal", false)?,
        keep_probe: member_or(alloc, join, "keep_probe", false)?,
        keep_build: member_or(alloc, join, "keep_build", false)?,
    })
}

impl FromValue for Name {
    ghost use Rattle.serde_json.specs.Find.{as_str};

    ghost from_value = { as_str };

    fn from_value(alloc: Global, value: &Value) -> Result<Name, RequestError> {
        Ok(Name::new(alloc, read_text(value)?)?)
    }
}

impl FromValue for ColumnRef {
    ghost use Rattle.join_request.specs.Parts.{column_of_value};

    ghost from_value = { column_of_value };

    fn from_value(alloc: Global, value: &Value) -> Result<ColumnRef, RequestError> {
        column_named(alloc, read_text(value)?)
    }
}

/// The name after the prefix of a side.
fn name_on(side: Side, text: &str) -> Option<&str>
    ensures { option_map (λ name. name.now) result ≡ name_on side text.now }
{
    text.strip_prefix(side_prefix(side))
}

/// The column that a text names, after the prefix of its side.
pub fn column_named(alloc: Global, text: &str) -> Result<ColumnRef, RequestError>
    ensures ok { IfOk result (λ column. column_of_text text.now ≡ Some column) }
    ensures err { IfErr result (Refuses (column_of_text text.now)) }
{
    let (side, name) = if let Some(name) = name_on(Side::Build, text) {
        (Side::Build, name)
    } else if let Some(name) = name_on(Side::Probe, text) {
        (Side::Probe, name)
    } else {
        return Err(RequestError::Shape);
    };
    Ok(ColumnRef {
        side,
        name: Name::new(alloc, name)?,
    })
}

impl FromValue for Reduction {
    ghost use Rattle.join_request.specs.Parts.{reduction_of_value};

    ghost from_value = { reduction_of_value };

    fn from_value(alloc: Global, value: &Value) -> Result<Reduction, RequestError> {
        let (kind, column) = read_pair(value)?;
        Ok(Reduction {
            kind: kind_named(read_text(kind)?)?,
            column: ColumnRef::from_value(alloc, column)?,
        })
    }
}

/// The reduction that a word names.
fn kind_named(text: &str) -> Result<ReductionKind, RequestError>
    ensures ok { IfOk result (λ kind. kind_of_text text.now ≡ Some kind) }
    ensures err { IfErr result (Refuses (kind_of_text text.now)) }
{
    match text {
        "sum" => Ok(ReductionKind::Sum),
        "min" => Ok(ReductionKind::Min),
        "max" => Ok(ReductionKind::Max),
        "first" => Ok(ReductionKind::First),
        "last" => Ok(ReductionKind::Last),
        _ => Err(RequestError::Shape),
    }
}
