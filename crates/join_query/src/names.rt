//! The texts by which queries and answers name sides and kinds of reductions.
ghost use Rattle.std.specs.Prelude.{◌≡◌};
ghost use Rattle.join_query.specs.Names.{side_prefix, kind_name};

use crate::query::Side;
use reduce_model::ReductionKind;

/// The text before the name of a side's column, as in `build.id`.
pub fn side_prefix(side: Side) -> &'static str
    ensures { result.now ≡ side_prefix side }
{
    match side {
        Side::Build => "build.",
        Side::Probe => "probe.",
    }
}

/// The text of a kind of reduction, as in `sum(probe.amt)`.
pub fn kind_name(kind: ReductionKind) -> &'static str
    ensures { result.now ≡ kind_name kind }
{
    match kind {
        ReductionKind::Sum => "sum",
        ReductionKind::Min => "min",
        ReductionKind::Max => "max",
        ReductionKind::First => "first",
        ReductionKind::Last => "last",
    }
}
