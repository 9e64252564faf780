//! The pairs of a morsel as rows.
ghost use Rattle.std.specs.Prelude.{◌≡◌, map, IfOk};
ghost use Rattle.std.specs.List.{All};
ghost use Rattle.col_core.specs.Tables.{AreWide};
ghost use Rattle.join_model.specs.Answers.{joined_schema};
ghost use Rattle.join_probes.specs.Keys.{AllHave};
ghost use Rattle.join_probes.specs.Probed.{pair_row, IsPair};
ghost use Rattle.pair_rows.specs.Gathered.{probe_place};

use crate::gather::{frame_of_columns, gather};
use col_core::{Frame, IdxSize, RowPlace};
use join_laws::Pair;
use join_query::{Query, Side, side_prefix};
use std::alloc::{AllocError, Global};
use std::slice;

/// The place of a row in the one frame of a morsel.
fn morsel_place(row: IdxSize) -> RowPlace
    ensures { result ≡ record { frame = 0; row = row } }
{
    RowPlace { frame: 0, row }
}

/// The places of the probe rows of pairs, in the one frame of their morsel.
fn probe_places(alloc: Global, pairs: &[Pair]) -> Result<Vec<Option<RowPlace>>, AllocError>
    ensures { IfOk result (λ v. v.items ≡ map probe_place pairs.now) }
{
    pairs
        .iter()
        .map(|pair| pair.probe.map(morsel_place))
        .collect(alloc)
}

/// The places of the build rows of pairs.
fn build_places(alloc: Global, pairs: &[Pair]) -> Result<Vec<Option<RowPlace>>, AllocError>
    ensures { IfOk result (λ v. v.items ≡ map (λ pair. pair.build) pairs.now) }
{
    pairs.iter().map(|pair| pair.build).collect(alloc)
}

/// Tells how wide the rows of frames are. The loop has no effect, and none is compiled.
#[inline(always)]
fn know_wide(frames: &[Frame])
    ensures { All AreWide frames.now }
{
    for frame in frames {
        let _height = frame.height();
    }
}

/// The pairs as rows of the joined schema: the probe columns as `probe.x`, and then the build columns
/// as `build.x`; nulls where a pair lacks a side. Each column is gathered with its type chosen once.
pub fn join_rows(
    alloc: Global,
    query: &Query,
    morsel: &Frame,
    build: &[Frame],
    pairs: &[Pair],
) -> Result<Frame, AllocError>
    requires probe { morsel.now.schema ≡ query.now.probe_schema }
    requires build { AllHave query.now.build_schema build.now }
    requires pairs { All (IsPair morsel.now build.now) pairs.now }
    ensures { IfOk result
        (λ f. f ≡ record {
          schema = joined_schema query.now;
          rows = map (pair_row query.now morsel.now build.now) pairs.now;
        }) }
{
    let _height = morsel.height();
    know_wide(build);
    let morsel = slice::from_ref(morsel);
    let probe_places = probe_places(alloc, pairs)?;
    let build_places = build_places(alloc, pairs)?;
    let mut columns = Vec::new(alloc);
    gather(
        alloc,
        side_prefix(Side::Probe),
        &query.probe_schema,
        morsel,
        &probe_places,
        &mut columns,
    )?;
    gather(
        alloc,
        side_prefix(Side::Build),
        &query.build_schema,
        build,
        &build_places,
        &mut columns,
    )?;
    frame_of_columns(alloc, columns, pairs.len())
}
