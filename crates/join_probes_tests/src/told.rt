//! What is told of small frames: the pairs of a morsel, and the build rows that nothing joins.
ghost use Rattle.std.specs.Prelude.{◌≡◌, ◌<◌, ◌^◌, [], ◌∷◌, false};
ghost use Rattle.join_model.specs.Refusals.{is_too_large};
ghost use Rattle.join_probes.specs.Keys.{AllHave};
ghost use Rattle.join_probes.specs.Probed.{CanJoin};

use crate::sides::{frame, query};
use col_core::{Frame, LeafRef, RowPlace, Series};
use join_model::{Plan, Query};
use join_probes::{Pair, ProbeError, build_tables, probe_morsel, unmatched_rows};
use pair_rows::join_rows;
use query_check::check_query;
use std::alloc::Global;
use std::marker::Brand;
use std::sync::ledger::{Blank, Ledger};
use std::test::Fail;
use step_count::Steps;

/// The build side of each test.
fn build_side(alloc: Global) -> Result<Vec<Frame>, Fail> {
    let mut frames = Vec::new(alloc);
    frames.push(frame(
        alloc,
        &[Some(1), Some(2), None],
        &[Some(10), Some(20), Some(30)],
    )?)?;
    frames.push(frame(alloc, &[Some(1), None], &[Some(11), Some(30)])?)?;
    Ok(frames)
}

/// The morsel of each test, alone.
fn probe_side(alloc: Global) -> Result<Vec<Frame>, Fail> {
    let mut frames = Vec::new(alloc);
    frames.push(frame(
        alloc,
        &[Some(1), Some(3), Some(2), None],
        &[Some(10), Some(20), Some(21), Some(30)],
    )?)?;
    Ok(frames)
}

fn place_text(alloc: Global, place: RowPlace) -> Result<String, Fail> {
    Ok(format!(in alloc; "{}.{} ", place.frame, place.row)?)
}

fn pair_text(alloc: Global, pair: Pair) -> Result<String, Fail> {
    let Some(row) = pair.probe else {
        return Err(Fail::from("a pair without a probe row"));
    };
    match pair.build {
        Some(place) => Ok(format!(in alloc; "{row}-{}.{} ", place.frame, place.row)?),
        None => Ok(format!(in alloc; "{row}-none ")?),
    }
}

/// Each pair as its row and its build row, and after a stroke the build rows that are left.
fn text_of(alloc: Global, pairs: &[Pair], left: &[RowPlace]) -> Result<String, Fail> {
    let mut text = String::new(alloc);
    for pair in pairs {
        text.push_str(pair_text(alloc, *pair)?.as_str())?;
    }
    text.push_str("/ ")?;
    for place in left {
        text.push_str(place_text(alloc, *place)?.as_str())?;
    }
    text.push_str("/ ")?;
    Ok(text)
}

/// Appends a number and a space, or a stroke for a null.
fn push_number(alloc: Global, text: &mut String, value: LeafRef<'_>) -> Result<(), Fail> {
    match value {
        LeafRef::Whole(number) => Ok(text.push_str(format!(in alloc; "{number} ")?.as_str())?),
        _ => Ok(text.push_str("- ")?),
    }
}

/// Appends the columns of joined rows, one after the other.
fn push_columns(alloc: Global, text: &mut String, joined: &Frame) -> Result<(), Fail> {
    for column in joined.columns() {
        push_column(alloc, text, column)?;
    }
    Ok(())
}

/// Appends the numbers of a column, and a semicolon.
fn push_column(alloc: Global, text: &mut String, column: &Series) -> Result<(), Fail> {
    for i in 0..column.len() {
        push_number(alloc, text, column.leaf_ref(i))?;
    }
    Ok(text.push_str("; ")?)
}

fn told_of<L: Ledger>(
    alloc: Global,
    query: &Query,
    build: &[Frame],
    morsel: &Frame,
    most: u32,
    blank: Blank,
) -> Result<String, Fail>
    requires name { blank.name ≡ L.name }
    requires parts { blank.parts ≡ L.parts }
    requires some { 0 < L.parts }
    requires can { CanJoin query.now }
    requires have { AllHave query.now.build_schema build.now }
    requires few { is_too_large build.now ≡ false }
    requires same { morsel.now.schema ≡ query.now.probe_schema }
    requires few_rows { is_too_large (morsel.now ∷ []) ≡ false }
{
    let mut steps = Steps::<L>::new(blank);
    let mut built = build_tables(alloc, query, build, &mut steps)?;
    match probe_morsel(
        alloc,
        query,
        &mut built,
        morsel,
        u64::from(most),
        &mut steps,
    ) {
        Ok(pairs) => {
            let left = unmatched_rows(alloc, query, &built)?;
            let mut text = text_of(alloc, pairs.as_slice(), left.as_slice())?;
            let joined = join_rows(alloc, query, morsel, build, pairs.as_slice())?;
            push_columns(alloc, &mut text, &joined)?;
            Ok(text)
        }
        Err(ProbeError::TooLarge) => Ok(String::from_str(alloc, "too large")?),
        Err(ProbeError::Memory) => Err(Fail::from("memory")),
    }
}

/// What the sides of the tests give.
#[tactic(auto, using(join_probes::proofs::Checked::checked))]
fn told(alloc: Global, query: &Query, most: u32) -> Result<String, Fail> {
    let build = build_side(alloc)?;
    let probe = probe_side(alloc)?;
    if check_query(query, &build, &probe).is_err() || probe.is_empty() {
        return Err(Fail::from("refused"));
    }
    told_of::<Brand>(alloc, query, &build, &probe[0], most, Blank::new(1))
}

/// The columns of the key, whether nulls join, whether lone rows are kept, how many pairs there may
/// be, and what is told: the pairs, the build rows that are left, and the columns of the joined rows.
type Case<'a> = (&'a [&'a str], bool, bool, u32, &'a str);

const CASES: [Case; 7] = [
    (
        &["x"],
        false,
        false,
        3,
        "0-0.0 0-1.0 2-0.1 / 0.2 1.1 / 1 1 2 ; 10 10 21 ; 1 1 2 ; 10 11 20 ; ",
    ),
    (&["x"], false, false, 2, "too large"),
    (
        &["x"],
        false,
        true,
        9,
        "0-0.0 0-1.0 1-none 2-0.1 3-none / 0.2 1.1 / 1 1 3 2 - ; 10 10 20 21 30 ; 1 1 - 2 - ; 10 11 - 20 - ; ",
    ),
    (
        &["x"],
        true,
        false,
        9,
        "0-0.0 0-1.0 2-0.1 3-0.2 3-1.1 / / 1 1 2 - - ; 10 10 21 30 30 ; 1 1 2 - - ; 10 11 20 30 30 ; ",
    ),
    (
        &["x", "y"],
        true,
        false,
        3,
        "0-0.0 3-0.2 3-1.1 / 0.1 1.0 / 1 - - ; 10 30 30 ; 1 - - ; 10 30 30 ; ",
    ),
    (&["x", "y"], true, false, 2, "too large"),
    (
        &["x", "y"],
        false,
        true,
        4,
        "0-0.0 1-none 2-none 3-none / 0.1 0.2 1.0 1.1 / 1 3 2 - ; 10 20 21 30 ; 1 - - - ; 10 - - - ; ",
    ),
];

/// Whether a case is told right under numbers of partitions and limits.
fn holds(alloc: Global, case: &Case, partitions: u64, limit: u64) -> Result<bool, Fail> {
    let (keys, null_equal, keep_probe, most, expected) = *case;
    let mut asked = query(alloc, keys, null_equal, keep_probe)?;
    asked.plan = Plan {
        partitions,
        limit,
        ..asked.plan
    };
    Ok(told(alloc, &asked, most)?.as_str() == expected)
}

#[test]
fn pairs_and_rows_left(rt: HostRuntime) -> Result<(), Fail> {
    for case in &CASES {
        for (partitions, limit) in [(1, 4096), (3, 1), (7, 2), (64, 4096)] {
            assert!(rt; holds(rt.alloc(), case, partitions, limit)?);
        }
    }
    Ok(())
}
