//! Requests that are read, and what they mean.
use crate::example::read;
use col_core::{Frame, LeafRef};
use join_query::{ColumnRef, Filter, FilterOp, IntLiteral, Operand, Plan, Query, Reduction, Side};
use join_request::Request;
use reduce_model::ReductionKind;
use std::process::Abort;
use std::test::Fail;

/// Whether a frame of two columns has one row, of these values.
fn is_row(frame: &Frame, first: LeafRef<'_>, second: LeafRef<'_>) -> bool {
    match frame.columns() {
        [a, b] => {
            a.len() == 1
                && b.len() == 1
                && a.leaf_ref(0).is_same(first)
                && b.leaf_ref(0).is_same(second)
        }
        _ => false,
    }
}

/// The heights of the frames of both sides, and the row of the last frame of the build side.
fn expect_sides(rt: &impl Abort, request: &Request) {
    let build = request.build.as_slice();
    let probe = request.probe.as_slice();
    assert!(rt; build.len() == 2 && probe.len() == 1);
    assert!(rt; build[0].height() == 2 && probe[0].height() == 3);
    assert!(rt; is_row(&build[1], LeafRef::Whole(1), LeafRef::Bytes(b"Cy")));
}

/// The example, and what may be written otherwise: escapes, the order of members, members that are repeated, and defaults.
const SAME: [(&str, &str); 5] = [
    ("[3,7]", "[3,7]"),
    ("Cy", "C\\u0079"),
    (
        r#"{"build":{"#,
        " {\n\"join\":1.5,\"reduce\":7,\"build\":[],\"build\" : {\"frames\":[[[0.5]]],",
    ),
    (r#""group""#, r#""filter":null,"plan":{},"group""#),
    (
        r#"{"build":["#,
        r#"{"null_equal":false,"keep_probe":false,"keep_build":false,"build":["#,
    ),
];

#[test]
fn sides(rt: HostRuntime) -> Result<(), Fail> {
    for (old, new) in SAME {
        let request = read(rt.alloc(), old, new)?;
        expect_sides(&rt, &request);
        expect_plan(&rt, &request.query.plan, DEFAULTS);
    }
    Ok(())
}

const DEFAULTS: [u64; 8] = [
    8,
    4,
    4096,
    65536,
    4294967295,
    14695981039346656037,
    18446744073709551615,
    11400714819323198485,
];

fn expect_plan(rt: &impl Abort, plan: &Plan, wanted: [u64; 8]) {
    assert!(rt; plan.partitions == wanted[0] && plan.states == wanted[1]);
    assert!(rt; plan.limit == wanted[2] && plan.morsel == wanted[3]);
    assert!(rt; plan.rows == wanted[4] && plan.seed == wanted[5]);
    assert!(rt; plan.mask == wanted[6] && plan.pseed == wanted[7]);
}

/// Plans: each default by itself.
const PLANS: [(&str, [u64; 8]); 3] = [
    (
        r#""plan":{"partitions":0,"rows":7,"mask":3},"group""#,
        [
            0,
            4,
            4096,
            65536,
            7,
            14695981039346656037,
            3,
            11400714819323198485,
        ],
    ),
    (
        r#""plan":{"states":1,"seed":18446744073709551615},"group""#,
        [
            8,
            1,
            4096,
            65536,
            4294967295,
            18446744073709551615,
            18446744073709551615,
            11400714819323198485,
        ],
    ),
    (
        r#""plan":{"limit":1,"limit":2,"morsel":5,"pseed":0},"group""#,
        [
            8,
            4,
            2,
            5,
            4294967295,
            14695981039346656037,
            18446744073709551615,
            0,
        ],
    ),
];

#[test]
fn plans(rt: HostRuntime) -> Result<(), Fail> {
    for (new, wanted) in PLANS {
        expect_plan(
            &rt,
            &read(rt.alloc(), r#""group""#, new)?.query.plan,
            wanted,
        );
    }
    Ok(())
}

/// Flags: whether nulls join, and which unmatched rows are kept, those of the probe side first.
const FLAGS: [(&str, [bool; 3]); 4] = [
    (r#"{"build":["#, [false, false, false]),
    (r#"{"null_equal":true,"build":["#, [true, false, false]),
    (r#"{"keep_probe":true,"build":["#, [false, true, false]),
    (r#"{"keep_build":true,"build":["#, [false, false, true]),
];

fn expect_flags(rt: &impl Abort, query: &Query, wanted: [bool; 3]) {
    assert!(rt; query.null_equal == wanted[0]);
    assert!(rt; query.keep_probe == wanted[1]);
    assert!(rt; query.keep_build == wanted[2]);
}

#[test]
fn flags(rt: HostRuntime) -> Result<(), Fail> {
    for (new, wanted) in FLAGS {
        expect_flags(&rt, &read(rt.alloc(), r#"{"build":["#, new)?.query, wanted);
    }
    Ok(())
}

fn is_column(column: &ColumnRef, side: Side, name: &str) -> bool {
    column.side == side && column.name.as_str() == name
}

/// Whether a filter compares the build side's `id` with a literal, or else with the probe side's `amt`.
fn is_filter(filter: &Filter, op: FilterOp, literal: Option<IntLiteral>) -> bool {
    let right = match &filter.right {
        Operand::Literal(number) => Some(*number) == literal,
        Operand::Column(column) => literal.is_none() && is_column(column, Side::Probe, "amt"),
    };
    filter.op == op && is_column(&filter.left, Side::Build, "id") && right
}

/// Filters, as operations and literals.
const FILTERS: [(&str, FilterOp, Option<IntLiteral>); 9] = [
    (
        r#""filter":["eq","build.id",{"Int8":127}],"group""#,
        FilterOp::Eq,
        Some(IntLiteral::I8(127)),
    ),
    (
        r#""filter":["lt","build.id",{"Int16":-32768}],"group""#,
        FilterOp::Lt,
        Some(IntLiteral::I16(-32768)),
    ),
    (
        r#""filter":["le","build.id",{"Int32":2147483647}],"group""#,
        FilterOp::Le,
        Some(IntLiteral::I32(2147483647)),
    ),
    (
        r#""filter":["gt","build.id",{"Int64":-9223372036854775808}],"group""#,
        FilterOp::Gt,
        Some(IntLiteral::I64(-9223372036854775808)),
    ),
    (
        r#""filter":["ge","build.id",{"UInt8":255}],"group""#,
        FilterOp::Ge,
        Some(IntLiteral::U8(255)),
    ),
    (
        r#""filter":["ne","build.id",{"UInt16":65535}],"group""#,
        FilterOp::Ne,
        Some(IntLiteral::U16(65535)),
    ),
    (
        r#""filter":["eq","build.id",{"UInt32":0}],"group""#,
        FilterOp::Eq,
        Some(IntLiteral::U32(0)),
    ),
    (
        r#""filter":["eq","build.id",{"UInt64":18446744073709551615}],"group""#,
        FilterOp::Eq,
        Some(IntLiteral::U64(18446744073709551615)),
    ),
    (
        r#""filter":["ge","build.id","probe.amt"],"group""#,
        FilterOp::Ge,
        None,
    ),
];

fn expect_filter(rt: &impl Abort, query: &Query, op: FilterOp, literal: Option<IntLiteral>) {
    match &query.filter {
        Some(filter) => assert!(rt; is_filter(filter, op, literal)),
        None => assert!(rt; false),
    }
}

#[test]
fn filters(rt: HostRuntime) -> Result<(), Fail> {
    for (new, op, literal) in FILTERS {
        expect_filter(
            &rt,
            &read(rt.alloc(), r#""group""#, new)?.query,
            op,
            literal,
        );
    }
    Ok(())
}

/// Whether a reduction is of a kind, over the probe side's `x`.
fn is_of(reduction: &Reduction, kind: ReductionKind) -> bool {
    reduction.kind == kind && is_column(&reduction.column, Side::Probe, "x")
}

/// The keys `id` and `cust`, groups by the build side's empty name and the probe side's `a.b`, and every reduction of `x`.
fn expect_groups(rt: &impl Abort, query: &Query) {
    match query.group_keys.as_slice() {
        [first, second] => {
            assert!(rt; is_column(first, Side::Build, "") && is_column(second, Side::Probe, "a.b"))
        }
        _ => assert!(rt; false),
    }
    match query.reductions.as_slice() {
        [a, b, c, d, e] => {
            assert!(rt; is_of(a, ReductionKind::Sum) && is_of(b, ReductionKind::Min));
            assert!(rt; is_of(c, ReductionKind::Max) && is_of(d, ReductionKind::First));
            assert!(rt; is_of(e, ReductionKind::Last));
        }
        _ => assert!(rt; false),
    }
}

const KEYS: &str = r#"["build.name"],"reduce":[["sum","probe.amt"]]"#;

const OTHER_KEYS: &str =
    r#"["build.","probe.a.b"],"reduce":[["sum","probe.x"],["min","probe.x"],["max","probe.x"],["first","probe.x"],["last","probe.x"]]"#;

#[test]
fn groups(rt: HostRuntime) -> Result<(), Fail> {
    expect_groups(&rt, &read(rt.alloc(), KEYS, OTHER_KEYS)?.query);
    Ok(())
}

fn expect_keys(rt: &impl Abort, query: &Query) {
    match (query.build_keys.as_slice(), query.probe_keys.as_slice()) {
        ([build], [probe]) => assert!(rt; build.as_str() == "id" && probe.as_str() == "cust"),
        _ => assert!(rt; false),
    }
}

#[test]
fn keys(rt: HostRuntime) -> Result<(), Fail> {
    expect_keys(&rt, &read(rt.alloc(), "[3,7]", "[3,7]")?.query);
    Ok(())
}
