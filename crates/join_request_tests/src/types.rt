//! Types by their names, and their values.
use col_core::{DataType, Frame, LeafRef, Series, TimeUnit};
use join_request::{Request, RequestError, read_request};
use std::alloc::{AllocError, Global};
use std::process::Abort;
use std::test::Fail;

/// A request whose probe side has one column of a type, with one value.
fn request_of(alloc: Global, dtype: &str, value: &str) -> Result<String, AllocError> {
    format!(in alloc;
        "{{\"build\":{{\"schema\":[],\"frames\":[]}},\"probe\":{{\"schema\":[[\"x\",\"{dtype}\"]],\"frames\":[[[{value}]]]}},\"join\":{{\"build\":[],\"probe\":[]}},\"group\":[],\"reduce\":[]}}"
    )
}

/// Why it is none.
fn refusal(alloc: Global, dtype: &str, value: &str) -> Result<Option<RequestError>, AllocError> {
    let text = request_of(alloc, dtype, value)?;
    Ok(read_request(alloc, text.as_bytes()).err())
}

/// It, read.
fn read(alloc: Global, dtype: &str, value: &str) -> Result<Request, Fail> {
    let text = request_of(alloc, dtype, value)?;
    Ok(read_request(alloc, text.as_bytes())?)
}

/// Whether a column is of a type, with one value.
fn is_one(column: &Series, dtype: DataType, value: LeafRef<'_>) -> bool {
    column.dtype() == dtype && column.len() == 1 && column.leaf_ref(0).is_same(value)
}

/// Whether one frame of one column is of a type, with one value.
fn are_one(frames: &[Frame], dtype: DataType, value: LeafRef<'_>) -> bool {
    match frames {
        [frame] => match frame.columns() {
            [column] => is_one(column, dtype, value),
            _ => false,
        },
        _ => false,
    }
}

fn expect_read(
    rt: &impl Abort,
    alloc: Global,
    text: (&str, &str),
    dtype: DataType,
    value: LeafRef<'_>,
) -> Result<(), Fail> {
    let request = read(alloc, text.0, text.1)?;
    assert!(rt; are_one(request.probe.as_slice(), dtype, value), "{text:?}");
    Ok(())
}

/// Texts of types and values, and what they mean: the least value, the greatest, and what may be written otherwise.
const VALUES: [(&str, &str, DataType, LeafRef<'static>); 36] = [
    ("Boolean", "false", DataType::Boolean, LeafRef::Bool(false)),
    ("Boolean", "true", DataType::Boolean, LeafRef::Bool(true)),
    ("Int8", "-128", DataType::Int8, LeafRef::Whole(-128)),
    ("Int8", "127", DataType::Int8, LeafRef::Whole(127)),
    ("Int16", "-32768", DataType::Int16, LeafRef::Whole(-32768)),
    (
        "Int32",
        "2147483647",
        DataType::Int32,
        LeafRef::Whole(2147483647),
    ),
    (
        "Int64",
        "-9223372036854775808",
        DataType::Int64,
        LeafRef::Whole(-9223372036854775808),
    ),
    ("UInt8", "255", DataType::UInt8, LeafRef::Whole(255)),
    ("UInt16", "65535", DataType::UInt16, LeafRef::Whole(65535)),
    (
        "UInt32",
        "4294967295",
        DataType::UInt32,
        LeafRef::Whole(4294967295),
    ),
    (
        "UInt64",
        "18446744073709551615",
        DataType::UInt64,
        LeafRef::Whole(18446744073709551615),
    ),
    (
        "Int128",
        r#""-170141183460469231731687303715884105728""#,
        DataType::Int128,
        LeafRef::Whole(i128::MIN),
    ),
    (
        "Int128",
        r#""170141183460469231731687303715884105727""#,
        DataType::Int128,
        LeafRef::Whole(i128::MAX),
    ),
    (
        "Int128",
        "-9223372036854775808",
        DataType::Int128,
        LeafRef::Whole(-9223372036854775808),
    ),
    ("Int128", r#""-0""#, DataType::Int128, LeafRef::Whole(0)),
    (
        "Int128",
        r#""-000000000000000000000000000000000000007""#,
        DataType::Int128,
        LeafRef::Whole(-7),
    ),
    (
        "Decimal(1,0)",
        "-1250",
        DataType::Decimal(1, 0),
        LeafRef::Whole(-1250),
    ),
    (
        "Decimal(10,10)",
        "null",
        DataType::Decimal(10, 10),
        LeafRef::Null,
    ),
    (
        "Decimal(38,38)",
        r#""170141183460469231731687303715884105727""#,
        DataType::Decimal(38, 38),
        LeafRef::Whole(i128::MAX),
    ),
    (
        "Date",
        "-2147483648",
        DataType::Date,
        LeafRef::Whole(-2147483648),
    ),
    (
        "Time",
        "9223372036854775807",
        DataType::Time,
        LeafRef::Whole(9223372036854775807),
    ),
    (
        "Datetime(ms)",
        "-1",
        DataType::Datetime(TimeUnit::Milliseconds),
        LeafRef::Whole(-1),
    ),
    (
        "Datetime(us)",
        "1",
        DataType::Datetime(TimeUnit::Microseconds),
        LeafRef::Whole(1),
    ),
    (
        "Datetime(ns)",
        "null",
        DataType::Datetime(TimeUnit::Nanoseconds),
        LeafRef::Null,
    ),
    (
        "Duration(ms)",
        "null",
        DataType::Duration(TimeUnit::Milliseconds),
        LeafRef::Null,
    ),
    (
        "Duration(us)",
        "-1",
        DataType::Duration(TimeUnit::Microseconds),
        LeafRef::Whole(-1),
    ),
    (
        "Duration(ns)",
        "1",
        DataType::Duration(TimeUnit::Nanoseconds),
        LeafRef::Whole(1),
    ),
    ("String", "null", DataType::String, LeafRef::Null),
    ("String", r#""""#, DataType::String, LeafRef::Bytes(b"")),
    (
        "String",
        r#""a,\"\r\n\\\u0000\ud83d\ude00""#,
        DataType::String,
        LeafRef::Bytes(b"a,\"\r\n\\\0\xf0\x9f\x98\x80"),
    ),
    ("Binary", r#""""#, DataType::Binary, LeafRef::Bytes(b"")),
    (
        "Binary",
        r#""414a""#,
        DataType::Binary,
        LeafRef::Bytes(b"AJ"),
    ),
    (
        "Binary",
        r#""0aFF""#,
        DataType::Binary,
        LeafRef::Bytes(b"\x0a\xff"),
    ),
    ("Int8", "null", DataType::Int8, LeafRef::Null),
    ("Boolean", "null", DataType::Boolean, LeafRef::Null),
    ("Binary", "null", DataType::Binary, LeafRef::Null),
];

#[test]
fn values_of_types(rt: HostRuntime) -> Result<(), Fail> {
    for (name, text, dtype, value) in VALUES {
        expect_read(&rt, rt.alloc(), (name, text), dtype, value)?;
    }
    Ok(())
}

/// Names that are no type's, and types with values that are not theirs.
const OTHERS: [(&str, &str); 51] = [
    ("", "null"),
    ("boolean", "null"),
    ("Bool", "null"),
    (" Int8", "null"),
    ("Int8 ", "null"),
    ("Int08", "null"),
    ("Int256", "null"),
    ("Decimal", "null"),
    ("Decimal()", "null"),
    ("Decimal(5)", "null"),
    ("Decimal(5,2", "null"),
    ("Decimal(5,2))", "null"),
    ("Decimal(5, 2)", "null"),
    ("Decimal(05,2)", "null"),
    ("Decimal(5,02)", "null"),
    ("Decimal(0,0)", "null"),
    ("Decimal(39,0)", "null"),
    ("Decimal(5,6)", "null"),
    ("Decimal(5,-1)", "null"),
    ("Decimal(5,2,1)", "null"),
    ("Datetime", "null"),
    ("Datetime(s)", "null"),
    ("Datetime(MS)", "null"),
    ("duration(ms)", "null"),
    ("Boolean", "0"),
    ("Int8", "128"),
    ("Int8", "-129"),
    ("Int8", r#""1""#),
    ("Int16", "32768"),
    ("Int32", "2147483648"),
    ("Int64", "9223372036854775808"),
    ("UInt8", "256"),
    ("UInt8", "-1"),
    ("UInt16", "65536"),
    ("UInt32", "4294967296"),
    ("UInt64", "-1"),
    ("Int128", r#""170141183460469231731687303715884105728""#),
    ("Int128", r#""0000000000000000000000000000000000000007""#),
    ("Int128", r#""+1""#),
    ("Int128", r#""--1""#),
    ("Int128", r#""-""#),
    ("Int128", r#""""#),
    ("Int128", r#"" 1""#),
    ("Int128", "[]"),
    ("Date", "2147483648"),
    ("Date", r#""1""#),
    ("Time", "9223372036854775808"),
    ("String", "1"),
    ("Binary", r#""0""#),
    ("Binary", r#""0g""#),
    ("Binary", "0"),
];

#[test]
fn other_values(rt: HostRuntime) -> Result<(), AllocError> {
    for (dtype, value) in OTHERS {
        assert!(rt;
            refusal(rt.alloc(), dtype, value)? == Some(RequestError::Shape),
            "{dtype} {value}"
        );
    }
    Ok(())
}
