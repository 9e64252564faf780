//! Bytes that are no request, by their refusals.
use crate::example::refusal;
use join_request::{RequestError, read_request};
use std::alloc::{AllocError, Global};

/// Texts, each with its refusal.
const TEXTS: [(&[u8], RequestError); 18] = [
    (b"", RequestError::NotJson),
    (b"{\"build\":", RequestError::NotJson),
    (b"\xff", RequestError::NotJson),
    (b"\"\xff\"", RequestError::NotJson),
    (b"\xef\xbb\xbf{}", RequestError::NotJson),
    (b"{} {}", RequestError::NotJson),
    (b"1e400", RequestError::NotJson),
    (b"{\"x\":1e400,\"x\":1}", RequestError::NotJson),
    (b"[1.5]", RequestError::Float),
    (b"1e3", RequestError::Float),
    (b"-0", RequestError::Float),
    (b"18446744073709551616", RequestError::Float),
    (b"-9223372036854775809", RequestError::Float),
    (b"{\"x\":[{\"y\":2.5}]}", RequestError::Float),
    (b"18446744073709551615", RequestError::Shape),
    (b"null", RequestError::Shape),
    (b"[]", RequestError::Shape),
    (b"{}", RequestError::Shape),
];

#[test]
fn texts(rt: HostRuntime) {
    for (text, cause) in TEXTS {
        assert!(rt; read_request(rt.alloc(), text).err() == Some(cause));
    }
}

/// Lists in lists, to a depth of as many as there are bytes.
fn nested(alloc: Global, depth: usize) -> Result<Vec<u8>, AllocError> {
    let mut text = vec![in alloc; b'['; depth]?;
    for _ in 0..depth {
        text.push(b']')?;
    }
    Ok(text)
}

#[test]
fn depths(rt: HostRuntime) -> Result<(), AllocError> {
    for (depth, cause) in [(127, RequestError::Shape), (128, RequestError::NotJson)] {
        let text = nested(rt.alloc(), depth)?;
        assert!(rt; read_request(rt.alloc(), &text).err() == Some(cause));
    }
    Ok(())
}

/// Texts of the example, what stands in their place, and the refusal.
const CHANGES: [(&str, &str, RequestError); 36] = [
    ("[3,7]", "[3,7.0]", RequestError::Float),
    (
        r#"{"build":{"#,
        r#"{"x":[0.5],"build":{"#,
        RequestError::Float,
    ),
    (
        r#""group""#,
        r#""plan":{"rows":18446744073709551616},"group""#,
        RequestError::Float,
    ),
    (r#"{"build":{"#, r#"{"x":1,"build":{"#, RequestError::Shape),
    (r#"{"build":["#, r#"{"x":1,"build":["#, RequestError::Shape),
    (
        r#"{"schema":[["id""#,
        r#"{"x":1,"schema":[["id""#,
        RequestError::Shape,
    ),
    (
        r#""group""#,
        r#""plan":{"x":1},"group""#,
        RequestError::Shape,
    ),
    (r#""group":["build.name"],"#, "", RequestError::Shape),
    (
        r#","reduce":[["sum","probe.amt"]]"#,
        "",
        RequestError::Shape,
    ),
    (
        r#","join":{"build":["id"],"probe":["cust"]}"#,
        "",
        RequestError::Shape,
    ),
    (r#","probe":["cust"]"#, "", RequestError::Shape),
    (
        r#","frames":[[[1,5],[3,7],[2,1]]]"#,
        "",
        RequestError::Shape,
    ),
    (r#"["id"]"#, "[7]", RequestError::Shape),
    (r#"["id"]"#, r#""id""#, RequestError::Shape),
    (
        r#"{"build":["#,
        r#"{"null_equal":"true","build":["#,
        RequestError::Shape,
    ),
    (
        r#"{"build":["#,
        r#"{"keep_probe":null,"build":["#,
        RequestError::Shape,
    ),
    (r#""group""#, r#""plan":null,"group""#, RequestError::Shape),
    (
        r#""group""#,
        r#""plan":{"seed":-1},"group""#,
        RequestError::Shape,
    ),
    (
        r#""group""#,
        r#""plan":{"limit":null},"group""#,
        RequestError::Shape,
    ),
    (r#"["amt","Int64"]"#, r#"["amt"]"#, RequestError::Shape),
    (
        r#"["amt","Int64"]"#,
        r#"["amt","Int64",1]"#,
        RequestError::Shape,
    ),
    (r#"["amt","Int64"]"#, r#"[7,"Int64"]"#, RequestError::Shape),
    ("[3,7]", "[3]", RequestError::Shape),
    ("[3,7]", "[3,7,8]", RequestError::Shape),
    ("[3,7]", "3", RequestError::Shape),
    ("build.name", "name", RequestError::Shape),
    ("build.name", "buildx.a", RequestError::Shape),
    ("build.name", "Build.name", RequestError::Shape),
    (r#""sum""#, r#""median""#, RequestError::Shape),
    (
        r#""group""#,
        r#""filter":["eq","build.id"],"group""#,
        RequestError::Shape,
    ),
    (
        r#""group""#,
        r#""filter":["is","build.id","probe.amt"],"group""#,
        RequestError::Shape,
    ),
    (
        r#""group""#,
        r#""filter":["eq",{"Int8":1},"build.id"],"group""#,
        RequestError::Shape,
    ),
    (
        r#""group""#,
        r#""filter":["eq","build.id",1],"group""#,
        RequestError::Shape,
    ),
    (
        r#""group""#,
        r#""filter":["eq","build.id",{"Int8":1,"Int16":1}],"group""#,
        RequestError::Shape,
    ),
    (
        r#""group""#,
        r#""filter":["eq","build.id",{"Int8":128}],"group""#,
        RequestError::Shape,
    ),
    (
        r#""group""#,
        r#""filter":["eq","build.id",{"Date":1}],"group""#,
        RequestError::Shape,
    ),
];

#[test]
fn changes(rt: HostRuntime) -> Result<(), AllocError> {
    for (old, new, cause) in CHANGES {
        assert!(rt; refusal(rt.alloc(), old, new)? == Some(cause), "{new}");
    }
    Ok(())
}
