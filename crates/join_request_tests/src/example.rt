//! A request, and others that differ from it in one text.
use join_request::{Request, RequestError, read_request};
use std::alloc::{AllocError, Global};
use std::test::Fail;

/// Customers in two frames, and their orders: a join by customer, with the sum of the amounts by name.
const EXAMPLE: &str =
    r#"{"build":{"schema":[["id","Int64"],["name","String"]],"frames":[[[1,"Ann"],[2,"Bo"]],[[1,"Cy"]]]},"probe":{"schema":[["cust","Int64"],["amt","Int64"]],"frames":[[[1,5],[3,7],[2,1]]]},"join":{"build":["id"],"probe":["cust"]},"group":["build.name"],"reduce":[["sum","probe.amt"]]}"#;

/// Why the example with one text in place of another is no request.
pub fn refusal(alloc: Global, old: &str, new: &str) -> Result<Option<RequestError>, AllocError> {
    let text = EXAMPLE.replace(alloc, old, new)?;
    Ok(read_request(alloc, text.as_bytes()).err())
}

/// The example with one text in place of another, read.
pub fn read(alloc: Global, old: &str, new: &str) -> Result<Request, Fail> {
    let text = EXAMPLE.replace(alloc, old, new)?;
    Ok(read_request(alloc, text.as_bytes())?)
}
