//! Requests: JSON bytes that are a query and the frames of its two sides.
ghost use Rattle.std.specs.Prelude.{◌≡◌, ◌⊎◌, IfOk, IfErr, Ok, Err, Some};
ghost use Rattle.serde_json.specs.View.{view};
ghost use Rattle.join_request.specs.Request.{request_of, request_without_floats, request_of_value, query_of_object, request_of_parts};
ghost use Rattle.join_request.specs.Refused.{Refuses};

use crate::error::RequestError;
use crate::from_value::{member_or, read_list};
use crate::json::{holds_float, member, object_named, read_value};
use crate::parts::{RequestJoin, RequestSide, read_join, read_side};
use col_core::{Frame, List};
use join_query::{ColumnRef, DEFAULT_PLAN, Filter, Plan, Query, Reduction};
use serde_json::Value;
use std::alloc::Global;

/// A query, and the frames of its sides, which stand under its schemas.
#[derive(Debug, Drop)]
pub struct Request {
    pub query: Query,
    pub build: List<Frame>,
    pub probe: List<Frame>,
}

/// The request that the bytes are: an object with the members `build`, `probe`, `join`, `group` and `reduce`, and maybe
/// `filter` and `plan`. `request_of` says which request that is, and which refusal comes first. Of members of one name
/// the last one counts.
pub fn read_request(alloc: Global, bytes: &[u8]) -> Result<Request, RequestError>
    ensures ok { IfOk result (λ r. request_of bytes.now ≡ Ok r) }
    ensures refused { IfErr result
        (λ e. (e ≡ RequestError.Memory) ⊎ (request_of bytes.now ≡ Err e)) }
{
    let value = read_value(alloc, bytes)?;
    request_without_floats(alloc, &value)
}

fn request_without_floats(alloc: Global, value: &Value) -> Result<Request, RequestError>
    ensures ok { IfOk result (λ r. request_without_floats (view value.now) ≡ Ok r) }
    ensures refused { IfErr result
        (λ e. (e ≡ RequestError.Memory) ⊎ (request_without_floats (view value.now) ≡ Err e)) }
{
    if holds_float(value) {
        return Err(RequestError::Float);
    }
    request_of_value(alloc, value)
}

fn request_of_value(alloc: Global, value: &Value) -> Result<Request, RequestError>
    ensures ok { IfOk result (λ r. request_of_value (view value.now) ≡ Some r) }
    ensures err { IfErr result (Refuses (request_of_value (view value.now))) }
{
    let names = [
        "build", "probe", "join", "filter", "group", "reduce", "plan",
    ];
    let request = object_named(value, &names)?;
    let build = read_side(alloc, member(request, "build")?)?;
    let probe = read_side(alloc, member(request, "probe")?)?;
    let parts = query_of_object(alloc, request)?;
    Ok(request_of_parts(build, probe, parts))
}

/// What a request says beside its two sides.
#[derive(Debug, Drop)]
pub struct QueryParts {
    pub join: RequestJoin,
    pub filter: Option<Filter>,
    pub group: List<ColumnRef>,
    pub reduce: List<Reduction>,
    pub plan: Plan,
}

fn query_of_object(alloc: Global, request: &Value) -> Result<QueryParts, RequestError>
    ensures ok { IfOk result (λ parts. query_of_object (view request.now) ≡ Some parts) }
    ensures err { IfErr result (Refuses (query_of_object (view request.now))) }
{
    Ok(QueryParts {
        join: read_join(alloc, member(request, "join")?)?,
        filter: member_or(alloc, request, "filter", None)?,
        group: read_list(alloc, member(request, "group")?)?,
        reduce: read_list(alloc, member(request, "reduce")?)?,
        plan: member_or(alloc, request, "plan", DEFAULT_PLAN)?,
    })
}

/// The query of two schemas and the other parts, and the frames.
fn request_of_parts(build: RequestSide, probe: RequestSide, parts: QueryParts) -> Request
    ensures { result ≡ request_of_parts build probe parts }
{
    let QueryParts {
        join,
        filter,
        group,
        reduce,
        plan,
    } = parts;
    Request {
        query: Query {
            build_schema: build.schema,
            probe_schema: probe.schema,
            build_keys: join.build,
            probe_keys: join.probe,
            null_equal: join.null_equal,
            keep_probe: join.keep_probe,
            keep_build: join.keep_build,
            filter,
            group_keys: group,
            reductions: reduce,
            plan,
        },
        build: build.frames,
        probe: probe.frames,
    }
}
