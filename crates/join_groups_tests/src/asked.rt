//! Queries, and joined rows for them in morsels: the probe frames of another request.
ghost use Rattle.std.specs.Prelude.{◌≡◌, ◌<◌, ◌^◌, None, true, false, length, OnOk};
ghost use Rattle.std.specs.List.{All};
ghost use Rattle.join_model.specs.Answers.{joined_schema};
ghost use Rattle.join_model.specs.Joined.{rows_of};
ghost use Rattle.join_model.specs.Refusals.{is_good_plan, lacks_keys, unknown_column, unsupported_reduction};

use join_query::Query;
use join_request::{Request, read_request};
use pair_rows::joined_schema;
use query_check::check_query;
use std::alloc::Global;
use std::test::Fail;

/// The request that a text is.
pub fn request_of(alloc: Global, text: &str) -> Result<Request, Fail> {
    read_request(alloc, text.as_bytes()).map_err(|_| Fail::from("no request"))
}

/// Lets a query group the probe frames of another request only where they are joined rows of it.
#[tactic(auto, using(crate::proofs::Fitting::fitting))]
pub fn require_fit(alloc: Global, query: &Query, joined: &Request) -> Result<(), Fail>
    ensures keys { OnOk result (lacks_keys query.now ≡ false) }
    ensures known { OnOk result (unknown_column query.now ≡ None) }
    ensures supported { OnOk result (unsupported_reduction query.now ≡ None) }
    ensures plan { OnOk result (is_good_plan query.now.plan ≡ true) }
    ensures joined { OnOk result (All (λ m. m.schema ≡ joined_schema query.now) joined.now.probe) }
    ensures rows { OnOk result (length (rows_of joined.now.probe) < 2 ^ 32) }
{
    if check_query(query, &[], &[]).is_err() {
        return Err(Fail::from("the query is refused"));
    }
    let morsels = joined.probe.as_slice();
    if check_query(&joined.query, &[], morsels).is_err() {
        return Err(Fail::from("the joined rows are refused"));
    }
    if !joined
        .query
        .probe_schema
        .is_same(&joined_schema(alloc, query)?)
    {
        return Err(Fail::from("other rows"));
    }
    Ok(())
}
