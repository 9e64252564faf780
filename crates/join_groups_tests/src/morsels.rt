//! Morsels in any order, over any number of local states.
ghost use Rattle.std.specs.Prelude.{◌≡◌, ◌<◌};

use crate::asked::{request_of, require_fit};
use crate::shown::{frame_text, locals_text};
use join_groups::{Merged, group_in_order, order_is_whole};
use join_query::Query;
use join_request::Request;
use std::alloc::Global;
use std::marker::Brand;
use std::sync::ledger::{Blank, Ledger};
use std::test::Fail;
use step_count::Steps;

fn grouped_from<L: Ledger>(
    alloc: Global,
    query: &Query,
    joined: &Request,
    order: &[u32],
    blank: Blank,
) -> Result<Merged, Fail>
    requires name { blank.name ≡ L.name }
    requires parts { blank.parts ≡ L.parts }
    requires some { 0 < L.parts }
{
    let mut steps = Steps::<L>::new(blank);
    require_fit(alloc, query, joined)?;
    let morsels = joined.probe.as_slice();
    if !order_is_whole(morsels.len(), order) {
        return Err(Fail::from("an order that is not whole"));
    }
    Ok(group_in_order(alloc, query, morsels, order, &mut steps)?)
}

/// The groups of joined rows whose morsels come in an order.
fn grouped(alloc: Global, query: &Query, joined: &Request, order: &[u32]) -> Result<Merged, Fail> {
    grouped_from::<Brand>(alloc, query, joined, order, Blank::new(1))
}

/// The first and the last name of each customer, and what the customer's orders come to.
const BY_CUSTOMER: &str =
    r#"{"build":{"schema":[["id","Int64"],["name","String"]],"frames":[]},"probe":{"schema":[["cust","Int64"],["amt","Int64"]],"frames":[]},"join":{"build":["id"],"probe":["cust"]},"group":["probe.cust"],"reduce":[["first","build.name"],["last","build.name"],["sum","probe.amt"]]}"#;

/// What the orders of each name come to.
pub const BY_NAME: &str =
    r#"{"build":{"schema":[["id","Int64"],["name","String"]],"frames":[]},"probe":{"schema":[["cust","Int64"],["amt","Int64"]],"frames":[]},"join":{"build":["id"],"probe":["cust"]},"group":["build.name"],"reduce":[["sum","probe.amt"]]}"#;

/// Three joined rows, each a morsel.
const THREE_MORSELS: &str =
    r#"{"build":{"schema":[["k","Int64"]],"frames":[]},"probe":{"schema":[["probe.cust","Int64"],["probe.amt","Int64"],["build.id","Int64"],["build.name","String"]],"frames":[[[1,5,1,"Ann"]],[[1,5,1,"Cy"]],[[2,1,2,"Bo"]]]},"join":{"build":["k"],"probe":["probe.cust"]},"group":["probe.probe.cust"],"reduce":[]}"#;

const ORDERS: [[u32; 3]; 6] = [
    [0, 1, 2],
    [0, 2, 1],
    [1, 0, 2],
    [1, 2, 0],
    [2, 0, 1],
    [2, 1, 0],
];

/// The groups that a query gives of the three morsels in an order, over a number of local states.
fn groups_of(alloc: Global, query: &str, order: &[u32], states: u64) -> Result<Merged, Fail> {
    let mut asked = request_of(alloc, query)?;
    asked.query.plan.states = states;
    let joined = request_of(alloc, THREE_MORSELS)?;
    grouped(alloc, &asked.query, &joined, order)
}

/// Whether the groups are as wanted in each order, over a number of local states.
fn are_groups(alloc: Global, query: &str, states: u64, groups: &str) -> Result<bool, Fail> {
    let mut right = true;
    for order in ORDERS {
        let merged = groups_of(alloc, query, &order, states)?;
        right = right && frame_text(alloc, &merged.groups)?.as_str() == groups;
    }
    Ok(right)
}

#[test]
fn morsels_in_any_order(rt: HostRuntime) -> Result<(), Fail> {
    for states in 1..5 {
        assert!(rt; are_groups(rt.alloc(), BY_NAME, states, "Ann 5 ; Cy 5 ; Bo 1 ; ")?);
        assert!(rt;
            are_groups(
                rt.alloc(),
                BY_CUSTOMER,
                states,
                "1 Ann Cy 10 ; 2 Bo Bo 1 ; "
            )?
        );
    }
    Ok(())
}

#[test]
fn keys_of_local_states(rt: HostRuntime) -> Result<(), Fail> {
    let merged = groups_of(rt.alloc(), BY_NAME, &[2, 0, 1], 2)?;
    assert!(rt; frame_text(rt.alloc(), &merged.groups)?.as_str() == "Ann 5 ; Cy 5 ; Bo 1 ; ");
    assert!(rt; locals_text(rt.alloc(), &merged)?.as_str() == "Bo ; Ann ; / Cy ; / ");
    Ok(())
}
