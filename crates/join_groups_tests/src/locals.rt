//! A morsel that enters new local states by the calls themselves.
ghost use Rattle.std.specs.Prelude.{◌≡◌, ◌<◌};

use crate::asked::{request_of, require_fit};
use crate::morsels::BY_NAME;
use crate::shown::{frame_text, locals_text};
use join_groups::{Merged, group_morsel, merge_groups, new_locals};
use join_query::Query;
use join_request::Request;
use std::alloc::Global;
use std::marker::Brand;
use std::sync::ledger::{Blank, Ledger};
use std::test::Fail;
use step_count::Steps;

fn one_morsel_from<L: Ledger>(
    alloc: Global,
    query: &Query,
    joined: &Request,
    blank: Blank,
) -> Result<Merged, Fail>
    requires name { blank.name ≡ L.name }
    requires parts { blank.parts ≡ L.parts }
    requires some { 0 < L.parts }
{
    let mut steps = Steps::<L>::new(blank);
    require_fit(alloc, query, joined)?;
    let morsels = joined.probe.as_slice();
    if morsels.is_empty() {
        return Err(Fail::from("no morsel"));
    }
    let mut locals = new_locals(alloc, query)?;
    group_morsel(alloc, query, &mut locals, 0, 0, &morsels[0], &mut steps)?;
    Ok(merge_groups(alloc, query, locals, &mut steps)?)
}

/// The groups of one morsel.
fn one_morsel(alloc: Global, query: &Query, joined: &Request) -> Result<Merged, Fail> {
    one_morsel_from::<Brand>(alloc, query, joined, Blank::new(1))
}

/// Three joined rows in a morsel.
const ONE_MORSEL: &str =
    r#"{"build":{"schema":[["k","Int64"]],"frames":[]},"probe":{"schema":[["probe.cust","Int64"],["probe.amt","Int64"],["build.id","Int64"],["build.name","String"]],"frames":[[[1,5,1,"Ann"],[1,5,1,"Cy"],[2,1,2,"Bo"]]]},"join":{"build":["k"],"probe":["probe.cust"]},"group":["probe.probe.cust"],"reduce":[]}"#;

#[test]
fn four_local_states(rt: HostRuntime) -> Result<(), Fail> {
    let asked = request_of(rt.alloc(), BY_NAME)?;
    let joined = request_of(rt.alloc(), ONE_MORSEL)?;
    let merged = one_morsel(rt.alloc(), &asked.query, &joined)?;
    assert!(rt; frame_text(rt.alloc(), &merged.groups)?.as_str() == "Ann 5 ; Cy 5 ; Bo 1 ; ");
    assert!(rt; locals_text(rt.alloc(), &merged)?.as_str() == "Ann ; Cy ; Bo ; / / / / ");
    Ok(())
}
