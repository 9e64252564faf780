//! Plans: whole numbers, each with a default.
use crate::error::RequestError;
use crate::from_value::{FromValue, member_or};
use crate::json::object_named;
use join_query::{DEFAULT_PLAN, Plan};
use serde_json::Value;
use std::alloc::Global;

impl FromValue for Plan {
    ghost use Rattle.join_request.specs.Plans.{plan_of_value};

    ghost from_value = { plan_of_value };

    fn from_value(alloc: Global, value: &Value) -> Result<Plan, RequestError> {
        let names = [
            "partitions",
            "states",
            "limit",
            "morsel",
            "rows",
            "seed",
            "mask",
            "pseed",
        ];
        let plan = object_named(value, &names)?;
        let default = DEFAULT_PLAN;
        Ok(Plan {
            partitions: member_or(alloc, plan, "partitions", default.partitions)?,
            states: member_or(alloc, plan, "states", default.states)?,
            limit: member_or(alloc, plan, "limit", default.limit)?,
            morsel: member_or(alloc, plan, "morsel", default.morsel)?,
            rows: member_or(alloc, plan, "rows", default.rows)?,
            seed: member_or(alloc, plan, "seed", default.seed)?,
            mask: member_or(alloc, plan, "mask", default.mask)?,
            pseed: member_or(alloc, plan, "pseed", default.pseed)?,
        })
    }
}

impl FromValue for u64 {
    ghost use Rattle.join_request.specs.Plans.{number_of_value};

    ghost from_value = { number_of_value };

    fn from_value(_alloc: Global, value: &Value) -> Result<u64, RequestError> {
        value.as_u64().ok_or(RequestError::Shape)
    }
}
