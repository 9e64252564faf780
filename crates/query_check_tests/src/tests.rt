//! What no clause shows: that the definition of the first cause says what is meant.
use crate::queries::{Change, make_change, query};
use col_core::DataType;
use join_model::{DEFAULT_PLAN, Plan, QueryError};
use query_check::check_query;
use std::alloc::Global;
use std::test::Fail;

// Why a query with two changes is refused.
fn refusal(alloc: Global, first: Change, second: Change) -> Result<Option<QueryError>, Fail> {
    let mut asked = query(alloc)?;
    make_change(alloc, &mut asked, first)?;
    make_change(alloc, &mut asked, second)?;
    Ok(check_query(&asked, &[], &[]).err())
}

const NO_SUM: Change = Change::AmountType(DataType::Boolean);

const NO_PARTITION: Change = Change::Plan(Plan {
    partitions: 0,
    ..DEFAULT_PLAN
});

// Two changes, and the error of the first cause among them.
const REFUSALS: [(Change, Change, Option<QueryError>); 9] = [
    (Change::Nothing, Change::Nothing, None),
    (
        Change::NoGroup,
        Change::Sum("zzz"),
        Some(QueryError::NoKeyColumns),
    ),
    (
        Change::BuildKey("nope"),
        Change::Nothing,
        Some(QueryError::UnknownColumn { position: 0 }),
    ),
    (
        Change::Sum("zzz"),
        Change::BuildKey("name"),
        Some(QueryError::UnknownColumn { position: 3 }),
    ),
    (
        Change::BuildKey("name"),
        NO_SUM,
        Some(QueryError::SchemaMismatch),
    ),
    (
        NO_SUM,
        Change::NameFilter,
        Some(QueryError::UnsupportedReduction { index: 0 }),
    ),
    (
        Change::NameFilter,
        NO_PARTITION,
        Some(QueryError::UnsupportedFilter),
    ),
    (NO_PARTITION, Change::KeepProbe, Some(QueryError::BadPlan)),
    (Change::Least, Change::Nothing, None),
];

#[test]
fn tells_the_first_cause(rt: HostRuntime) -> Result<(), Fail> {
    for (first, second, error) in REFUSALS {
        assert!(rt;
            refusal(rt.alloc(), first, second)? == error,
            "{first:?} {second:?}"
        );
    }
    Ok(())
}

// Plans with one number out of its range, and one whose factor is even.
const BAD_PLANS: [Plan; 6] = [
    Plan {
        partitions: 65_537,
        ..DEFAULT_PLAN
    },
    Plan {
        states: 65_537,
        ..DEFAULT_PLAN
    },
    Plan {
        limit: 2_147_483_648,
        ..DEFAULT_PLAN
    },
    Plan {
        morsel: 2_147_483_648,
        ..DEFAULT_PLAN
    },
    Plan {
        rows: 0,
        ..DEFAULT_PLAN
    },
    Plan {
        pseed: 2,
        ..DEFAULT_PLAN
    },
];

#[test]
fn refuses_plans_out_of_range(rt: HostRuntime) -> Result<(), Fail> {
    for plan in BAD_PLANS {
        let told = refusal(rt.alloc(), Change::Plan(plan), Change::Nothing)?;
        assert!(rt; told == Some(QueryError::BadPlan), "{plan:?}");
    }
    Ok(())
}
