//! Why a query is refused.
use std::alloc::AllocError;
use thiserror::Error;

/// Why a query is not answered. `checked_refusal` and `refusal_of` say when each comes, the first in their order; the numbers
/// are those that a program prints.
#[derive(Clone, Copy, PartialEq, Eq, Debug, Error)]
pub enum QueryError {
    /// 1: a join key list of either side, or the group key list, is empty.
    #[error("no key columns")]
    NoKeyColumns,
    /// 2: a named column is none of its side's. The place is the least such, from 0, among the build keys, the probe keys, the
    /// columns of the filter, the group keys and the columns of the reductions; a literal of the filter has no place.
    #[error("unknown column")]
    UnknownColumn { position: usize },
    /// 3: a schema repeats a name, a frame has another schema than its side, or two columns that are compared differ in type.
    #[error("schemas differ")]
    SchemaMismatch,
    /// 4: a sum over a type that has none. The place is the least such among the reductions, from 0.
    #[error("unsupported reduction")]
    UnsupportedReduction { index: usize },
    /// 5: a filter over another type than the eight integer types.
    #[error("unsupported filter")]
    UnsupportedFilter,
    /// 6: a number of the plan is out of its range.
    #[error("bad plan")]
    BadPlan,
    /// 7: a side has 2^31 or more rows or frames, or the joined list is longer than the plan allows.
    #[error("too large")]
    TooLarge,
    /// 8: memory was wanted and not found. Nothing else is said of when this comes.
    #[error("out of memory")]
    Memory,
}

impl From<AllocError> for QueryError {
    ghost use Rattle.std.specs.Prelude.{◌≡◌};
    ghost use Rattle.join_query.specs.declared.error.QueryError.TheVariants.{Memory};

    ghost from_gives = { λ _ e. e ≡ Memory };

    fn from(_error: AllocError) -> QueryError {
        QueryError::Memory
    }
}
