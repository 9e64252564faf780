//! The kinds of reductions.

/// What a reduction makes of the values of a group. `fold_of` says which value that is.
#[derive(Clone, Copy, PartialEq, Eq, Debug)]
pub enum ReductionKind {
    /// The sum, which wraps in the type that keeps it.
    Sum,
    /// The least present value.
    Min,
    /// The greatest present value.
    Max,
    /// The first value, also where it is null.
    First,
    /// The last value, also where it is null.
    Last,
}
