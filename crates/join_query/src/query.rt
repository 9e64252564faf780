//! Queries and their parts.
use col_core::{List, Name, Schema};
use reduce_model::ReductionKind;

/// One of the two sides of a join.
#[derive(Clone, Copy, PartialEq, Eq, Debug)]
pub enum Side {
    /// The side whose rows are looked up.
    Build,
    /// The side whose rows are looked up with, and whose order the answer has.
    Probe,
}

/// A column of a side, by name. Where a schema repeats the name, its first column of that name.
#[derive(Debug, Drop)]
pub struct ColumnRef {
    pub side: Side,
    pub name: Name,
}

/// How a filter compares its left operand with its right one.
#[derive(Clone, Copy, PartialEq, Eq, Debug)]
pub enum FilterOp {
    Eq,
    Ne,
    Lt,
    Le,
    Gt,
    Ge,
}

/// A whole number with its type.
#[derive(Clone, Copy, PartialEq, Eq, Debug)]
pub enum IntLiteral {
    I8(i8),
    I16(i16),
    I32(i32),
    I64(i64),
    U8(u8),
    U16(u16),
    U32(u32),
    U64(u64),
}

/// The right side of a comparison.
#[derive(Debug, Drop)]
pub enum Operand {
    Column(ColumnRef),
    Literal(IntLiteral),
}

/// A comparison that a joined row has to pass. A null operand fails it under every operation.
#[derive(Debug, Drop)]
pub struct Filter {
    pub op: FilterOp,
    pub left: ColumnRef,
    pub right: Operand,
}

/// A reduction of a column over each group.
#[derive(Debug, Drop)]
pub struct Reduction {
    pub kind: ReductionKind,
    pub column: ColumnRef,
}

/// How the engine is to work. Of these numbers the answer depends on `rows` alone, which bounds the joined list.
#[derive(Clone, Copy, PartialEq, Eq, Debug)]
pub struct Plan {
    /// The number of partitions of the build side, 1 to 65,536.
    pub partitions: u64,
    /// The number of local states of the groups, 1 to 65,536.
    pub states: u64,
    /// The number of pairs at which a probe stops, 1 to 2^31 - 1.
    pub limit: u64,
    /// The number of rows of a morsel, 1 to 2^31 - 1.
    pub morsel: u64,
    /// The greatest length of the joined list before the filter, 1 to 2^32 - 1.
    pub rows: u64,
    /// The seed of the hash.
    pub seed: u64,
    /// The mask of the hash.
    pub mask: u64,
    /// The odd factor that spreads hashes over partitions.
    pub pseed: u64,
}

/// A join of a build and a probe side on equal keys, a filter, and groups of the rows with reductions.
#[derive(Debug, Drop)]
pub struct Query {
    pub build_schema: Schema,
    pub probe_schema: Schema,
    /// The join key of the build side: column names, one for each of `probe_keys`.
    pub build_keys: List<Name>,
    /// The join key of the probe side.
    pub probe_keys: List<Name>,
    /// Whether two nulls join.
    pub null_equal: bool,
    /// Whether a probe row that no build row joins is kept, beside nulls.
    pub keep_probe: bool,
    /// Whether the build rows that join no probe row follow at the end, beside nulls.
    pub keep_build: bool,
    pub filter: Option<Filter>,
    pub group_keys: List<ColumnRef>,
    pub reductions: List<Reduction>,
    pub plan: Plan,
}
