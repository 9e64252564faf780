//! The values of columns.
ghost use Rattle.std.specs.Prelude.{◌≡◌, ◌↔◌, IsTrue, IfOk};
ghost use Rattle.col_core.specs.Lent.{lent_leaf};
ghost use Rattle.col_core.specs.Values.{Fits, AreBytesOf, is_null, leaf_eq};

use crate::data_type::DataType;
use crate::text::Blob;
use std::alloc::{AllocError, Global};
use std::str::from_utf8;

/// A value of a column, or a null.
#[derive(Debug, Drop)]
pub enum Leaf {
    /// No value.
    Null,
    /// A truth value.
    Bool(bool),
    /// A whole number: of an integer type, a scaled decimal, or days or units of time.
    Whole(i128),
    /// A text's UTF-8, or bytes.
    Bytes(Blob),
}

impl Leaf {
    /// The same value, lent.
    pub fn as_ref(&self) -> LeafRef<'_>
        ensures { lent_leaf result ≡ self.now }
    {
        match self {
            Leaf::Null => LeafRef::Null,
            Leaf::Bool(b) => LeafRef::Bool(*b),
            Leaf::Whole(z) => LeafRef::Whole(*z),
            Leaf::Bytes(b) => LeafRef::Bytes(b.as_slice()),
        }
    }

    /// Whether the value is null.
    pub fn is_null(&self) -> bool
        ensures { result ≡ is_null self.now }
    {
        self.as_ref().is_null()
    }

    /// Whether two values are the same. Two nulls are.
    pub fn is_same(&self, other: &Leaf) -> bool
        ensures { result ≡ leaf_eq self.now other.now }
    {
        self.as_ref().is_same(other.as_ref())
    }

    /// An equal value.
    pub fn try_clone(&self, alloc: Global) -> Result<Leaf, AllocError>
        ensures { IfOk result (λ v. v ≡ self.now) }
    {
        self.as_ref().to_leaf(alloc)
    }
}

/// A value of a column that is lent, or a null. It takes no memory.
#[derive(Clone, Copy, PartialEq, Eq, Debug)]
pub enum LeafRef<'a> {
    /// No value.
    Null,
    /// A truth value.
    Bool(bool),
    /// A whole number: of an integer type, a scaled decimal, or days or units of time.
    Whole(i128),
    /// A text's UTF-8, or bytes.
    Bytes(&'a [u8]),
}

impl<'a> LeafRef<'a> {
    /// Whether the value is null.
    #[inline(always)]
    pub fn is_null(self) -> bool
        ensures { result ≡ is_null (lent_leaf self.entry) }
    {
        match self {
            LeafRef::Null => true,
            _ => false,
        }
    }

    /// Whether two values are the same. Two nulls are.
    pub fn is_same(self, other: LeafRef<'_>) -> bool
        ensures { result ≡ leaf_eq (lent_leaf self.entry) (lent_leaf other.entry) }
    {
        match (self, other) {
            (LeafRef::Null, LeafRef::Null) => true,
            (LeafRef::Bool(a), LeafRef::Bool(b)) => a == b,
            (LeafRef::Whole(a), LeafRef::Whole(b)) => a == b,
            (LeafRef::Bytes(a), LeafRef::Bytes(b)) => a == b,
            _ => false,
        }
    }

    /// A copy of the value.
    pub fn to_leaf(self, alloc: Global) -> Result<Leaf, AllocError>
        ensures { IfOk result (λ v. v ≡ lent_leaf self.entry) }
    {
        match self {
            LeafRef::Null => Ok(Leaf::Null),
            LeafRef::Bool(b) => Ok(Leaf::Bool(b)),
            LeafRef::Whole(z) => Ok(Leaf::Whole(z)),
            LeafRef::Bytes(b) => Ok(Leaf::Bytes(Blob::new(alloc, b)?)),
        }
    }

    /// Whether the value fits a type: it is null, or of the type's kind and range.
    pub fn fits(self, dtype: DataType) -> bool
        ensures { IsTrue result ↔ Fits dtype (lent_leaf self.entry) }
    {
        match self {
            LeafRef::Null => true,
            LeafRef::Bool(_) => dtype == DataType::Boolean,
            LeafRef::Whole(z) => dtype.holds_whole(z),
            LeafRef::Bytes(b) => are_bytes_of(dtype, b),
        }
    }
}

/// Whether bytes are those of a type.
#[tactic(auto, using(crate::proofs::Bytes::are_bytes))]
fn are_bytes_of(dtype: DataType, bytes: &[u8]) -> bool
    ensures { IsTrue result ↔ AreBytesOf dtype bytes.now }
{
    match dtype {
        DataType::String => from_utf8(bytes).is_ok(),
        DataType::Binary => true,
        _ => false,
    }
}
