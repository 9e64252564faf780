//! Arrays of values: what a chunk does, said once for all arrays.
ghost use Rattle.std.specs.Prelude.{◌≡◌, ◌<◌, ◌≤◌, ◌+◌, List, [], ◌∷◌, ◌++◌, map, take, drop, length, not, OnOk, OnErr, IfOk, option_copied};
ghost use Rattle.std.specs.List.{All, count_by, list_any};
ghost use Rattle.col_core.specs.declared.data_type.DataType.TheVariants as types;
ghost use Rattle.col_core.specs.declared.leaf.Leaf.{Leaf};
ghost use Rattle.col_core.specs.declared.leaf.Leaf.TheVariants as leaves;
ghost use Rattle.col_core.specs.Lent.{lent_leaf};
ghost use Rattle.col_core.specs.Physical.{IsTruth, IsNumber, HasBytes};
ghost use Rattle.col_core.specs.Tables.{values_at};
ghost use Rattle.col_core.specs.Values.{value_at, item_leaf, number_leaf, is_null, is_text, is_bad_text};

use crate::leaf::LeafRef;
use crate::text::small_bytes;
use col_arrays::{BinaryArray, BooleanArray, IdxSize, Native, PrimitiveArray};
use std::alloc::{AllocError, Global};
use std::str::from_utf8;

/// An array whose items are values of a column.
pub(crate) trait ValueArray: Sized {
    // The values of the items.
    ghost values: { Self → List Leaf };

    // The values that can be kept.
    ghost keeps: { Leaf → Type 0 };

    /// No items yet.
    fn empty(alloc: Global) -> Self
        ensures { values result ≡ [] };

    /// The number of items. Each of them can be kept.
    fn count(&self) -> usize
        ensures count { result ≡ length (values self.now) }
        ensures kept { All keeps (values self.now) };

    /// The number of nulls.
    fn count_null(&self) -> usize
        ensures { result ≡ count_by is_null (values self.now) };

    /// The value at a place, lent.
    fn lent(&self, i: usize) -> LeafRef<'_>
        requires { i < length (values self.now) }
        ensures value { lent_leaf result ≡ value_at (values self.now) i }
        ensures kept { keeps (lent_leaf result) };

    /// Appends a value. After `Err` the items are as they were.
    fn push_value(&mut self, value: LeafRef<'_>) -> Result<(), AllocError>
        requires { keeps (lent_leaf value) }
        ensures ok { OnOk result (values self.new ≡ values self.old ++ lent_leaf value.entry ∷ []) }
        ensures err { OnErr result (self.new ≡ self.old) };

    /// Appends a null. After `Err` the items are as they were.
    fn push_missing(&mut self) -> Result<(), AllocError>
        ensures ok { OnOk result (values self.new ≡ values self.old ++ leaves.Null ∷ []) }
        ensures err { OnErr result (self.new ≡ self.old) };

    /// Appends the item at a place of another array. After `Err` the items are as they were.
    fn push_item(&mut self, source: &Self, i: usize) -> Result<(), AllocError>
        requires { i < length (values source.now) }
        ensures ok { OnOk result
            (values self.new ≡ values self.old ++ value_at (values source.now) i ∷ []) }
        ensures err { OnErr result (self.new ≡ self.old) };

    /// The items at indexes.
    fn take_items(&self, alloc: Global, idxs: &[IdxSize]) -> Result<Self, AllocError>
        requires { All (λ i. i < length (values self.now)) idxs.now }
        ensures { IfOk result (λ taken. values taken ≡ values_at (values self.now) idxs.now) };

    /// Appends `len` items of another array from `start` on. After `Err` the items are as they were.
    fn extend_items(&mut self, source: &Self, start: usize, len: usize) -> Result<(), AllocError>
        requires { start + len ≤ length (values source.now) }
        ensures ok { OnOk result
            (values self.new ≡ values self.old ++ take len (drop start (values source.now))) }
        ensures err { OnErr result (self.new ≡ self.old) };
}

#[tactic(auto, using(crate::proofs::ItemLeaves::arrays))]
impl ValueArray for BooleanArray {
    ghost values = { λ items. map (item_leaf (λ b. leaves.Bool b)) items };

    ghost keeps = { IsTruth };

    fn empty(alloc: Global) -> Self {
        BooleanArray::new(alloc)
    }

    fn count(&self) -> usize {
        self.len()
    }

    fn count_null(&self) -> usize {
        self.null_count()
    }

    #[inline(always)]
    fn lent(&self, i: usize) -> LeafRef<'_> {
        match self.get(i) {
            Some(b) => LeafRef::Bool(b),
            None => LeafRef::Null,
        }
    }

    #[inline(always)]
    fn push_value(&mut self, value: LeafRef<'_>) -> Result<(), AllocError> {
        match value {
            LeafRef::Bool(b) => self.push(b, true),
            _ => self.push_null(),
        }
    }

    #[inline(always)]
    fn push_missing(&mut self) -> Result<(), AllocError> {
        self.push_null()
    }

    #[inline(always)]
    fn push_item(&mut self, source: &Self, i: usize) -> Result<(), AllocError> {
        self.push_from(source, i)
    }

    fn take_items(&self, alloc: Global, idxs: &[IdxSize]) -> Result<Self, AllocError> {
        self.take(alloc, idxs)
    }

    fn extend_items(&mut self, source: &Self, start: usize, len: usize) -> Result<(), AllocError> {
        self.extend_from_range(source, start, len)
    }
}

#[tactic(auto, using(crate::proofs::ItemLeaves::arrays))]
impl<T: Native> ValueArray for PrimitiveArray<T> {
    ghost values = { λ items. map (number_leaf T.value) items };

    ghost keeps = { IsNumber T.fits };

    fn empty(alloc: Global) -> Self {
        PrimitiveArray::new(alloc)
    }

    fn count(&self) -> usize {
        self.len()
    }

    fn count_null(&self) -> usize {
        self.null_count()
    }

    #[inline(always)]
    fn lent(&self, i: usize) -> LeafRef<'_> {
        match self.get(i) {
            Some(n) => LeafRef::Whole(n.to_whole()),
            None => LeafRef::Null,
        }
    }

    #[inline(always)]
    fn push_value(&mut self, value: LeafRef<'_>) -> Result<(), AllocError> {
        match value {
            LeafRef::Whole(z) => self.push(T::from_whole(z), true),
            _ => self.push_null(),
        }
    }

    #[inline(always)]
    fn push_missing(&mut self) -> Result<(), AllocError> {
        self.push_null()
    }

    #[inline(always)]
    fn push_item(&mut self, source: &Self, i: usize) -> Result<(), AllocError> {
        self.push_from(source, i)
    }

    fn take_items(&self, alloc: Global, idxs: &[IdxSize]) -> Result<Self, AllocError> {
        self.take(alloc, idxs)
    }

    fn extend_items(&mut self, source: &Self, start: usize, len: usize) -> Result<(), AllocError> {
        self.extend_from_range(source, start, len)
    }
}

#[tactic(auto, using(crate::proofs::ItemLeaves::arrays))]
impl ValueArray for BinaryArray {
    ghost values = { λ items. map (item_leaf (λ b. leaves.Bytes b)) items };

    ghost keeps = { HasBytes };

    fn empty(alloc: Global) -> Self {
        BinaryArray::new(alloc)
    }

    fn count(&self) -> usize {
        self.len()
    }

    fn count_null(&self) -> usize {
        self.null_count()
    }

    #[inline(always)]
    fn lent(&self, i: usize) -> LeafRef<'_> {
        match self.get(i) {
            Some(b) => LeafRef::Bytes(small_bytes(b)),
            None => LeafRef::Null,
        }
    }

    #[inline(always)]
    fn push_value(&mut self, value: LeafRef<'_>) -> Result<(), AllocError> {
        match value {
            LeafRef::Bytes(b) => self.push(b, true),
            _ => self.push_null(),
        }
    }

    #[inline(always)]
    fn push_missing(&mut self) -> Result<(), AllocError> {
        self.push_null()
    }

    #[inline(always)]
    fn push_item(&mut self, source: &Self, i: usize) -> Result<(), AllocError> {
        self.push_from(source, i)
    }

    fn take_items(&self, alloc: Global, idxs: &[IdxSize]) -> Result<Self, AllocError> {
        self.take(alloc, idxs)
    }

    fn extend_items(&mut self, source: &Self, start: usize, len: usize) -> Result<(), AllocError> {
        self.extend_from_range(source, start, len)
    }
}

/// Whether some present item is no text.
#[tactic(auto, using(crate::proofs::Texts::texts))]
pub(crate) fn has_invalid_utf8(items: &BinaryArray) -> bool
    ensures { result ≡ list_any
        (λ value. not (is_text types.String value))
        (map (item_leaf (λ b. leaves.Bytes b)) items.now) }
{
    for i in 0..items.len() {
        if is_bad_text(items.get(i)) {
            return true;
        }
    }
    false
}

/// Whether an item is present and no text.
#[tactic(auto, using(crate::proofs::Texts::texts))]
fn is_bad_text(item: Option<&[u8]>) -> bool
    ensures { result ≡ is_bad_text (option_copied item.entry) }
{
    match item {
        Some(bytes) => from_utf8(bytes).is_err(),
        None => false,
    }
}
