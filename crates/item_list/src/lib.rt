//! A list that contracts see as its items.
//!
//! [`List`] is a `Vec` for signatures: it is made of one, gives it back, grows, and lends its items for
//! reading as a slice and one for writing. What is promised: each call is its operation on the list of
//! items, and after want of memory the list is as it was. It stands at the bottom, so that crates that
//! know nothing of columns have it too; `col_core` gives it again.
#![tactic(auto)]

ghost use Rattle.std.specs.Prelude.{◌≡◌, ◌<◌, [], ◌∷◌, ◌++◌, length, slice_get, Some, IfErr, OnOk, OnErr};

use std::alloc::Global;
use std::marker::Model;

/// A list over a `Vec`. Contracts see its items.
#[derive(Debug, Drop)]
pub struct List<T> {
    items: Vec<T>,
}

impl<T> Model for List<T> {
    ghost use Rattle.std.specs.Prelude.{List as Items};
    ghost use Rattle.std.specs.Coded.{coded_list};

    ghost Value = { Items T };

    ghost coded = { coded_list T.code };

    ghost view = { λ l. l.items.items };
}

impl<T> List<T> {
    ghost use Rattle.std.specs.Borrow.{sem};
    ghost use Rattle.item_list.specs.Lending.{LendsItem};

    /// No items yet.
    pub fn new(alloc: Global) -> List<T>
        ensures { result ≡ [] }
    {
        List {
            items: Vec::new(alloc),
        }
    }

    /// The items of a `Vec`.
    pub fn from_vec(v: Vec<T>) -> List<T>
        ensures { result ≡ v.items }
    {
        List { items: v }
    }

    /// The items as a `Vec`.
    pub fn into_vec(self) -> Vec<T>
        ensures { result.items ≡ self }
    {
        let List { items } = self;
        items
    }

    /// The items as a slice.
    pub fn as_slice(&self) -> &[T]
        ensures { result.now ≡ self.now }
    {
        &self.items
    }

    /// The number of items.
    pub fn len(&self) -> usize
        ensures { result ≡ length self.now }
    {
        self.items.len()
    }

    /// Appends an item. For want of memory it is handed back, and the list is as it was.
    pub fn push(&mut self, item: T) -> Result<(), T>
        ensures ok { OnOk result (self.new ≡ self.old ++ item ∷ []) }
        ensures err { OnErr result (self.new ≡ self.old) }
        ensures handed_back { IfErr result (λ x. x ≡ item) }
    {
        match self.items.push(item) {
            Ok(()) => Ok(()),
            Err(failed) => Err(failed.value),
        }
    }

    /// Lends an item for writing; all other items stay.
    pub fn item_mut(&mut self, i: usize) -> &mut T
        requires { i < length self.old }
        ensures* writes_back { sem 𝓛 (LendsItem T.row self.entry i result) }
        ensures value { slice_get self.old i ≡ Some result.now }
    {
        &mut self.items[i]
    }
}
