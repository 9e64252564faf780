//! What a reduction of groups is.
ghost use Rattle.std.specs.Prelude.{◌≡◌, ◌<◌, ◌-◌, ◌^◌, ℕ, List, [], map, length, true, vec_len, slice_get, slice_index_or, IsOk, OnOk, OnErr, IfOk, IfErr, IsSomeAnd};
ghost use Rattle.std.specs.List.{All};
ghost use Rattle.list_laws.specs.Each.{Each};
ghost use Rattle.group_parts.specs.Parts.{dealt, AreSizes};
ghost use Rattle.reduce_model.specs.Folds.{reduced_type};
ghost use Rattle.reduce_states.specs.States.{State, IsState, start, out};
ghost use Rattle.reduce_states.specs.Moves.{numbered, cut_or_filled};
ghost use Rattle.reduce_states.specs.Reductions.{Shape, AreAlike, Enters, EntersFront, OnesOf, Gathered, Stays, entered_at};

use col_core::{DataType, IdxSize, Series};
use std::alloc::{AllocError, Global};

/// Groups with a state each, as contracts see them.
pub trait Stated {
    // The kind, the column type, whether calls are fixed, the number of groups, and the
    // representation.
    ghost shape: { Self → Shape };

    // Whether a list of states is one that the groups have.
    ghost holds: { Self → List State → Type 0 };
}

/// Groups with a state each, which values and states of other groups enter. `shape` is what it is
/// but for the states, and `holds` relates it to the list of its states. Where `shape` is fixed,
/// the four calls by which values and states enter never want memory.
pub trait GroupedReduction: Stated + Sized + Drop {
    /// No groups, of the same kind and column type.
    fn new_empty(&self) -> Self
        ensures shape { Self.shape result ≡ record (Self.shape self.now) { groups = 0 } }
        ensures states { Self.holds result [] };

    /// The number of groups.
    fn num_groups(&self) -> IdxSize
        ensures { result ≡ (Self.shape self.now).groups };

    /// The type of the columns whose values enter.
    fn in_dtype(&self) -> DataType
        ensures { result ≡ (Self.shape self.now).dtype };

    /// Whether the calls by which values and states enter always succeed.
    fn is_fixed(&self) -> bool
        ensures { result ≡ (Self.shape self.now).fixed };

    /// Makes room for so many more groups.
    fn reserve(&mut self, additional: usize) -> Result<(), AllocError>
        ensures shape { Self.shape self.new ≡ Self.shape self.old }
        ensures states { Stays (Self.holds self.old) (Self.holds self.new) };

    /// Cuts groups off, or adds groups with the state of nothing. After `Err` the groups are as
    /// they were.
    fn resize(&mut self, num_groups: IdxSize) -> Result<(), AllocError>
        ensures shape { OnOk result (Self.shape self.new ≡ record (Self.shape self.old) { groups = num_groups }) }
        ensures ok { OnOk result ((xs : List State) → Self.holds self.old xs
            → Self.holds self.new (cut_or_filled (start (Self.shape self.old).kind (Self.shape self.old).dtype) xs num_groups)) }
        ensures err { OnErr result ((Self.shape self.new ≡ Self.shape self.old) × Stays (Self.holds self.old) (Self.holds self.new)) };

    /// All values, in order, enter one group. After `Err` the group is as it was.
    fn update_group(
        &mut self,
        values: &Series,
        group_idx: IdxSize,
        seq_id: u64,
    ) -> Result<(), AllocError>
        requires dtype { values.now.dtype ≡ (Self.shape self.old).dtype }
        requires place { group_idx < (Self.shape self.old).groups }
        requires number { seq_id < 2 ^ 64 - 1 }
        ensures shape { Self.shape self.new ≡ Self.shape self.old }
        ensures ok { OnOk result ((xs : List State) → Self.holds self.old xs
            → Self.holds self.new (entered_at (Self.shape self.old) xs group_idx (numbered seq_id values.now.values))) }
        ensures err { OnErr result (Stays (Self.holds self.old) (Self.holds self.new)) }
        ensures fixed { (Self.shape self.old).fixed ≡ true → IsOk result };

    /// Value `i` enters group `group_idxs[i]`. After `Err` a front part has entered.
    fn update_groups(
        &mut self,
        values: &Series,
        group_idxs: &[IdxSize],
        seq_id: u64,
    ) -> Result<(), AllocError>
        requires dtype { values.now.dtype ≡ (Self.shape self.old).dtype }
        requires lengths { length values.now.values ≡ length group_idxs.now }
        requires places { All (λ g. g < (Self.shape self.old).groups) group_idxs.now }
        requires number { seq_id < 2 ^ 64 - 1 }
        ensures shape { Self.shape self.new ≡ Self.shape self.old }
        ensures ok { OnOk result (Enters (Self.shape self.old) (Self.holds self.old)
            (OnesOf (Self.shape self.old) seq_id values.now.values) (Self.holds self.new) group_idxs.now) }
        ensures err { OnErr result (EntersFront (Self.shape self.old) (Self.holds self.old)
            (OnesOf (Self.shape self.old) seq_id values.now.values) (Self.holds self.new) group_idxs.now) }
        ensures fixed { (Self.shape self.old).fixed ≡ true → IsOk result };

    /// Group `i` of `other` enters group `group_idxs[i]`. After `Err` a front part has entered.
    fn combine(&mut self, other: &Self, group_idxs: &[IdxSize]) -> Result<(), AllocError>
        requires alike { AreAlike (Self.shape self.old) (Self.shape other.now) }
        requires lengths { (Self.shape other.now).groups ≡ length group_idxs.now }
        requires places { All (λ g. g < (Self.shape self.old).groups) group_idxs.now }
        ensures shape { Self.shape self.new ≡ Self.shape self.old }
        ensures ok { OnOk result (Enters (Self.shape self.old) (Self.holds self.old) (Self.holds other.now) (Self.holds self.new) group_idxs.now) }
        ensures err { OnErr result (EntersFront (Self.shape self.old) (Self.holds self.old) (Self.holds other.now) (Self.holds self.new) group_idxs.now) }
        ensures fixed { (Self.shape self.old).fixed ≡ true → IsOk result };

    /// Group `subset[i]` of `other` enters group `group_idxs[i]`. After `Err` a front part has
    /// entered.
    fn gather_combine(
        &mut self,
        other: &Self,
        subset: &[IdxSize],
        group_idxs: &[IdxSize],
    ) -> Result<(), AllocError>
        requires alike { AreAlike (Self.shape self.old) (Self.shape other.now) }
        requires lengths { length subset.now ≡ length group_idxs.now }
        requires from { All (λ g. g < (Self.shape other.now).groups) subset.now }
        requires places { All (λ g. g < (Self.shape self.old).groups) group_idxs.now }
        ensures shape { Self.shape self.new ≡ Self.shape self.old }
        ensures ok { OnOk result (Enters (Self.shape self.old) (Self.holds self.old)
            (Gathered (Self.shape self.old) (Self.holds other.now) subset.now) (Self.holds self.new) group_idxs.now) }
        ensures err { OnErr result (EntersFront (Self.shape self.old) (Self.holds self.old)
            (Gathered (Self.shape self.old) (Self.holds other.now) subset.now) (Self.holds self.new) group_idxs.now) }
        ensures fixed { (Self.shape self.old).fixed ≡ true → IsOk result };

    /// Group `i` goes to part `partition_idxs[i]`, in group order. `Err` is want of memory, and
    /// hands the groups back.
    fn partition(
        self,
        alloc: Global,
        partition_sizes: &[IdxSize],
        partition_idxs: &[IdxSize],
    ) -> Result<Vec<Self>, Self>
        requires lengths { length partition_idxs.now ≡ (Self.shape self).groups }
        requires sizes { AreSizes partition_sizes.now partition_idxs.now }
        ensures parts { IfOk result (λ v. vec_len v ≡ length partition_sizes.now) }
        ensures shapes { IfOk result (λ v. (p : ℕ) → p < length partition_sizes.now
            → IsSomeAnd (slice_get v.items p) (λ r. Self.shape r ≡ record (Self.shape self) { groups = slice_index_or partition_sizes.now p 0 })) }
        ensures ok { IfOk result (λ v. (xs : List State) → Self.holds self xs → (p : ℕ) → p < length partition_sizes.now
            → IsSomeAnd (slice_get v.items p) (λ r. Self.holds r (dealt p partition_idxs.now xs))) }
        ensures err { IfErr result (λ back. (Self.shape back ≡ Self.shape self) × Stays (Self.holds self) (Self.holds back)) };

    /// The value of each group, as a column with an empty name, and no groups from then on. After
    /// `Err` the groups are as they were.
    fn finalize(&mut self, alloc: Global) -> Result<Series, AllocError>
        ensures name { IfOk result (λ s. s.name ≡ []) }
        ensures dtype { IfOk result (λ s. s.dtype ≡ reduced_type (Self.shape self.old).kind (Self.shape self.old).dtype) }
        ensures rows { IfOk result (λ s. length s.values ≡ (Self.shape self.old).groups) }
        ensures ok { IfOk result (λ s. (xs : List State) → Self.holds self.old xs → s.values ≡ map out xs) }
        ensures emptied { OnOk result ((Self.shape self.new ≡ record (Self.shape self.old) { groups = 0 }) × Self.holds self.new []) }
        ensures err { OnErr result ((Self.shape self.new ≡ Self.shape self.old) × Stays (Self.holds self.old) (Self.holds self.new)) };

    ghost long: { (s : Self) (xs : List State) → Self.holds s xs → length xs ≡ (Self.shape s).groups };

    ghost states: { (s : Self) (xs : List State) → Self.holds s xs → Each (IsState (Self.shape s).kind (Self.shape s).dtype) xs };
}
