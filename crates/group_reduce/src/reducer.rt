//! How the state of one group is kept.
ghost use Rattle.std.specs.Prelude.{◌≡◌, ◌≢◌, ◌<◌, ℕ, Bool, true, [], length, None, IsOk, OnOk, OnErr, IfOk};
ghost use Rattle.std.specs.Option.{ForSome};
ghost use Rattle.col_core.specs.declared.data_type.DataType.{DataType};
ghost use Rattle.col_core.specs.Lent.{lent_leaf};
ghost use Rattle.col_core.specs.Values.{value_at, Fits};
ghost use Rattle.reduce_model.specs.declared.kind.ReductionKind.{ReductionKind};
ghost use Rattle.reduce_model.specs.declared.kind.ReductionKind.TheVariants.{Sum};
ghost use Rattle.reduce_states.specs.States.{State};
ghost use Rattle.group_reduce.specs.Reducing.{TakesOne, TakesAll, Merges, AllFit, AreFinished, all_shown};

use col_arrays::MutableBitmap;
use col_core::{DataType, LeafRef, Series};
use std::alloc::{AllocError, Global};

/// How the state of one group is kept as a value. Sequence numbers are at least 1, and 0 means that
/// nothing entered. Where `FIXED` no call but `finish` wants memory.
pub trait Reducer: Copy {
    /// A kept state.
    type Value: Drop;

    /// Whether values and states enter without memory.
    const FIXED: bool;

    ghost FIXED: { Bool };

    // The kind of the reduction.
    ghost kind: { ReductionKind };

    // A number that no other reducer of the kind has.
    ghost form: { ℕ };

    // Whether columns of a type can enter.
    ghost serves: { DataType → Bool };

    // Whether a kept value that stands for none stands for nothing else.
    ghost tells_none: { Bool };

    // Whether a kept value gives a value of a column type.
    ghost fits: { DataType → Self.Value → Bool };

    // Whether a kept value stands for a state.
    ghost stands: { Self.Value → State → Type 0 };

    /// The value that stands for none.
    fn init(&self) -> Self::Value
        ensures none { stands result None }
        ensures fits { (t : DataType) → fits t result ≡ true };

    /// State `b` enters state `a`. After `Err` the state is as it was.
    fn combine(&self, a: &mut Self::Value, b: &Self::Value) -> Result<(), AllocError>
        ensures ok { OnOk result (Merges stands kind a.old b.now a.new) }
        ensures fits { (t : DataType) → fits t a.old ≡ true → fits t b.now ≡ true → fits t a.new ≡ true }
        ensures err { OnErr result (a.new ≡ a.old) }
        ensures fixed { FIXED ≡ true → IsOk result };

    /// One item enters state `a`. After `Err` the state is as it was.
    fn reduce_one(&self, a: &mut Self::Value, b: LeafRef<'_>, seq_id: u64) -> Result<(), AllocError>
        requires number { 0 < seq_id }
        requires served { (t : DataType) × (serves t ≡ true) × Fits t (lent_leaf b) }
        ensures ok { OnOk result (TakesOne stands kind seq_id (lent_leaf b.entry) a.old a.new) }
        ensures fits { (t : DataType) → Fits t (lent_leaf b.entry) → fits t a.old ≡ true → fits t a.new ≡ true }
        ensures err { OnErr result (a.new ≡ a.old) }
        ensures fixed { FIXED ≡ true → IsOk result };

    /// `reduce_one` with item `i`.
    fn reduce_at(
        &self,
        a: &mut Self::Value,
        values: &Series,
        i: usize,
        seq_id: u64,
    ) -> Result<(), AllocError>
        requires number { 0 < seq_id }
        requires place { i < length values.now.values }
        requires served { serves values.now.dtype ≡ true }
        ensures ok { OnOk result (TakesOne stands kind seq_id (value_at values.now.values i) a.old a.new) }
        ensures fits { fits values.now.dtype a.old ≡ true → fits values.now.dtype a.new ≡ true }
        ensures err { OnErr result (a.new ≡ a.old) }
        ensures fixed { FIXED ≡ true → IsOk result }
    {
        self.reduce_one(a, values.leaf_ref(i), seq_id)
    }

    /// `reduce_one` over the items in order. After `Err` the state is as it was before all of them.
    fn reduce_ca(&self, v: &mut Self::Value, ca: &Series, seq_id: u64) -> Result<(), AllocError>
        requires number { 0 < seq_id }
        requires served { serves ca.now.dtype ≡ true }
        ensures ok { OnOk result (TakesAll stands kind seq_id ca.now.values v.old v.new) }
        ensures fits { fits ca.now.dtype v.old ≡ true → fits ca.now.dtype v.new ≡ true }
        ensures err { OnErr result (v.new ≡ v.old) }
        ensures fixed { FIXED ≡ true → IsOk result };

    /// A column with an empty name of the values that the states hold. An item is null where its
    /// state holds none, and where its bit of a given `m` is not set.
    fn finish(
        &self,
        alloc: Global,
        v: &[Self::Value],
        m: Option<&MutableBitmap>,
        dtype: DataType,
    ) -> Result<Series, AllocError>
        requires mask { ForSome m (λ bits. length bits.now ≡ length v.now) }
        requires served { serves dtype ≡ true }
        requires fit { AllFit fits dtype v.now }
        ensures name { IfOk result (λ s. s.name ≡ []) }
        ensures dtype { IfOk result (λ s. s.dtype ≡ dtype) }
        ensures plain { m.entry ≡ None → IfOk result (λ s. AreFinished stands tells_none v.now (all_shown (length v.now)) s.values) }
        ensures masked { ForSome m.entry (λ bits. IfOk result (λ s. AreFinished stands tells_none v.now bits.now s.values)) };

    ghost plain: { kind ≢ Sum };
}
