//! Laws of states. Each function has an empty body: its clauses are what it is for.
ghost use Rattle.std.specs.Prelude.{◌≡◌, ◌<◌, ◌+◌, ℕ, List, ◌++◌, None, map, take, length, slice_set, slice_index, slice_index_or};
ghost use Rattle.col_core.specs.declared.data_type.DataType.{DataType};
ghost use Rattle.reduce_model.specs.declared.kind.ReductionKind.{ReductionKind};
ghost use Rattle.reduce_model.specs.Folds.{fold_of};
ghost use Rattle.reduce_states.specs.States.{Entry, State, out, start, one, merge, after, state_of, IsState, Apart, IsInOrder};
ghost use Rattle.reduce_states.specs.Moves.{entered};

/// Merging is associative, whatever is merged.
pub fn merging_is_associative()
    ensures { (k : ReductionKind) (t : DataType) (a b c : State) → merge k t (merge k t a b) c ≡ merge k t a (merge k t b c) }
{}

/// The state of entries is a state, and so is what two states make together: the state of nothing is neutral for both.
pub fn states_are_states()
    ensures of_entries { (k : ReductionKind) (t : DataType) (es : List Entry) → IsState k t (state_of k t es) }
    ensures of_one { (k : ReductionKind) (t : DataType) (e : Entry) → IsState k t (one k t e) }
    ensures merged { (k : ReductionKind) (t : DataType) (a b : State) → IsState k t a → IsState k t b → IsState k t (merge k t a b) }
{}

/// Entries that enter a state one after the other are merged into it as one state, and two lists give the merge of their states.
pub fn lists_merge()
    ensures after { (k : ReductionKind) (t : DataType) (s : State) (es : List Entry) → IsState k t s → after k t s es ≡ merge k t s (state_of k t es) }
    ensures append { (k : ReductionKind) (t : DataType) (xs ys : List Entry) → state_of k t (xs ++ ys) ≡ merge k t (state_of k t xs) (state_of k t ys) }
{}

/// Where no number stands in both lists, their states merge either way round.
pub fn merging_goes_by_number()
    ensures { (k : ReductionKind) (t : DataType) (xs ys : List Entry) → Apart xs ys
        → merge k t (state_of k t xs) (state_of k t ys) ≡ merge k t (state_of k t ys) (state_of k t xs) }
{}

/// Where the numbers of entries do not fall, their state gives the plain fold of their values.
pub fn states_give_folds()
    ensures { (k : ReductionKind) (t : DataType) (es : List Entry) → IsInOrder es → out (state_of k t es) ≡ fold_of k t (map (λ e. e.value) es) }
{}

/// States enter groups one by one: each changes its own group alone, and none changes how many groups there are.
pub fn states_enter_one_by_one()
    ensures long { (k : ReductionKind) (t : DataType) (xs ys : List State) (gs : List ℕ) → length (entered (start k t) (merge k t) xs gs ys) ≡ length xs }
    ensures more { (k : ReductionKind) (t : DataType) (xs ys front : List State) (gs : List ℕ) (i : ℕ) → i < length gs → i < length ys
        → front ≡ entered (start k t) (merge k t) xs (take i gs) (take i ys)
        → entered (start k t) (merge k t) xs (take (i + 1) gs) (take (i + 1) ys) ≡ slice_set front (slice_index gs i)
        (merge k t (slice_index_or front (slice_index gs i) (start k t)) (slice_index_or ys i None)) }
{}
