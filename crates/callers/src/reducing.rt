//! A caller of the reductions.
ghost use Rattle.std.specs.Prelude.{◌≡◌, ◌<◌, ℕ, [], length, slice_index_or, IfOk};
ghost use Rattle.std.specs.List.{All};
ghost use Rattle.col_core.specs.declared.leaf.Leaf.TheVariants.{Null};
ghost use Rattle.reduce_model.specs.Folds.{fold_of};
ghost use Rattle.callers.specs.Groups.{values_of_group};

use col_core::{IdxSize, Series};
use group_reduce::GroupedReduction;
use std::alloc::{AllocError, Global};

/// What a reduction gives for each group of a column's values, of which value `i` is in group
/// `group_idxs[i]`: the plain fold of the group's values in their order. The reduction has no groups
/// before and none after.
pub fn reduced_groups<R: GroupedReduction>(
    alloc: Global,
    reduction: &mut R,
    values: &Series,
    group_idxs: &[IdxSize],
    groups: IdxSize,
) -> Result<Series, AllocError>
    requires without_groups { R.holds reduction.old [] }
    requires dtype { values.now.dtype ≡ (R.shape reduction.old).dtype }
    requires lengths { length values.now.values ≡ length group_idxs.now }
    requires places { All (λ g. g < groups) group_idxs.now }
    ensures { IfOk result (λ s. (g : ℕ) → g < groups → slice_index_or s.values g Null
        ≡ fold_of (R.shape reduction.old).kind values.now.dtype
        (values_of_group group_idxs.now values.now.values g)) }
{
    reduction.resize(groups)?;
    reduction.update_groups(values, group_idxs, 0)?;
    reduction.finalize(alloc)
}
