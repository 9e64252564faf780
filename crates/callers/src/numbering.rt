//! A caller of the grouper.
ghost use Rattle.std.specs.Prelude.{◌≡◌, ◌<◌, ◌^◌, bytes_eq, length, map, IfOk};
ghost use Rattle.list_laws.specs.Distinct.{distinct};
ghost use Rattle.key_groups.specs.Taken.{index_in};
ghost use Rattle.callers.specs.Rows.{row_bytes};

use col_core::Frame;
use hash_keys::HashKeys;
use key_groups::{Grouper, RowEncodedHashGrouper, new_hash_grouper};
use key_parts::{IdxSize, PlRandomState};
use std::alloc::{AllocError, Global};
use std::sync::ledger::Ledger;
use step_count::Steps;

/// The distinct rows of a frame, by first appearance, and for each row the place of its like among
/// these. Rows are equal where their bytes are, and nulls are equal.
pub fn row_groups<L: Ledger>(
    alloc: Global,
    rows: &Frame,
    random_state: PlRandomState,
    group_idxs: &mut Vec<IdxSize>,
    steps: &mut Steps<L>,
) -> Result<RowEncodedHashGrouper, AllocError>
    requires some { 0 < length rows.now.schema }
    requires few { length rows.now.rows < 2 ^ 32 }
    ensures groups { IfOk result (λ g. g.keys ≡ distinct bytes_eq (row_bytes rows.now)) }
    ensures places { IfOk result (λ g. group_idxs.new.items
        ≡ map (index_in bytes_eq g.keys) (row_bytes rows.now)) }
{
    let keys = HashKeys::from_df(alloc, rows, random_state, true, true)?;
    let schema = rows.schema().try_clone(alloc)?;
    let mut grouper = new_hash_grouper(alloc, schema, random_state)?;
    grouper.insert_keys(keys, group_idxs, steps)?;
    Ok(grouper)
}
