//! Laws of replies under limits. Each function does nothing: its clauses are the law.
ghost use Rattle.std.specs.Prelude.{◌≡◌, ℕ, ◌+◌, ◌-◌, ◌<◌, ◌≤◌, List, [], Bool, length};
ghost use Rattle.std.specs.List.{flat_map};
ghost use Rattle.hash_keys.specs.Keys.{Key};
ghost use Rattle.chunked_idx_table.specs.Replies.{replied, most_answers};
ghost use Rattle.chunked_idx_table.specs.Tables.{ProbeTable};
ghost use Rattle.chunked_idx_table.specs.Probes.{row_matches, items, all_rows};
ghost use Rattle.chunked_idx_table.specs.Resumed.{ProbeCall, row_pairs, probe_replies, rows_left};
ghost use Rattle.chunked_idx_table.specs.Resumed.{listed, offset_after};
ghost use Rattle.chunked_idx_table.specs.Resumed.{unmarked_replies, unmarked_positions};
ghost use Rattle.chunked_idx_table.specs.Resumed.{all_positions, StandOnce};

/// A probe's reply under a positive limit has at most as many pairs as the limit less 1 and the
/// most matches of one row.
pub fn few_pairs_under_a_limit()
    ensures { (t : ProbeTable) (keys : List Key) (emit : Bool) (limit : ℕ) (idxs : List ℕ)
        → 0 < limit
        → length (replied (row_matches t keys emit) limit idxs)
        ≤ limit - 1 + most_answers (row_matches t keys emit) idxs }
{}

/// The replies of a probe and of further probes of the rows that are left, under any limits,
/// marking or not, concatenate to the matches of all rows once no row is left. That is so after as
/// many probes as there are rows, or earlier.
pub fn probes_resume()
    ensures whole { (t : ProbeTable) (keys : List Key) (emit : Bool) (calls : List ProbeCall)
        → rows_left keys emit calls t (all_rows keys) ≡ []
        → probe_replies keys emit calls t (all_rows keys)
        ≡ flat_map (row_pairs t keys emit) (all_rows keys) }
    ensures ends { (t : ProbeTable) (keys : List Key) (emit : Bool) (calls : List ProbeCall)
        → length (all_rows keys) ≤ length calls → rows_left keys emit calls t (all_rows keys) ≡ [] }
{}

/// The replies of calls of `unmarked_keys`, the first from 0 and each further from where the one
/// before stopped, under any limits, concatenate to the null positions and then all positions of
/// each unmarked key once the next call answers 0. That is so after as many calls as there are
/// items, or earlier. Each position stands there once, where none stands twice in the table.
pub fn unmarked_keys_resume()
    ensures whole { (t : ProbeTable) (limits : List ℕ) (limit : ℕ) → listed t
        limit (offset_after t limits 0) ≡ 0
        → unmarked_replies t limits 0 ≡ unmarked_positions t }
    ensures ends { (t : ProbeTable) (limits : List ℕ) (limit : ℕ) → length (items t) ≤ length limits
        → listed t limit (offset_after t limits 0) ≡ 0 }
    ensures once { (t : ProbeTable) → StandOnce (all_positions t)
        → StandOnce (unmarked_positions t) }
{}
