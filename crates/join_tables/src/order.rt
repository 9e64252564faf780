//! Pairs that stand by partition, taken back in the order of the rows.
ghost use Rattle.std.specs.Prelude.{◌≡◌, ℕ, ◌+◌, ◌<◌, ◌≤◌, ◌^◌, List, [], ◌∷◌, Some, IfOk, map};
ghost use Rattle.std.specs.Prelude.{length, get_or, replicate, count_by};
ghost use Rattle.std.specs.List.{flat_map, All, range_with_len};
ghost use Rattle.hash_keys.specs.Views.{keys_of, state_of};
ghost use Rattle.key_parts.specs.Partitions.{partition_of};
ghost use Rattle.key_parts.specs.Positions.{Position, position};
ghost use Rattle.join_laws.specs.declared.Pair.{Pair as PairSeen};
ghost use Rattle.join_laws.specs.Partitions.{is_of, pair_at, AtPair};
ghost use Rattle.join_tables.specs.Tables.{AreFound};

use hash_keys::HashKeys;
use join_laws::Pair;
use key_parts::{ChunkId, HashPartitioner, IdxSize};
use std::alloc::{AllocError, Global};

/// Counts a pair.
fn count_pair(pair: &Pair, counts: &mut [IdxSize])
    requires inside { (i : ℕ) → pair.now.probe ≡ Some i → i < length counts.old }
    requires room { (i : ℕ) → get_or counts.old i 0 + 1 < 2 ^ 32 }
    ensures { (i : ℕ) → get_or counts.new i 0
        ≡ get_or counts.old i 0 + count_by (is_of i) (pair.now ∷ []) }
{
    if let Some(row) = pair.probe {
        counts[row as usize] += 1;
    }
}

/// Counts the pairs of each row.
fn count_pairs(pairs: &[Pair], counts: &mut [IdxSize])
    requires inside { (i : ℕ) → length counts.old ≤ i → count_by (is_of i) pairs.now ≡ 0 }
    requires room { (i : ℕ) → get_or counts.old i 0 + length pairs.now < 2 ^ 32 }
    ensures { (i : ℕ) → get_or counts.new i 0
        ≡ get_or counts.old i 0 + count_by (is_of i) pairs.now }
{
    for pair in pairs {
        count_pair(pair, counts);
    }
}

/// The pair at a place among those of the partitions.
fn pick(found: &[Vec<Pair>], id: ChunkId) -> Pair
    requires { (x : Position) × (position id ≡ Some x) × AtPair (map (λ q. q.items) found.now) x }
    ensures { (x : Position) → position id ≡ Some x
        → result ≡ pair_at (map (λ q. q.items) found.now) x }
{
    let (partition, number) = id.extract();
    found[partition as usize][number as usize]
}

/// The pairs at some places.
fn pick_all(alloc: Global, found: &[Vec<Pair>], ids: &[ChunkId]) -> Result<Vec<Pair>, AllocError>
    requires { (xs : List Position) × (map position ids.now ≡ map (λ x. Some x) xs)
        × All (AtPair (map (λ q. q.items) found.now)) xs }
    ensures { IfOk result (λ v. (xs : List Position) → map position ids.now ≡ map (λ x. Some x) xs
        → v.items ≡ map (pair_at (map (λ q. q.items) found.now)) xs) }
{
    let mut pairs = Vec::new(alloc);
    for id in ids {
        pairs.push(pick(found, *id))?;
    }
    Ok(pairs)
}

/// The pairs of each row in turn.
pub(crate) fn in_row_order(
    alloc: Global,
    partitioner: &HashPartitioner,
    keys: &HashKeys,
    found: &[Vec<Pair>],
) -> Result<Vec<Pair>, AllocError>
    requires few { length (flat_map (λ q. q.items) found.now) < 2 ^ 32 }
    requires found { (g : ℕ → List PairSeen) × AreFound partitioner.now keys.now g
        (map (λ q. q.items) found.now) }
    ensures { IfOk result (λ v. (g : ℕ → List PairSeen) → AreFound partitioner.now keys.now g
        (map (λ q. q.items) found.now)
        → v.items ≡ flat_map g (range_with_len 0 (length (keys_of keys.now)))) }
{
    let _partitions = partitioner.num_partitions();
    let mut counts = vec![in alloc; 0u32; keys.len()]?;
    for pairs in found {
        count_pairs(pairs, &mut counts);
    }
    let mut ids = Vec::new(alloc);
    keys.gen_partitioned_gather_idxs(alloc, partitioner, &counts, &mut ids)?;
    pick_all(alloc, found, &ids)
}
