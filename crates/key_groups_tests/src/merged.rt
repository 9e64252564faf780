//! The keys of one grouper come to another.
ghost use Rattle.std.specs.Prelude.{◌≡◌, ◌<◌, ◌+◌, length, OnOk};

use crate::rows::{grouper, has_keys};
use key_groups::{Grouper, RowEncodedHashGrouper};
use key_parts::{HashPartitioner, IdxSize};
use std::alloc::Global;
use std::marker::Brand;
use std::sync::ledger::{Blank, Ledger};
use std::test::Fail;
use step_count::Steps;

/// Lets keys of one grouper come to another only where both are of one schema, hashed alike, and few.
#[tactic(auto, using(crate::proofs::Alike::same_schema))]
fn require_alike(one: &RowEncodedHashGrouper, other: &RowEncodedHashGrouper) -> Result<(), Fail>
    ensures state { OnOk result (other.now.state ≡ one.now.state) }
    ensures schema { OnOk result (other.now.schema ≡ one.now.schema) }
    ensures few { OnOk result (length one.now.keys + length other.now.keys < 2000) }
{
    if one.state() == other.state()
        && one.key_schema().is_same(other.key_schema())
        && one.num_groups() < 1000
        && other.num_groups() < 1000
    {
        Ok(())
    } else {
        Err(Fail::from("not alike"))
    }
}

/// All keys of another grouper come.
#[tactic(auto, using(crate::proofs::Alike::few_keys))]
fn combine<L: Ledger>(
    grouper: &mut RowEncodedHashGrouper,
    other: &RowEncodedHashGrouper,
    idxs: &mut Vec<IdxSize>,
    steps: &mut Steps<L>,
) -> Result<(), Fail> {
    require_alike(grouper, other)?;
    Ok(grouper.combine(other, idxs, steps)?)
}

/// The second key of another grouper comes, then the first, then the second again.
#[tactic(auto, using(crate::proofs::Alike::few_gathered))]
fn gather<L: Ledger>(
    grouper: &mut RowEncodedHashGrouper,
    other: &RowEncodedHashGrouper,
    idxs: &mut Vec<IdxSize>,
    steps: &mut Steps<L>,
) -> Result<(), Fail> {
    require_alike(grouper, other)?;
    if other.num_groups() < 2 {
        return Err(Fail::from("a key alone"));
    }
    Ok(grouper.gather_combine(other, &[1, 0, 1], idxs, steps)?)
}

/// The indexes that three calls give: numbers come to a grouper, then the keys of another one, then
/// some of these again.
#[derive(Drop)]
struct Given {
    inserted: Vec<IdxSize>,
    combined: Vec<IdxSize>,
    gathered: Vec<IdxSize>,
}

impl Given {
    fn new(alloc: Global) -> Given {
        Given {
            inserted: Vec::new(alloc),
            combined: Vec::new(alloc),
            gathered: Vec::new(alloc),
        }
    }
}

fn merge_from<L: Ledger>(
    alloc: Global,
    given: &mut Given,
    blank: Blank,
) -> Result<RowEncodedHashGrouper, Fail>
    requires name { blank.name ≡ L.name }
    requires parts { blank.parts ≡ L.parts }
    requires some { 0 < L.parts }
{
    let mut steps = Steps::<L>::new(blank);
    let mut one = grouper(alloc, &[7, 8, 7], &mut given.inserted, &mut steps)?;
    let mut others = Vec::new(alloc);
    let other = grouper(alloc, &[9, 8], &mut others, &mut steps)?;
    one.reserve(2)?;
    combine(&mut one, &other, &mut given.combined, &mut steps)?;
    gather(&mut one, &other, &mut given.gathered, &mut steps)?;
    Ok(one)
}

/// Of 7, 8 and 7 a grouper, to which one of 9 and 8 comes.
fn merge(alloc: Global, given: &mut Given) -> Result<RowEncodedHashGrouper, Fail> {
    merge_from::<Brand>(alloc, given, Blank::new(1))
}

#[test]
fn indexes(rt: HostRuntime) -> Result<(), Fail> {
    let mut given = Given::new(rt.alloc());
    let grouper = merge(rt.alloc(), &mut given)?;
    assert!(rt; given.inserted.as_slice() == [0, 1, 0].as_slice());
    assert!(rt; given.combined.as_slice() == [2, 1].as_slice());
    assert!(rt; given.gathered.as_slice() == [1, 2, 1].as_slice());
    assert!(rt; has_keys(rt.alloc(), &grouper, &[7, 8, 9])?);
    assert!(rt; grouper.new_empty(rt.alloc())?.num_groups() == 0);
    Ok(())
}

/// Lists, each of one index that no key has.
fn lists(alloc: Global, count: usize) -> Result<Vec<Vec<IdxSize>>, Fail> {
    let mut lists = Vec::new(alloc);
    for _i in 0..count {
        lists.push(vec![in alloc; 99u32]?)?;
    }
    Ok(lists)
}

/// Deals the keys to partitions by the highest bits of their hashes.
fn deal(grouper: &RowEncodedHashGrouper, lists: &mut Vec<Vec<IdxSize>>) -> Result<(), Fail> {
    if lists.len() == 0 || lists.len() > 4 {
        return Err(Fail::from("partitions"));
    }
    let partitioner = HashPartitioner::new(lists.len(), 1);
    Ok(grouper.gen_partition_idxs(&partitioner, lists, &mut [])?)
}

/// Whether just the keys at these indexes are dealt to a partition.
fn has_dealt(
    alloc: Global,
    grouper: &RowEncodedHashGrouper,
    partitions: usize,
    partition: usize,
    idxs: &[IdxSize],
) -> Result<bool, Fail> {
    let mut lists = lists(alloc, partitions)?;
    deal(grouper, &mut lists)?;
    match lists.get(partition) {
        Some(list) => Ok(list.as_slice() == idxs),
        None => Ok(false),
    }
}

#[test]
fn partitions(rt: HostRuntime) -> Result<(), Fail> {
    let mut given = Given::new(rt.alloc());
    let grouper = merge(rt.alloc(), &mut given)?;
    assert!(rt; has_dealt(rt.alloc(), &grouper, 1, 0, &[0, 1, 2])?);
    assert!(rt; has_dealt(rt.alloc(), &grouper, 4, 0, &[0])?);
    assert!(rt; has_dealt(rt.alloc(), &grouper, 4, 1, &[1, 2])?);
    assert!(rt; has_dealt(rt.alloc(), &grouper, 4, 2, &[])?);
    Ok(())
}
