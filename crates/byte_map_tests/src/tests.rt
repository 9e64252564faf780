//! What no clause shows: that the calls succeed, and that their clauses say what is meant.
ghost use Rattle.std.specs.Prelude.{◌≡◌, ◌+◌, ◌<◌, ◌≤◌, length, IfOk};
ghost use Rattle.byte_map_tests.specs.Hashed.{HaveHash};

use byte_map::{BytesIndexMap, Found};
use std::alloc::{AllocError, Global};
use std::marker::Brand;
use std::sync::ledger::{Blank, Ledger};
use step_count::Steps;

/// All keys come with this hash.
const HASH: u64 = 7;

/// An index, and the value that is handed back with an old one.
type Answer = (u32, Option<u32>);

fn push<L: Ledger>(
    map: &mut BytesIndexMap<u32>,
    key: &[u8],
    value: u32,
    steps: &mut Steps<L>,
) -> Result<Answer, AllocError>
    requires few { length map.old.entries < 2000 }
    requires hash { HaveHash map.old.entries }
    ensures few { length map.new.entries ≤ length map.old.entries + 1 }
    ensures hash { HaveHash map.new.entries }
{
    match map.find_or_push(HASH, key, value, steps) {
        Ok(Found::Old(i, back)) => Ok((i, Some(back))),
        Ok(Found::New(i)) => Ok((i, None)),
        Err(_) => Err(AllocError),
    }
}

/// The keys, one behind the other, where each comes with the hash.
fn text(alloc: Global, map: &BytesIndexMap<u32>) -> Result<Vec<u8>, AllocError> {
    let mut all = Vec::new(alloc);
    for (hash, key) in map.iter_hash_keys() {
        if hash == HASH {
            all.extend_from_slice(key)?;
        }
    }
    Ok(all)
}

fn few_keys_from<L: Ledger>(
    alloc: Global,
    blank: Blank,
) -> Result<(BytesIndexMap<u32>, Vec<Answer>, Vec<Option<u32>>), AllocError>
    requires name { blank.name ≡ L.name }
    requires parts { blank.parts ≡ L.parts }
    requires some { 0 < L.parts }
{
    let mut steps = Steps::<L>::new(blank);
    let mut map = BytesIndexMap::new(alloc)?;
    map.reserve(4)?;
    let mut answers = Vec::new(alloc);
    answers.push(push(&mut map, b"a", 1, &mut steps)?)?;
    answers.push(push(&mut map, b"b", 2, &mut steps)?)?;
    answers.push(push(&mut map, b"a", 3, &mut steps)?)?;
    let mut places = Vec::new(alloc);
    places.push(map.index_of(HASH, b"b", &mut steps))?;
    places.push(map.index_of(HASH, b"c", &mut steps))?;
    Ok((map, answers, places))
}

fn few_keys(
    alloc: Global,
) -> Result<(BytesIndexMap<u32>, Vec<Answer>, Vec<Option<u32>>), AllocError> {
    few_keys_from::<Brand>(alloc, Blank::new(1))
}

#[test]
fn keys_in_order(rt: HostRuntime) -> Result<(), AllocError> {
    let (mut map, answers, places) = few_keys(rt.alloc())?;
    assert!(rt; answers.as_slice() == [(0, None), (1, None), (0, Some(3))].as_slice());
    assert!(rt; places.as_slice() == [Some(1), None].as_slice());
    assert!(rt; text(rt.alloc(), &map)?.as_slice() == b"ab".as_slice());
    assert_eq!(rt; map.len(), 2);
    if map.len() == 2 {
        assert_eq!(rt; *map.value_at(0), 1);
        *map.value_at_mut(1) = 9;
    }
    assert_eq!(rt; map.len(), 2);
    if map.len() == 2 {
        let (hash, key) = map.key_at(1);
        assert!(rt; hash == HASH && key == b"b".as_slice());
    }
    Ok(())
}

fn fill<L: Ledger>(alloc: Global, steps: &mut Steps<L>) -> Result<BytesIndexMap<u32>, AllocError>
    ensures { IfOk result (λ m. HaveHash m.entries) }
{
    let mut map = BytesIndexMap::new(alloc)?;
    for i in 0..1000u32 {
        push(&mut map, &i.to_le_bytes(), i, steps)?;
    }
    Ok(map)
}

/// Whether each key is found at its own index, and a further one nowhere.
fn are_found<L: Ledger>(map: &BytesIndexMap<u32>, steps: &mut Steps<L>) -> bool
    requires { HaveHash map.now.entries }
{
    for i in 0..1000u32 {
        if map.index_of(HASH, &i.to_le_bytes(), steps) != Some(i) {
            return false;
        }
    }
    map.index_of(HASH, &1000u32.to_le_bytes(), steps).is_none()
}

fn many_keys_from<L: Ledger>(alloc: Global, blank: Blank) -> Result<bool, AllocError>
    requires name { blank.name ≡ L.name }
    requires parts { blank.parts ≡ L.parts }
    requires some { 0 < L.parts }
{
    let mut steps = Steps::<L>::new(blank);
    let map = fill(alloc, &mut steps)?;
    Ok(map.len() == 1000 && are_found(&map, &mut steps))
}

fn many_keys(alloc: Global) -> Result<bool, AllocError> {
    many_keys_from::<Brand>(alloc, Blank::new(1))
}

#[test]
fn many_keys_of_one_hash(rt: HostRuntime) -> Result<(), AllocError> {
    assert!(rt; many_keys(rt.alloc())?);
    Ok(())
}
