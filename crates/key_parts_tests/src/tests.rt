use key_parts::{CardinalitySketch, ChunkId, HashPartitioner, HyperLogLog, PlRandomState};
use std::process::Abort;
use std::test::Fail;

#[test]
fn hashes_are_fnv_1a(rt: HostRuntime) {
    // The bytes, and their hash as the published vectors of FNV-1a have it.
    let cases: [(&[u8], u64); 3] = [
        (b"", 0xcbf2_9ce4_8422_2325),
        (b"a", 0xaf63_dc4c_8601_ec8c),
        (b"foobar", 0x8594_4171_f739_67e8),
    ];
    for (bytes, hash) in cases {
        assert_eq!(rt; PlRandomState::DEFAULT.hash_one(bytes), hash);
    }
    let masked = PlRandomState {
        seed: PlRandomState::DEFAULT_SEED,
        mask: 0xff,
    };
    assert_eq!(rt; masked.hash_one(b"a"), 0x8c);
    assert!(rt; masked != PlRandomState::DEFAULT);
}

#[test]
fn a_partition_is_the_high_half(rt: HostRuntime) {
    let partitioner = HashPartitioner::new(4, HashPartitioner::DEFAULT_PSEED);
    assert_eq!(rt; partitioner.num_partitions(), 4);
    assert_eq!(rt; partitioner.hash_to_partition(0), 0);
    assert_eq!(rt; partitioner.hash_to_partition(1), 2);
    let most = HashPartitioner::new(65536, 1);
    assert_eq!(rt; most.hash_to_partition(u64::MAX), 65535);
}

/// The first register is as given, and all others are 0.
fn is_first_alone(rt: &impl Abort, registers: &[u8], first: u8) {
    assert_eq!(rt; registers.len(), 16384);
    assert_eq!(rt; registers[0], first);
    assert!(rt; registers[1..].iter().all(|register| *register == 0));
}

#[test]
fn sketches_keep_the_greatest_rank(rt: HostRuntime) -> Result<(), Fail> {
    let mut sketch = HyperLogLog::new(rt.alloc())?;
    sketch.merge(&HyperLogLog::new(rt.alloc())?);
    is_first_alone(&rt, sketch.registers(), 0);
    sketch.add_hash(0);
    is_first_alone(&rt, sketch.registers(), 51);
    // A lesser rank of the same register changes nothing.
    sketch.add_hash(16384);
    is_first_alone(&rt, sketch.registers(), 51);
    Ok(())
}

#[test]
fn the_same_values_make_the_same_sketch(rt: HostRuntime) -> Result<(), Fail> {
    let mut mine = HyperLogLog::new(rt.alloc())?;
    let mut theirs = HyperLogLog::new(rt.alloc())?;
    for bytes in [b"ab", b"cd", b"ab"] {
        mine.add(bytes);
        theirs.add(bytes);
    }
    assert_eq!(rt; mine.registers(), theirs.registers());
    // "ab" again, and a merge of the same, change nothing.
    mine.add(b"ab");
    mine.merge(&theirs);
    assert_eq!(rt; mine.registers(), theirs.registers());
    assert!(rt; mine.registers().iter().any(|register| *register != 0));
    Ok(())
}

#[test]
fn cardinality_sketches_take_hashes(rt: HostRuntime) -> Result<(), Fail> {
    let mut sketch = CardinalitySketch::new(rt.alloc())?;
    sketch.insert(16384);
    is_first_alone(&rt, sketch.registers(), 1);
    let mut both = CardinalitySketch::new(rt.alloc())?;
    both.combine(&sketch);
    both.combine(&CardinalitySketch::new(rt.alloc())?);
    is_first_alone(&rt, both.registers(), 1);
    Ok(())
}

#[test]
fn positions_are_words(rt: HostRuntime) {
    let id = ChunkId::store(3, 5);
    assert_eq!(rt; id.into_inner(), 21_474_836_483);
    assert_eq!(rt; id.extract(), (3, 5));
    assert_eq!(rt; ChunkId::from_inner(21_474_836_483), id);
    assert!(rt; !id.is_null());
    assert!(rt; ChunkId::null().is_null());
    assert_eq!(rt; ChunkId::null().into_inner(), u64::MAX);
    assert_eq!(rt; ChunkId::store(u32::MAX, 0).extract(), (u32::MAX, 0));
}
