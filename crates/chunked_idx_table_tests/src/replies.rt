//! Calls in turn, and what the last of them replies.
use crate::calls::{Asked, Call, Place, Row, called};
use key_parts::{ChunkId, IdxSize};
use std::alloc::{AllocError, Global};
use std::test::Fail;

fn place_of(id: ChunkId) -> Place {
    if id.is_null() {
        return None;
    }
    Some(id.extract())
}

/// Whether positions are at these places.
fn are_at(positions: &[ChunkId], places: &[Place]) -> bool {
    positions.len() == places.len()
        && positions
            .iter()
            .zip(places)
            .all(|(id, place)| place_of(*id) == *place)
}

/// Calls of a new table, and what the last of them replies.
#[derive(Clone, Copy)]
struct Case {
    calls: &'static [Call<'static>],
    places: &'static [Place],
    indexes: &'static [IdxSize],
    answer: IdxSize,
}

fn is_answered(alloc: Global, case: Case) -> Result<bool, AllocError> {
    let (_table, reply) = called(alloc, case.calls)?;
    Ok(
        are_at(&reply.positions, case.places)
            && reply.indexes.as_slice() == case.indexes
            && reply.answer == case.answer,
    )
}

/// A probe that neither marks nor emits a null position for a row without a match.
const PLAIN: Asked = Asked {
    marks: false,
    emit: false,
    limit: 100,
};

const EMITTING: Asked = Asked {
    marks: false,
    emit: true,
    limit: 10,
};

const MARKING: Asked = Asked {
    marks: true,
    emit: false,
    limit: 10,
};

const FIRST: Call<'static> = Call::Insert(&[Some(1), Some(2)]);

const SECOND: Call<'static> = Call::Insert(&[Some(1)]);

const ROWS: [Row; 3] = [Some(1), Some(3), Some(2)];

/// Probes of a table of the chunks 1, 2 and 1.
const PROBES: [Case; 7] = [
    Case {
        calls: &[FIRST, SECOND, Call::Probe(&ROWS, PLAIN)],
        places: &[Some((0, 0)), Some((1, 0)), Some((0, 1))],
        indexes: &[0, 0, 2],
        answer: 3,
    },
    Case {
        calls: &[
            FIRST,
            SECOND,
            Call::Probe(&ROWS, Asked { limit: 1, ..PLAIN }),
        ],
        places: &[Some((0, 0)), Some((1, 0))],
        indexes: &[0, 0],
        answer: 1,
    },
    Case {
        calls: &[FIRST, SECOND, Call::Probe(&[Some(3)], EMITTING)],
        places: &[None],
        indexes: &[0],
        answer: 1,
    },
    Case {
        calls: &[
            FIRST,
            SECOND,
            Call::Probe(&[Some(3), Some(1)], Asked { limit: 0, ..PLAIN }),
        ],
        places: &[],
        indexes: &[],
        answer: 1,
    },
    Case {
        calls: &[FIRST, SECOND, Call::ProbeSubset(&ROWS, &[2, 0], PLAIN)],
        places: &[Some((0, 1)), Some((0, 0)), Some((1, 0))],
        indexes: &[2, 0, 0],
        answer: 2,
    },
    // A null row joins nothing, even beside null rows of the table.
    Case {
        calls: &[
            Call::Insert(&[None]),
            Call::Probe(&[None], Asked { limit: 10, ..PLAIN }),
        ],
        places: &[],
        indexes: &[],
        answer: 1,
    },
    Case {
        calls: &[Call::Insert(&[None]), Call::Probe(&[None], EMITTING)],
        places: &[None],
        indexes: &[0],
        answer: 1,
    },
];

#[test]
fn probes(rt: HostRuntime) -> Result<(), Fail> {
    for case in PROBES {
        assert!(rt; is_answered(rt.alloc(), case)?, "{:?}", case.places);
    }
    Ok(())
}

const NULL_AND_FIVE: Call<'static> = Call::Insert(&[None, Some(5)]);

const MARK_FIVE: Call<'static> = Call::Probe(&[Some(5)], MARKING);

const ALL: Call<'static> = Call::Unmarked {
    offset: 0,
    limit: 10,
};

/// What is unmarked in a table of null and 5, before and after a probe that marks 5, and in tables
/// with more chunks.
const LISTS: [Case; 6] = [
    Case {
        calls: &[NULL_AND_FIVE, ALL],
        places: &[Some((0, 0)), Some((0, 1))],
        indexes: &[],
        answer: 2,
    },
    Case {
        calls: &[NULL_AND_FIVE, MARK_FIVE, ALL],
        places: &[Some((0, 0))],
        indexes: &[],
        answer: 2,
    },
    Case {
        calls: &[
            NULL_AND_FIVE,
            MARK_FIVE,
            Call::Unmarked {
                offset: 1,
                limit: 1,
            },
        ],
        places: &[],
        indexes: &[],
        answer: 1,
    },
    Case {
        calls: &[
            NULL_AND_FIVE,
            MARK_FIVE,
            Call::Unmarked {
                offset: 2,
                limit: 1,
            },
        ],
        places: &[],
        indexes: &[],
        answer: 0,
    },
    // A row that is inserted later under a marked key counts as matched.
    Case {
        calls: &[SECOND, Call::Probe(&[Some(1)], MARKING), FIRST, ALL],
        places: &[Some((1, 1))],
        indexes: &[],
        answer: 2,
    },
    // A chunk without rows has a number, too.
    Case {
        calls: &[Call::Insert(&[]), SECOND, ALL],
        places: &[Some((1, 0))],
        indexes: &[],
        answer: 1,
    },
];

#[test]
fn unmarked_keys(rt: HostRuntime) -> Result<(), Fail> {
    for case in LISTS {
        assert!(rt; is_answered(rt.alloc(), case)?, "{:?}", case.places);
    }
    Ok(())
}
