//! Replies of a table as pairs.
ghost use Rattle.std.specs.Prelude.{◌≡◌, ◌++◌, map, length, OnOk};
ghost use Rattle.std.specs.List.{All};
ghost use Rattle.key_parts.specs.Positions.{position};
ghost use Rattle.join_laws.specs.Partitions.{reply_pairs, FitsPlaces};

use crate::places::Places;
use join_laws::Pair;
use key_parts::{ChunkId, IdxSize};
use std::alloc::{AllocError, Global};

/// A reply of a table: matches, each beside the row of its key.
#[derive(Drop)]
pub(crate) struct Reply {
    pub positions: Vec<ChunkId>,
    pub rows: Vec<IdxSize>,
}

impl Reply {
    /// A reply without a match.
    pub(crate) fn new(alloc: Global) -> Reply {
        Reply {
            positions: Vec::new(alloc),
            rows: Vec::new(alloc),
        }
    }
}

/// Appends the pairs of a reply.
pub(crate) fn take_reply(
    places: &Places,
    partition: usize,
    reply: &Reply,
    pairs: &mut Vec<Pair>,
) -> Result<(), AllocError>
    requires long { length reply.now.positions.items ≡ length reply.now.rows.items }
    requires inside { All (FitsPlaces places.now partition)
        (map position reply.now.positions.items) }
    ensures { OnOk result (pairs.new.items ≡ pairs.old.items ++ reply_pairs places.now partition
        (map position reply.now.positions.items) reply.now.rows.items) }
{
    for i in 0..reply.positions.len() {
        let build = places.build_of(partition, reply.positions[i]);
        pairs.push(Pair {
            probe: Some(reply.rows[i]),
            build,
        })?;
    }
    Ok(())
}
