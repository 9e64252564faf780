//! Where the rows of tables stand in their frames.
ghost use Rattle.std.specs.Prelude.{◌≡◌, ◌<◌, ◌^◌, ◌++◌, ◌∷◌, [], IfOk, OnOk, map, length, get_or};
ghost use Rattle.std.specs.Prelude.{Some};
ghost use Rattle.std.specs.List.{flat_map};
ghost use Rattle.std.specs.Option.{option_map};
ghost use Rattle.key_parts.specs.Positions.{Position, position};
ghost use Rattle.join_laws.specs.Partitions.{row_of, InPlaces, FitsPlaces};

use col_core::RowPlace;
use key_parts::{ChunkId, IdxSize};
use std::alloc::{AllocError, Global};
use std::marker::Model;

/// The rows of a frame, partition after partition, and where those of each partition start. The
/// last start is the end.
#[derive(Debug, Drop)]
pub(crate) struct FramePlaces {
    rows: Vec<IdxSize>,
    starts: Vec<IdxSize>,
}

impl Model for FramePlaces {
    ghost use Rattle.std.specs.Prelude.{List, ℕ};
    ghost use Rattle.list_laws.specs.Cuts.{cut};

    ghost Value = { List (List ℕ) };

    ghost view = { λ f. cut f.starts.items f.rows.items };
}

impl FramePlaces {
    /// The rows of each partition in turn.
    pub(crate) fn new(alloc: Global, lists: &[Vec<IdxSize>]) -> Result<FramePlaces, AllocError>
        requires { length (flat_map (λ v. v.items) lists.now) < 2 ^ 32 }
        ensures { IfOk result (λ f. f ≡ map (λ v. v.items) lists.now) }
    {
        let mut rows = Vec::new(alloc);
        let mut starts = Vec::new(alloc);
        starts.push(0)?;
        for list in lists {
            rows.extend_from_slice(list)?;
            starts.push(rows.len() as IdxSize)?;
        }
        Ok(FramePlaces { rows, starts })
    }

    /// The row at a number among those of a partition.
    pub(crate) fn row(&self, partition: usize, number: IdxSize) -> IdxSize
        requires { number < length (get_or self.now partition []) }
        ensures { result ≡ get_or (get_or self.now partition []) number 0 }
    {
        self.rows[self.starts[partition] as usize + number as usize]
    }
}

/// Where the rows of the tables stand in the build frames. Contracts see, for each frame, the rows of
/// each partition.
#[derive(Debug, Drop)]
pub struct Places {
    frames: Vec<FramePlaces>,
}

impl Model for Places {
    ghost use Rattle.std.specs.Prelude.{List, ℕ};

    ghost Value = { List (List (List ℕ)) };

    ghost view = { λ p. p.frames.items };
}

impl Places {
    /// The places of no frame.
    pub(crate) fn new(alloc: Global) -> Places
        ensures { result ≡ [] }
    {
        Places {
            frames: Vec::new(alloc),
        }
    }

    /// Takes the rows of one frame more.
    pub(crate) fn push(&mut self, frame: FramePlaces) -> Result<(), AllocError>
        ensures ok { OnOk result (self.new ≡ self.old ++ frame ∷ []) }
    {
        self.frames.push(frame)?;
        Ok(())
    }

    /// The build row of a position in the table of a partition.
    pub fn build_row(&self, partition: usize, id: ChunkId) -> RowPlace
        requires { (x : Position) × (position id ≡ Some x) × InPlaces self.now partition x }
        ensures { (x : Position) → position id ≡ Some x → result ≡ row_of self.now partition x }
    {
        let (frame, number) = id.extract();
        RowPlace {
            frame,
            row: self.frames[frame as usize].row(partition, number),
        }
    }

    /// The build row of a match, or none where it is none.
    pub(crate) fn build_of(&self, partition: usize, id: ChunkId) -> Option<RowPlace>
        requires { FitsPlaces self.now partition (position id) }
        ensures { result ≡ option_map (row_of self.now partition) (position id) }
    {
        if id.is_null() {
            None
        } else {
            Some(self.build_row(partition, id))
        }
    }
}
