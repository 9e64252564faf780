//! Columns and frames.
//!
//! A [`Series`] is a name, a type and chunks, and a [`Frame`] columns of one height under a schema.
//! Contracts see a column as its values and a frame as its rows, whatever the chunks are. What is
//! promised: each call is its operation on these lists, and [`Series::new`] and [`Frame::new`]
//! refuse by the first cause of `specs/Refusals`. Begin with `frame.rt` and `builder.rt`;
//! `specs/Values` says which values a type has. The bits and arrays of `col_arrays` and the list of
//! `item_list` are re-exported.
#![tactic(auto)]

mod builder;
mod chunk;
mod data_type;
mod frame;
mod gather;
mod items;
mod leaf;
mod row_place;
mod schema;
mod series;
mod text;

pub use builder::ColumnBuilder;
pub use chunk::Chunk;
pub use col_arrays::{
    BinaryArray, BitMask, Bitmap, BooleanArray, IdxSize, MutableBitmap, Native, PrimitiveArray,
};
pub use data_type::{DataType, PhysicalType, TimeUnit, same_type};
pub use frame::{Frame, FrameError};
pub use gather::gather_column;
pub use item_list::List;
pub use leaf::{Leaf, LeafRef};
pub use row_place::RowPlace;
pub use schema::{Field, Schema};
pub use series::{ColumnError, Series};
pub use text::{Blob, Name};
