//! Bits, and arrays of items of which some may be null.
#![tactic(auto)]

mod binary;
mod bitmap;
mod bits;
mod boolean;
mod buffer;
mod mask;
mod mutable;
mod native;
mod primitive;
mod validity;

pub use binary::BinaryArray;
pub use bitmap::Bitmap;
pub use boolean::BooleanArray;
pub use mask::BitMask;
pub use mutable::MutableBitmap;
pub use native::Native;
pub use primitive::PrimitiveArray;

/// Places of items.
pub type IdxSize = u32;
