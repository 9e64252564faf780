//! The types of the numbers that columns hold.
ghost use Rattle.std.specs.Prelude.{◌≡◌, ◌↔◌, map};
ghost use Rattle.col_core.specs.declared.data_type.PhysicalType.{PhysicalType};
ghost use Rattle.col_core.specs.declared.leaf.Leaf.{Leaf};
ghost use Rattle.col_core.specs.Physical.{IsKept, IsNumber};
ghost use Rattle.col_core.specs.Tables.{chunk_leaves, chunk_physical};
ghost use Rattle.col_core.specs.Values.{number_leaf};

use col_core::{Chunk, Native, PrimitiveArray};

/// A type of numbers that columns hold. `T.physical` is how they are kept.
pub trait ColumnNumber: Native {
    ghost physical: { PhysicalType };

    /// The numbers of a chunk that keeps its values so.
    fn array_of(chunk: &Chunk) -> &PrimitiveArray<Self>
        requires { chunk_physical chunk.now ≡ physical }
        ensures { chunk_leaves chunk.now ≡ map (number_leaf Self.value) result.now };

    // What can be kept so are the numbers of the type.
    ghost kept_law: { (v : Leaf) → IsKept Self.physical v ↔ IsNumber Self.fits v };
}

/// The array of a chunk that is of this kind.
macro_rules! array_of {
    ($chunk:expr, $kind:path) => {
        match $chunk {
            $kind(items) => items,
            _ => unreachable!(),
        }
    };
}

impl ColumnNumber for i8 {
    ghost use Rattle.col_core.specs.declared.data_type.PhysicalType.TheVariants.{I8};

    ghost physical = { I8 };

    ghost kept_law = { λ v. (λ h. h, λ h. h) };

    fn array_of(chunk: &Chunk) -> &PrimitiveArray<Self> {
        array_of!(chunk, Chunk::I8)
    }
}

impl ColumnNumber for i16 {
    ghost use Rattle.col_core.specs.declared.data_type.PhysicalType.TheVariants.{I16};

    ghost physical = { I16 };

    ghost kept_law = { λ v. (λ h. h, λ h. h) };

    fn array_of(chunk: &Chunk) -> &PrimitiveArray<Self> {
        array_of!(chunk, Chunk::I16)
    }
}

impl ColumnNumber for i32 {
    ghost use Rattle.col_core.specs.declared.data_type.PhysicalType.TheVariants.{I32};

    ghost physical = { I32 };

    ghost kept_law = { λ v. (λ h. h, λ h. h) };

    fn array_of(chunk: &Chunk) -> &PrimitiveArray<Self> {
        array_of!(chunk, Chunk::I32)
    }
}

impl ColumnNumber for i64 {
    ghost use Rattle.col_core.specs.declared.data_type.PhysicalType.TheVariants.{I64};

    ghost physical = { I64 };

    ghost kept_law = { λ v. (λ h. h, λ h. h) };

    fn array_of(chunk: &Chunk) -> &PrimitiveArray<Self> {
        array_of!(chunk, Chunk::I64)
    }
}

impl ColumnNumber for i128 {
    ghost use Rattle.col_core.specs.declared.data_type.PhysicalType.TheVariants.{I128};

    ghost physical = { I128 };

    ghost kept_law = { λ v. (λ h. h, λ h. h) };

    fn array_of(chunk: &Chunk) -> &PrimitiveArray<Self> {
        array_of!(chunk, Chunk::I128)
    }
}

impl ColumnNumber for u8 {
    ghost use Rattle.col_core.specs.declared.data_type.PhysicalType.TheVariants.{U8};

    ghost physical = { U8 };

    ghost kept_law = { λ v. (λ h. h, λ h. h) };

    fn array_of(chunk: &Chunk) -> &PrimitiveArray<Self> {
        array_of!(chunk, Chunk::U8)
    }
}

impl ColumnNumber for u16 {
    ghost use Rattle.col_core.specs.declared.data_type.PhysicalType.TheVariants.{U16};

    ghost physical = { U16 };

    ghost kept_law = { λ v. (λ h. h, λ h. h) };

    fn array_of(chunk: &Chunk) -> &PrimitiveArray<Self> {
        array_of!(chunk, Chunk::U16)
    }
}

impl ColumnNumber for u32 {
    ghost use Rattle.col_core.specs.declared.data_type.PhysicalType.TheVariants.{U32};

    ghost physical = { U32 };

    ghost kept_law = { λ v. (λ h. h, λ h. h) };

    fn array_of(chunk: &Chunk) -> &PrimitiveArray<Self> {
        array_of!(chunk, Chunk::U32)
    }
}

impl ColumnNumber for u64 {
    ghost use Rattle.col_core.specs.declared.data_type.PhysicalType.TheVariants.{U64};

    ghost physical = { U64 };

    ghost kept_law = { λ v. (λ h. h, λ h. h) };

    fn array_of(chunk: &Chunk) -> &PrimitiveArray<Self> {
        array_of!(chunk, Chunk::U64)
    }
}
