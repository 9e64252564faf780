//! The types in which sums are kept.
ghost use Rattle.std.specs.Prelude.{◌≡◌, ◌↔◌, ℤ, pos, true, map, refl};
ghost use Rattle.col_core.specs.declared.data_type.PhysicalType.{PhysicalType};
ghost use Rattle.col_core.specs.declared.data_type.PhysicalType.TheVariants as kept;
ghost use Rattle.col_core.specs.declared.leaf.Leaf.TheVariants.{Whole};
ghost use Rattle.col_core.specs.Physical.{IsKept};
ghost use Rattle.col_core.specs.Tables.{chunk_leaves, chunk_physical};
ghost use Rattle.reduce_sum.specs.Sums.{is_whole, wrap_as};

use col_arrays::{Native, PrimitiveArray};
use col_core::Chunk;

/// A type in which sums are kept.
pub trait SumType: Native {
    // How columns keep values of the type.
    ghost kept: { PhysicalType };

    /// Totals as a piece of a column.
    fn into_chunk(totals: Vec<Self>) -> Chunk
        ensures kind { chunk_physical result ≡ kept }
        ensures values { chunk_leaves result ≡ map (λ x. Whole (Self.value x)) totals.items };

    ghost whole_law: { is_whole kept ≡ true };

    ghost wrap_as_law: { (z : ℤ) → Self.wrap z ≡ wrap_as kept z };

    ghost kept_law: { (z : ℤ) → Self.fits z ↔ IsKept kept (Whole z) };
}

#[tactic(auto, using(crate::proofs::Totals::presents))]
impl SumType for i32 {
    ghost kept = { kept.I32 };

    fn into_chunk(totals: Vec<i32>) -> Chunk
        ensures kind { chunk_physical result ≡ kept.I32 }
        ensures values { chunk_leaves result ≡ map (λ z. Whole z) totals.items }
    {
        Chunk::I32(PrimitiveArray::from_vec(totals))
    }

    ghost whole_law = { refl };

    ghost wrap_as_law = { λ z. refl };

    ghost kept_law = { λ z. ((λ h. h), (λ h. h)) };
}

#[tactic(auto, using(crate::proofs::Totals::presents))]
impl SumType for u32 {
    ghost kept = { kept.U32 };

    fn into_chunk(totals: Vec<u32>) -> Chunk
        ensures kind { chunk_physical result ≡ kept.U32 }
        ensures values { chunk_leaves result ≡ map (λ n. Whole (pos n)) totals.items }
    {
        Chunk::U32(PrimitiveArray::from_vec(totals))
    }

    ghost whole_law = { refl };

    ghost wrap_as_law = { λ z. refl };

    ghost kept_law = { λ z. ((λ h. h), (λ h. h)) };
}

#[tactic(auto, using(crate::proofs::Totals::presents))]
impl SumType for i64 {
    ghost kept = { kept.I64 };

    fn into_chunk(totals: Vec<i64>) -> Chunk
        ensures kind { chunk_physical result ≡ kept.I64 }
        ensures values { chunk_leaves result ≡ map (λ z. Whole z) totals.items }
    {
        Chunk::I64(PrimitiveArray::from_vec(totals))
    }

    ghost whole_law = { refl };

    ghost wrap_as_law = { λ z. refl };

    ghost kept_law = { λ z. ((λ h. h), (λ h. h)) };
}

#[tactic(auto, using(crate::proofs::Totals::presents))]
impl SumType for u64 {
    ghost kept = { kept.U64 };

    fn into_chunk(totals: Vec<u64>) -> Chunk
        ensures kind { chunk_physical result ≡ kept.U64 }
        ensures values { chunk_leaves result ≡ map (λ n. Whole (pos n)) totals.items }
    {
        Chunk::U64(PrimitiveArray::from_vec(totals))
    }

    ghost whole_law = { refl };

    ghost wrap_as_law = { λ z. refl };

    ghost kept_law = { λ z. ((λ h. h), (λ h. h)) };
}

#[tactic(auto, using(crate::proofs::Totals::presents))]
impl SumType for i128 {
    ghost kept = { kept.I128 };

    fn into_chunk(totals: Vec<i128>) -> Chunk
        ensures kind { chunk_physical result ≡ kept.I128 }
        ensures values { chunk_leaves result ≡ map (λ z. Whole z) totals.items }
    {
        Chunk::I128(PrimitiveArray::from_vec(totals))
    }

    ghost whole_law = { refl };

    ghost wrap_as_law = { λ z. refl };

    ghost kept_law = { λ z. ((λ h. h), (λ h. h)) };
}
