//! Values at the front of bytes.
ghost use Rattle.std.specs.Prelude.{◌≡◌, ◌↔◌, ◌<◌, ◌^◌, ◌++◌, ◌∷◌, ℕ, ℤ, Bool, List, IfSome, IsSome, length};
ghost use Rattle.std.specs.Int.{w64, to_le_bytes};
ghost use Rattle.col_core.specs.declared.leaf.Leaf.{Leaf};
ghost use Rattle.col_core.specs.declared.leaf.Leaf.TheVariants as leaves;
ghost use Rattle.col_core.specs.Lent.{lent_leaf};
ghost use Rattle.col_core.specs.Physical.{IsKept};
ghost use Rattle.col_core.specs.Values.{AreBytesOf};
ghost use Rattle.row_code.specs.Spelling.{width_of, truth_byte, whole_bytes, ValueInFront, RowInFront, IsSpelling};

use col_core::{DataType, LeafRef, PhysicalType, Schema};

/// The number of the first bytes that spell a row of a schema, or `None` where bytes begin with no
/// row of it. Where it is the number of all, they can be pushed to a `RowDecoder`.
pub fn row_length(schema: &Schema, bytes: &[u8]) -> Option<usize>
    ensures front { (n : ℕ) → (result ≡ Some n) ↔ RowInFront schema.now n bytes.now }
    ensures whole { result ≡ Some (length bytes.now) → IsSpelling schema.now bytes.now }
{
    let mut rest = bytes;
    for field in schema.fields() {
        match read_value(field.dtype, rest) {
            Some((_, after)) => rest = after,
            None => return None,
        }
    }
    Some(bytes.len() - rest.len())
}

/// The value of a type that bytes begin with, and the bytes after it, or `None` where they begin
/// with none.
pub(crate) fn read_value(dtype: DataType, bytes: &[u8]) -> Option<(LeafRef<'_>, &[u8])>
    ensures found { IfSome result (λ r. ValueInFront dtype (lent_leaf r.0) r.1.now bytes.now) }
    ensures all { (value : Leaf) (rest : List ℕ) → ValueInFront dtype value rest bytes.now → IsSome result }
{
    match bytes {
        [0, rest @ ..] => Some((LeafRef::Null, rest)),
        [1, rest @ ..] => read_present(dtype, rest),
        _ => None,
    }
}

/// The same of a value that is present, from the byte on that follows the 1.
fn read_present(dtype: DataType, bytes: &[u8]) -> Option<(LeafRef<'_>, &[u8])>
    ensures found { IfSome result (λ r. ValueInFront dtype (lent_leaf r.0) r.1.now (1 ∷ bytes.now)) }
    ensures all { (value : Leaf) (rest : List ℕ) → ValueInFront dtype value rest (1 ∷ bytes.now) → IsSome result }
{
    match dtype.physical() {
        PhysicalType::Boolean => match read_truth(bytes) {
            Some((b, rest)) => Some((LeafRef::Bool(b), rest)),
            None => None,
        },
        PhysicalType::Bytes => match read_bytes(dtype, bytes) {
            Some((b, rest)) => Some((LeafRef::Bytes(b), rest)),
            None => None,
        },
        kind => match read_whole(kind, bytes) {
            Some((z, rest)) => Some((LeafRef::Whole(z), rest)),
            None => None,
        },
    }
}

/// The truth value that bytes begin with, and the bytes after it.
fn read_truth(bytes: &[u8]) -> Option<(bool, &[u8])>
    ensures found { IfSome result (λ r. bytes.now ≡ truth_byte r.0 ∷ r.1.now) }
    ensures all { (b : Bool) (rest : List ℕ) → bytes.now ≡ truth_byte b ∷ rest → IsSome result }
{
    match bytes {
        [0, rest @ ..] => Some((false, rest)),
        [1, rest @ ..] => Some((true, rest)),
        _ => None,
    }
}

/// The text or bytes of a type that bytes begin with, after their length, and the bytes after them.
fn read_bytes(dtype: DataType, bytes: &[u8]) -> Option<(&[u8], &[u8])>
    ensures found { IfSome result (λ r. AreBytesOf dtype r.0.now × (length r.0.now < 2 ^ 64) × (bytes.now ≡ to_le_bytes w64 (length r.0.now) ++ (r.0.now ++ r.1.now))) }
    ensures all { (b rest : List ℕ) → AreBytesOf dtype b → length b < 2 ^ 64 → bytes.now ≡ to_le_bytes w64 (length b) ++ (b ++ rest) → IsSome result }
{
    let (front, rest) = bytes.split_first_chunk()?;
    let len = u64::from_le_bytes(*front) as usize;
    let (value, rest) = rest.split_at_checked(len)?;
    if LeafRef::Bytes(value).fits(dtype) {
        Some((value, rest))
    } else {
        None
    }
}

/// The whole number of a kind that bytes begin with, and the bytes after it.
fn read_whole(kind: PhysicalType, bytes: &[u8]) -> Option<(i128, &[u8])>
    ensures found { IfSome result (λ r. IsKept kind (leaves.Whole r.0) × (bytes.now ≡ whole_bytes (width_of kind) r.0 ++ r.1.now)) }
    ensures all { (z : ℤ) (rest : List ℕ) → IsKept kind (leaves.Whole z) → bytes.now ≡ whole_bytes (width_of kind) z ++ rest → IsSome result }
{
    macro_rules! read_number {
        ($number:ty) => {
            match bytes.split_first_chunk() {
                Some((front, rest)) => Some((<$number>::from_le_bytes(*front) as i128, rest)),
                None => None,
            }
        };
    }
    match kind {
        PhysicalType::I8 => read_number!(i8),
        PhysicalType::I16 => read_number!(i16),
        PhysicalType::I32 => read_number!(i32),
        PhysicalType::I64 => read_number!(i64),
        PhysicalType::I128 => read_number!(i128),
        PhysicalType::U8 => read_number!(u8),
        PhysicalType::U16 => read_number!(u16),
        PhysicalType::U32 => read_number!(u32),
        PhysicalType::U64 => read_number!(u64),
        PhysicalType::Boolean | PhysicalType::Bytes => None,
    }
}
