//! Worked answers of the definitions of `specs/Folds`. Each function has an empty body: its clauses are what it is for.
ghost use Rattle.std.specs.Prelude.{◌≡◌, [], ◌∷◌, codes, true, false};
ghost use Rattle.col_core.specs.declared.data_type.DataType.TheVariants.{Boolean, Int8, Int32, Int64, UInt32, UInt64, Decimal, Duration, Date, String, Binary};
ghost use Rattle.col_core.specs.declared.leaf.Leaf.TheVariants.{Null, Bool};
ghost use Rattle.reduce_model.specs.declared.kind.ReductionKind.TheVariants.{Sum, Min, Max, First, Last};
ghost use Rattle.reduce_model.specs.Folds.{fold_of, reduced_type};
ghost use Rattle.reduce_model.specs.Examples.{number, minus, text};

/// Sums: a null adds nothing, each addition wraps in the type that keeps the sum, and text has none.
pub fn sum_examples()
    ensures nulls { fold_of Sum Int64 (Null ∷ number 5 ∷ Null ∷ minus 7 ∷ []) ≡ minus 2 }
    ensures nulls_alone { fold_of Sum Int64 (Null ∷ Null ∷ []) ≡ number 0 }
    ensures no_values { fold_of Sum Int64 [] ≡ number 0 }
    ensures wraps_in_32_bits { fold_of Sum Int32 (number 2147483647 ∷ number 1 ∷ [])
        ≡ minus 2147483648 }
    ensures wraps_in_64_bits { fold_of Sum Int64 (number 9223372036854775807 ∷ number 1 ∷ [])
        ≡ minus 9223372036854775808 }
    ensures wraps_unsigned { fold_of Sum UInt32 (number 4294967295 ∷ number 2 ∷ []) ≡ number 1 }
    ensures wraps_unsigned_64 { fold_of Sum UInt64 (number 18446744073709551615 ∷ number 2 ∷ [])
        ≡ number 1 }
    ensures small_ones_widen { fold_of Sum Int8 (number 127 ∷ number 127 ∷ []) ≡ number 254 }
    ensures widened_type { reduced_type Sum Int8 ≡ Int64 }
    ensures past_precision { fold_of Sum (Decimal 3 1) (number 999 ∷ number 2 ∷ []) ≡ number 1001 }
    ensures of_text { fold_of Sum String (text (codes "x") ∷ []) ≡ Null }
{}

/// Least and greatest: nulls are skipped, texts are ordered by their bytes, false is below true.
pub fn least_and_greatest_examples()
    ensures least { fold_of Min Int64 (Null ∷ number 5 ∷ minus 3 ∷ number 7 ∷ []) ≡ minus 3 }
    ensures greatest { fold_of Max Int64 (minus 5 ∷ Null ∷ minus 3 ∷ []) ≡ minus 3 }
    ensures least_of_nulls { fold_of Min Int64 (Null ∷ Null ∷ []) ≡ Null }
    ensures greatest_of_none { fold_of Max Date [] ≡ Null }
    ensures least_text { fold_of Min String (text (codes "b") ∷ text (codes "ab") ∷ Null ∷ [])
        ≡ text (codes "ab") }
    ensures greatest_text { fold_of Max String
        (text (codes "a") ∷ text (codes "ab") ∷ text (codes "") ∷ []) ≡ text (codes "ab") }
    ensures least_truth { fold_of Min Boolean (Bool true ∷ Null ∷ Bool false ∷ []) ≡ Bool false }
    ensures greatest_truth { fold_of Max Boolean (Bool false ∷ Bool true ∷ []) ≡ Bool true }
{}

/// First and last take a null as a value, and a group without values gives null.
pub fn place_examples()
    ensures first { fold_of First Int64 (number 4 ∷ number 5 ∷ []) ≡ number 4 }
    ensures first_null { fold_of First Int64 (Null ∷ number 5 ∷ []) ≡ Null }
    ensures last { fold_of Last String (text (codes "a") ∷ text (codes "b") ∷ [])
        ≡ text (codes "b") }
    ensures last_null { fold_of Last Int64 (number 4 ∷ Null ∷ []) ≡ Null }
    ensures none { fold_of Last Int64 [] ≡ Null }
{}
