//! Worked texts of the definitions of `specs/`. Each function has an empty body: its clauses are what it is for.
ghost use Rattle.std.specs.Prelude.{◌≡◌, [], ◌∷◌, map, codes, true, false};
ghost use Rattle.col_core.specs.declared.leaf.Leaf.TheVariants.{Null, Bool};
ghost use Rattle.col_core.specs.declared.data_type.DataType.TheVariants.{Boolean, Int64, Int128, Decimal, String, Binary};
ghost use Rattle.table_text.specs.Fields.{value_text};
ghost use Rattle.table_text.specs.Records.{table_records, records_text};
ghost use Rattle.table_text.specs.Examples.{number, minus, text, field, table, column_text};

/// Fields, type by type. A decimal is the whole number that is stored.
#[tactic(auto, unfolding(hex::specs::Hex::encode_with))]
pub fn field_text_examples()
    ensures null { value_text Int64 Null ≡ codes "\\N" }
    ensures null_text { value_text String Null ≡ codes "\\N" }
    ensures truth { value_text Boolean (Bool true) ≡ codes "true" }
    ensures falsehood { value_text Boolean (Bool false) ≡ codes "false" }
    ensures whole_numbers { map (value_text Int128)
        (number 0 ∷ number 127 ∷ minus 1 ∷ minus 170141183460469231731687303715884105728 ∷ []) ≡
        codes "0" ∷ codes "127" ∷ codes "-1" ∷
        codes "-170141183460469231731687303715884105728" ∷ [] }
    ensures scaled { value_text (Decimal 10 2) (minus 1250) ≡ codes "-1250" }
    ensures plain { value_text String (text (codes "a\\N")) ≡ codes "a\\N" }
    ensures escaped { value_text String (text (codes "\\N")) ≡ codes "\\\\N" }
    ensures empty { value_text String (text []) ≡ [] }
    ensures bytes { value_text Binary (text (10 ∷ 255 ∷ [])) ≡ codes "0aff" }
    ensures escaped_bytes { value_text Binary (text (codes "\\")) ≡ codes "5c" }
    ensures no_bytes { value_text Binary (text []) ≡ [] }
{}

/// Records: what stands in quotes, and names as they are.
#[tactic(auto, unfolding(csv::specs::Writing::escaped, csv::specs::Writing::fields_text, csv::specs::Writing::is_blank))]
pub fn record_text_examples()
    ensures header { records_text (table_records (codes "J")
        (table (field (codes "a,b") Int64 ∷ field (codes "\\c") String ∷ []) [])) ≡
        codes "J,\"a,b\",\\c\n" }
    ensures no_columns { records_text (table_records (codes "J") (table [] ([] ∷ [])))
        ≡ codes "J\nJ\n" }
    ensures comma { column_text (text (codes "a,b") ∷ []) ≡ codes "J,k\nJ,\"a,b\"\n" }
    ensures quote { column_text (text (codes "say \"x\"") ∷ []) ≡
        codes "J,k\nJ,\"say \"\"x\"\"\"\n" }
    ensures line_feed { column_text (text (codes "a\nb") ∷ []) ≡ codes "J,k\nJ,\"a\nb\"\n" }
    ensures carriage_return { column_text (text (codes "a\rb") ∷ []) ≡ codes "J,k\nJ,\"a\rb\"\n" }
    ensures blank { column_text (text [] ∷ Null ∷ []) ≡ codes "J,k\nJ,\nJ,\\N\n" }
{}
