//! Laws of the bytes of rows. Each function does nothing: its clauses are the law.
ghost use Rattle.std.specs.Prelude.{◌≡◌, ◌↔◌, ◌++◌, ℕ, List, []};
ghost use Rattle.col_core.specs.declared.schema.Field.{Field};
ghost use Rattle.col_core.specs.Tables.{Row};
ghost use Rattle.row_code.specs.Spelling.{row_spelling, IsRowOf, AreApart};

/// Bytes that begin with those of a row of a schema begin with those of no other row of it. So two
/// rows of a schema have the same bytes exactly where they are the same, and the bytes of none
/// begin those of another.
pub fn spellings_are_apart()
    ensures apart { (schema : List Field) → AreApart schema }
    ensures same { (schema : List Field) (x y : Row) → IsRowOf schema x → IsRowOf schema y
        → (row_spelling schema x ≡ row_spelling schema y) ↔ (x ≡ y) }
    ensures no_front { (schema : List Field) (x y : Row) (rest : List ℕ)
        → IsRowOf schema x → IsRowOf schema y
        → row_spelling schema x ++ rest ≡ row_spelling schema y → rest ≡ [] }
{}
