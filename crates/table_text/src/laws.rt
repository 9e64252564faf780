//! Laws of the text. Each function has an empty body: its clause is what it is for.
ghost use Rattle.std.specs.Prelude.{ℕ, List};
ghost use Rattle.col_core.specs.Tables.{Table};
ghost use Rattle.col_core.specs.declared.data_type.DataType.{DataType};
ghost use Rattle.table_text.specs.Laws.{ReadsBack, TellsApart};

/// The text of two tables reads back as their records, whatever they hold and however they are marked.
pub fn text_reads_back()
    ensures { (first second : List ℕ) (a b : Table) → ReadsBack first a second b }
{}

/// A field tells which value of its column it stands for: a null, an empty text and the text `\N`
/// have three fields.
pub fn fields_tell_values_apart()
    ensures { (dtype : DataType) → TellsApart dtype }
{}
