//! A law of the text. The function has an empty body: its clause is what it is for.
ghost use Rattle.col_core.specs.Tables.{Table};
ghost use Rattle.join_text.specs.Text.{ReadsBack};

/// The text of an answer reads back as the records of its two tables, whatever they hold.
pub fn text_reads_back()
    ensures { (rows groups : Table) → ReadsBack rows groups }
{
    table_text::text_reads_back();
}
