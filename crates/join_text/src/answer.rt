//! The text of an answer: its two tables, one after the other.
ghost use Rattle.std.specs.Prelude.{◌≡◌, IfOk};
ghost use Rattle.join_text.specs.Text.{answer_text_of};

use col_core::Blob;
use join_engine::Answer;
use std::alloc::Global;
use table_text::{TextError, tables_text};

/// The text of an answer: the records of its joined rows, marked `J`, and then those of their groups,
/// marked `G`, each table as [`table_text::frame_text`] writes it.
pub fn answer_text(alloc: Global, answer: &Answer) -> Result<Blob, TextError>
    ensures { IfOk result (λ text. text ≡ answer_text_of answer.now.rows answer.now.groups) }
{
    tables_text(alloc, "J", &answer.rows, "G", &answer.groups)
}
