//! The lines that stand for an answer.
ghost use Rattle.std.specs.Prelude.{◌≡◌, ◌++◌, map, codes, IfOk, OnOk};
ghost use Rattle.table_text.specs.Records.{row_record, records_text};
ghost use Rattle.generated_text.specs.Lines.{ends, hash_line, answer_lines};

use col_core::{Blob, Frame};
use join_engine::Answer;
use join_text::{TextError, answer_text};
use key_parts::PlRandomState;
use std::alloc::{AllocError, Global};
use table_text::record_text;

/// The records of the first and of the last row, twice the same where there is one row.
fn end_records(alloc: Global, groups: &Frame) -> Result<Vec<u8>, TextError>
    ensures { IfOk result (λ text. text.items
        ≡ records_text (map (row_record (codes "G") groups.now.schema) (ends groups.now.rows))) }
{
    let height = groups.height();
    let mut text = Vec::new(alloc);
    if height == 0 {
        return Ok(text);
    }
    let first = record_text(alloc, "G", groups, 0)?;
    let last = record_text(alloc, "G", groups, height - 1)?;
    text.extend_from_slice(first.as_slice())?;
    text.extend_from_slice(last.as_slice())?;
    Ok(text)
}

/// Appends the line of a hash: its digits in lower-case hexadecimal.
fn push_hash_line(text: &mut Vec<u8>, hash: u64) -> Result<(), AllocError>
    ensures { OnOk result (text.new.items ≡ text.old.items ++ hash_line hash) }
{
    let mut digits = [0; 16];
    if hex::encode_to_slice(hash.to_be_bytes(), &mut digits).is_err() {
        unreachable!()
    }
    text.extend_from_slice(b"hash ")?;
    text.extend_from_slice(&digits)?;
    text.extend_from_slice(b"\n")
}

/// Three lines for an answer: the records of its first and its last group, and the hash of the text of
/// the whole answer. Without a group the last line stands alone.
#[tactic(auto, unfolding(crate::specs::Lines::answer_lines))]
pub fn answer_lines(alloc: Global, answer: &Answer) -> Result<Blob, TextError>
    ensures { IfOk result (λ text. text ≡ answer_lines answer.now.rows answer.now.groups) }
{
    let whole = answer_text(alloc, answer)?;
    let hash = PlRandomState::DEFAULT.hash_one(whole.as_slice());
    let mut text = end_records(alloc, &answer.groups)?;
    push_hash_line(&mut text, hash)?;
    Ok(Blob::from_vec(text))
}
