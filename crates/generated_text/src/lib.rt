//! The text of the answer to a generated input, cut down to three lines.
//!
//! [`generated_text`] makes an input from a number (`join_generator`), answers it, and gives the records
//! of its first and its last group and the hash of the text of the whole answer, by which two answers of
//! any size are compared. What is promised: these lines are those of `specs/Lines`. Begin with
//! [`generated_text`].
#![tactic(auto)]

mod lines;
mod text;

pub use lines::answer_lines;
pub use text::generated_text;
