//! The command `join_tool` as a function of words and streams.
//!
//! [`run_tool`] reads a request, answers it, writes the text, and tells on an error stream what it
//! refuses; its result is the exit status. With the words `gen N` it reads nothing, and answers the
//! generated input of `N` build rows by three lines. What is promised: with 0 the whole text of the
//! command was written and nothing else; each other status has its cause and its line; and a request
//! whose query has no refusal, as a generated input, is answered, unless a stream fails or memory runs
//! out. Begin with `run_tool`, whose clauses stand in the order of the statuses, with their words in
//! `specs/Runs`; `specs/Commands` has what words ask for, `specs/Replies` what a request is answered
//! by, and `specs/Errors` the statuses and lines.
#![tactic(auto)]

mod command;
mod error;
mod reply;
mod run;

pub use command::{Command, command_of};
pub use error::{Line, ToolError};
pub use reply::answer_request;
pub use run::{REQUEST_LIMIT, report, run_tool};
