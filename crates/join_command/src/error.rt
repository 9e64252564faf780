//! Why the program does not answer: a status and a line for each cause.
ghost use Rattle.std.specs.Prelude.{◌≡◌, ◌≤◌, ◌<◌, ◌++◌, length, codes, decimal};
ghost use Rattle.join_command.specs.declared.error.ToolError.TheVariants as errors;
ghost use Rattle.join_command.specs.Errors.{status_of, line_of, request_text, query_text, error_of_read, error_of_request, error_of_query, error_of_text};

use arrayvec::ArrayString;
use itoa::Buffer;
use join_engine::QueryError;
use join_text::{ReadError, RequestError, TextError, WriteFault};
use std::alloc::AllocError;

/// A line, kept without memory.
pub type Line = ArrayString<64>;

/// A text as a line.
fn plain(text: &str) -> Line
    requires { length text.now ≤ 40 }
    ensures { result.bytes ≡ text.now ++ codes "\n" }
{
    let mut line = Line::new();
    line.push_str(text);
    line.push('\n');
    line
}

/// A text and a number as a line.
fn numbered(text: &str, number: usize) -> Line
    requires { length text.now ≤ 40 }
    ensures { result.bytes ≡ text.now ++ decimal number ++ codes "\n" }
{
    let mut buffer = Buffer::new();
    let mut line = Line::new();
    line.push_str(text);
    line.push_str(buffer.format(number));
    line.push('\n');
    line
}

/// Why the program does not answer. `status_of` has the exit status of each cause, and `line_of` the line that tells it. Want of
/// memory is `Memory`, whichever call wanted it: `Request` and `Query` keep their own causes alone.
#[derive(Clone, Copy, PartialEq, Eq, Debug)]
pub enum ToolError {
    /// The words are no command.
    Usage,
    /// The source failed before its end.
    ReadFault,
    /// The request is longer than the program takes.
    TooLong,
    /// The bytes are no request.
    Request(RequestError),
    /// The query is refused.
    Query(QueryError),
    /// The sink failed before the text was whole.
    WriteFault,
    /// The text was not made, for another reason than want of memory. None is known.
    TextFault,
    /// There was no memory.
    Memory,
}

impl ToolError {
    /// The exit status.
    pub fn status(self) -> u8
        ensures status { result ≡ status_of self }
        ensures least { 2 ≤ result }
        ensures greatest { result ≤ 8 }
    {
        match self {
            ToolError::Usage => 2,
            ToolError::ReadFault => 3,
            ToolError::TooLong => 4,
            ToolError::Request(_) => 5,
            ToolError::Query(_) => 6,
            ToolError::WriteFault => 7,
            ToolError::TextFault => 8,
            ToolError::Memory => 8,
        }
    }

    /// The line that tells of it, with its line feed.
    pub fn line(self) -> Line
        ensures { result.bytes ≡ line_of self }
    {
        match self {
            ToolError::Usage => plain("usage: join_tool or join_tool gen N"),
            ToolError::ReadFault => plain("read fault"),
            ToolError::TooLong => plain("request too long"),
            ToolError::Request(e) => request_line(e),
            ToolError::Query(e) => query_line(e),
            ToolError::WriteFault => plain("write fault"),
            ToolError::TextFault => plain("text fault"),
            ToolError::Memory => plain("out of memory"),
        }
    }
}

/// The line for bytes that are no request.
fn request_line(e: RequestError) -> Line
    ensures { result.bytes ≡ request_text e ++ codes "\n" }
{
    match e {
        RequestError::NotJson => plain("not JSON"),
        RequestError::Float => plain("float in request"),
        _ => plain("not a request"),
    }
}

/// The line for a query that is refused: the number and the name of the cause, and the place that it keeps.
fn query_line(e: QueryError) -> Line
    ensures { result.bytes ≡ query_text e ++ codes "\n" }
{
    match e {
        QueryError::NoKeyColumns => plain("query refused: 1 NoKeyColumns"),
        QueryError::UnknownColumn { position } => {
            numbered("query refused: 2 UnknownColumn ", position)
        }
        QueryError::SchemaMismatch => plain("query refused: 3 SchemaMismatch"),
        QueryError::UnsupportedReduction { index } => {
            numbered("query refused: 4 UnsupportedReduction ", index)
        }
        QueryError::UnsupportedFilter => plain("query refused: 5 UnsupportedFilter"),
        QueryError::BadPlan => plain("query refused: 6 BadPlan"),
        QueryError::TooLarge => plain("query refused: 7 TooLarge"),
        QueryError::Memory => plain("query refused: 8 Memory"),
    }
}

impl From<ReadError> for ToolError {
    ghost from_gives = { λ read e. e ≡ error_of_read read };

    fn from(e: ReadError) -> ToolError {
        match e {
            ReadError::Fault => ToolError::ReadFault,
            ReadError::TooLong => ToolError::TooLong,
            ReadError::Memory => ToolError::Memory,
        }
    }
}

impl From<RequestError> for ToolError {
    ghost from_gives = { λ request e. e ≡ error_of_request request };

    fn from(e: RequestError) -> ToolError {
        match e {
            RequestError::Memory => ToolError::Memory,
            _ => ToolError::Request(e),
        }
    }
}

impl From<QueryError> for ToolError {
    ghost from_gives = { λ query e. e ≡ error_of_query query };

    fn from(e: QueryError) -> ToolError {
        match e {
            QueryError::Memory => ToolError::Memory,
            _ => ToolError::Query(e),
        }
    }
}

impl From<TextError> for ToolError {
    ghost from_gives = { λ text e. e ≡ error_of_text text };

    fn from(e: TextError) -> ToolError {
        match e {
            TextError::Memory => ToolError::Memory,
            TextError::Writer => ToolError::TextFault,
        }
    }
}

impl From<WriteFault> for ToolError {
    ghost from_gives = { λ _ e. e ≡ errors.WriteFault };

    fn from(_: WriteFault) -> ToolError {
        ToolError::WriteFault
    }
}

impl From<AllocError> for ToolError {
    ghost from_gives = { λ _ e. e ≡ errors.Memory };

    fn from(_: AllocError) -> ToolError {
        ToolError::Memory
    }
}
