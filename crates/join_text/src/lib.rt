//! Bytes in and out, for programs that answer requests.
//!
//! Bytes come from a [`Source`] and [`read_request`] says what they mean; [`answer_text`] is the text
//! of an answer, its two tables as comma-separated records, which [`write_all`] writes to a [`Sink`].
//! What is promised: the request is `request_of` the bytes (`join_request`), the text
//! `answer_text_of` the two tables (`specs/Text`), and reads and writes are whole or say why not
//! (`byte_streams`). Begin with [`answer_text`]; the texts of single tables stand in `table_text`.
#![tactic(auto)]

mod answer;
mod examples;
mod laws;

pub use answer::answer_text;
pub use byte_streams::{
    MemorySink, MemorySource, PIECE, Put, ReadError, Sink, Source, StdSink, StdSource, Took,
    WriteFault, read_to_end, write_all,
};
pub use examples::answer_text_examples;
pub use join_request::{Request, RequestError, read_request};
pub use laws::text_reads_back;
pub use table_text::TextError;
