//! Reads a request, JSON bytes, to a query and the frames of its two sides.
//!
//! What is promised of [`read_request`]: Ok is the request that `request_of` says the bytes are,
//! for every member and every type, and each error but `Memory` is its refusal: not JSON, a float,
//! or no request. Begin there; the words are in `specs/Request` and the files beside it, one for
//! each part of a request.
#![tactic(auto)]

mod error;
mod filters;
mod frames;
mod from_value;
mod json;
mod leaves;
mod parts;
mod plans;
mod reader;
mod schemas;
mod types;

pub use error::RequestError;
pub use reader::{Request, read_request};
