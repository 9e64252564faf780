//! Why bytes are no request.
use std::alloc::{AllocError, AllocFailed};
use thiserror::Error;

/// Why bytes are no request. `request_of` says which cause comes first; want of memory may come in place of any answer.
#[derive(Clone, Copy, PartialEq, Eq, Debug, Error)]
pub enum RequestError {
    /// The bytes are not UTF-8, or not the text of one JSON value of at most 127 levels.
    #[error("not JSON")]
    NotJson,
    /// A number is held as a float: one with a fraction, an exponent or a magnitude past 64 bits, or `-0`.
    #[error("float in request")]
    Float,
    /// The value is no request: a member is missing, unknown or of another form.
    #[error("not a request")]
    Shape,
    /// There was no memory for the request.
    #[error("out of memory")]
    Memory,
}

impl From<AllocError> for RequestError {
    ghost use Rattle.std.specs.Prelude.{◌≡◌};
    ghost use Rattle.join_request.specs.declared.error.RequestError.TheVariants.{Memory};

    ghost from_gives = { λ _ e. e ≡ Memory };

    fn from(_e: AllocError) -> RequestError {
        RequestError::Memory
    }
}

impl<T: Drop> From<AllocFailed<T>> for RequestError {
    ghost use Rattle.std.specs.Prelude.{◌≡◌};
    ghost use Rattle.join_request.specs.declared.error.RequestError.TheVariants.{Memory};

    ghost from_gives = { λ _ e. e ≡ Memory };

    fn from(_failed: AllocFailed<T>) -> RequestError {
        RequestError::Memory
    }
}
