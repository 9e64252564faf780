//! Why a text was not made.
ghost use Rattle.std.specs.Prelude.{◌≡◌};
ghost use Rattle.csv.specs.Reading.{error_kind};
ghost use Rattle.table_text.specs.declared.error.TextError.TheVariants.{Memory};
ghost use Rattle.table_text.specs.Errors.{text_error_of};

use csv::ErrorKind;
use std::alloc::AllocError;
use std::io;

/// Why a text was not made.
#[derive(Clone, Copy, PartialEq, Eq, Debug)]
pub enum TextError {
    /// Memory was wanted and not found.
    Memory,
    /// The writer of records failed for another reason. Over memory none is known.
    Writer,
}

impl TextError {
    /// The cause that csv's writer gives.
    pub(crate) fn of_writer(e: csv::Error) -> TextError
        ensures { result ≡ text_error_of (error_kind e) }
    {
        match e.into_kind() {
            ErrorKind::OutOfMemory => TextError::Memory,
            ErrorKind::Io(e) => TextError::of_io(&e),
            _ => TextError::Writer,
        }
    }

    /// The cause that a write gives.
    pub(crate) fn of_io(e: &io::Error) -> TextError
        ensures { result ≡ text_error_of (ErrorKind.Io e.now) }
    {
        match e.kind() {
            io::ErrorKind::OutOfMemory => TextError::Memory,
            _ => TextError::Writer,
        }
    }
}

impl From<AllocError> for TextError {
    ghost from_gives = { λ _ e. e ≡ Memory };

    fn from(_: AllocError) -> TextError {
        TextError::Memory
    }
}
