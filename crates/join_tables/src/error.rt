//! Why pairs are refused.
use std::alloc::{AllocError, AllocFailed};
use thiserror::Error;

/// Why the pairs of a morsel are not given. `ProbeFails` says when each comes.
#[derive(Clone, Copy, PartialEq, Eq, Debug, Error)]
pub enum ProbeError {
    /// 1: there are more pairs than were asked for.
    #[error("too large")]
    TooLarge,
    /// 2: memory was wanted and not found. Nothing else is said of when this comes.
    #[error("out of memory")]
    Memory,
}

impl From<AllocError> for ProbeError {
    ghost use Rattle.std.specs.Prelude.{◌≡◌};
    ghost use Rattle.join_tables.specs.declared.error.ProbeError.TheVariants.{Memory};

    ghost from_gives = { λ _ e. e ≡ Memory };

    fn from(_error: AllocError) -> ProbeError {
        ProbeError::Memory
    }
}

impl<T: Drop> From<AllocFailed<T>> for ProbeError {
    ghost use Rattle.std.specs.Prelude.{◌≡◌};
    ghost use Rattle.join_tables.specs.declared.error.ProbeError.TheVariants.{Memory};

    ghost from_gives = { λ _ e. e ≡ Memory };

    fn from(_error: AllocFailed<T>) -> ProbeError {
        ProbeError::Memory
    }
}
