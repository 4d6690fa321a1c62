//! The error of walking through a program's places.

use std::alloc::{AllocError, AllocFailed};
use thiserror::Error;

/// Why there is no answer.
#[derive(Clone, Copy, PartialEq, Eq, Debug, Error)]
pub enum WalkError {
    /// More places are reachable than the job's limit.
    #[error("too many places")]
    TooManyPlaces,
    /// An allocation was refused.
    #[error("out of memory")]
    Memory,
}

impl From<AllocError> for WalkError {
    ghost use Rattle.std.specs.Prelude.{◌≡◌};
    ghost use Rattle.chan_walk.specs.declared.walk_error.WalkError.TheVariants.{Memory};

    ghost from_gives = { λ _ e. e ≡ Memory };

    fn from(_error: AllocError) -> WalkError {
        WalkError::Memory
    }
}

impl<T: Drop> From<AllocFailed<T>> for WalkError {
    ghost use Rattle.std.specs.Prelude.{◌≡◌};
    ghost use Rattle.chan_walk.specs.declared.walk_error.WalkError.TheVariants.{Memory};

    ghost from_gives = { λ _ e. e ≡ Memory };

    fn from(_error: AllocFailed<T>) -> WalkError {
        WalkError::Memory
    }
}
