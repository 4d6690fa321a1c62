//! The error of reading a deck.

use crate::cause::Cause;
use std::alloc::AllocError;
use thiserror::Error;

/// Why a text gives no deck.
#[derive(Clone, Copy, PartialEq, Eq, Debug, Error)]
pub enum DeckError {
    /// The text spells no deck: this line, counted from 1, is the first that is refused, and for
    /// this cause.
    #[error("line {line} is refused: {cause:?}")]
    At { line: u64, cause: Cause },
    /// An allocation was refused.
    #[error("out of memory")]
    Memory,
}

impl From<AllocError> for DeckError {
    ghost use Rattle.std.specs.Prelude.{◌≡◌};
    ghost use Rattle.chan_deck.specs.declared.deck_error.DeckError.TheVariants.{Memory};

    ghost from_gives = { λ _ e. e ≡ Memory };

    fn from(_error: AllocError) -> DeckError {
        DeckError::Memory
    }
}
