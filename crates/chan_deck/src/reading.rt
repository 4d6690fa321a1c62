//! Reading a deck.

ghost use Rattle.std.specs.Prelude.{◌≡◌, ◌⊎◌, ℕ, IfErr, IfOk, MatchResult};
ghost use Rattle.chan_deck.specs.DeckValue.{DeckValue, Spells};
ghost use Rattle.chan_deck.specs.Reading.{IsDeckError, value_of};
ghost use Rattle.chan_deck.specs.Refused.{IsRefused};
ghost use Rattle.chan_deck.specs.declared.cause.Cause.{Cause};

use crate::deck::Deck;
use crate::deck_error::DeckError;
use crate::heading::{Heading, read_heading};
use crate::lines::Cursor;
use crate::lists::{Lists, read_lists};
use crate::storage_lines::fill;
use ckd_core::Extents;
use std::alloc::Global;

/// The heading, the lists and the storage that a text says.
fn read_parts(alloc: Global, text: &[u8]) -> Result<(Heading, Lists, Vec<u8>), DeckError>
    ensures { MatchResult result (λ p. Spells text.now (value_of p.0 p.1.extents.items
        p.1.fetch.items p.1.store.items p.2.items)) (IsDeckError text.now) }
{
    let mut cursor = Cursor::new(text);
    let heading = read_heading(&mut cursor)?;
    let (lists, size) = read_lists(alloc, &mut cursor)?;
    let mut storage = vec![in alloc; 0u8; size]?;
    fill(storage.as_mut_slice(), cursor)?;
    Ok((heading, lists, storage))
}

/// The deck that a text spells.
///
/// A text that spells none is refused: the line is the first, counted from 1, with which no deck's
/// text goes on, and the cause is the first of the table that applies to it. `Memory` comes only if
/// a growth was refused. Each line is looked at once, after its line feed was found.
pub fn read_deck(alloc: Global, text: &[u8]) -> Result<Deck, DeckError>
    ensures spelled { IfOk result (Spells text.now) }
    ensures refused { IfErr result (IsDeckError text.now) }

    // A text that spells a deck gives that deck, memory aside; one that spells none gives its
    // refusal.
    ensures accepted { (d : DeckValue) → Spells text.now d
        → MatchResult result (λ deck. deck ≡ d) (λ e. e ≡ DeckError.Memory) }
    ensures named { (line : ℕ) (cause : Cause) → IsRefused text.now line cause
        → MatchResult result (λ deck. ⊥)
        (λ e. (e ≡ DeckError.Memory) ⊎ (e ≡ DeckError.At line cause)) }
{
    let (heading, lists, storage) = read_parts(alloc, text)?;
    let Lists {
        extents,
        fetch,
        store,
    } = lists;

    // The pairs were judged at their lines, so only an allocation can fail.
    let extents = Extents::new(alloc, &extents).map_err(|_| DeckError::Memory)?;
    Ok(Deck {
        version: heading.version,
        device: heading.device,
        mask: heading.mask,
        start: heading.start,
        extents,
        fetch,
        store,
        storage,
    })
}
