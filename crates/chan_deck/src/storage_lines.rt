//! The lines of storage.

ghost use Rattle.std.specs.Prelude.{◌≡◌, ℕ, List, [], length, replicate, MatchResult};
ghost use Rattle.ccw_core.specs.declared.areas.Area.{Area};
ghost use Rattle.chan_deck.specs.DeckValue.{Spells};
ghost use Rattle.chan_deck.specs.Reading.{Filling, IsDeckError, HasReadTo, value_of};
ghost use Rattle.chan_deck.specs.declared.heading.Heading.{Heading};

use crate::cause::Cause;
use crate::deck_error::DeckError;
use crate::item::Item;
use crate::lines::Cursor;
use crate::placed_bytes::write_at;

/// Puts what follows the line of storage, up to the end of the deck, into storage, which is zero
/// before. It isn't inlined: by itself it keeps all that the loop uses in registers.
#[inline(never)]
pub(crate) fn fill(storage: &mut [u8], mut cursor: Cursor) -> Result<(), DeckError>
    requires { storage.old ≡ replicate (length storage.old) 0 }
    ensures filled { (h : Heading) (es : List (ℕ × ℕ)) (fs ss : List Area) (t : List ℕ)
        → HasReadTo t (Filling h es fs ss (length storage.old) []) cursor.entry → MatchResult result
        (λ done. Spells t (value_of h es fs ss storage.new)) (IsDeckError t) }
    ensures len { length storage.new ≡ length storage.old }
{
    let mut next = 0usize;
    loop {
        let item = cursor.next_item();
        match item {
            Item::Put(address, word) => {
                let address = address as usize;
                if address % 8 != 0 || address < next || storage.len() < address + 8 {
                    return Err(cursor.refused(item, Cause::PutAddress));
                }
                if word == 0 {
                    return Err(cursor.refused(item, Cause::PutZero));
                }
                write_at(storage, address, &word.to_be_bytes());
                next = address + 8;
            }
            Item::End => return cursor.end(),
            _ => return Err(cursor.refused(item, Cause::Form)),
        }
    }
}
