//! The notes on an image of storage that is a deck, or that has no program, and on its device.

ghost use Rattle.std.specs.Prelude.{◌≡◌};
ghost use Rattle.chan_deck.specs.ImageNote as notes;

/// What a deck begins with, of either version.
const DECK_FRONT: &str = "chanv deck ";

/// The note on an image that is a deck.
const IS_DECK: &str = "note: this is a deck; chanv verify judges it\n";

// The notes on an image in which no program was found: what to give that wasn't given.
const GIVE_BOTH: &str =
    "note: no program found; if the image is a part of storage, give --at and --storage\n";

const GIVE_AT: &str =
    "note: no program found; if the image begins at another address than 0, give --at\n";

const GIVE_STORAGE: &str =
    "note: no program found; if storage goes on behind the image, give --storage\n";

const GIVE_NOTHING: &str = "note: no program found\n";

/// The note on a deck for which no device is named.
pub const USUAL_DEVICE: &str = "note: no --device, so 2314\n";

/// Whether an image begins as a deck does.
pub(crate) fn is_deck(image: &[u8]) -> bool
    ensures { result ≡ notes.is_deck image.now }
{
    image.starts_with(DECK_FRONT.as_bytes())
}

/// The note on an image that is a deck; on any other there is none.
pub fn deck_note(image: &[u8]) -> &'static str
    ensures { result.now ≡ notes.deck_note image.now }
{
    if is_deck(image) { IS_DECK } else { "" }
}

/// The note on an image that was searched for programs, and that has some or none; whether its
/// address was given, and the size of storage.
pub fn find_note(image: &[u8], has_programs: bool, is_placed: bool, is_sized: bool) -> &'static str
    ensures { result.now ≡ notes.find_note image.now has_programs is_placed is_sized }
{
    if is_deck(image) || has_programs {
        return deck_note(image);
    }
    match (is_placed, is_sized) {
        (false, false) => GIVE_BOTH,
        (false, true) => GIVE_AT,
        (true, false) => GIVE_STORAGE,
        (true, true) => GIVE_NOTHING,
    }
}
