//! Decks, which are main storage and the job of a channel program as one text, and all other texts
//! about a program.
//!
//! Each deck has exactly one text. A text that spells none is refused at its first wrong line, with
//! the cause:
//!
//! ```
//! fn same_text(alloc: Global, text: &[u8]) -> Result<Vec<u8>, DeckError> {
//!     let deck = read_deck(alloc, text)?;
//!     Ok(write_deck(alloc, &deck)?)
//! }
//! ```
#![tactic(auto)]

mod advice;
mod because;
mod beginning;
mod cause;
mod deck;
mod deck_digits;
mod deck_error;
mod deed;
mod dump;
mod dump_form;
mod dump_line;
mod dump_note;
mod explanation;
mod graph;
mod heading;
mod help;
mod hint;
mod image_note;
mod item;
mod keyword;
mod laws;
mod led_to;
mod lines;
mod listing;
mod lists;
mod named_word;
mod needs_lines;
mod note_lines;
mod numbers;
mod own_mask;
mod parts;
mod picture_layout;
mod placed_bytes;
mod plain_text;
mod ranged;
mod reading;
mod shape;
mod storage_lines;
mod unread;
mod verdict_line;
mod version;
mod wide;
mod words;
mod writing;
mod wrong_image;

pub use crate::advice::{image_advice, needs_advice, why_advice};
pub use crate::beginning::image_notes;
pub use crate::cause::Cause;
pub use crate::deck::Deck;
pub use crate::deck_error::DeckError;
pub use crate::dump::{Dump, DumpError, read_dump};
pub use crate::explanation::{explanation_text, why_text};
pub use crate::graph::graph_text;
pub use crate::hint::hint_text;
pub use crate::image_note::{USUAL_DEVICE, deck_note, find_note};
pub use crate::listing::{ListError, ccw_line, listing_text, row_text, write_listing};
pub use crate::named_word::spelled_text;
pub use crate::needs_lines::{in_six_digits, needs_text};
pub use crate::note_lines::{limit_note, room_note, storage_note};
pub use crate::parts::{Parts, parts_text, place_image};
pub use crate::plain_text::may_be_text;
pub use crate::ranged::range_text;
pub use crate::reading::read_deck;
pub use crate::shape::shape_of;
pub use crate::unread::{ImageBytes, UnreadNotes};
pub use crate::verdict_line::{program_text, unjudged_text, verdict_text};
pub use crate::wide::wide_listing;
pub use crate::words::{WORDS_AT_LENGTH, WORDS_IN_SHORT, nearest_word, word_row};
pub use crate::writing::write_deck;
