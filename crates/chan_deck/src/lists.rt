//! The lines of the lists, up to the line of storage.

ghost use Rattle.std.specs.Prelude.{◌≡◌, [], IfOk};
ghost use Rattle.chan_deck.specs.Item.{said_by};
ghost use Rattle.chan_deck.specs.Reading.{Filling, LeadsOrFails, Listing, after_list_line};
ghost use Rattle.chan_deck.specs.Reading.{after_line, with_lists};
ghost use Rattle.chan_deck.specs.declared.heading.Heading.{Heading};

use crate::cause::Cause;
use crate::deck_error::DeckError;
use crate::item::Item;
use crate::lines::Cursor;
use ccw_core::{Area, STORAGE_LIMIT};
use ckd_core::LAST_CYLINDER;
use std::alloc::{AllocError, Global};

/// The lists of a deck, as far as they have been read.
#[derive(Drop)]
pub(crate) struct Lists {
    pub(crate) extents: Vec<(u16, u16)>,
    pub(crate) fetch: Vec<Area>,
    pub(crate) store: Vec<Area>,
}

/// What came of a line of the lists.
#[derive(Clone, Copy)]
enum ListLine {
    Taken,
    /// The line of storage has come, and says so many bytes.
    Storage(usize),
    Refused(Cause),
}

impl Lists {
    /// Takes what a line says. Extents come first, and areas for fetching before those for storing.
    fn take(&mut self, item: Item) -> Result<ListLine, AllocError>
        ensures { IfOk result (λ r. (h : Heading)
            → after_line (with_lists h self.old) (said_by item) ≡ after_list_line h self.new r) }
    {
        match item {
            Item::Extent(first, last) => {
                if !self.fetch.is_empty() || !self.store.is_empty() {
                    return Ok(ListLine::Refused(Cause::Form));
                }
                if last < first {
                    return Ok(ListLine::Refused(Cause::ExtentBackwards));
                }
                if last > LAST_CYLINDER {
                    return Ok(ListLine::Refused(Cause::ExtentPastDevice));
                }
                self.extents.push((first, last))?;
                Ok(ListLine::Taken)
            }
            Item::Fetch(area) => {
                if self.extents.is_empty() || !self.store.is_empty() {
                    return Ok(ListLine::Refused(Cause::Form));
                }
                self.fetch.push(area)?;
                Ok(ListLine::Taken)
            }
            Item::Store(area) => {
                if self.extents.is_empty() {
                    return Ok(ListLine::Refused(Cause::Form));
                }
                self.store.push(area)?;
                Ok(ListLine::Taken)
            }
            Item::Storage(size) => {
                if self.extents.is_empty() {
                    return Ok(ListLine::Refused(Cause::Form));
                }
                if size % 8 != 0 || size > STORAGE_LIMIT {
                    return Ok(ListLine::Refused(Cause::Size));
                }
                Ok(ListLine::Storage(size as usize))
            }
            _ => Ok(ListLine::Refused(Cause::Form)),
        }
    }
}

/// Reads the lists, and the number of bytes that the line of storage after them says.
pub(crate) fn read_lists(alloc: Global, cursor: &mut Cursor) -> Result<(Lists, usize), DeckError>
    ensures { (h : Heading) → LeadsOrFails (Listing h [] [] []) cursor.old result
        (λ x. Filling h x.0.extents.items x.0.fetch.items x.0.store.items x.1 []) cursor.new }
{
    let mut lists = Lists {
        extents: Vec::new(alloc),
        fetch: Vec::new(alloc),
        store: Vec::new(alloc),
    };
    loop {
        let item = cursor.next_item();
        match lists.take(item)? {
            ListLine::Taken => {}
            ListLine::Storage(size) => return Ok((lists, size)),
            ListLine::Refused(cause) => return Err(cursor.refused(item, cause)),
        }
    }
}
