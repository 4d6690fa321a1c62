//! The lines before the lists of a deck.

ghost use Rattle.std.specs.Prelude.{◌≡◌, []};
ghost use Rattle.chan_deck.specs.Item.{said_by};
ghost use Rattle.chan_deck.specs.Reading.{LeadsOrFails, Listing, Opening, begun_state, headed};
ghost use Rattle.chan_deck.specs.Reading.{after_line};

use crate::cause::Cause;
use crate::deck_error::DeckError;
use crate::item::Item;
use crate::lines::Cursor;
use crate::version::{Version, VersionNumber};
use chan_walk::Limit;
use ckd_core::{Device, FileMask};

/// What the lines before the lists say.
#[derive(Clone, Copy)]
pub(crate) struct Heading {
    pub(crate) version: Version,
    pub(crate) device: Device,
    pub(crate) mask: FileMask,
    pub(crate) start: u32,
}

/// What has been said before the heading is whole.
#[derive(Clone, Copy)]
enum Begun {
    Opening,
    Named(VersionNumber),
    OnDevice(VersionNumber, Device),
    Masked(VersionNumber, Device, FileMask),
    /// In version 2: the limit comes next.
    Started(Device, FileMask, u32),
}

/// What came of a line of the heading.
#[derive(Clone, Copy)]
enum HeadingLine {
    Taken(Begun),
    Whole(Heading),
    Refused(Cause),
}

impl Begun {
    /// Takes what a line says.
    fn take(self, item: Item) -> HeadingLine
        ensures { after_line (begun_state self) (said_by item) ≡ headed result }
    {
        match self {
            Begun::Opening => match item {
                Item::Header(number) => HeadingLine::Taken(Begun::Named(number)),
                _ => HeadingLine::Refused(Cause::Header),
            },
            Begun::Named(number) => match item {
                Item::Device(device) => HeadingLine::Taken(Begun::OnDevice(number, device)),
                _ => HeadingLine::Refused(Cause::Form),
            },
            Begun::OnDevice(number, device) => match item {
                Item::Mask(byte) => match FileMask::new(byte) {
                    Some(mask) => HeadingLine::Taken(Begun::Masked(number, device, mask)),
                    None => HeadingLine::Refused(Cause::Mask),
                },
                _ => HeadingLine::Refused(Cause::Form),
            },
            Begun::Masked(number, device, mask) => match item {
                Item::Start(start) => match number {
                    VersionNumber::One => HeadingLine::Whole(Heading {
                        version: Version::One,
                        device,
                        mask,
                        start,
                    }),
                    VersionNumber::Two => HeadingLine::Taken(Begun::Started(device, mask, start)),
                },
                _ => HeadingLine::Refused(Cause::Form),
            },
            Begun::Started(device, mask, start) => match item {
                Item::Limit(places) => match Limit::new(places) {
                    Some(limit) => HeadingLine::Whole(Heading {
                        version: Version::Two(limit),
                        device,
                        mask,
                        start,
                    }),
                    None => HeadingLine::Refused(Cause::Limit),
                },
                _ => HeadingLine::Refused(Cause::Form),
            },
        }
    }
}

/// Reads the lines from the header to the start, and in version 2 the limit.
pub(crate) fn read_heading(cursor: &mut Cursor) -> Result<Heading, DeckError>
    ensures { LeadsOrFails Opening cursor.old result (λ h. Listing h [] [] []) cursor.new }
{
    let mut begun = Begun::Opening;
    loop {
        let item = cursor.next_item();
        match begun.take(item) {
            HeadingLine::Taken(more) => begun = more,
            HeadingLine::Whole(heading) => return Ok(heading),
            HeadingLine::Refused(cause) => return Err(cursor.refused(item, cause)),
        }
    }
}
