//! A flat table of marks: for each doubleword of storage the ways in which its CCW is entered.

ghost use Rattle.std.specs.Prelude.{◌≡◌, ◌<◌, length, IfSome};
ghost use Rattle.std.specs.Bool.{MatchBool};
ghost use Rattle.chan_find.specs.Trails.{room_left};

use chan_walk::Place;
use std::alloc::{AllocError, Global};

/// A set of places with CCWs: a byte for each doubleword of storage, with a bit for each way of
/// entry.
#[derive(Drop)]
pub(crate) struct MarkTable {
    bytes: Vec<u8>,
}

impl MarkTable {
    /// The empty set, for storage of this length.
    pub(crate) fn new(alloc: Global, storage_len: u32) -> Result<MarkTable, AllocError> {
        let mut bytes = Vec::new(alloc);
        bytes.resize((storage_len / 8) as usize, 0)?;
        Ok(MarkTable { bytes })
    }

    /// The index of a place's byte, if there is a CCW.
    fn index_of(&self, place: Place) -> Option<usize>
        ensures { IfSome result (λ at. at < length self.now.bytes.items) }
    {
        if place.address % 8 != 0 {
            return None;
        }
        let at = (place.address / 8) as usize;
        if at < self.bytes.len() {
            Some(at)
        } else {
            None
        }
    }

    /// Whether a place is marked.
    pub(crate) fn has(&self, place: Place) -> bool {
        match self.index_of(place) {
            Some(at) => (self.bytes[at] >> place.way()) & 1 == 1,
            None => false,
        }
    }

    /// Marks a place, unless it is marked already or holds no CCW, and says whether it did.
    pub(crate) fn put(&mut self, place: Place) -> bool
        ensures { MatchBool result
            (room_left self.new.bytes.items < room_left self.old.bytes.items)
            (self.new.bytes.items ≡ self.old.bytes.items) }
    {
        let Some(at) = self.index_of(place) else {
            return false;
        };
        let (bits, way) = (self.bytes[at], place.way());
        if (bits >> way) & 1 == 1 {
            return false;
        }
        self.bytes[at] = bits | (1 << way);
        true
    }
}
