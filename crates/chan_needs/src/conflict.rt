//! Whether two programs may run side by side, by the lists of what they need and keep.

ghost use Rattle.std.specs.Prelude.{◌≡◌, MatchOption, false};
ghost use Rattle.chan_needs.specs.LeastBytes.{LieApart};
ghost use Rattle.chan_areas.specs.Merged.{IsLeastOrNone};
ghost use Rattle.chan_needs.specs.Listed.{IsKeptIn, IsConflict, AreNeedsCompatible, listed_in};
ghost use Rattle.chan_needs.specs.Row.{in_row};

use crate::layout::{NeedLists, Row};
use crate::least_bytes::{least_in_either, least_shared_by_either, reaches};
use ccw_core::Area;

/// Why a program may not run beside a row of the table.
#[derive(Clone, Copy, PartialEq, Eq, Debug)]
pub enum Conflict {
    /// The program stores into the byte at this address, which the row keeps: the least byte of
    /// this kind.
    Stores(u32),
    /// The program keeps the byte at this address, and the row stores into it: the least byte of
    /// this kind. The program stores into no byte that the row keeps.
    Keeps(u32),
}

impl NeedLists<'_> {
    /// Why a program may not run beside a row: `None` exactly if neither stores into a byte that
    /// the other keeps, by their lists. The lists may come from anywhere.
    ///
    /// The call takes one pass over both programs' lists if they are merged, like those of `Needs`,
    /// and otherwise the product of their lengths. It takes no memory.
    pub fn conflict(&self, row: &Row) -> Option<Conflict>
        ensures { MatchOption result
            (AreNeedsCompatible (listed_in self.now) (listed_in (in_row row.now).needs))
            (IsConflict (listed_in self.now) (listed_in (in_row row.now).needs)) }
    {
        let other = &row.program.needs;
        if let Some(byte) = least_shared_by_either(self.store(), row.keeps, other.keep()) {
            return Some(Conflict::Stores(byte));
        }
        let byte = least_shared_by_either(self.keep(), row.stores, other.store())?;
        Some(Conflict::Keeps(byte))
    }
}

impl Row<'_> {
    /// Whether the row may be in conflict with a program that stores only into one range of bytes,
    /// and keeps only bytes of another. Most rows are told apart by this alone.
    pub(crate) fn is_near(&self, stores: (u64, u64), keeps: (u64, u64)) -> bool
        ensures { result ≡ false → LieApart (in_row self.now).needs.keep.now stores
            × LieApart (in_row self.now).needs.store.now keeps }
    {
        self.stores.len != 0
            || self.keeps.len != 0
            || reaches(self.program.needs.keep(), stores)
            || reaches(self.program.needs.store(), keeps)
    }

    /// The least byte of an area that the row keeps, if there is one. The lists may come from
    /// anywhere. The call takes one pass over the kept areas, and no memory.
    pub fn kept_in(&self, area: Area) -> Option<u32>
        ensures { IsLeastOrNone (IsKeptIn (listed_in (in_row self.now).needs) area) result }
    {
        least_in_either(self.keeps, self.program.needs.keep(), area)
    }
}
