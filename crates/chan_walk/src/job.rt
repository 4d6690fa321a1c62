//! What a supervisor asks about: a channel program and all that it may use.

ghost use Rattle.std.specs.Prelude.{◌≡◌};
ghost use Rattle.chan_walk.specs.Alarm.{IsProper};
ghost use Rattle.chan_walk.specs.Direction.{lent_for};

use crate::direction::Direction;
use crate::limit::Limit;
use ccw_core::{Area, Storage};
use ckd_core::{Device, Extents, FileMask};

/// A channel program before its start, and all that it may use.
#[derive(Clone, Copy, PartialEq, Eq)]
pub struct Job<'a> {
    /// Main storage from address 0 on, as it is.
    pub storage: Storage<'a>,
    /// The address of the first CCW.
    pub start: u32,
    /// The device that the program runs against.
    pub device: Device,
    /// The file mask that the supervisor set.
    pub mask: FileMask,
    /// The cylinders of the file.
    pub extents: &'a Extents,
    /// The areas lent for fetching, from storage to the device.
    pub fetch: &'a [Area],
    /// The areas lent for storing, from the device into storage.
    pub store: &'a [Area],
    /// How many places may be reachable, at most.
    pub limit: Limit,
}

impl Job<'_> {
    /// Tells the prover that the job is proper, as every job is: its extents are in order and on
    /// the device, and its mask is a file mask. It computes nothing that is used.
    pub fn show_proper(&self)
        ensures { IsProper self.now }
    {
        // For the checker alone: the contracts of these calls say so.
        let _extents = self.extents.pairs();
        let _mask = self.mask.byte();
    }

    /// The areas that it was lent for moving data one way.
    pub(crate) fn lent_for(&self, direction: Direction) -> &[Area]
        ensures { result.now ≡ lent_for direction self.now }
    {
        match direction {
            Direction::Store => self.store,
            Direction::Fetch => self.fetch,
        }
    }
}
