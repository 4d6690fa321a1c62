//! The areas lent to a program, kept so that a range is looked up by binary search.

ghost use Rattle.std.specs.Prelude.{◌≡◌, ◌≤◌, ◌^◌, length, IfOk};
ghost use Rattle.ccw_core.specs.Areas.{IsGap, end_of};
ghost use Rattle.chan_areas.specs.Merged.{EndsBelow};
ghost use Rattle.chan_walk.specs.Direction.{lent_for};
ghost use Rattle.chan_walk.specs.Job.{storage_of};
ghost use Rattle.chan_walk.specs.Lending.{Lends};
ghost use Rattle.chan_walk.specs.Lent.{AreLent, areas_for};

use crate::direction::Direction;
use crate::job::Job;
use ccw_core::{Area, gap_among};
use chan_areas::Merged;
use std::alloc::{AllocError, Global};
use std::marker::Model;

/// The parts of the areas lent that lie in storage, merged. Bytes past storage never matter, since
/// no data range that passes the channel's checks has any.
#[derive(Drop)]
pub struct Lent {
    fetch: Merged,
    store: Merged,
}

impl Model for Lent {
    ghost use Rattle.chan_walk.specs.Lent.{LentAreas};

    ghost Value = { LentAreas };

    ghost view = { λ l. record { fetch = l.fetch; store = l.store } };
}

impl Lent {
    /// The areas lent to a job. The cost is that of sorting them.
    pub fn new(alloc: Global, job: &Job) -> Result<Lent, AllocError>
        ensures { IfOk result (AreLent job.now) }
    {
        let length = job.storage.len();
        let fetch = Merged::clipped(alloc, job.fetch, length)?;
        let store = Merged::clipped(alloc, job.store, length)?;
        Ok(Lent { fetch, store })
    }

    /// The areas lent for moving data one way.
    fn areas_for(&self, direction: Direction) -> &Merged
        ensures { result.now ≡ areas_for direction self.now }
    {
        match direction {
            Direction::Store => &self.store,
            Direction::Fetch => &self.fetch,
        }
    }

    /// The first bytes in a row of a range that weren't lent for moving data one way, if there are
    /// any. The cost is that of a binary search, and of another one if there are.
    fn gap(&self, direction: Direction, range: Area) -> Option<Area>
        requires { EndsBelow (2 ^ 32) range }
        ensures { IsGap (areas_for direction self.now) range result }
    {
        self.areas_for(direction).gap(range)
    }
}

/// How the areas lent to a job are searched.
#[derive(Clone, Copy)]
pub(crate) enum Lending<'a> {
    /// As they were given: each range goes through them.
    Given,
    /// Merged: a range is looked up by binary search.
    Merged(&'a Lent),
}

impl Lending<'_> {
    /// The first bytes in a row of a range of storage that weren't lent for moving data one way, if
    /// there are any.
    pub(crate) fn gap(self, job: &Job, direction: Direction, range: Area) -> Option<Area>
        requires lends { Lends job.now self }
        requires inside { end_of range ≤ length (storage_of job.now) }
        ensures { IsGap (lent_for direction job.now) range result }
    {
        match self {
            Lending::Given => gap_among(job.lent_for(direction), range),
            Lending::Merged(lent) => lent.gap(direction, range),
        }
    }
}
