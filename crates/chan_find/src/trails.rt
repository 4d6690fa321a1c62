//! The places that starts have trails to.

ghost use Rattle.std.specs.Prelude.{◌≤◌, OnOk};
ghost use Rattle.chan_find.specs.Trails.{work_left};

use crate::mark_table::MarkTable;
use chan_walk::{Entry, Job, Look, Place, look_at};
use std::alloc::{AllocError, Global};

/// The first place of the program that starts at an address.
pub(crate) fn start_at(address: u32) -> Place {
    Place {
        address,
        entered: Entry::Fresh,
        after_transfer: true,
    }
}

/// Whether a place is plain: it has no own fault, and byte 5 of its CCW is zero unless it is a
/// transfer.
pub(crate) fn is_plain(look: &Look) -> bool {
    match look.ccw() {
        Some(ccw) => look.fault().is_none() && (ccw.is_transfer() || ccw.spare() == 0),
        None => false,
    }
}

/// The places that the starts taken so far have trails to.
#[derive(Drop)]
pub(crate) struct Covered {
    marks: MarkTable,
    /// The places from which it has yet to step on.
    pending: Vec<Place>,
}

impl Covered {
    /// No place yet.
    pub(crate) fn new(alloc: Global, job: &Job) -> Result<Covered, AllocError> {
        Ok(Covered {
            marks: MarkTable::new(alloc, job.storage.len())?,
            pending: Vec::new(alloc),
        })
    }

    /// Whether some start has a trail to the place.
    pub(crate) fn has(&self, place: Place) -> bool {
        self.marks.has(place)
    }

    /// Adds a place, unless it is there already or holds no CCW.
    fn add(&mut self, place: Option<Place>) -> Result<(), AllocError>
        ensures { OnOk result (work_left self.new ≤ work_left self.old) }
    {
        if let Some(place) = place {
            if self.marks.put(place) {
                self.pending.push(place)?;
            }
        }
        Ok(())
    }

    /// Adds the places to which a place steps.
    fn step_on(&mut self, job: &Job, place: Place) -> Result<(), AllocError>
        ensures { OnOk result (work_left self.new ≤ work_left self.old) }
    {
        let look = look_at(job, place);
        if is_plain(&look) {
            let next = look.next();
            self.add(next.next)?;
            self.add(next.skip)?;
            self.add(Some(start_at(place.address)))?;
        }
        Ok(())
    }

    /// Adds all places that a start has trails to. Each place is added once, so the loop ends.
    pub(crate) fn cover(&mut self, job: &Job, start: u32) -> Result<(), AllocError> {
        self.add(Some(start_at(start)))?;
        while let Some(place) = self.pending.pop() {
            self.step_on(job, place)?;
        }
        Ok(())
    }
}
