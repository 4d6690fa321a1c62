//! Areas that seem exchanged: the bytes that aren't lent one way are all lent the other way.

use ccw_core::Area;
use chan_areas::Merged;
use chan_walk::{Job, Reason, Verdict};
use std::alloc::{AllocError, Global};

/// Whether a verdict says that bytes aren't lent for fetching, and the whole data range of its CCW
/// is lent for storing, or the other way round. Tests hold it. `AllocError` comes if a growth was
/// refused.
///
/// The cost is that of sorting the areas.
pub fn seems_exchanged(alloc: Global, job: &Job, verdict: Verdict) -> Result<bool, AllocError> {
    match verdict {
        Verdict::No { address, reason } => match reason {
            Reason::FetchNotLent => is_lent(alloc, job, job.store, address),
            Reason::StoreNotLent => is_lent(alloc, job, job.fetch, address),
            _ => Ok(false),
        },
        Verdict::Yes => Ok(false),
    }
}

/// Whether there is a CCW at an address, and each byte of its data range lies in some area.
fn is_lent(alloc: Global, job: &Job, areas: &[Area], address: u32) -> Result<bool, AllocError> {
    let Some(ccw) = job.storage.ccw_at(address) else {
        return Ok(false);
    };
    let lent = Merged::clipped(alloc, areas, job.storage.len())?;
    let data = Area {
        start: ccw.address(),
        len: u32::from(ccw.count()),
    };
    Ok(lent.first_outside(data).is_none())
}
