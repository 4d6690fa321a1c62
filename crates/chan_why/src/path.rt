//! Paths: how a program comes to a place.

ghost use Rattle.std.specs.Prelude.{◌<◌, ◌↔◌, ◌++◌, ◌∷◌, [], List, length, reverse, IfOk, IsTrue};
ghost use Rattle.chan_why.specs.SecondPath.{HasByteOf};
ghost use Rattle.chan_why.specs.Witness.{IsLastStore, IsStoredBefore, StoresAt};
ghost use Rattle.chan_walk.specs.Look.{IsLook, places_of_looks};
ghost use Rattle.chan_walk.specs.JobSurvey.{IsSurvey};
ghost use Rattle.chan_why.specs.Path.{IsPathAt};
ghost use Rattle.chan_walk.specs.declared.job.Job.{Job};
ghost use Rattle.chan_walk.specs.declared.place.Place as places;

use ccw_core::Area;
use chan_walk::{Direction, Look, Place, Survey, data_of};
use std::alloc::{AllocError, Global};

/// The path to a place, its end.
#[derive(Drop)]
pub(crate) struct Path {
    /// Its places, from the first place on.
    pub(crate) places: Vec<Place>,
    /// The last place before its end that stores one of the eight bytes from the end's address on.
    pub(crate) stored_by: Option<Place>,
}

/// The path to the place of an index, read backwards from it: each place was found from the one
/// before it.
pub(crate) fn path_at(alloc: Global, survey: &Survey, at: usize) -> Result<Path, AllocError>
    requires found { (j : Job) × IsSurvey j survey.now }
    requires within { at < length survey.now.looks }
    ensures path { IfOk result (λ path. (j : Job) → IsSurvey j survey.now
        → IsPathAt j (places_of_looks survey.now.looks) at path.places.items) }
    ensures stored { IfOk result (λ path. (j : Job) → IsSurvey j survey.now
        → IsStoredBefore j (reverse path.places.items) path.stored_by) }
{
    let (looks, found_from) = (survey.looks(), survey.found_from());
    let end = looks[at].place();
    let mut places = Vec::new(alloc);
    places.push(end)?;
    let mut stored_by = None;
    let mut from = at;
    while from > 0 {
        from = found_from[from] as usize;
        let look = &looks[from];
        stored_by = first_store(stored_by, look, end.address);
        places.push(look.place())?;
    }
    places.reverse();
    Ok(Path { places, stored_by })
}

/// The place that was found to store at an address, and else the one looked at, if it does.
fn first_store(found: Option<Place>, look: &Look, address: u32) -> Option<Place>
    ensures { (j : Job) → IsLook j look.now → (qs : List places.Place)
        → IsLastStore j address qs found
        → IsLastStore j address (qs ++ look.now.place ∷ []) result }
{
    match found {
        Some(place) => Some(place),
        None if stores_at(look, address) => Some(look.place()),
        None => None,
    }
}

/// Whether the CCW at a place stores one of the eight bytes from an address on.
fn stores_at(look: &Look, address: u32) -> bool
    ensures { (j : Job) → IsLook j look.now
        → IsTrue result ↔ StoresAt j address look.now.place }
{
    match look.ccw() {
        Some(ccw) => look.moves(Direction::Store) && has_byte_of(data_of(&ccw), address),
        None => false,
    }
}

/// Whether some data has a byte of the eight from an address on.
fn has_byte_of(range: Area, address: u32) -> bool
    ensures { IsTrue result ↔ HasByteOf range address }
{
    let end = u64::from(range.start) + u64::from(range.len);
    u64::from(range.start) < u64::from(address) + 8 && u64::from(address) < end
}
