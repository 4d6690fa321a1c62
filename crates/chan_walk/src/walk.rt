//! Exploring: from the first place on to the successors of each place found.

ghost use Rattle.std.specs.Prelude.{◌≡◌, ◌<◌, ◌≤◌, ◌+◌, ◌^◌, length, IfOk, OnOk, Some};
ghost use Rattle.chan_walk.specs.Places.{AreReachable, HasMoreThan};
ghost use Rattle.chan_walk.specs.Lent.{AreLent};
ghost use Rattle.chan_walk.specs.Look.{AreLooks, places_of_looks};
ghost use Rattle.chan_walk.specs.PlaceTable.{FindsPlaces};
ghost use Rattle.chan_walk.specs.Walk.{AddsPlace, HasFound, IsTraced, IsWalked};
ghost use Rattle.chan_walk.specs.Walk.{HasNoRoomFor};

use crate::job::Job;
use crate::lent::{Lending, Lent};
use crate::look::{Look, look_by};
use crate::marks::marks_of_looks;
use crate::place::{Place, first_place};
use crate::place_table::PlaceTable;
use crate::places::Explored;
use crate::walk_error::WalkError;
use std::alloc::Global;

/// How many places a walk has room for at first.
const ROOM: usize = 64;

/// What is seen of the places found, in the order in which they were.
#[derive(Drop)]
pub(crate) struct Walk {
    /// A look at each place.
    pub(crate) looks: Vec<Look>,
    /// For each place the index of the one that it was found from; of the first place 0.
    pub(crate) found_from: Vec<u32>,
    /// Where each place is among them.
    pub(crate) table: PlaceTable,
}

impl Walk {
    /// Looks at a place, which was found from the one of the index `from`, and adds it, unless it
    /// is found already.
    fn add(&mut self, job: &Job, lent: &Lent, place: Place, from: u32) -> Result<(), WalkError>
        requires lent { AreLent job.now lent.now }
        requires looks { AreLooks job.now self.old.looks.items }
        requires finds { FindsPlaces self.old.table (places_of_looks self.old.looks.items) }
        ensures ok { OnOk result (AddsPlace job.now.limit (Some place) from
            (places_of_looks self.old.looks.items) (places_of_looks self.new.looks.items)
            self.old.found_from.items self.new.found_from.items) }
        ensures looks { OnOk result (AreLooks job.now self.new.looks.items) }
        ensures finds { OnOk result
            (FindsPlaces self.new.table (places_of_looks self.new.looks.items)) }
        ensures many { result ≡ Err WalkError.TooManyPlaces
            → HasNoRoomFor job.now.limit (Some place) (places_of_looks self.old.looks.items) }
    {
        if let Err(compared) = self.table.search(self.looks.as_slice(), place) {
            if self.looks.len() >= job.limit.get() as usize {
                return Err(WalkError::TooManyPlaces);
            }
            self.table.push(self.looks.as_slice(), place, compared)?;
            self.looks.push(look_by(job, Lending::Merged(lent), place))?;
            self.found_from.push(from)?;
        }
        Ok(())
    }

    /// Adds a place as `add` does, if there is one. It is inlined, because a place mostly has only
    /// one successor, and no call is made for the other.
    #[inline(always)]
    fn add_if_any(
        &mut self,
        job: &Job,
        lent: &Lent,
        place: Option<Place>,
        from: u32,
    ) -> Result<(), WalkError>
        requires lent { AreLent job.now lent.now }
        requires looks { AreLooks job.now self.old.looks.items }
        requires finds { FindsPlaces self.old.table (places_of_looks self.old.looks.items) }
        ensures ok { OnOk result (AddsPlace job.now.limit place from
            (places_of_looks self.old.looks.items) (places_of_looks self.new.looks.items)
            self.old.found_from.items self.new.found_from.items) }
        ensures looks { OnOk result (AreLooks job.now self.new.looks.items) }
        ensures finds { OnOk result
            (FindsPlaces self.new.table (places_of_looks self.new.looks.items)) }
        ensures many { result ≡ Err WalkError.TooManyPlaces
            → HasNoRoomFor job.now.limit place (places_of_looks self.old.looks.items) }
    {
        match place {
            Some(place) => self.add(job, lent, place, from),
            None => Ok(()),
        }
    }

    /// Adds the successors of the place of this index. It is inlined into the only loop that calls
    /// it.
    #[inline(always)]
    fn add_successors(&mut self, job: &Job, lent: &Lent, at: usize) -> Result<(), WalkError>
        requires lent { AreLent job.now lent.now }
        requires looks { AreLooks job.now self.old.looks.items }
        requires finds { FindsPlaces self.old.table (places_of_looks self.old.looks.items) }
        requires walked { IsWalked job.now job.now.limit (places_of_looks self.old.looks.items) at }
        requires traced { IsTraced job.now (places_of_looks self.old.looks.items)
            self.old.found_from.items at at }
        requires within { at < length self.old.looks.items }
        requires small { at < 2 ^ 32 }
        ensures ok { OnOk result (IsWalked job.now job.now.limit
            (places_of_looks self.new.looks.items) (at + 1)) }
        ensures traced { OnOk result (IsTraced job.now (places_of_looks self.new.looks.items)
            self.new.found_from.items (at + 1) (at + 1)) }
        ensures looks { OnOk result (AreLooks job.now self.new.looks.items) }
        ensures finds { OnOk result
            (FindsPlaces self.new.table (places_of_looks self.new.looks.items)) }
        ensures many { result ≡ Err WalkError.TooManyPlaces → HasMoreThan job.now job.now.limit }
    {
        let next = self.looks[at].next();
        let from = at as u32;
        self.add_if_any(job, lent, next.next, from)?;
        self.add_if_any(job, lent, next.skip, from)?;
        Ok(())
    }
}

/// The reachable places: the first place, and each successor of one of them, in storage as it is
/// before the program's start.
///
/// `TooManyPlaces` comes exactly if there are more than the job's limit, and no growth was refused,
/// even if one of the places has a fault. `Memory` comes if a growth was refused.
///
/// Each place is looked at once. With n places and a lent areas, the cost is (n + a) log (n + a).
pub fn explore(alloc: Global, job: &Job) -> Result<Explored, WalkError>
    ensures ok { IfOk result (AreReachable job.now) }
    ensures few { IfOk result (λ places. length places ≤ job.now.limit) }
    ensures many { result ≡ Err WalkError.TooManyPlaces → HasMoreThan job.now job.now.limit }
{
    let walk = walk_all(alloc, job)?;
    let marks = marks_of_looks(alloc, walk.looks.as_slice())?;
    Explored::from_marks(alloc, marks)
}

/// The walk over all reachable places, each of which is looked at once.
pub(crate) fn walk_all(alloc: Global, job: &Job) -> Result<Walk, WalkError>
    ensures found { IfOk result (λ w. HasFound job.now w.looks.items w.found_from.items) }
    ensures finds { IfOk result (λ w. FindsPlaces w.table (places_of_looks w.looks.items)) }
    ensures many { result ≡ Err WalkError.TooManyPlaces → HasMoreThan job.now job.now.limit }
{
    // For the checker alone: `get` says that the limit is small, so that an index fits.
    let _limit = job.limit.get();
    let lent = Lent::new(alloc, job)?;
    let mut walk = Walk {
        looks: Vec::with_capacity(alloc, ROOM)?,
        found_from: Vec::with_capacity(alloc, ROOM)?,
        table: PlaceTable::new(alloc),
    };
    walk.add(job, &lent, first_place(job), 0)?;
    let mut at = 0;
    while at < walk.looks.len() {
        walk.add_successors(job, &lent, at)?;
        at += 1;
    }
    Ok(walk)
}
