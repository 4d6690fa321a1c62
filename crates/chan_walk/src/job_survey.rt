//! What a survey of a job tells.

ghost use Rattle.std.specs.Prelude.{◌≡◌, ◌↔◌, map, IfOk};
ghost use Rattle.std.specs.List.Sorted.{IsStrictlyIncreasing};
ghost use Rattle.chan_walk.specs.Argument.{Has};
ghost use Rattle.chan_walk.specs.PlaceTable.{IsIndexOf};
ghost use Rattle.chan_walk.specs.Places.{AreDistinct, AreReachable, place_number};
ghost use Rattle.chan_walk.specs.Look.{AreLooks, Seen, places_of_looks};
ghost use Rattle.chan_walk.specs.Offence.{first_verdict};
ghost use Rattle.chan_walk.specs.JobSurvey.{IsSurvey};
ghost use Rattle.chan_walk.specs.declared.job.Job.{Job};

use crate::guard::Guard;
use crate::look::Look;
use crate::offence::Offence;
use crate::place::Place;
use crate::place_table::PlaceTable;
use crate::verdict::Verdict;
use std::alloc::AllocError;
use std::marker::Model;

/// The result of one walk over a job's reachable places: for each its look and the place that it
/// was found from, and then the guard and all offences.
#[derive(Drop)]
pub struct Survey {
    pub(crate) looks: Vec<Look>,
    pub(crate) found_from: Vec<u32>,
    pub(crate) table: PlaceTable,
    pub(crate) guard: Guard,
    pub(crate) offences: Vec<Offence>,
}

impl Model for Survey {
    ghost use Rattle.chan_walk.specs.JobSurvey.{Surveyed};
    ghost use Rattle.chan_walk.specs.Look.{places_of_looks};
    ghost use Rattle.chan_walk.specs.PlaceTable.{FindsPlaces};

    ghost Value = { Surveyed };

    ghost view = { λ s. record {
      looks = s.looks.items;
      found_from = s.found_from.items;
      guard = s.guard;
      offences = s.offences.items;
    } };

    ghost invariant = { λ s. FindsPlaces s.table (places_of_looks s.looks.items) };
}

impl Survey {
    /// The looks at the places, in the order in which the walk found them; the first is at the
    /// first place.
    pub fn looks(&self) -> &[Look]
        ensures { result.now ≡ self.now.looks }
    {
        self.looks.as_slice()
    }

    /// For each look the index of the one at the place that its place was found from; 0 for the
    /// first.
    pub fn found_from(&self) -> &[u32]
        ensures { result.now ≡ self.now.found_from }
    {
        self.found_from.as_slice()
    }

    /// The index of the look at a place; `None` if the place isn't reachable. It costs a few steps,
    /// however many places there are.
    pub fn index_of(&self, place: Place) -> Option<usize>
        ensures { IsIndexOf (places_of_looks self.now.looks) place result }
    {
        self.table.index_of(self.looks(), place)
    }

    /// The guard: the bytes that the program may not change while it runs.
    pub fn guard(&self) -> &Guard
        ensures { result.now ≡ self.now.guard }
    {
        &self.guard
    }

    /// Whether the program may run: yes if nothing offends, otherwise the address and the reason of
    /// the first offence.
    pub fn verdict(&self) -> Verdict
        ensures { result ≡ first_verdict self.now.offences }
    {
        match self.offences.first() {
            Some(offence) => Verdict::No {
                address: offence.place.address,
                reason: offence.reason,
            },
            None => Verdict::Yes,
        }
    }

    /// All offences: exactly the reachable places that offend, each with each of its reasons, in
    /// order of address, then of the reason's number, then of place.
    pub fn offences(&self) -> &[Offence]
        ensures { result.now ≡ self.now.offences }
    {
        self.offences.as_slice()
    }

    /// The looks at the places, in order of place, and all offences. It takes memory for the sort.
    pub fn into_parts(self) -> Result<(Vec<Look>, Vec<Offence>), AllocError>
        requires { (j : Job) × IsSurvey j self }
        ensures looks { (j : Job) → IsSurvey j self → IfOk result (λ r. AreLooks j r.0.items) }
        ensures places { (j : Job) → IsSurvey j self
            → IfOk result (λ r. AreReachable j (places_of_looks r.0.items)) }
        ensures offences { IfOk result (λ r. r.1.items ≡ self.offences) }
    {
        let Survey {
            looks,
            offences,
            ..
        } = self;
        Ok((in_order(looks)?, offences))
    }
}

/// The same looks, in order of place. The numbers of their places are sorted, because a look takes
/// ten times as much memory.
fn in_order(looks: Vec<Look>) -> Result<Vec<Look>, AllocError>
    requires { AreDistinct (places_of_looks looks.items) }
    ensures ordered { IfOk result
        (λ v. IsStrictlyIncreasing (map place_number (places_of_looks v.items))) }
    ensures same { IfOk result (λ v. (l : Seen) → Has v.items l ↔ Has looks.items l) }
{
    let mut looks = looks;
    looks.sort_by_cached_key(|look| look.place().number())?;
    Ok(looks)
}
