//! Places: a CCW together with the way in which it is entered.

ghost use Rattle.std.specs.Prelude.{◌≡◌, ◌<◌, ◌^◌};
ghost use Rattle.std.specs.Ordering.{nat_cmp};
ghost use Rattle.ccw_core.specs.Areas.{end_of};
ghost use Rattle.chan_walk.specs.Places.{place_number, way_of};
ghost use Rattle.chan_walk.specs.Place as place;

use crate::job::Job;
use ccw_core::{Area, Ccw};

/// How a CCW is entered.
#[derive(Clone, Copy, PartialEq, Eq, PartialOrd, Ord)]
pub enum Entry {
    /// A new operation begins.
    Fresh,
    /// A data chain goes on with an operation that stores.
    ChainIn,
    /// A data chain goes on with an operation that fetches.
    ChainOut,
    /// A data chain goes on with a search.
    ChainSearch,
}

impl Entry {
    /// A new operation begins, so that the command code counts.
    pub(crate) fn is_fresh(self) -> bool
        ensures { result ≡ place.is_fresh self }
    {
        matches!(self, Entry::Fresh)
    }
}

/// A CCW's address together with the way in which it is entered.
///
/// Places are ordered by address, then by entry in the order above, then by whether they were
/// reached by a transfer in channel.
#[derive(Clone, Copy, PartialEq, Eq, PartialOrd, Ord)]
pub struct Place {
    /// The address of the CCW.
    pub address: u32,
    /// How the CCW is entered.
    pub entered: Entry,
    /// Whether the place counts as reached by a transfer in channel.
    pub after_transfer: bool,
}

impl Place {
    /// A place entered without a transfer in channel.
    pub(crate) fn straight_to(address: u32, entered: Entry) -> Place
        ensures { result ≡ place.straight_to address entered }
    {
        Place {
            address,
            entered,
            after_transfer: false,
        }
    }

    /// A place entered by a transfer in channel.
    pub(crate) fn transferred_to(address: u32, entered: Entry) -> Place
        ensures { result ≡ place.transferred_to address entered }
    {
        Place {
            address,
            entered,
            after_transfer: true,
        }
    }

    /// The way in which it is entered, 0 to 7: twice the entry's number in the order of `Entry`,
    /// counted from 0, and 1 more if it counts as reached by a transfer in channel.
    pub fn way(self) -> u32
        ensures value { result ≡ way_of self }
        ensures small { result < 8 }
    {
        let entry = match self.entered {
            Entry::Fresh => 0,
            Entry::ChainIn => 1,
            Entry::ChainOut => 2,
            Entry::ChainSearch => 3,
        };
        2 * entry + u32::from(self.after_transfer)
    }

    /// The number by which places are in order.
    pub fn number(self) -> u64
        ensures { result ≡ place_number self }
    {
        8 * u64::from(self.address) + u64::from(self.way())
    }
}

/// The first place of a program: its start, entered fresh. It counts as reached by a transfer in
/// channel, so that a supervisor may put commands of its own and a transfer before it.
pub fn first_place(job: &Job) -> Place
    ensures { result ≡ place.first_place job.now }
{
    Place::transferred_to(job.start, Entry::Fresh)
}

/// The data range of a CCW.
pub fn data_of(ccw: &Ccw) -> Area
    ensures range { result ≡ place.data_of ccw.now }
    ensures low { end_of result < 2 ^ 32 }
{
    Area {
        start: ccw.address(),
        len: u32::from(ccw.count()),
    }
}

/// A law, like those of `laws`: the derived order of places is that of their numbers, which is by
/// address, then by entry, then by whether they were reached by a transfer in channel.
pub(crate) fn order_is_by_number()
    ensures { (p q : Place) → ⟦<Place as Ord>⟧.cmp p q ≡ nat_cmp (place_number p) (place_number q) }
{}
