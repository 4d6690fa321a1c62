//! Where a program goes on after a place.

ghost use Rattle.std.specs.Prelude.{◌≡◌, ◌<◌, ◌^◌, None};
ghost use Rattle.chan_walk.specs.Fault.{kind_of as kind};
ghost use Rattle.chan_walk.specs.Successor as chain;
ghost use Rattle.chan_walk.specs.Successor.{next_of, skip_of};
ghost use Rattle.chan_walk.specs.Visit.{IsBegun};

use crate::place::{Entry, Place};
use crate::visit::Visit;
use ckd_core::Kind;

/// The places after a place.
#[derive(Clone, Copy, PartialEq, Eq)]
pub struct Next {
    /// The place that is next, by a transfer in channel or by data or command chaining.
    pub next: Option<Place>,
    /// The place that is skipped to, after a search that ended with status modifier.
    pub skip: Option<Place>,
}

impl Next {
    /// The program ends there.
    pub(crate) fn nowhere() -> Next
        ensures next { result.next ≡ None }
        ensures skip { result.skip ≡ None }
    {
        Next {
            next: None,
            skip: None,
        }
    }
}

/// Where a program goes on after a place that has no own fault.
pub(crate) fn next_after(visit: &Visit) -> Next
    requires begun { IsBegun visit.now }
    requires low { visit.now.place.address < 2 ^ 25 }
    ensures next { result.next ≡ next_of visit.now.place visit.now.ccw
        (kind visit.now.place.entered visit.now.ccw) }
    ensures skip { result.skip ≡ skip_of visit.now.place visit.now.ccw
        (kind visit.now.place.entered visit.now.ccw) }
{
    let Visit {
        place,
        ccw,
        kind,
        ..
    } = *visit;
    if ccw.is_transfer() {
        return Next {
            next: Some(Place::transferred_to(ccw.address(), place.entered)),
            skip: None,
        };
    }
    if ccw.chains_data() {
        return Next {
            next: chained(kind).map(|entered| Place::straight_to(place.address + 8, entered)),
            skip: None,
        };
    }
    if !ccw.chains_command() {
        return Next::nowhere();
    }
    Next {
        next: Some(Place::straight_to(place.address + 8, Entry::Fresh)),
        skip: gives_modifier(kind).then_some(Place::straight_to(place.address + 16, Entry::Fresh)),
    }
}

/// How data chaining enters the next CCW; an operation that moves no data never goes on by it.
fn chained(kind: Kind) -> Option<Entry>
    ensures { result ≡ chain.chained kind }
{
    match kind {
        Kind::Idle => None,
        Kind::Inward => Some(Entry::ChainIn),
        Kind::Outward => Some(Entry::ChainOut),
        Kind::Search => Some(Entry::ChainSearch),
    }
}

/// A command of the kind may end with status modifier.
fn gives_modifier(kind: Kind) -> bool
    ensures { result ≡ chain.gives_modifier kind }
{
    matches!(kind, Kind::Search)
}
