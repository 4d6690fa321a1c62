//! A CCW at a place, with the command that begins there: the command table is asked for it once.
#![tactic(auto, using(crate::proofs::Algorithms::Visiting::begun_tells))]

ghost use Rattle.std.specs.Prelude.{◌≡◌, option_map};
ghost use Rattle.ckd_core.specs.Entries.{entry_of};
ghost use Rattle.ckd_core.specs.Command as table;
ghost use Rattle.chan_walk.specs.Direction.{direction_of};
ghost use Rattle.chan_walk.specs.Fault as fault;
ghost use Rattle.chan_walk.specs.Visit.{IsBegun, begun, kind_by};

use crate::bits::skips;
use crate::direction::Direction;
use crate::place::{Entry, Place};
use ccw_core::Ccw;
use ckd_core::{Command, Kind, MaskClass, lookup};

/// A CCW at a place, the command that begins there, and the kind of its operation.
#[derive(Clone, Copy)]
pub(crate) struct Visit {
    pub(crate) place: Place,
    pub(crate) ccw: Ccw,
    /// `None` under data chaining, and where the table has no such code.
    pub(crate) command: Option<Command>,
    pub(crate) kind: Kind,
}

impl Visit {
    /// Visits a place whose CCW is `ccw`.
    pub(crate) fn new(place: Place, ccw: Ccw) -> Visit
        ensures place { result.place ≡ place }
        ensures ccw { result.ccw ≡ ccw }
        ensures begun { IsBegun result }
    {
        let command = begun_command(place, &ccw);
        Visit {
            place,
            ccw,
            command,
            kind: kind_of(place.entered, command),
        }
    }

    /// One of the three seeks begins there.
    pub(crate) fn begins_seek(&self) -> bool
        requires { IsBegun self.now }
        ensures { result ≡ fault.begins_seek self.now.place self.now.ccw }
    {
        match self.command {
            Some(command) => is_seek_class(command.class()),
            None => false,
        }
    }

    /// Recalibrate begins there.
    pub(crate) fn begins_recalibrate(&self) -> bool
        requires { IsBegun self.now }
        ensures { result ≡ fault.begins_recalibrate self.now.place self.now.ccw }
    {
        match self.command {
            Some(command) => is_recalibrate_class(command.class()),
            None => false,
        }
    }

    /// Set File Mask begins there.
    pub(crate) fn begins_set_mask(&self) -> bool
        requires { IsBegun self.now }
        ensures { result ≡ fault.begins_set_mask self.now.place self.now.ccw }
    {
        match self.command {
            Some(command) => is_set_mask_class(command.class()),
            None => false,
        }
    }

    /// Which way the CCW moves data there, if it does.
    pub(crate) fn direction(&self) -> Option<Direction>
        requires { IsBegun self.now }
        ensures { result ≡ direction_of self.now.place self.now.ccw }
    {
        if self.ccw.is_transfer() {
            return None;
        }
        match self.kind {
            Kind::Inward if !skips(&self.ccw) => Some(Direction::Store),
            Kind::Outward | Kind::Search => Some(Direction::Fetch),
            _ => None,
        }
    }
}

/// The command of the table that begins at a place whose CCW is `ccw`.
pub(crate) fn begun_command(place: Place, ccw: &Ccw) -> Option<Command>
    ensures { option_map entry_of result ≡ begun place ccw.now }
{
    if place.entered.is_fresh() {
        lookup(ccw.command())
    } else {
        None
    }
}

/// The kind of an operation: its command's where it begins, and else that of the operation that
/// goes on. A code of no command moves nothing.
fn kind_of(entered: Entry, command: Option<Command>) -> Kind
    ensures { result ≡ kind_by entered (option_map entry_of command) }
{
    match entered {
        Entry::Fresh => match command {
            Some(command) => command.kind(),
            None => Kind::Idle,
        },
        Entry::ChainIn => Kind::Inward,
        Entry::ChainOut => Kind::Outward,
        Entry::ChainSearch => Kind::Search,
    }
}

fn is_seek_class(class: MaskClass) -> bool
    ensures { result ≡ table.class_is_seek class }
{
    matches!(
        class,
        MaskClass::Seek | MaskClass::SeekCylinder | MaskClass::SeekHead
    )
}

fn is_recalibrate_class(class: MaskClass) -> bool
    ensures { result ≡ table.class_recalibrates class }
{
    matches!(class, MaskClass::Recalibrate)
}

fn is_set_mask_class(class: MaskClass) -> bool
    ensures { result ≡ table.class_sets_mask class }
{
    matches!(class, MaskClass::SetMask)
}
