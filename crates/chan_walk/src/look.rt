//! One look at a place: all that judging asks of it, in the initial storage.

ghost use Rattle.std.specs.Prelude.{◌≡◌, None, Some, option_map};
ghost use Rattle.ccw_core.specs.Storage.{ccw_at as ccw_in};
ghost use Rattle.ckd_core.specs.Entries.{entry_of};
ghost use Rattle.chan_walk.specs.Direction.{is_direction};
ghost use Rattle.chan_walk.specs.Fault.{HasFault};
ghost use Rattle.chan_walk.specs.Job.{storage_of};
ghost use Rattle.chan_walk.specs.Lending.{Lends};
ghost use Rattle.chan_walk.specs.Lent.{AreLent};
ghost use Rattle.chan_walk.specs.Look.{IsLook, argument_seen};
ghost use Rattle.chan_walk.specs.Successor.{AreSuccessors};

use crate::argument::{Operand, read_operand};
use crate::direction::Direction;
use crate::evidence::Evidence;
use crate::fault::{fault_without_ccw, own_fault};
use crate::job::Job;
use crate::lent::{Lending, Lent};
use crate::place::Place;
use crate::reason::Reason;
use crate::successor::{Next, next_after};
use crate::visit::{Visit, begun_command};
use ccw_core::Ccw;
use ckd_core::Command;
use std::marker::Model;

/// What is found of a place: its own fault, or how it goes on if it has none.
#[derive(Clone, Copy)]
enum Finding {
    Faulty(Evidence),
    Clear { next: Next, operand: Operand },
}

/// A place as it is seen at one look, in the initial storage.
#[derive(Drop)]
pub struct Look {
    place: Place,
    ccw: Option<Ccw>,
    direction: Option<Direction>,
    finding: Finding,
}

impl Model for Look {
    ghost use Rattle.chan_walk.specs.Look.{Seen, fault_in, next_in, operand_in};
    ghost use Rattle.chan_walk.specs.Visit.{begun_at};

    ghost Value = { Seen };

    ghost view = { λ l. record {
      place = l.place;
      ccw = l.ccw;
      command = begun_at l.place l.ccw;
      direction = l.direction;
      fault = fault_in l.finding;
      next = next_in l.finding;
      operand = operand_in l.finding;
    } };
}

impl Look {
    /// The place that was looked at.
    pub fn place(&self) -> Place
        ensures { result ≡ self.now.place }
    {
        self.place
    }

    /// The CCW there; `None` if the address isn't a multiple of 8 or leaves storage.
    pub fn ccw(&self) -> Option<Ccw>
        ensures { result ≡ self.now.ccw }
    {
        self.ccw
    }

    /// The command that begins there, as the table has it; `None` under data chaining, and if the
    /// table has no such code.
    pub fn command(&self) -> Option<Command>
        ensures { option_map entry_of result ≡ self.now.command }
    {
        begun_command(self.place, &self.ccw?)
    }

    /// Whether the CCW there moves data this way: into storage unless it skips, or out of it. A
    /// transfer moves none, nor does a place without a CCW.
    pub fn moves(&self, direction: Direction) -> bool
        ensures { result ≡ is_direction direction self.now.direction }
    {
        self.direction == Some(direction)
    }

    /// The place's own fault, as its evidence: the first of the reasons 1 to 13 and 16 that applies
    /// here, with its values. `None` if none does; then the place can still offend by a store over
    /// guarded bytes, which `Survey::offences` tells.
    pub fn fault(&self) -> Option<Evidence>
        ensures { result ≡ self.now.fault }
    {
        match self.finding {
            Finding::Faulty(evidence) => Some(evidence),
            Finding::Clear { .. } => None,
        }
    }

    /// The places that can come after this one, at most two: the next, and the one that a search
    /// skips to. None if the place has an own fault, or if the program ends here.
    pub fn next(&self) -> Next
        ensures { result ≡ self.now.next }
    {
        match self.finding {
            Finding::Faulty(_) => Next::nowhere(),
            Finding::Clear { next, .. } => next,
        }
    }

    /// What was read of the argument of the seek or Set File Mask that begins here. Nothing for
    /// other commands, and if the place has an own fault.
    pub fn operand(&self) -> Operand
        ensures { result ≡ self.now.operand }
    {
        match self.finding {
            Finding::Faulty(_) => Operand::Nothing,
            Finding::Clear { operand, .. } => operand,
        }
    }

    /// The addresses of the bytes that are guarded because the seek or Set File Mask that begins
    /// here takes them as its argument, in the order in which it takes them.
    pub fn argument(&self) -> &[u32]
        ensures { result.now ≡ argument_seen self.now }
    {
        match &self.finding {
            Finding::Faulty(_) => &[],
            Finding::Clear { operand, .. } => operand.addresses(),
        }
    }
}

/// What is seen of a place without a CCW.
fn look_at_nothing(job: &Job, place: Place) -> Look
    requires { ccw_in (storage_of job.now) place.address ≡ None }
    ensures place { result.place ≡ place }
    ensures look { IsLook job.now result }
{
    Look {
        place,
        ccw: None,
        direction: None,
        finding: Finding::Faulty(fault_without_ccw(job, place)),
    }
}

/// What is seen of a place with a CCW.
fn look_at_ccw(job: &Job, lending: Lending, place: Place, ccw: Ccw) -> Look
    requires stands { ccw_in (storage_of job.now) place.address ≡ Some ccw }
    requires lends { Lends job.now lending }
    ensures place { result.place ≡ place }
    ensures look { IsLook job.now result }
{
    let visit = Visit::new(place, ccw);
    // For the checker alone: it asks for the type of what a visit holds.
    let _command = visit.command;
    let operand = read_operand(&job.storage, &visit);
    let finding = match own_fault(job, lending, &visit, operand) {
        Some(evidence) => Finding::Faulty(evidence),
        None => Finding::Clear {
            next: next_after(&visit),
            operand,
        },
    };
    Look {
        place,
        ccw: Some(ccw),
        direction: visit.direction(),
        finding,
    }
}

/// Looks at a place, which may be any, reached or not.
///
/// It takes no memory. The cost is that of `covers` over the areas lent, at most the square of
/// their number, so `look_among` is for areas that a user gave.
pub fn look_at(job: &Job, place: Place) -> Look
    ensures place { result.place ≡ place }
    ensures look { IsLook job.now result }
{
    look_by(job, Lending::Given, place)
}

/// Looks at a place, which may be any, among the areas lent to the job. It takes no memory. The
/// cost is that of a binary search, so it serves for many places.
pub fn look_among(job: &Job, lent: &Lent, place: Place) -> Look
    requires { AreLent job.now lent.now }
    ensures place { result.place ≡ place }
    ensures look { IsLook job.now result }
{
    look_by(job, Lending::Merged(lent), place)
}

/// Looks at a place: the command table is asked once, and the argument of a seek is gathered once,
/// along its chain.
pub(crate) fn look_by(job: &Job, lending: Lending, place: Place) -> Look
    requires { Lends job.now lending }
    ensures place { result.place ≡ place }
    ensures look { IsLook job.now result }
{
    match job.storage.ccw_at(place.address) {
        Some(ccw) => look_at_ccw(job, lending, place, ccw),
        None => look_at_nothing(job, place),
    }
}

/// The own fault of a place, one of the reasons 1 to 13 and 16: the first that applies; `None` if
/// there is none. The place may be any, reached or not.
///
/// It takes no memory. The cost is that of `covers` over the areas lent, at most the square of
/// their number.
pub fn fault_at(job: &Job, place: Place) -> Option<Reason>
    ensures { HasFault job.now place result }
{
    match look_at(job, place).fault() {
        Some(evidence) => Some(evidence.reason()),
        None => None,
    }
}

/// The successors of a place: none if it has an own fault. The place may be any, reached or not.
///
/// It takes no memory. The cost is that of `fault_at`.
pub fn successors(job: &Job, place: Place) -> Next
    ensures { AreSuccessors job.now place result }
{
    look_at(job, place).next()
}
