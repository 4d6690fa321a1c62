//! What a program with a yes may do that its supervisor may want to refuse.

ghost use Rattle.std.specs.Prelude.{◌≡◌, ℕ, Bool, IfOk};
ghost use Rattle.ccw_core.specs.Ccw.{Fields};
ghost use Rattle.chan_areas.specs.Merged.{IsLeastOrNone};
ghost use Rattle.chan_walk.specs.JobSurvey.{IsSurvey};
ghost use Rattle.chan_walk.specs.declared.job.Job.{Job};
ghost use Rattle.chan_walk.specs.declared.place.Place as declared;
ghost use Rattle.chan_why.specs.Notes.{AreAddressesOf, IsAddressOf};
ghost use Rattle.chan_why.specs.Remarks.{AreRemarks};

use crate::hang::hang_from;
use crate::notes::{ending, interrupting};
use chan_walk::{Place, Survey};
use std::alloc::{AllocError, Global};

/// What a program may do, whatever its verdict: where it first does so, or `None` if it never does.
#[derive(Clone, Copy)]
pub struct Remarks {
    /// The first place from which on the program can't end by itself.
    pub hangs: Option<Place>,
    /// The least address of a reachable CCW, transfers apart, whose flag for a program-controlled
    /// interruption is on.
    pub interrupts: Option<u32>,
    /// The least address of a reachable No Operation or Recalibrate with chain data on. The program
    /// ends there, though some channels go on.
    pub ends_chaining: Option<u32>,
}

/// What the program of a job may do, from the job's survey. `AllocError` comes if a growth was
/// refused.
pub fn remarks_from(alloc: Global, survey: &Survey) -> Result<Remarks, AllocError>
    ensures { IfOk result (λ remarks. (j : Job) → IsSurvey j survey.now → AreRemarks j remarks) }
{
    let looks = survey.looks();
    let hangs = hang_from(alloc, survey)?;
    let interrupting = interrupting(alloc, looks)?;
    let ending = ending(alloc, looks)?;
    Ok(Remarks {
        hangs,
        interrupts: first_address(interrupting.as_slice()),
        ends_chaining: first_address(ending.as_slice()),
    })
}

/// The least of addresses that rise.
fn first_address(addresses: &[u32]) -> Option<u32>
    ensures { (test : declared.Place → Fields → Bool) → (j : Job)
        → AreAddressesOf test j addresses.now → IsLeastOrNone (IsAddressOf test j) result }
{
    if addresses.is_empty() {
        return None;
    }
    Some(addresses[0])
}
