//! What an operation sets: where the arm goes, or the file mask.

ghost use Rattle.std.specs.Prelude.{◌≡◌};
ghost use Rattle.chan_walk.specs.Job.{storage_of};
ghost use Rattle.chan_walk.specs.Operand.{IsOperand};
ghost use Rattle.chan_walk.specs.Setting.{IsSetting, setting_by};
ghost use Rattle.chan_walk.specs.Visit.{IsVisit};

use crate::argument::{Operand, read_operand};
use crate::fault::program_check_at;
use crate::job::Job;
use crate::place::Place;
use crate::visit::Visit;
use ckd_core::Track;

/// What an operation sets when the channel carries it out.
#[derive(Clone, Copy, PartialEq, Eq, Debug)]
pub enum Setting {
    /// The track to which a seek or Recalibrate moves the arm.
    Arm(Track),
    /// The byte that Set File Mask sets.
    Mask(u8),
}

/// What the operation that begins at a place sets, whether or not the job allows it. The place may
/// be any, reached or not.
///
/// `None` comes under data chaining, for other commands, for a seek whose bin isn't zero or whose
/// argument isn't whole, and if the channel meets a program check there (reasons 1 to 7).
pub fn setting_at(job: &Job, place: Place) -> Option<Setting>
    ensures { IsSetting job.now place result }
{
    let Some(ccw) = job.storage.ccw_at(place.address) else {
        return None;
    };
    let visit = Visit::new(place, ccw);
    // For the checker alone: it asks for the type of what a visit holds.
    let _command = visit.command;
    setting_of(job, &visit)
}

/// What the operation that begins at a place with a CCW sets.
fn setting_of(job: &Job, visit: &Visit) -> Option<Setting>
    requires { IsVisit (storage_of job.now) visit.now }
    ensures { IsSetting job.now visit.now.place result }
{
    if program_check_at(job, visit).is_some() {
        return None;
    }
    match read_operand(&job.storage, visit) {
        Operand::Whole(given) => match Track::from_argument(given.bytes) {
            Some(track) => Some(Setting::Arm(track)),
            None => None,
        },
        Operand::Short(_) => None,
        Operand::Mask { byte, .. } => Some(Setting::Mask(byte)),
        Operand::Nothing if visit.begins_recalibrate() => Some(Setting::Arm(Track {
            cylinder: 0,
            head: 0,
        })),
        Operand::Nothing => None,
    }
}
