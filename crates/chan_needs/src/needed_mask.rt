//! The strictest mask that serves a program.

ghost use Rattle.chan_walk.specs.Argument.{Has};
ghost use Rattle.chan_walk.specs.Fault.{IsClear};
ghost use Rattle.chan_walk.specs.Look.{IsLook, places_of_looks};
ghost use Rattle.chan_needs.specs.Needs.{IsStrictest, MaskServesAt};
ghost use Rattle.chan_needs.specs.Listed.{AreBounds, AreLooksOfYes};
ghost use Rattle.chan_walk.specs.declared.job.Job.{Job};
ghost use Rattle.chan_walk.specs.declared.place.Place.{Place};

use chan_walk::Look;
use ckd_core::{FileMask, Levels, MaskClass};

/// The strictest mask that serves, from the looks at all reachable places.
pub(crate) fn needed_mask(looks: &[Look]) -> FileMask
    ensures { (j : Job) → AreLooksOfYes j looks.now
        → IsStrictest (λ m. (p : Place) → Has (places_of_looks looks.now) p → MaskServesAt j p m)
        result }
{
    let mut levels = Levels::permitting(MaskClass::Plain);
    for look in looks {
        levels = levels.laxer(demanded(look));
    }
    FileMask::of_levels(levels)
}

/// The strictest levels that a place permits: they don't inhibit the command that begins there, and
/// the byte that Set File Mask takes there is at least as strict.
fn demanded(look: &Look) -> Levels
    ensures { (j : Job) → IsLook j look.now → IsClear j look.now.place
        → AreBounds (MaskServesAt j look.now.place) result.writes result.seeks }
{
    match look.command() {
        Some(command) => match command.class() {
            MaskClass::SetMask => Levels::of(look.operand().byte()),
            class => Levels::permitting(class),
        },
        None => Levels::permitting(MaskClass::Plain),
    }
}
