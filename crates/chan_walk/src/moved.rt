//! The bytes that a program moves or keeps, as merged lists.

ghost use Rattle.std.specs.Prelude.{◌^◌, IfOk, OnOk};
ghost use Rattle.std.specs.List.{All};
ghost use Rattle.chan_areas.specs.Merged.{AreExactly, EndsBelow};
ghost use Rattle.chan_walk.specs.Direction.{moves_by};
ghost use Rattle.chan_walk.specs.Guard.{AddsBytes, Guards};
ghost use Rattle.chan_walk.specs.Guarded.{IsGuarded};
ghost use Rattle.chan_walk.specs.Places.{AreReached};
ghost use Rattle.chan_walk.specs.Look.{AreLooks, places_of_looks};
ghost use Rattle.chan_walk.specs.Moved.{IsDataOf, IsSeenByte};
ghost use Rattle.chan_walk.specs.declared.job.Job.{Job};

use crate::direction::Direction;
use crate::guard::Guard;
use crate::look::Look;
use crate::place::data_of;
use ccw_core::Area;
use chan_areas::{Areas, Merged, add_area};
use std::alloc::{AllocError, Global};

/// The bytes of the data that reachable CCWs move one way, as a merged list.
pub fn data_moved(alloc: Global, looks: &[Look], direction: Direction) -> Result<Merged, AllocError>
    ensures { IfOk result (λ m. (j : Job) → AreLooks j looks.now
        → AreReached j (places_of_looks looks.now)
        → AreExactly (IsDataOf (moves_by direction) j) m) }
{
    let mut ranges = Areas::new(alloc);
    for look in looks {
        add_range(&mut ranges, look, look.moves(direction))?;
    }
    Ok(Merged::new(ranges))
}

/// Adds the data range of the CCW at a place, if the CCW moves its data.
fn add_range(ranges: &mut Areas, look: &Look, counts: bool) -> Result<(), AllocError>
    requires { All (EndsBelow (2 ^ 32)) ranges.old.items }
    ensures low { OnOk result (All (EndsBelow (2 ^ 32)) ranges.new.items) }
    ensures bytes { OnOk result (AddsBytes ranges.old.items ranges.new.items
        (IsSeenByte look.now counts)) }
{
    match look.ccw() {
        Some(ccw) if counts => add_area(ranges, data_of(&ccw))?,
        _ => {}
    }
    Ok(())
}

/// The guarded bytes, as a merged list.
pub fn guarded_areas(alloc: Global, guard: &Guard) -> Result<Merged, AllocError>
    ensures { IfOk result (λ m. (j : Job) → Guards j guard.now → AreExactly (IsGuarded j) m) }
{
    let mut areas = Areas::new(alloc);
    areas.extend_from_slice(guard.ccw_ranges())?;
    areas.extend_from_slice(guard.argument_ranges())?;
    Ok(Merged::new(areas))
}
