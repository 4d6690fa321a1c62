//! Areas clipped to a length of storage.

ghost use Rattle.std.specs.Prelude.{◌≡◌};
ghost use Rattle.chan_areas.specs.Clip as clips;

use ccw_core::Area;

/// The part of an area that lies in storage of this length.
pub(crate) fn clip(area: Area, length: u32) -> Area
    ensures { result ≡ clips.clip length area }
{
    Area {
        start: area.start.min(length),
        len: area.len.min(length.saturating_sub(area.start)),
    }
}
