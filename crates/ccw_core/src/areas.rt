//! Areas of storage that a program was lent.

ghost use Rattle.std.specs.Prelude.{◌≡◌, ◌+◌, ◌<◌, ◌≤◌, ◌^◌, ℕ, true, false};
ghost use Rattle.ccw_core.specs.Areas.{IsGap, covered, lies_in};

/// An area of storage. It may be empty, and it may reach past storage.
///
/// Its layout is that of C, so that a caller in C can hand in its own areas.
#[repr(C)]
#[derive(Clone, Copy, PartialEq, Eq, Default)]
pub struct Area {
    /// The address of its first byte.
    pub start: u32,
    /// How many bytes it has.
    pub len: u32,
}

/// Whether each byte of a range lies in some area.
///
/// Adjoining areas may cover a range together, and an empty range is always covered. No sum wraps,
/// not even near 2^32. The cost is at most the square of the number of areas, whatever the lengths:
/// the search jumps from the end of an area to the end of the next, and looks through all areas.
pub fn covers(areas: &[Area], start: u32, len: u32) -> bool
    ensures { result ≡ covered areas.now start len }
{
    let end = u64::from(start) + u64::from(len);
    gap_start(areas, u64::from(start), end) >= end
}

/// The first run of bytes of a range that lies in no area, if there is a run. The range has to end
/// below 2^32. It costs as much as `covers`.
pub fn gap_among(areas: &[Area], range: Area) -> Option<Area>
    requires { range.start + range.len < 2 ^ 32 }
    ensures { IsGap areas.now range result }
{
    let end = range.start + range.len;
    let start = gap_start(areas, u64::from(range.start), u64::from(end));
    if start >= u64::from(end) {
        return None;
    }
    let start = start as u32;
    let len = gap_end(areas, start, end) - start;
    Some(Area { start, len })
}

/// The first address from `start` on and before `end` that lies in no area; at least `end` if every
/// address there lies in an area.
fn gap_start(areas: &[Area], start: u64, end: u64) -> u64
    requires { end < 2 ^ 33 }
    ensures from { start ≤ result }
    ensures before { (b : ℕ) → start ≤ b → b < result → lies_in areas.now b ≡ true }
    ensures out { result < end → lies_in areas.now result ≡ false }
{
    let mut at = start;
    while at < end {
        let next = reach(areas, at);
        if next <= at {
            return at;
        }
        at = next;
    }
    at
}

/// The first address after `start` that lies in some area, or `end` if no address before `end`
/// does. `start` lies in no area.
fn gap_end(areas: &[Area], start: u32, end: u32) -> u32
    requires order { start < end }
    requires out { lies_in areas.now start ≡ false }
    ensures filled { start < result }
    ensures within { result ≤ end }
    ensures inside { (b : ℕ) → start ≤ b → b < result → lies_in areas.now b ≡ false }
    ensures after { result < end → lies_in areas.now result ≡ true }
{
    let mut stop = end;
    for area in areas {
        if area.len > 0 && start < area.start && area.start < stop {
            stop = area.start;
        }
    }
    stop
}

/// The end of the first area with the byte at an address, or the address if no area has its byte.
fn reach(areas: &[Area], address: u64) -> u64
    ensures each { (b : ℕ) → address ≤ b → b < result → lies_in areas.now b ≡ true }
    ensures stops { result ≤ address → lies_in areas.now address ≡ false }
{
    for area in areas {
        let start = u64::from(area.start);
        let end = start + u64::from(area.len);
        if start <= address && address < end {
            return end;
        }
    }
    address
}
