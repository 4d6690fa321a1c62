//! What C gets written: places, and lists.

ghost use Rattle.std.specs.Prelude.{◌≡◌, ◌≤◌, ◌++◌, drop, length, map};
ghost use Rattle.chan_walk.specs.Places.{entry_number};
ghost use Rattle.chanv_c.specs.Answers.{place_for_c};
ghost use Rattle.chanv_c.specs.Needs.{StandFirst};

use chan_walk::{Entry, Explored, Place};

/// `struct chanv_place`.
#[repr(C)]
#[derive(Clone, Copy)]
pub struct CPlace {
    pub address: u32,
    pub entered: u8,
    pub after_transfer: u8,
    /// 0: C has bytes here that no field takes.
    pub unused: u16,
}

/// The number in the header of the way in which a CCW is entered.
pub(crate) fn entry_number(entered: Entry) -> u8
    ensures { result ≡ entry_number entered }
{
    match entered {
        Entry::Fresh => 0,
        Entry::ChainIn => 1,
        Entry::ChainOut => 2,
        Entry::ChainSearch => 3,
    }
}

/// A place for C.
fn place_for_c(place: Place) -> CPlace
    ensures { result ≡ place_for_c place }
{
    CPlace {
        address: place.address,
        entered: entry_number(place.entered),
        after_transfer: u8::from(place.after_transfer),
        unused: 0,
    }
}

/// Writes places, and leaves the rest of the room as it is.
pub(crate) fn write_places(found: &Explored, room: &mut [CPlace])
    requires { length found.now ≤ length room.old }
    ensures { room.new ≡ map place_for_c found.now ++ drop (length found.now) room.old }
{
    for index in 0..found.len() {
        if let Some(place) = found.place(index) {
            room[index] = place_for_c(place);
        }
    }
}

/// Writes the places of a path, and leaves the rest of the room as it is.
pub(crate) fn write_path(path: &[Place], room: &mut [CPlace])
    requires { length path.now ≤ length room.old }
    ensures { room.new ≡ map place_for_c path.now ++ drop (length path.now) room.old }
{
    for index in 0..path.len() {
        room[index] = place_for_c(path[index]);
    }
}

/// Writes a list, and leaves the rest of the room as it is.
pub(crate) fn write_list<T: Copy>(list: &[T], room: &mut [T])
    requires { length list.now ≤ length room.old }
    ensures { StandFirst list.now room.old room.new }
{
    room[..list.len()].copy_from_slice(list);
}
