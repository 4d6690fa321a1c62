//! Which channel programs are in storage.

ghost use Rattle.std.specs.Prelude.{◌≡◌, ◌≢◌, ◌<◌, ◌≤◌, ◌⊎◌, length};
ghost use Rattle.chanv_c.specs.Find.{AreFoundIn, HasPrograms};
ghost use Rattle.ccw_core.specs.declared.ccw.TheConstants.{STORAGE_LIMIT};
ghost use Rattle.chanv_c.specs.declared.codes.TheConstants.{MEMORY, NO_ROOM, NOT_A_DEVICE, YES};
ghost use Rattle.chanv_c.specs.declared.codes.TheConstants.{STORAGE_TOO_LARGE};

use crate::c_job::numbered_device;
use crate::c_place::write_list;
use crate::codes::{MEMORY, NO_ROOM, NOT_A_DEVICE, STORAGE_TOO_LARGE, YES};
use ccw_core::Storage;
use chan_find::program_starts;
use chan_needs::or_empty;
use std::alloc::Global;

/// `struct chanv_bytes`. If the length is 0, the pointer may be null, as in a job.
#[repr(C)]
#[derive(Clone, Copy)]
pub struct CBytes<'a> {
    pub bytes: &'a [u8],
}

/// Lists the starts of the programs in storage, each once, in order: `YES` if `starts` has room for
/// all, `NO_ROOM` if it doesn't; then `count` is their number. Otherwise `count` is 0: storage is
/// too large, or else the device is unknown, or else memory ran out. `starts` is written only for
/// `YES`.
#[unsafe(no_mangle)]
pub extern "C" fn chanv_find(
    alloc: Global,
    storage: &CBytes<'_>,
    device: u16,
    starts: &mut [u32],
    count: &mut usize,
) -> u32
    ensures found { result ≡ YES
        → AreFoundIn storage.now.bytes.now count.new starts.old starts.new }
    ensures room { result ≡ NO_ROOM
        → HasPrograms storage.now.bytes.now count.new × (length starts.old < count.new) }
    ensures kept { result ≢ YES → starts.new ≡ starts.old }
    ensures large { result ≡ STORAGE_TOO_LARGE → STORAGE_LIMIT < length storage.now.bytes.now }
    ensures small { result ≢ STORAGE_TOO_LARGE → length storage.now.bytes.now ≤ STORAGE_LIMIT }
    ensures none { result ≡ NOT_A_DEVICE → (device ≢ 2311) × (device ≢ 2314) }
    ensures known { result ≢ STORAGE_TOO_LARGE → result ≢ NOT_A_DEVICE
        → (device ≡ 2311) ⊎ (device ≡ 2314) }
    ensures codes { (result ≡ YES) ⊎ (result ≡ MEMORY) ⊎ (result ≡ STORAGE_TOO_LARGE)
        ⊎ (result ≡ NOT_A_DEVICE) ⊎ (result ≡ NO_ROOM) }
    ensures no_count { result ≢ YES → result ≢ NO_ROOM → count.new ≡ 0 }
{
    *count = 0;
    let Ok(storage) = Storage::new(or_empty(storage.bytes)) else {
        return STORAGE_TOO_LARGE;
    };
    let Some(device) = numbered_device(device) else {
        return NOT_A_DEVICE;
    };
    let Ok(found) = program_starts(alloc, &storage, device) else {
        return MEMORY;
    };
    *count = found.len();
    if starts.len() < found.len() {
        return NO_ROOM;
    }
    write_list(&found, starts);
    YES
}
