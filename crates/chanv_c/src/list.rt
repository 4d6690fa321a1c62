//! Which CCWs a channel program can reach.

ghost use Rattle.std.specs.Prelude.{◌≡◌, ◌≢◌, ◌<◌, ◌⊎◌, length, IfErr, IfOk, OnOk};
ghost use Rattle.chanv_c.specs.Answers.{AreJobPlaces, AreListed, HasPlaces, HasTooMany};
ghost use Rattle.chanv_c.specs.Answers.{IsAnswerCode, IsRefusal};
ghost use Rattle.chanv_c.specs.Faults.{HasNoFault};
ghost use Rattle.chanv_c.specs.declared.codes.TheConstants.{YES, NO, STORAGE_TOO_LARGE, NO_ROOM};

use crate::c_job::{CJob, make_ready};
use crate::c_place::{CPlace, write_places};
use crate::codes::{NO_ROOM, YES};
use crate::refusal::Refusal;
use chan_walk::{Explored, explore};
use std::alloc::Global;

/// Lists the places that the program can reach, each once, in order: `YES` if there is room for
/// all, `NO_ROOM` if there isn't; then `count` is their number. Otherwise it says why there is no
/// answer, like `chanv_verify`, and `count` is 0. `extent` is the index of the first wrong extent,
/// or 0. Places are written only for `YES`.
#[unsafe(no_mangle)]
pub extern "C" fn chanv_list(
    alloc: Global,
    job: &CJob<'_>,
    room: &mut [CPlace],
    count: &mut usize,
    extent: &mut usize,
) -> u32
    ensures listed { result ≡ YES → AreListed job.now count.new room.old room.new }
    ensures room { result ≡ NO_ROOM → HasPlaces job.now count.new × (length room.old < count.new) }
    ensures kept { result ≢ YES → room.new ≡ room.old }
    ensures number { IsAnswerCode (HasTooMany job.now) job.now result extent.new }
    ensures no_verdict { result ≢ NO }
    ensures no_count { result ≢ YES → result ≢ NO_ROOM → count.new ≡ 0 }
    ensures no_extent { (result < STORAGE_TOO_LARGE) ⊎ (result ≡ NO_ROOM) → extent.new ≡ 0 }
{
    (*count, *extent) = (0, 0);
    match reachable_places(alloc, job) {
        Ok(found) => {
            *count = found.len();
            if room.len() < found.len() {
                return NO_ROOM;
            }
            write_places(&found, room);
            YES
        }
        Err(refusal) => {
            *extent = refusal.extent();
            refusal.code()
        }
    }
}

/// The places that the program can reach.
#[tactic(auto, using(crate::proofs::Refusals::asked_refused))]
fn reachable_places(alloc: Global, asked: &CJob<'_>) -> Result<Explored, Refusal>
    ensures answer { IfOk result (AreJobPlaces asked.now) }
    ensures right { OnOk result (HasNoFault asked.now) }
    ensures refusal { IfErr result (IsRefusal (HasTooMany asked.now) asked.now) }
{
    let ready = make_ready(alloc, asked)?;
    Ok(explore(alloc, &ready.job(asked))?)
}
