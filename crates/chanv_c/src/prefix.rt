//! The prefix through which a supervisor starts a program.

ghost use Rattle.std.specs.Prelude.{◌≡◌, ◌≢◌, ◌<◌, ℕ, List, length, IfErr, IfOk};
ghost use Rattle.std.specs.Prelude.{MatchOption, OnOk};
ghost use Rattle.chanv_c.specs.Answers.{IsAnswerCode, IsRefusal};
ghost use Rattle.chanv_c.specs.Faults.{HasNoFault};
ghost use Rattle.chanv_c.specs.Job.{uncounted};
ghost use Rattle.chanv_c.specs.Needs.{StandFirst};
ghost use Rattle.chanv_c.specs.Prefix.{HasNoPrefixAt, IsPrefixFor};
ghost use Rattle.chanv_c.specs.declared.codes.TheConstants.{NO, NO_ROOM, YES};

use crate::c_job::{CJob, make_ready};
use crate::c_place::write_list;
use crate::codes::{NO, NO_ROOM, USUAL_LIMIT, YES};
use crate::refusal::Refusal;
use chan_needs::prefix_at;
use std::alloc::Global;

/// Makes the prefix through which the job's program starts, for the address at which it will stand:
/// `YES` if there is room for it, `NO_ROOM` if there isn't; then `len` is how many bytes it has.
/// `NO` if it can't stand there: the address isn't a multiple of 8, or the prefix or the program's
/// start reaches past storage. Otherwise it says why there is no answer, like `chanv_verify`; it
/// counts no places, so the job's limit doesn't matter. But for `YES` and `NO_ROOM` `len` is 0.
/// `bytes` is written only for `YES`.
#[unsafe(no_mangle)]
pub extern "C" fn chanv_make_prefix(
    alloc: Global,
    job: &CJob<'_>,
    address: u32,
    bytes: &mut [u8],
    len: &mut usize,
) -> u32
    ensures made { result ≡ YES → (prefix : List ℕ)
        × IsPrefixFor (uncounted job.now) address prefix
        × (len.new ≡ length prefix) × StandFirst prefix bytes.old bytes.new }
    ensures room { result ≡ NO_ROOM → (prefix : List ℕ)
        × IsPrefixFor (uncounted job.now) address prefix
        × (len.new ≡ length prefix) × (length bytes.old < len.new) }
    ensures none { result ≡ NO → HasNoPrefixAt (uncounted job.now) address }
    ensures left { result ≢ YES → bytes.new ≡ bytes.old }
    ensures number { (extent : ℕ) × IsAnswerCode ⊥ (uncounted job.now) result extent }
    ensures no_len { result ≢ YES → result ≢ NO_ROOM → len.new ≡ 0 }
{
    *len = 0;
    let uncounted = CJob {
        limit: USUAL_LIMIT,
        ..*job
    };
    let prefix = match prefix_on(alloc, &uncounted, address) {
        Ok(Some(prefix)) => prefix,
        Ok(None) => return NO,
        Err(refusal) => return refusal.code(),
    };
    *len = prefix.len();
    if bytes.len() < prefix.len() {
        return NO_ROOM;
    }
    write_list(&prefix, bytes);
    YES
}

/// The prefix of the job that C asks about, if it can stand at this address.
fn prefix_on(alloc: Global, asked: &CJob<'_>, address: u32) -> Result<Option<Vec<u8>>, Refusal>
    ensures answer { IfOk result (λ o. MatchOption o (HasNoPrefixAt asked.now address)
        (λ v. IsPrefixFor asked.now address v.items)) }
    ensures right { OnOk result (HasNoFault asked.now) }
    ensures refusal { IfErr result (IsRefusal ⊥ asked.now) }
{
    let ready = make_ready(alloc, asked)?;
    Ok(prefix_at(alloc, address, &ready.job(asked))?)
}
