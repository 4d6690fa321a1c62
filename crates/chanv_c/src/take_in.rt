//! What a channel program needs of each job that it runs under, and what it keeps.

ghost use Rattle.std.specs.Prelude.{◌≡◌, ◌≢◌, ◌<◌, ◌≤◌, ◌↔◌, ◌⊎◌, length, take};
ghost use Rattle.std.specs.Prelude.{IfOk, IfErr, IsTrue, MatchOption, OnOk};
ghost use Rattle.std.specs.List.{All};
ghost use Rattle.chan_areas.specs.Merged.{IsMerged};
ghost use Rattle.chan_needs.specs.Remembered.{HoldsAreas, IsInside, bytes_in, total_len};
ghost use Rattle.chan_needs.specs.Listed.{listed};
ghost use Rattle.chanv_c.specs.Answers.{IsAnswerCode, IsRefusal};
ghost use Rattle.chanv_c.specs.Faults.{HasNoFault};
ghost use Rattle.chanv_c.specs.Needs.{AreWrittenNeeds, HasTooManyOpenly, HaveRoomForNeeds};
ghost use Rattle.chanv_c.specs.Needs.{HaveTooLittleRoom, IsFoundNeeds, AsksOverCopy, IsWrittenNo};
ghost use Rattle.chanv_c.specs.Needs.{KeepsOtherAreas, with_area, with_areas};
ghost use Rattle.chanv_c.specs.Needs.{StandFirst, without_needs, needs_for_c};
ghost use Rattle.chanv_c.specs.Needs.{AllowsDeeds, MayBeTakenIn, IsDeedRefused, IsIntakeRefusal};
ghost use Rattle.chanv_c.specs.Needs.{IsFoundKept, IsWrittenRefusal};
ghost use Rattle.chanv_c.specs.declared.c_job.CJob as asked;
ghost use Rattle.chanv_c.specs.declared.codes.TheConstants.{MEMORY, NO, NO_ROOM, YES};
ghost use Rattle.chanv_c.specs.declared.codes.TheConstants.{CHANGED_MEANWHILE, TOO_MANY_PLACES};
ghost use Rattle.chanv_c.specs.declared.codes.TheConstants.{STORAGE_TOO_LARGE};

use crate::c_job::{CJob, make_ready};
use crate::c_place::{entry_number, write_list};
use crate::checks::{CRefusal, NO_REFUSAL, refused};
use crate::codes::{
    ALLOW_ENDING_CHAINS, ALLOW_HANGING, ALLOW_INTERRUPTING, CHANGED_MEANWHILE, MEMORY, NO, NO_ROOM,
    REFUSED_ENDS_CHAINING, REFUSED_INTERRUPTS, REFUSED_KEEPS_OUTSIDE, REFUSED_MAY_HANG, YES,
};
use crate::refusal::Refusal;
use crate::verify::{CVerdict, NO_VERDICT, verdict_of};
use ccw_core::{Area, Storage};
use chan_needs::{
    Extent, Needs, copy_kept, kept_from, kept_len, kept_outside, needs_from, or_empty,
};
use chan_walk::{OpenJob, Reason, Verdict, survey};
use chan_why::{Remarks, remarks_from};
use std::alloc::{AllocError, Global};

/// What is told of a program that is taken in: `struct chanv_intake`, and then what C needs to lay
/// its lists into the caller's memory.
#[repr(C)]
#[derive(Clone, Copy)]
pub struct CNeeded {
    pub verdict: CVerdict,
    /// What the caller doesn't allow.
    pub refusal: CRefusal,
    /// Of the first place at which the program may hang.
    pub hangs_at: u32,
    /// Of the first CCW that asks for a program-controlled interruption.
    pub interrupts_at: u32,
    /// Of the first No Operation or Recalibrate at which the program ends though chain data is on.
    pub ends_chaining_at: u32,
    /// 1 if there is such a place or CCW, else 0.
    pub may_hang: u8,
    pub interrupts: u8,
    pub ends_chaining: u8,
    /// How the program enters the first place at which it may hang.
    pub hangs_entered: u8,
    pub extent_count: usize,
    pub fetch_count: usize,
    pub store_count: usize,
    pub keep_count: usize,
    /// How many bytes are kept.
    pub kept_len: usize,
    pub storage_len: u32,
    pub mask: u8,
}

/// The answer without needs.
const NO_NEEDS: CNeeded = CNeeded {
    verdict: NO_VERDICT,
    refusal: NO_REFUSAL,
    hangs_at: 0,
    interrupts_at: 0,
    ends_chaining_at: 0,
    may_hang: 0,
    interrupts: 0,
    ends_chaining: 0,
    hangs_entered: 0,
    extent_count: 0,
    fetch_count: 0,
    store_count: 0,
    keep_count: 0,
    kept_len: 0,
    storage_len: 0,
    mask: 0,
};

/// What a first look shows of a program.
#[derive(Drop)]
pub(crate) enum FoundKept {
    /// The bytes that it keeps.
    Kept(Vec<Area>),
    /// No job will do: this is the no of the open job.
    NoJob { address: u32, reason: Reason },
}

/// What the open job shows of a program.
#[derive(Drop)]
pub(crate) enum FoundNeeds {
    /// What it needs and keeps, and what it may do.
    Needed(Needs, Remarks),
    /// No job will do: this is the no of the open job.
    NoJob { address: u32, reason: Reason },
}

/// The needs of the job's program in each job that it runs under, and the bytes that it keeps,
/// whatever is written to storage meanwhile: `YES` if some job will do, the program keeps only
/// bytes of `own`, all that it may do is allowed, and there is room for each list and for the kept
/// bytes. `NO` if no job will do, with the verdict on the open job, or if the program keeps or does
/// what it mustn't, with the first refusal. `NO_ROOM` if a list or `kept` has too little room, with
/// all that `YES` gives except lists and bytes. `CHANGED_MEANWHILE` if storage changed during the
/// call. Otherwise it says why there is no answer, like `chanv_verify`: `TOO_MANY_PLACES` counts
/// those that are reachable under the open job, and `MEMORY` comes too if the copy isn't as long as
/// storage. All else is written as 0, and as nobody. The lists and `kept` are written only for
/// `YES`. The job's own grants don't matter.
///
/// A first look at storage only says which bytes to copy. The call copies them, and judges what the
/// copy then holds, which nothing else writes. Before the call the copy may hold anything.
#[unsafe(no_mangle)]
pub extern "C" fn needs_by_copy(
    alloc: Global,
    job: &CJob<'_>,
    own: &[Area],
    allowed: u32,
    copy: &mut [u8],
    out: &mut CNeeded,
    extents: &mut [Extent],
    fetch: &mut [Area],
    store: &mut [Area],
    keep: &mut [Area],
    kept: &mut [u8],
) -> u32
    ensures yes { result ≡ YES → (c : asked.CJob) × AsksOverCopy job.now copy.new c
        × AreWrittenNeeds c own.now allowed out.new extents.old extents.new fetch.old fetch.new
        store.old store.new keep.old keep.new kept.old kept.new }
    ensures no { result ≡ NO → IsWrittenNo job.now out.new ⊎ ((c : asked.CJob)
        × AsksOverCopy job.now copy.new c × IsWrittenRefusal c own.now allowed out.new) }
    ensures room { result ≡ NO_ROOM → (c : asked.CJob) × AsksOverCopy job.now copy.new c
        × HaveTooLittleRoom c out.new extents.old fetch.old store.old keep.old kept.old }
    ensures left { result ≢ YES → (extents.new ≡ extents.old) × (fetch.new ≡ fetch.old)
        × (store.new ≡ store.old) × (keep.new ≡ keep.old) × (kept.new ≡ kept.old) }
    ensures quiet { result ≢ CHANGED_MEANWHILE }
    ensures agrees { result ≡ YES → HoldsAreas job.now.storage.now
        (take out.new.keep_count keep.new) kept.new }
    ensures number { IsAnswerCode (HasTooManyOpenly job.now) job.now result
        out.new.verdict.extent }
    ensures nothing { TOO_MANY_PLACES ≤ result → result ≢ NO_ROOM → out.new
        ≡ without_needs (record { extent = out.new.verdict.extent; address = 0; reason = 0 }) }
    ensures no_extent { result < STORAGE_TOO_LARGE → out.new.verdict.extent ≡ 0 }
{
    *out = NO_NEEDS;
    let kept_first = match kept_of(alloc, job) {
        Ok(FoundKept::Kept(areas)) => areas,
        Ok(FoundKept::NoJob { address, reason }) => {
            out.verdict = verdict_of(Verdict::No { address, reason });
            return NO;
        }
        Err(refusal) => {
            out.verdict.extent = refusal.extent();
            return refusal.code();
        }
    };
    let copied = kept_first.as_slice();
    if !copy_areas(job, copied, copy) {
        return MEMORY;
    }
    let still = CJob {
        storage: copy,
        ..*job
    };
    needs_over(
        alloc, &still, copied, own, allowed, out, extents, fetch, store, keep, kept,
    )
}

/// Copies the bytes of the job's storage in these areas to their addresses in the copy; false if
/// the copy isn't as long as storage. In the proofs storage stays as it is; if it is written
/// meanwhile, the copy may hold anything there.
fn copy_areas(job: &CJob<'_>, areas: &[Area], copy: &mut [u8]) -> bool
    ensures length { IsTrue result → (length copy.old ≡ length job.now.storage.now)
        × (length copy.new ≡ length copy.old) }
    ensures copied { IsTrue result
        → copy.new ≡ with_areas job.now.storage.now areas.now copy.old }
{
    if copy.len() != job.storage.len() {
        return false;
    }
    for area in areas {
        copy_area(or_empty(job.storage), *area, copy);
    }
    true
}

/// Copies the bytes in an area to their addresses in the copy, if the area lies in both.
fn copy_area(storage: &[u8], area: Area, copy: &mut [u8])
    ensures length { length copy.new ≡ length copy.old }
    ensures copied { copy.new ≡ with_area storage.now area copy.old }
{
    let end = u64::from(area.start) + u64::from(area.len);
    if end <= storage.len() as u64 && end <= copy.len() as u64 {
        let (start, end) = (area.start as usize, end as usize);
        copy[start..end].copy_from_slice(&storage[start..end]);
    }
}

/// The needs of the program of a job whose storage is a copy of these areas of storage: what
/// `needs_by_copy` answers if the program keeps exactly the bytes that were copied. If it doesn't,
/// storage changed while they were copied.
fn needs_over(
    alloc: Global,
    still: &CJob<'_>,
    copied: &[Area],
    own: &[Area],
    allowed: u32,
    out: &mut CNeeded,
    extents: &mut [Extent],
    fetch: &mut [Area],
    store: &mut [Area],
    keep: &mut [Area],
    kept: &mut [u8],
) -> u32
    ensures yes { result ≡ YES → (written : AreWrittenNeeds still.now own.now allowed out.new
        extents.old extents.new fetch.old fetch.new store.old store.new keep.old keep.new kept.old
        kept.new) × (written.needs.keep ≡ copied.now) }
    ensures no { result ≡ NO → IsWrittenRefusal still.now own.now allowed out.new }
    ensures room { result ≡ NO_ROOM → HaveTooLittleRoom still.now out.new extents.old fetch.old
        store.old keep.old kept.old }
    ensures left { result ≢ YES → (extents.new ≡ extents.old) × (fetch.new ≡ fetch.old)
        × (store.new ≡ store.old) × (keep.new ≡ keep.old) × (kept.new ≡ kept.old) }
    ensures code { (result ≡ YES) ⊎ (result ≡ NO) ⊎ (result ≡ MEMORY) ⊎ (result ≡ NO_ROOM)
        ⊎ (result ≡ CHANGED_MEANWHILE) }
    ensures nothing { (result ≡ MEMORY) ⊎ (result ≡ CHANGED_MEANWHILE) → out.new
        ≡ without_needs (record { extent = 0; address = 0; reason = 0 }) }
    ensures changed { result ≡ CHANGED_MEANWHILE → KeepsOtherAreas still.now copied.now }
{
    *out = NO_NEEDS;
    let (needs, remarks) = match needs_of(alloc, still) {
        Ok(FoundNeeds::Needed(needs, remarks)) => (needs, remarks),
        Err(Refusal::Memory) => return MEMORY,
        _ => return CHANGED_MEANWHILE,
    };
    if needs.keep.as_slice() != copied {
        return CHANGED_MEANWHILE;
    }
    let Ok(refusal) = refusal_of(alloc, &needs, remarks, own, allowed) else {
        return MEMORY;
    };
    let found = needs_for_c(&needs, remarks);
    *out = found;
    if let Some(refusal) = refusal {
        out.refusal = refusal;
        return NO;
    }
    if !have_room(&needs, found.kept_len, extents, fetch, store, keep, kept) {
        return NO_ROOM;
    }
    write_list(needs.extents.as_slice(), extents);
    write_list(needs.fetch.as_slice(), fetch);
    write_list(needs.store.as_slice(), store);
    write_list(needs.keep.as_slice(), keep);
    copy_kept_bytes(still, needs.keep.as_slice(), kept);
    YES
}

/// What a caller doesn't allow of a program with these needs: that it keeps bytes that aren't the
/// user's own, or else what it may do. `AllocError` means that an allocation failed.
fn refusal_of(
    alloc: Global,
    needs: &Needs,
    remarks: Remarks,
    own: &[Area],
    allowed: u32,
) -> Result<Option<CRefusal>, AllocError>
    ensures { IfOk result (λ o. MatchOption o
        (MayBeTakenIn own.now allowed needs.now.keep.items remarks)
        (IsIntakeRefusal own.now allowed needs.now.keep.items remarks)) }
{
    if let Some(byte) = kept_outside(alloc, &needs.keep, own)? {
        return Ok(Some(refused(REFUSED_KEEPS_OUTSIDE, byte)));
    }
    Ok(deed_refused(remarks, allowed))
}

/// The first thing that a program may do and that isn't allowed.
fn deed_refused(remarks: Remarks, allowed: u32) -> Option<CRefusal>
    ensures { MatchOption result (AllowsDeeds allowed remarks) (IsDeedRefused allowed remarks) }
{
    if let Some(place) = remarks.hangs {
        if allowed & ALLOW_HANGING == 0 {
            return Some(refused(REFUSED_MAY_HANG, place.address));
        }
    }
    if let Some(address) = remarks.interrupts {
        if allowed & ALLOW_INTERRUPTING == 0 {
            return Some(refused(REFUSED_INTERRUPTS, address));
        }
    }
    if let Some(address) = remarks.ends_chaining {
        if allowed & ALLOW_ENDING_CHAINS == 0 {
            return Some(refused(REFUSED_ENDS_CHAINING, address));
        }
    }
    None
}

/// The answer about needs and about what the program may do, without the lists.
fn needs_for_c(needs: &Needs, remarks: Remarks) -> CNeeded
    requires { IsMerged needs.now.keep.items }
    ensures { result ≡ needs_for_c (listed needs.now) remarks }
{
    let (may_hang, hangs_at, hangs_entered) = match remarks.hangs {
        Some(place) => (1, place.address, entry_number(place.entered)),
        None => (0, 0, 0),
    };
    CNeeded {
        extent_count: needs.extents.len(),
        fetch_count: needs.fetch.len(),
        store_count: needs.store.len(),
        keep_count: needs.keep.len(),
        kept_len: kept_len(&needs.keep),
        storage_len: needs.storage_len,
        hangs_at,
        interrupts_at: remarks.interrupts.unwrap_or(0),
        ends_chaining_at: remarks.ends_chaining.unwrap_or(0),
        mask: needs.mask.byte(),
        may_hang,
        interrupts: u8::from(remarks.interrupts.is_some()),
        ends_chaining: u8::from(remarks.ends_chaining.is_some()),
        hangs_entered,
        ..NO_NEEDS
    }
}

/// Whether each list has room, and `kept` for so many bytes.
fn have_room(
    needs: &Needs,
    kept_len: usize,
    extents: &[Extent],
    fetch: &[Area],
    store: &[Area],
    keep: &[Area],
    kept: &[u8],
) -> bool
    requires { kept_len ≡ total_len needs.now.keep.items }
    ensures { IsTrue result
        ↔ HaveRoomForNeeds (listed needs.now) extents.now fetch.now store.now keep.now kept.now }
{
    needs.extents.len() <= extents.len()
        && needs.fetch.len() <= fetch.len()
        && needs.store.len() <= store.len()
        && needs.keep.len() <= keep.len()
        && kept_len <= kept.len()
}

/// Writes the bytes of storage in these areas, and leaves the rest of the room as it is.
fn copy_kept_bytes(asked: &CJob<'_>, keep: &[Area], kept: &mut [u8])
    requires right { HasNoFault asked.now }
    requires inside { All (IsInside asked.now.storage.now) keep.now }
    requires room { total_len keep.now ≤ length kept.old }
    ensures copied { StandFirst (bytes_in asked.now.storage.now keep.now) kept.old kept.new }
    ensures held { HoldsAreas asked.now.storage.now keep.now kept.new }
{
    // a job without a fault has no storage that is too large
    let storage = Storage::new(or_empty(asked.storage)).unwrap();
    // all areas lie in storage, and there is room for them
    let _count = copy_kept(&storage, keep, kept).unwrap();
}

/// The bytes that the program that C asks about keeps: all that a first look is for.
fn kept_of(alloc: Global, asked: &CJob<'_>) -> Result<FoundKept, Refusal>
    ensures answer { IfOk result (IsFoundKept asked.now) }
    ensures right { OnOk result (HasNoFault asked.now) }
    ensures refusal { IfErr result (IsRefusal (HasTooManyOpenly asked.now) asked.now) }
{
    let ready = make_ready(alloc, asked)?;
    let job = ready.job(asked);
    let open = OpenJob::of(alloc, &job)?;
    let opened = open.job();
    let survey = survey(alloc, &opened)?;
    match survey.verdict() {
        Verdict::Yes => Ok(FoundKept::Kept(kept_from(alloc, &survey)?)),
        Verdict::No { address, reason } => Ok(FoundKept::NoJob { address, reason }),
    }
}

/// What the open job shows of the program that C asks about.
fn needs_of(alloc: Global, asked: &CJob<'_>) -> Result<FoundNeeds, Refusal>
    ensures answer { IfOk result (IsFoundNeeds asked.now) }
    ensures right { OnOk result (HasNoFault asked.now) }
    ensures refusal { IfErr result (IsRefusal (HasTooManyOpenly asked.now) asked.now) }
{
    let ready = make_ready(alloc, asked)?;
    let job = ready.job(asked);
    let open = OpenJob::of(alloc, &job)?;
    let opened = open.job();
    let survey = survey(alloc, &opened)?;
    match survey.verdict() {
        Verdict::Yes => {
            let needs = needs_from(alloc, &opened, &survey)?;
            Ok(FoundNeeds::Needed(needs, remarks_from(alloc, &survey)?))
        }
        Verdict::No { address, reason } => Ok(FoundNeeds::NoJob { address, reason }),
    }
}
