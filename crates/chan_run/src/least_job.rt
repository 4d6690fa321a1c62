//! The deck of an image of storage with the least job of its program.

ghost use Rattle.std.specs.Prelude.{◌≡◌, ◌+◌, ◌≤◌, ◌^◌, List, ℕ, length, IfErr, IfOk, IfSome, OnOk};
ghost use Rattle.std.specs.Prelude.{string_bytes};
ghost use Rattle.std.specs.List.{AllByRecursion};
ghost use Rattle.ckd_core.specs.Extents.{IsExtent};
ghost use Rattle.chan_deck.specs.PartsValue.{storage_with, value_of_parts};
ghost use Rattle.ccw_core.specs.Held.{bytes_held};
ghost use Rattle.chan_walk.specs.JobSurvey.{IsSurvey};
ghost use Rattle.chan_walk.specs.OpenJob.{AreOfOneProgram};
ghost use Rattle.chan_needs.specs.Listed.{AreNeeds, listed};
ghost use Rattle.chan_walk.specs.declared.job.Job.{Job};
ghost use Rattle.chan_args.specs.declared.image_options.RequestedJob.TheVariants as jobs;
ghost use Rattle.chan_run.specs.Image.{IsDeckText, IsProgramAt, IsProgramIn};
ghost use Rattle.chan_run.specs.NoJob.{HasNoLeastJob, IsExplainedOpenly};
ghost use Rattle.chan_run.specs.Output.{IsLeastText, extents_for, granting_just, unusual_limit};
ghost use Rattle.chan_deck.specs.DeckValue.{Spells};
ghost use Rattle.chan_deck.specs.Item.{IsAddress};
ghost use Rattle.chan_walk.specs.Job.{storage_of};
ghost use Rattle.chan_args.specs.declared.image_options.ImageOptions.{ImageOptions};
ghost use Rattle.ccw_core.specs.declared.ccw.TheConstants.{STORAGE_LIMIT};

use crate::deck_parts::{deck_parts, limit_in};
use crate::failure::Failure;
use ccw_core::{Area, Storage};
use chan_args::ImageOptions;
use chan_deck::{
    ImageBytes, Parts, UnreadNotes, image_advice, in_six_digits, parts_text, place_image, why_text,
};
use chan_needs::{Needs, needs_from, pairs_of};
use chan_walk::{Job, Limit, OpenJob, Reason, Survey, Verdict, WalkError, survey};
use chan_why::findings_from;
use ckd_core::{Extents, LAST_CYLINDER};
use std::alloc::{AllocError, Global};

/// Why there is no least job for a program.
#[derive(Drop)]
pub(crate) enum NoLeastJob {
    /// No job will do: the verdict on the open job is a no.
    NoJob {
        address: u32,
        reason: Reason,
        /// The explanation of that verdict, and notes on how to cure it.
        why: String,
    },
    /// Too many places are reachable, or memory ran out.
    Unknown(Failure),
}

impl From<AllocError> for NoLeastJob {
    ghost use Rattle.std.specs.Prelude.{◌≡◌};
    ghost use Rattle.chan_run.specs.declared.failure.Failure.TheVariants.{OutOfMemory};
    ghost use Rattle.chan_run.specs.declared.least_job.NoLeastJob.TheVariants.{Unknown};

    ghost from_gives = { λ _ none. none ≡ Unknown OutOfMemory };

    fn from(_error: AllocError) -> NoLeastJob {
        NoLeastJob::Unknown(Failure::OutOfMemory)
    }
}

/// The text of the deck that an image makes with the options and the least job of its program. The
/// first `given` bytes of the image were read, and zeros follow them; notes are added on others
/// that the program takes.
pub(crate) fn least_text(
    alloc: Global,
    options: &ImageOptions,
    image: &[u8],
    given: usize,
    unread: &mut UnreadNotes,
) -> Result<Vec<u8>, NoLeastJob>
    requires short { options.now.at + length image.now ≤ STORAGE_LIMIT }
    requires least { options.now.job ≡ jobs.Least }
    ensures text { IfOk result (λ text. IsDeckText options.now image.now text.items) }
    ensures none { IfErr result (HasNoLeastJob options.now image.now) }
{
    let needs = match needs_in(alloc, options, image, given, unread) {
        Ok(needs) => needs,
        Err(none) => return Err(none),
    };
    Ok(granting_text(alloc, &needs, deck_parts(options, image))?)
}

/// The text of the deck that these parts make, but for its job, which grants just what a program
/// needs.
pub(crate) fn granting_text(
    alloc: Global,
    needs: &Needs,
    parts: Parts<'_>,
) -> Result<Vec<u8>, AllocError>
    requires size { parts.at + length parts.image.now ≤ STORAGE_LIMIT }
    requires start { IsAddress parts.start }
    requires needs { (j : Job) × AreNeeds j (listed needs.now)
        × (length (storage_of j) ≤ STORAGE_LIMIT) }
    ensures { IfOk result (λ text.
        Spells text.items (granting_just (value_of_parts parts.entry) (listed needs.now))) }
{
    let runs = pairs_of(alloc, &needs.extents)?;
    let extents = extents_over(alloc, &runs)?;
    let fetch = in_six_digits(alloc, &needs.fetch)?;
    let store = in_six_digits(alloc, &needs.store)?;
    let granting = Parts {
        mask: needs.mask,
        extents: &extents,
        fetch: &fetch,
        store: &store,
        ..parts
    };
    parts_text(alloc, &granting)
}

/// The text of the deck with the least job of a job's program, which needs this. The deck's storage
/// has zeros behind the job's up to a multiple of 8.
pub(crate) fn least_deck_text(
    alloc: Global,
    job: &Job,
    needs: &Needs,
) -> Result<Vec<u8>, AllocError>
    requires { (k : Job) → AreOfOneProgram k job.now → AreNeeds k (listed needs.now) }
    ensures { IfOk result (λ text. IsLeastText job.now text.items) }
{
    let Some(image) = all_bytes(job.storage) else {
        return Err(AllocError);
    };
    let parts = Parts {
        limit: unusual_limit(job.limit),
        device: job.device,
        mask: job.mask,
        start: job.start,
        extents: job.extents,
        fetch: &[],
        store: &[],
        at: 0,
        image,
    };
    granting_text(alloc, needs, parts)
}

/// All bytes of storage; never `None`.
#[tactic(auto, using(crate::proofs::LeastLemmas::whole_range))]
fn all_bytes<'a>(storage: Storage<'a>) -> Option<&'a [u8]>
    ensures { IfSome result (λ bytes. bytes.now ≡ bytes_held storage.entry) }
{
    storage.range(0, storage.len())
}

/// A limit that isn't the usual one, which a deck has to say.
fn unusual_limit(limit: Limit) -> Option<Limit>
    ensures { result ≡ unusual_limit limit }
{
    if limit.get() == Limit::usual().get() {
        None
    } else {
        Some(limit)
    }
}

/// What the program needs that the options find in an image.
fn needs_in(
    alloc: Global,
    options: &ImageOptions,
    image: &[u8],
    given: usize,
    unread: &mut UnreadNotes,
) -> Result<Needs, NoLeastJob>
    requires { options.now.at + length image.now ≤ STORAGE_LIMIT }
    ensures ok { IfOk result (λ n. (j : Job) → IsProgramIn options.now image.now j
        → AreNeeds j (listed n)) }
    ensures some { OnOk result ((j : Job) × IsProgramIn options.now image.now j) }
    ensures err { IfErr result (HasNoLeastJob options.now image.now) }
{
    let bytes = place_image(alloc, options.at as usize, image)?;
    // it isn't too large, since the image ends in storage
    let storage = Storage::new(&bytes).unwrap();
    let job = job_at(options, storage, options.start);
    image_needs(alloc, &job, &bytes_read(options, given), unread)
}

/// The job of the program that begins at an address in storage, as the options have it.
pub(crate) fn job_at<'a>(options: &'a ImageOptions, storage: Storage<'a>, start: u32) -> Job<'a>
    ensures { (image : List ℕ) → bytes_held storage.entry ≡ storage_with options.entry.now.at image
        → IsProgramAt options.entry.now image start result }
{
    Job {
        storage,
        start,
        device: options.device,
        mask: options.mask,
        extents: &options.extents,
        fetch: &options.fetch,
        store: &options.store,
        limit: limit_in(options).unwrap_or(Limit::usual()),
    }
}

/// What an image holds of which so many bytes were read.
pub(crate) fn bytes_read(options: &ImageOptions, given: usize) -> ImageBytes<'_> {
    ImageBytes {
        area: Area {
            start: options.at,
            len: u32::try_from(given).unwrap_or(u32::MAX),
        },
        gaps: options.gaps.as_slice(),
    }
}

/// What the program of a job needs; `read` is what its image holds, and notes are added on other
/// bytes that the program takes.
fn image_needs(
    alloc: Global,
    job: &Job<'_>,
    read: &ImageBytes<'_>,
    unread: &mut UnreadNotes,
) -> Result<Needs, NoLeastJob>
    ensures ok { IfOk result (λ n. (j : Job) → AreOfOneProgram j job.now
        → AreNeeds j (listed n)) }
    ensures err { IfErr result (λ e. (o : ImageOptions) (image : List ℕ)
        → IsProgramIn o image job.now → HasNoLeastJob o image e) }
{
    let open = OpenJob::of(alloc, job)?;
    let open_job = open.job();
    let survey = match survey(alloc, &open_job) {
        Ok(survey) => survey,
        Err(WalkError::TooManyPlaces) => return Err(NoLeastJob::Unknown(Failure::TooManyPlaces)),
        Err(WalkError::Memory) => return Err(NoLeastJob::Unknown(Failure::OutOfMemory)),
    };
    match survey.verdict() {
        Verdict::No { address, reason } => Err(NoLeastJob::NoJob {
            address,
            reason,
            why: open_explanation(alloc, &open_job, survey, read)?,
        }),
        Verdict::Yes => {
            unread.add(survey.looks(), read)?;
            Ok(needs_from(alloc, &open_job, &survey)?)
        }
    }
}

/// The explanation of the verdict on an open job that was surveyed, with notes and how to cure it;
/// `read` is what the image holds.
fn open_explanation(
    alloc: Global,
    open_job: &Job,
    survey: Survey,
    read: &ImageBytes<'_>,
) -> Result<String, AllocError>
    requires { IsSurvey open_job.now survey }
    ensures { IfOk result (λ text. IsExplainedOpenly open_job.now (string_bytes text)) }
{
    let findings = findings_from(alloc, open_job, survey, None)?;
    let why = why_text(alloc, &findings, false)?;
    let advice = image_advice(alloc, &findings, read)?;
    Ok(format!(in alloc; "{why}{advice}")?)
}

/// The extents that grant some runs of cylinders: all of the device's where there is none.
pub(crate) fn extents_over(alloc: Global, runs: &[(u16, u16)]) -> Result<Extents, AllocError>
    requires { AllByRecursion IsExtent runs.now }
    ensures { IfOk result (λ extents. extents ≡ extents_for runs.now) }
{
    let runs = if runs.is_empty() {
        &[(0, LAST_CYLINDER)]
    } else {
        runs
    };
    Extents::new(alloc, runs).map_err(|_| AllocError)
}
