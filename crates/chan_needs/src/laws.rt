//! The laws of needs, of programs side by side, and of a supervisor: each is the contract of a
//! function that does nothing, so that it is proved.

ghost use Rattle.chan_needs.specs.SideBySide.{ConflictIsHarm, MayRunTogether, SafeSideBySide};
ghost use Rattle.chan_needs.specs.History.{GoesOnToStorage, StaysWell};
ghost use Rattle.chan_needs.specs.Needs.{AskedOnce, LeastJob, NeededMaskIsEnough, NeededMaskIsOne};
ghost use Rattle.chan_needs.specs.Needs.{NoJobWillDo, OpenJobGrantsMore, SafeIsGranted};
ghost use Rattle.chan_needs.specs.Start.{ListedIsExact, OneAnswer, RememberedIsFit};
ghost use Rattle.chan_needs.specs.Listed.{CompatibleByJobs};
ghost use Rattle.chan_needs.specs.Asked.{AskedMayStart, EachMayLeave, EachMayStart, EachMayStep};
ghost use Rattle.chan_needs.specs.Asked.{FitIsAsked, HistoryBegins, OthersMayChange};
ghost use Rattle.chan_needs.specs.Remembered.{NamedIsFirst};
ghost use Rattle.chan_needs.specs.Staying.{AnswerStays, HeldStaysTrue, NeedsStay};
ghost use Rattle.chan_needs.specs.Supervised.{CanBeSupervised, LastingKeeps, LastingWrites};
ghost use Rattle.chan_needs.specs.Supervised.{SupervisedGoesOn, SupervisedStaysWell};

/// In each situation of every history each program in flight is safe, and its guarded bytes are as
/// they were.
#[tactic(auto, using(crate::proofs::History::stays_well))]
pub(crate) fn stays_well()
    ensures { StaysWell }
{}

/// Two compatible jobs with valid masks are both safe when they run at once.
#[tactic(auto, using(crate::proofs::SideBySide::safe_side_by_side))]
pub(crate) fn safe_side_by_side()
    ensures { SafeSideBySide }
{}

/// Where one of two programs may store over a byte that is guarded by the other, some run of both
/// changes a byte that the other uses: to refuse such a pair is no false alarm.
#[tactic(auto, using(crate::proofs::Conflicting::conflict_is_harm))]
pub(crate) fn conflict_is_harm()
    ensures { ConflictIsHarm }
{}

/// Any two programs may run side by side, by steps of either.
#[tactic(auto, using(crate::proofs::Possible::may_run_together))]
pub(crate) fn may_run_together()
    ensures { MayRunTogether }
{}

/// The open job grants all that any job of its program grants.
pub(crate) fn open_job_grants_more()
    ensures { OpenJobGrantsMore }
{}

/// A proper job has a yes exactly if the open job of its program has a yes and the job grants the
/// needs.
pub(crate) fn least_job()
    ensures { LeastJob }
{}

/// If the open job has a yes, a job that grants the needs has a yes over every storage of the same
/// length that is equal in every kept byte.
pub(crate) fn asked_once()
    ensures { AskedOnce }
{}

/// A job's mask serves exactly if the needed mask is at least as strict.
pub(crate) fn needed_mask_is_enough()
    ensures { NeededMaskIsEnough }
{}

/// There is at most one needed mask.
pub(crate) fn needed_mask_is_one()
    ensures { NeededMaskIsOne }
{}

/// If the open job has a no, no proper job of the program has a yes.
pub(crate) fn no_job_will_do()
    ensures { NoJobWillDo }
{}

/// Every run of a proper job is safe and the job is steady exactly if the open job has a yes and
/// the job grants the needs.
pub(crate) fn safe_is_granted()
    ensures { SafeIsGranted }
{}

/// Two programs are compatible exactly if two proper jobs of them, each with a yes, are.
#[tactic(auto, using(crate::proofs::Compatible::compatible_by_jobs))]
pub(crate) fn compatible_by_jobs()
    ensures { CompatibleByJobs }
{}

/// A program whose open job has a yes may start under a proper job that grants its needs while
/// storage holds the kept bytes, if it is compatible with each program in flight.
pub(crate) fn asked_may_start()
    ensures { AskedMayStart }
{}

/// A program that is remembered, and a job that fits what is remembered of it, satisfy every
/// premise of `asked_may_start`.
pub(crate) fn fit_is_asked()
    ensures { FitIsAsked }
{}

/// A job that grants the needs over storage that holds the kept bytes fits what is remembered of
/// its program, if the program may run beside each program in flight.
pub(crate) fn remembered_is_fit()
    ensures { RememberedIsFit }
{}

/// If the needs of a program are listed, a job grants what is listed exactly if it grants the
/// needs, and two programs are compatible by their lists exactly if they are.
#[tactic(auto, using(crate::proofs::Needed::listed_is_exact))]
pub(crate) fn listed_is_exact()
    ensures { ListedIsExact }
{}

/// A history begins over any storage.
#[tactic(auto, using(crate::proofs::Possible::history_begins))]
pub(crate) fn history_begins()
    ensures { HistoryBegins }
{}

/// Others may change any bytes that no program in flight guards.
pub(crate) fn others_may_change()
    ensures { OthersMayChange }
{}

/// When others have written, storage holds exactly what they wrote.
#[tactic(auto, using(crate::proofs::Naming::goes_on_to_storage))]
pub(crate) fn goes_on_to_storage()
    ensures { GoesOnToStorage }
{}

/// Answers name the first program that keeps a byte, its least such byte, and the first byte that
/// has changed, and nothing else.
#[tactic(auto, using(crate::proofs::Naming::named_is_first))]
pub(crate) fn named_is_first()
    ensures { NamedIsFirst }
{}

/// The question before a start has one answer at most.
#[tactic(auto, using(crate::proofs::Answering::one_answer))]
pub(crate) fn one_answer()
    ensures { OneAnswer }
{}

/// A history can go on with the start of a program that may start.
pub(crate) fn each_may_start()
    ensures { EachMayStart }
{}

/// A history can go on with each step of a program in flight.
pub(crate) fn each_may_step()
    ensures { EachMayStep }
{}

/// A history can go on with the end of a program in flight.
pub(crate) fn each_may_leave()
    ensures { EachMayLeave }
{}

/// In each situation of a supervised history each program in flight is safe, and its guarded bytes
/// are as they were.
#[tactic(auto, using(crate::proofs::Supervising::supervised_stays_well))]
pub(crate) fn supervised_stays_well()
    ensures { SupervisedStaysWell }
{}

/// Each start and write that the calls allow can happen, and so can each step and end.
#[tactic(auto, using(crate::proofs::GoingOn::supervised_goes_on))]
pub(crate) fn supervised_goes_on()
    ensures { SupervisedGoesOn }
{}

/// A row that keeps nothing stands for a write that lasts into the area that it stores over, and
/// the write may begin when `check_write` names no program; while each question is about a table
/// with the row, no program that keeps a byte of the area starts, so others may write there at each
/// moment.
#[tactic(auto, using(crate::proofs::Lasting::lasting_writes))]
pub(crate) fn lasting_writes()
    ensures { LastingWrites }
{}

/// A row that stores over nothing stands for bytes that last, those of the area that it keeps, and
/// it may join the table when it is compatible with all programs there; while each question is
/// about a table with it, no program that stores over the area starts, and each start, step, end
/// and write leaves the bytes as they were.
#[tactic(auto, using(crate::proofs::Lasting::lasting_keeps))]
pub(crate) fn lasting_keeps()
    ensures { LastingKeeps }
{}

/// The laws on supervision aren't empty: it begins over any storage; a row without areas of its own
/// stands for its program; what is remembered, listed,
/// allowed and written follows from its parts; a list of all that is remembered has each program in
/// flight; and supervision goes on beside each program that the questions are about.
#[tactic(auto, using(crate::proofs::Possible::can_be_supervised))]
pub(crate) fn can_be_supervised()
    ensures { CanBeSupervised }
{}

/// If some job will do, needs depend on nothing in storage but its length and the kept bytes.
#[tactic(auto, using(crate::proofs::Staying::needs_stay))]
pub(crate) fn needs_stay()
    ensures { NeedsStay }
{}

/// What was remembered over one storage is true of each storage of the same length with the same
/// kept bytes.
#[tactic(auto, using(crate::proofs::Staying::held_stays_true))]
pub(crate) fn held_stays_true()
    ensures { HeldStaysTrue }
{}

/// The answer of `check_start` is the same over each storage of the same length that is equal where
/// the program keeps bytes: a yes survives each write to other bytes.
#[tactic(auto, using(crate::proofs::Staying::answer_stays))]
pub(crate) fn answer_stays()
    ensures { AnswerStays }
{}
