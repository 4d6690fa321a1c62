//! The laws of the machine: each is the contract of a function that does nothing, so that it is
//! proved.

ghost use Rattle.chan_walk.specs.Alarm.{EachPathIsRun, EachPathShows, GuardedIsUsed};
ghost use Rattle.chan_walk.specs.Alarm.{HeadlineAloneIsEnough, NoFalseAlarm, SafeIsYes, StaysSafe};
ghost use Rattle.chan_walk.specs.VerdictBytes.{FaultyStartIsAll, SafeSinceAsked, SameVerdict};
ghost use Rattle.chan_walk.specs.VerdictBytes.{VerdictByteIsGuarded, VerdictByteIsOfCcw};
ghost use Rattle.chan_walk.specs.VerdictBytes.{YesByGuarded, YesStays};
ghost use Rattle.chan_walk.specs.Answers.{FewIsNotMany};
ghost use Rattle.chan_walk.specs.Free.{MachineIsFree, SeekIsFree, SettingCanBe, StoredIsThere};
ghost use Rattle.chan_walk.specs.Harm.{HarmlessIsSafe, NoIsHarm, ShownBreaks};
ghost use Rattle.chan_walk.specs.Headline.{GathersArguments, GuardedStays, StaysReachable};
ghost use Rattle.chan_walk.specs.Headline.{YesIsSafe, YesIsSafeAmong};
ghost use Rattle.chan_walk.specs.Offence.{FirstIsVerdict};
ghost use Rattle.chan_walk.specs.OpenJob.{MoreIsYes, OpenJobIsOpen, SameUnderYes};
ghost use Rattle.chan_walk.specs.Order.{NumbersIncrease};
ghost use Rattle.chan_walk.specs.RealRuns.{EachRunIsReal, EarlyRunIsRun, YesIsSafeForReal};
ghost use Rattle.chan_walk.specs.Verdict.{OneVerdict};

/// Where the verdict is yes, guarded bytes never change, in any run among others.
#[tactic(auto, using(crate::proofs::Machine::Yes::guarded_stays))]
pub(crate) fn guarded_stays()
    ensures { GuardedStays }
{}

/// Where the verdict is yes, every place of every run among others is reachable.
#[tactic(auto, using(crate::proofs::Machine::Yes::stays_reachable))]
pub(crate) fn stays_reachable()
    ensures { StaysReachable }
{}

/// Where the verdict is yes, what a seek under way has gathered, followed by the rest of its chain,
/// is the allowed argument of a reachable seek.
#[tactic(auto, using(crate::proofs::Machine::Yes::gathers_arguments))]
pub(crate) fn gathers_arguments()
    ensures { GathersArguments }
{}

/// Where the verdict is yes and the mask is valid, every run is safe and the job is steady.
#[tactic(auto, using(crate::proofs::Machine::Yes::yes_is_safe))]
pub(crate) fn yes_is_safe()
    ensures { YesIsSafe }
{}

/// Where the verdict is yes and the mask is valid, every run among others is safe, and the job is
/// steady in these runs.
#[tactic(auto, using(crate::proofs::Machine::Yes::yes_is_safe_among))]
pub(crate) fn yes_is_safe_among()
    ensures { YesIsSafeAmong }
{}

/// Where the verdict is yes and the mask is valid, every run for real is safe, and the job is
/// steady in these runs: the channel may fetch early, and store late and in pieces, and a seek that
/// fails may leave the arm anywhere.
#[tactic(auto, using(crate::proofs::Machine::Real::yes_is_safe_for_real))]
pub(crate) fn yes_is_safe_for_real()
    ensures { YesIsSafeForReal }
{}

/// Each run among others is a run for real.
#[tactic(auto, using(crate::proofs::Machine::Real::each_run_is_real))]
pub(crate) fn each_run_is_real()
    ensures { EachRunIsReal }
{}

/// Where the verdict is yes, the runs whose CCWs are fetched early are the runs among others.
#[tactic(auto, using(crate::proofs::Machine::Early::early_run_is_run))]
pub(crate) fn early_run_is_run()
    ensures { EarlyRunIsRun }
{}

/// Each path is the places of a run that begins at the first cylinder of the first extent and
/// stores only what storage already held.
#[tactic(auto, using(crate::proofs::Machine::Paths::each_path_is_run))]
pub(crate) fn each_path_is_run()
    ensures { EachPathIsRun }
{}

/// Each path of a proper job to a place that offends is a witness: a run over exactly its places,
/// on which nothing changes before the last, shows the reason there.
#[tactic(auto, using(crate::proofs::Machine::Alarm::each_path_shows))]
pub(crate) fn each_path_shows()
    ensures { EachPathShows }
{}

/// Where a CCW is carried out, whichever bytes the device moves, up to the count, wherever the arm
/// may then be and whichever mask may be in force: some step does just that, and ends the program
/// or leads to any place that may follow; a fetch may take the whole data range.
#[tactic(auto, using(crate::proofs::Machine::Free::machine_is_free))]
pub(crate) fn machine_is_free()
    ensures { MachineIsFree }
{}

/// All that `machine_is_free` asks for holds of a seek at address 0 that takes its argument: the
/// arm goes to cylinder 10, and the program to the next CCW.
#[tactic(auto, using(crate::proofs::Machine::Free::seek_is_free))]
pub(crate) fn seek_is_free()
    ensures { SeekIsFree }
{}

/// What is stored is in storage afterwards.
#[tactic(auto, using(crate::proofs::Machine::Free::stored_is_there))]
pub(crate) fn stored_is_there()
    ensures { StoredIsThere }
{}

/// Where a CCW is carried out, the cylinder or mask that a row of a path says is set there can be
/// set by a step: a cylinder if one CCW has the whole argument, a byte if it is a mask.
#[tactic(auto, using(crate::proofs::Machine::Free::setting_can_be))]
pub(crate) fn setting_can_be()
    ensures { SettingCanBe }
{}

/// There is no answer if too many places are reachable.
pub(crate) fn few_is_not_many()
    ensures { FewIsNotMany }
{}

/// A job has one verdict at most.
#[tactic(auto, using(crate::proofs::Algorithms::OneVerdict::one_verdict))]
pub(crate) fn one_verdict()
    ensures { OneVerdict }
{}

/// The first of a job's offences is the verdict; where there is none, the verdict is yes.
pub(crate) fn first_is_verdict()
    ensures { FirstIsVerdict }
{}

/// Where the verdict on a proper job is no, a run comes to a place with its address and shows its
/// reason there.
#[tactic(auto, using(crate::proofs::Machine::Alarm::no_false_alarm))]
pub(crate) fn no_false_alarm()
    ensures { NoFalseAlarm }
{}

/// Every run is safe and the job is steady exactly if no run does harm.
pub(crate) fn harmless_is_safe()
    ensures { HarmlessIsSafe }
{}

/// A run that shows a reason goes on to a moment that does harm, and breaks a promise in the way of
/// the reason.
#[tactic(auto, using(crate::proofs::Machine::Harm::shown_breaks))]
pub(crate) fn shown_breaks()
    ensures { ShownBreaks }
{}

/// Where the verdict on a proper job is no, some run does harm.
pub(crate) fn no_is_harm()
    ensures { NoIsHarm }
{}

/// A proper job that is safe in every run and steady has the verdict yes.
pub(crate) fn safe_is_yes()
    ensures { SafeIsYes }
{}

/// Where the verdict on a proper job is yes, the guarded bytes are exactly those that some run
/// uses, and no run among others uses any other byte.
pub(crate) fn guarded_is_used()
    ensures { GuardedIsUsed }
{}

/// A job that is safe in every run and steady is so among others too, if they change no byte that
/// some run of it uses.
#[tactic(auto, using(crate::proofs::Machine::Exact::stays_safe))]
pub(crate) fn stays_safe()
    ensures { StaysSafe }
{}

/// A verifier that says yes only to safe and steady jobs says yes to a proper job only if the
/// verdict is yes; so up to the limit on places, no verifier that is right says yes more often.
pub(crate) fn headline_alone_is_enough()
    ensures { HeadlineAloneIsEnough }
{}

/// The own fault of a place is the first that applies of a table along which the reasons' numbers
/// increase.
pub(crate) fn numbers_increase()
    ensures { NumbersIncrease }
{}

/// Over a storage of the same length that is equal in every verdict byte, the reachable places and
/// the verdict are the same.
pub(crate) fn same_verdict()
    ensures { SameVerdict }
{}

/// Where the first CCW has an own fault, and begins neither a seek nor Set File Mask, the verdict
/// bytes are its eight bytes.
pub(crate) fn faulty_start_is_all()
    ensures { FaultyStartIsAll }
{}

/// Each verdict byte belongs to a reachable CCW, unless a reachable place begins a seek or Set File
/// Mask.
#[tactic(auto, using(crate::proofs::Algorithms::FaultyStart::verdict_byte_is_of_ccw))]
pub(crate) fn verdict_byte_is_of_ccw()
    ensures { VerdictByteIsOfCcw }
{}

/// Where the verdict is yes, each verdict byte is guarded.
pub(crate) fn verdict_byte_is_guarded()
    ensures { VerdictByteIsGuarded }
{}

/// Where the verdict is yes, it is yes over every storage of the same length that is equal in every
/// guarded byte.
pub(crate) fn yes_by_guarded()
    ensures { YesByGuarded }
{}

/// Where the verdict is yes and the mask is valid, the question may come before the start: if from
/// then on nothing else writes a guarded byte, every run is safe and the job is steady, over what
/// storage holds at the start.
pub(crate) fn safe_since_asked()
    ensures { SafeSinceAsked }
{}

/// Where the verdict is yes, it is yes over storage at any moment of any run among others, so the
/// program may start again.
#[tactic(auto, using(crate::proofs::Machine::Again::yes_stays))]
pub(crate) fn yes_stays()
    ensures { YesStays }
{}

/// If a job has a yes, each job of the program that grants at least as much has a yes.
pub(crate) fn more_is_yes()
    ensures { MoreIsYes }
{}

/// Two jobs of one program, each with a yes, have the same reachable places and the same guarded
/// bytes.
pub(crate) fn same_under_yes()
    ensures { SameUnderYes }
{}

/// The open job that a job's program is asked about is the one by which its needs are defined.
pub(crate) fn open_job_is_open()
    ensures { OpenJobIsOpen }
{}
