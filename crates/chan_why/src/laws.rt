//! The laws of programs that may hang: each is the contract of a function that does nothing, so
//! that it is proved.

ghost use Rattle.chan_why.specs.Hang.{EndlessMayHang, HangGoesOn, HangLasts, HangStays, HangsAlike};
ghost use Rattle.chan_why.specs.Hang.{OneFirstHang, SomeRunEnds, StepsOnUnlessItEnds};

/// Where the verdict is yes, after a moment of a run among others at a place that can't end, no
/// later place can end.
#[tactic(auto, using(crate::proofs::Hanging::hang_lasts))]
fn hang_lasts()
    ensures { HangLasts }
{}

/// Where the verdict is yes, after a moment of a run among others at a place that can't end, some
/// step leads to a place from each later moment at a place, over storage of bytes.
fn hang_goes_on()
    ensures { HangGoesOn }
{}

/// From each reachable place of a proper job that can end, some run comes to a place that ends the
/// program.
#[tactic(auto, using(crate::proofs::Hanging::some_run_ends))]
fn some_run_ends()
    ensures { SomeRunEnds }
{}

/// Where the verdict is yes, at each moment of a run among others at a place, over storage of
/// bytes, some step leads to a place exactly if this place doesn't end the program.
#[tactic(auto, using(crate::proofs::Hanging::steps_on_unless_it_ends))]
fn steps_on_unless_it_ends()
    ensures { StepsOnUnlessItEnds }
{}

/// A reachable place that can't end is one at which the program may hang.
fn endless_may_hang()
    ensures { EndlessMayHang }
{}

/// A program with a yes may hang at the same places over each storage of the same length that is
/// equal in every guarded byte.
fn hang_stays()
    ensures { HangStays }
{}

/// A program may hang at the same places under each job with a yes.
fn hangs_alike()
    ensures { HangsAlike }
{}

/// A program has one first place at which it may hang, or none.
#[tactic(auto, using(crate::proofs::FirstHang::one_first_hang))]
fn one_first_hang()
    ensures { OneFirstHang }
{}
