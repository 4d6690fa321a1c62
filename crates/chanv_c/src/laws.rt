//! The laws of what C asks: each is the contract of a function that does nothing, so that it is
//! proved.

ghost use Rattle.chanv_c.specs.Faults.{RightHasNoFault};
ghost use Rattle.chanv_c.specs.Job.{AskedIsOne};

/// A struct of C asks about a single job, and every field counts.
#[tactic(auto, using(crate::proofs::Jobs::asked_is_one))]
pub(crate) fn asked_is_one()
    ensures { AskedIsOne }
{}

/// A job within all bounds has no fault, so it gets an answer.
#[tactic(auto, using(crate::proofs::Refusals::right_has_no_fault))]
pub(crate) fn right_has_no_fault()
    ensures { RightHasNoFault }
{}
