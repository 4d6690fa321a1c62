//! What a store changes: the place to which a guarded byte belongs, and the path to it.

ghost use Rattle.std.specs.Prelude.{◌≡◌, length, IfOk};
ghost use Rattle.chan_why.specs.SecondPath.{IsSecondPathEnd};
ghost use Rattle.chan_why.specs.Evidence.{IsEvidenceAt, IsSecondPath};
ghost use Rattle.chan_why.specs.Finder.{IsIndex, TakesByte};
ghost use Rattle.chan_walk.specs.JobSurvey.{IsSurvey};
ghost use Rattle.chan_walk.specs.Look.{AreLooks, places_of_looks};
ghost use Rattle.chan_why.specs.Path.{IsFirstWhere};
ghost use Rattle.chan_walk.specs.declared.job.Job.{Job};
ghost use Rattle.chan_walk.specs.declared.place.Place as places;

use crate::finder::Finder;
use crate::path::{Path, path_at};
use chan_walk::{Evidence, Look, Place, Survey};
use std::alloc::{AllocError, Global};

/// The index of the first place with an address.
#[tactic(auto, using(crate::proofs::Finding::none_at_all))]
fn first_at(looks: &[Look], address: u32) -> Option<usize>
    ensures { IsFirstWhere (λ q. q.address ≡ address) (places_of_looks looks.now) result }
{
    for at in 0..looks.len() {
        if looks[at].place().address == address {
            return Some(at);
        }
    }
    None
}

/// The index of the place to which the second path leads.
fn changed_place(looks: &[Look], finder: &Finder, evidence: &Evidence) -> Option<usize>
    ensures { (j : Job) → AreLooks j looks.now
        → IsIndex (TakesByte looks.now (length looks.now)) finder.now.takers
        → IsSecondPathEnd j evidence.now (places_of_looks looks.now) result }
{
    match evidence {
        Evidence::ChangesCcw { ccw, .. } => first_at(looks, *ccw),
        Evidence::ChangesArgument { byte, .. } => finder.taker(*byte),
        _ => None,
    }
}

/// The path to what is changed; no places if the evidence shows no change.
pub(crate) fn second_path(
    alloc: Global,
    survey: &Survey,
    finder: &Finder,
    evidence: &Evidence,
) -> Result<Vec<Place>, AllocError>
    requires shown { (j : Job) × IsSurvey j survey.now
        × ((p : places.Place) × IsEvidenceAt j p evidence.now) }
    requires takers { IsIndex (TakesByte survey.now.looks (length survey.now.looks))
        finder.now.takers }
    ensures { IfOk result (λ path. (j : Job) → IsSurvey j survey.now → (p : places.Place)
        → IsEvidenceAt j p evidence.now → IsSecondPath j evidence.now path.items) }
{
    match changed_place(survey.looks(), finder, evidence) {
        Some(at) => {
            let Path { places, .. } = path_at(alloc, survey, at)?;
            Ok(places)
        }
        None => Ok(Vec::new(alloc)),
    }
}
