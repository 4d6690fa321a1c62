//! What a program looks like: how many CCWs it has, and its first commands. Tests hold the text.

ghost use Rattle.std.specs.Prelude.{IfOk};
ghost use Rattle.chan_deck.specs.Shape.{HasPlaceCount};
ghost use Rattle.chan_walk.specs.JobSurvey.{IsSurvey};
ghost use Rattle.chan_walk.specs.declared.job.Job.{Job};

use chan_walk::{Look, Survey};
use std::alloc::{AllocError, Global};
use std::fmt::Write as _;

/// How many commands are named.
const MOST_NAMES: usize = 4;

/// How many CCWs a program has that was surveyed, and the names of its first commands, in the order
/// in which the program comes to them, after a space; and how many places it has. An error means
/// that an allocation failed.
pub fn shape_of(alloc: Global, survey: Survey) -> Result<(String, usize), AllocError>
    requires { (j : Job) × IsSurvey j survey }
    ensures { (j : Job) → IsSurvey j survey
        → IfOk result (λ shape. HasPlaceCount j shape.1) }
{
    let names = first_names(alloc, survey.looks())?;
    let (looks, _offences) = survey.into_parts()?;
    let ccws = looks
        .chunk_by(|one, other| one.place().address == other.place().address)
        .filter(|run| run.first().is_some_and(|look| look.ccw().is_some()))
        .count();
    let noun = if ccws == 1 { "CCW" } else { "CCWs" };
    let text = format!(in alloc; " {ccws} {noun}{names}")?;
    Ok((text, looks.len()))
}

/// The names of the first commands, each after a comma, the first after a colon.
fn first_names(alloc: Global, looks: &[Look]) -> Result<String, AllocError> {
    let mut names = String::new(alloc);
    let mut named: Vec<u32> = Vec::new(alloc);
    for look in looks {
        let address = look.place().address;
        if let Some(command) = look.command() {
            if named.len() < MOST_NAMES && !named.contains(&address) {
                let mark = if named.is_empty() { ":" } else { "," };
                let name = command.name();
                write!(names, "{mark} {name}")?;
                named.push(address)?;
            }
        }
    }
    Ok(names)
}
