//! What a program needs of each job that it runs under, and what it keeps.

ghost use Rattle.std.specs.Prelude.{◌≡◌, ◌↔◌, ◌+◌, ◌^◌, ℕ, Some, map, IfOk, OnOk};
ghost use Rattle.std.specs.List.{All};
ghost use Rattle.chan_walk.specs.Fault.{IsClear};
ghost use Rattle.chan_walk.specs.Guard.{AddsBytes};
ghost use Rattle.chan_walk.specs.JobSurvey.{IsSurvey};
ghost use Rattle.chan_walk.specs.Look.{IsLook};
ghost use Rattle.chan_walk.specs.Offence.{first_verdict};
ghost use Rattle.chan_walk.specs.OpenJob.{AreOfOneProgram};
ghost use Rattle.chan_areas.specs.Merged.{AreExactly, EndsBelow};
ghost use Rattle.chan_needs.specs.Listed.{AreLooksOfYes, AreNeeds, IsSought};
ghost use Rattle.chan_needs.specs.Needs.{IsKept};
ghost use Rattle.chan_needs.specs.Listed.{SeeksCylinder, listed, pair, listed_in, run_of};
ghost use Rattle.chan_walk.specs.declared.job.Job.{Job};
ghost use Rattle.chan_walk.specs.declared.verdict.Verdict.TheVariants.{Yes};

use crate::layout::{Extent, NeedLists};
use crate::needed_mask::needed_mask;
use byteorder::{BigEndian, ByteOrder};
use ccw_core::Area;
use chan_areas::{Areas, Merged};
use chan_walk::{Direction, Job, Look, Survey, data_moved, guarded_areas};
use ckd_core::{FileMask, MaskClass};
use std::alloc::{AllocError, Global};

/// Exactly what a program needs of each job that it runs under, and the bytes that it keeps. A job
/// of the program has the verdict yes exactly if it grants all this.
#[derive(Drop)]
pub struct Needs {
    /// How many bytes storage has: the answer holds over every storage of this length with the same
    /// kept bytes.
    pub storage_len: u32,
    /// The strictest mask that serves: it inhibits no command that may begin, and each byte that
    /// Set File Mask may take is at least as strict.
    pub mask: FileMask,
    /// The cylinders that seeks go to: runs of first and last without a gap, rising.
    pub extents: Vec<Extent>,
    /// The bytes that are fetched: areas without a gap, rising.
    pub fetch: Vec<Area>,
    /// The bytes that are stored into: areas without a gap, rising.
    pub store: Vec<Area>,
    /// The bytes that may not change while the program runs: areas without a gap, rising.
    pub keep: Vec<Area>,
}

impl Needs {
    /// The lists of these needs.
    pub fn lists(&self) -> NeedLists
        ensures { listed_in result ≡ listed self.now }
    {
        NeedLists {
            extents: &self.extents,
            fetch: &self.fetch,
            store: &self.store,
            keep: &self.keep,
            storage_len: self.storage_len,
            mask: self.mask.byte(),
        }
    }
}

/// The needs of a program, from a job with a yes and its own survey. Each job of the program that
/// has a yes gives the same needs; the open job has a yes if any job has. `AllocError` comes if a
/// growth was refused.
///
/// With n places, the cost is n log n.
pub fn needs_from(alloc: Global, job: &Job, survey: &Survey) -> Result<Needs, AllocError>
    requires survey { IsSurvey job.now survey.now }
    requires yes { first_verdict survey.now.offences ≡ Yes }
    ensures { IfOk result (λ n. (j : Job) → AreOfOneProgram j job.now → AreNeeds j (listed n)) }
{
    let looks = survey.looks();
    let sought = sought(alloc, looks)?;
    Ok(Needs {
        storage_len: job.storage.len(),
        mask: needed_mask(looks),
        extents: runs(alloc, &sought)?,
        fetch: data_moved(alloc, looks, Direction::Fetch)?.into_areas()?,
        store: data_moved(alloc, looks, Direction::Store)?.into_areas()?,
        keep: guarded_areas(alloc, survey.guard())?.into_areas()?,
    })
}

/// The bytes that a program keeps, as `needs_from` lists them, from the survey of a job with a yes.
/// `AllocError` comes if a growth was refused.
pub fn kept_from(alloc: Global, survey: &Survey) -> Result<Vec<Area>, AllocError>
    ensures { IfOk result (λ v. (j k : Job) → IsSurvey k survey.now
        → first_verdict survey.now.offences ≡ Yes → AreOfOneProgram j k
        → AreExactly (IsKept j) v.items) }
{
    Ok(guarded_areas(alloc, survey.guard())?.into_areas()?)
}

/// The cylinders that seeks go to, as a merged list in which a cylinder counts as a byte.
fn sought(alloc: Global, looks: &[Look]) -> Result<Merged, AllocError>
    ensures low { IfOk result (All (EndsBelow (2 ^ 16 + 1))) }
    ensures cylinders { IfOk result (λ m. (j : Job) → AreLooksOfYes j looks.now
        → AreExactly (IsSought j) m) }
{
    let mut cylinders = Areas::new(alloc);
    for look in looks {
        add_cylinder(&mut cylinders, look)?;
    }
    Ok(Merged::new(cylinders))
}

/// Adds the cylinder to which the seek at a place goes, if a seek begins there.
fn add_cylinder(cylinders: &mut Areas, look: &Look) -> Result<(), AllocError>
    requires { All (EndsBelow (2 ^ 16 + 1)) cylinders.old.items }
    ensures low { OnOk result (All (EndsBelow (2 ^ 16 + 1)) cylinders.new.items) }
    ensures cylinder { OnOk result ((j : Job) → IsLook j look.now → IsClear j look.now.place
        → AddsBytes cylinders.old.items cylinders.new.items (SeeksCylinder j look.now.place)) }
{
    if let Some(cylinder) = cylinder(look) {
        cylinders.push(Area {
            start: u32::from(cylinder),
            len: 1,
        })?;
    }
    Ok(())
}

/// The cylinder to which the seek at a place goes; Recalibrate goes to cylinder 0.
fn cylinder(look: &Look) -> Option<u16>
    ensures { (j : Job) → IsLook j look.now → IsClear j look.now.place
        → (n : ℕ) → (result ≡ Some n) ↔ SeeksCylinder j look.now.place n }
{
    match look.command()?.class() {
        MaskClass::Seek | MaskClass::SeekCylinder | MaskClass::SeekHead => {
            let argument = look.operand().whole()?.bytes;
            Some(BigEndian::read_u16(&argument[2..]))
        }
        MaskClass::Recalibrate => Some(0),
        _ => None,
    }
}

/// The first and the last cylinder of each area of a merged list of cylinders.
#[tactic(auto, using(crate::proofs::Seeking::runs_next))]
fn runs(alloc: Global, cylinders: &Merged) -> Result<Vec<Extent>, AllocError>
    requires { All (EndsBelow (2 ^ 16 + 1)) cylinders.now }
    ensures { IfOk result (λ v. v.items ≡ map run_of cylinders.now) }
{
    let areas = cylinders.as_slice();
    let mut runs = Vec::new(alloc);
    for area in areas {
        let last = area.start + area.len - 1;
        runs.push(Extent {
            first: area.start as u16,
            last: last as u16,
        })?;
    }
    Ok(runs)
}
