//! What evidence is found with: for a key, the first place of a walk that has it.

ghost use Rattle.std.specs.Prelude.{◌≡◌, ◌+◌, ◌<◌, length, IfOk, OnOk};
ghost use Rattle.std.specs.BTreeMap as tree;
ghost use Rattle.std.specs.Ordering.{nat_cmp};
ghost use Rattle.chan_walk.specs.Argument.{Has};
ghost use Rattle.chan_walk.specs.Places.{AreDistinct};
ghost use Rattle.chan_why.specs.Finder.{FindsFirst, IsIndex, IsLesserOf, IsOfKind};
ghost use Rattle.chan_why.specs.Finder.{KeepsLeast, TakesByte};
ghost use Rattle.chan_why.specs.Finder as index;
ghost use Rattle.chan_walk.specs.JobSurvey.{IsSurvey};
ghost use Rattle.chan_walk.specs.Look.{places_of_looks};
ghost use Rattle.chan_walk.specs.declared.job.Job.{Job};
ghost use Rattle.chan_walk.specs.declared.offence.Offence as declared;

use chan_walk::{Look, Offence, Survey};
use std::alloc::{AllocError, Global};
use std::collections::BTreeMap;

/// An index of a survey, by which the evidence for all offences is found. A question costs the
/// logarithm of the number of places.
#[derive(Drop)]
pub(crate) struct Finder {
    /// For each byte of an argument the index of the first place that takes it.
    takers: BTreeMap<u64, usize>,
    /// For each address and reason the index of the first place that so offends.
    offenders: BTreeMap<u64, usize>,
}

impl Finder {
    /// Makes the index of a survey.
    pub(crate) fn new(alloc: Global, survey: &Survey) -> Result<Finder, AllocError>
        requires { (j : Job) × IsSurvey j survey.now }
        ensures { IfOk result (FindsFirst survey.now.looks survey.now.offences) }
    {
        Ok(Finder {
            takers: takers_of(alloc, survey.looks())?,
            offenders: offenders_of(alloc, survey, survey.offences())?,
        })
    }

    /// The index of the first place that takes the byte at an address as its argument.
    pub(crate) fn taker(&self, byte: u32) -> Option<usize>
        ensures { result ≡ tree.get nat_cmp self.now.takers byte }
    {
        self.takers.get(&u64::from(byte)).copied()
    }

    /// The index of the first place that offends with the address and the reason of an offence.
    pub(crate) fn offender(&self, offence: Offence) -> Option<usize>
        ensures { result ≡ tree.get nat_cmp self.now.offenders (index.kind_number offence) }
    {
        self.offenders.get(&kind_number(offence)).copied()
    }
}

/// One number for the address and the reason of an offence.
fn kind_number(offence: Offence) -> u64
    ensures { result ≡ index.kind_number offence }
{
    u64::from(offence.place.address) * 32 + u64::from(offence.reason.number())
}

/// The lesser of two indexes, of which the first may be missing.
fn first_index(best: Option<usize>, at: usize) -> usize
    ensures { IsLesserOf best at result }
{
    match best {
        Some(best) => best.min(at),
        None => at,
    }
}

/// Notes that the look of an index has a key, unless an earlier look has it.
fn keep_first(first: &mut BTreeMap<u64, usize>, key: u64, at: usize) -> Result<(), AllocError>
    ensures { OnOk result (KeepsLeast key at first.old first.new) }
{
    let least = first_index(first.get(&key).copied(), at);
    first.insert(key, least)?;
    Ok(())
}

/// Notes the bytes that the look of an index takes as its argument.
fn note_bytes(first: &mut BTreeMap<u64, usize>, looks: &[Look], at: usize) -> Result<(), AllocError>
    requires within { at < length looks.now }
    requires index { IsIndex (TakesByte looks.now at) first.old }
    ensures { OnOk result (IsIndex (TakesByte looks.now (at + 1)) first.new) }
{
    for byte in looks[at].argument() {
        keep_first(first, u64::from(*byte), at)?;
    }
    Ok(())
}

/// For each byte of an argument the index of the first place that takes it.
fn takers_of(alloc: Global, looks: &[Look]) -> Result<BTreeMap<u64, usize>, AllocError>
    ensures { IfOk result (IsIndex (TakesByte looks.now (length looks.now))) }
{
    let mut first = BTreeMap::new(alloc);
    for at in 0..looks.len() {
        note_bytes(&mut first, looks, at)?;
    }
    Ok(first)
}

/// For each address and reason the index of the first place that so offends.
fn offenders_of(
    alloc: Global,
    survey: &Survey,
    offences: &[Offence],
) -> Result<BTreeMap<u64, usize>, AllocError>
    requires distinct { AreDistinct (places_of_looks survey.now.looks) }
    requires seen { (o : declared.Offence) → Has offences.now o
        → Has (places_of_looks survey.now.looks) o.place }
    ensures { IfOk result (IsIndex (IsOfKind survey.now.looks offences.now
        (length offences.now))) }
{
    let mut first = BTreeMap::new(alloc);
    for offence in offences {
        // The place of each offence was looked at.
        let at = survey.index_of(offence.place).unwrap();
        keep_first(&mut first, kind_number(*offence), at)?;
    }
    Ok(first)
}
