//! Where a program may hang: from such a place on it never ends by itself.

ghost use Rattle.std.specs.Prelude.{◌≡◌, ◌<◌, ◌↔◌, ◌+◌, ℕ, length, slice_get, slice_index_or};
ghost use Rattle.std.specs.Prelude.{None, Some, true, false, IfOk, OnOk};
ghost use Rattle.chan_walk.specs.Argument.{Has};
ghost use Rattle.chan_walk.specs.JobSurvey.{IsSurvey};
ghost use Rattle.chan_walk.specs.Look.{AreLooks, places_of_looks};
ghost use Rattle.chan_walk.specs.Places.{AreReached};
ghost use Rattle.chan_why.specs.Hang as retraced;
ghost use Rattle.chan_why.specs.Hang.{AddsPredecessor, ArePredecessors, AreBuckets, CanEnd};
ghost use Rattle.chan_why.specs.Hang.{FindsMore, HasBefore, IsEarlier, IsFirstPlace};
ghost use Rattle.chan_why.specs.Hang.{IsLeftUnmarked, MarksFound, MayHang};
ghost use Rattle.chan_walk.specs.declared.job.Job.{Job};
ghost use Rattle.chan_walk.specs.declared.place.Place as places;
ghost use Rattle.chan_why.specs.declared.hang.Predecessor as listed;

use chan_walk::{Look, Place, Survey};
use std::alloc::{AllocError, Global};

/// The first place, in the order of places, from which on the program can't end by itself; `None`
/// if it can end from each reachable place. `AllocError` comes if a growth was refused.
///
/// A program ends by itself at a place that has no own fault and that no other place follows: at a
/// CCW, other than a transfer, with both chaining flags off, or with chain data on if the operation
/// moves no data. From the place of the answer on only an error, an end of file, an incorrect
/// length or a halt ends it. If the verdict is no, nothing is said about runs.
///
/// With n places the cost is n; if the addresses are chosen for it, up to 2^25 steps.
pub fn hang_from(alloc: Global, survey: &Survey) -> Result<Option<Place>, AllocError>
    ensures { IfOk result (λ place. (j : Job) → IsSurvey j survey.now
        → IsFirstPlace (MayHang j) place) }
{
    let looks = survey.looks();
    let marks = can_end(alloc, looks)?;
    Ok(first_left(looks, marks.as_slice()))
}

/// What comes after a place at which the program ends: 0, its end.
fn end_after(look: &Look) -> Option<u64>
    ensures { result ≡ retraced.end_after look.now }
{
    let next = look.next();
    let ends = look.fault().is_none() && next.next.is_none() && next.skip.is_none();
    ends.then_some(0)
}

/// A place that comes before another, or before the end of the program.
#[derive(Clone, Copy)]
struct Predecessor {
    /// One more than the number of the other place, its successor; 0 for the end.
    of: u64,
    /// The index of the look at it.
    at: usize,
    /// Where its bucket ends before it.
    before: usize,
}

/// The places that come before others or before the end, in buckets: what comes before one place is
/// in one bucket, and with it what comes before few others.
#[derive(Drop)]
struct Predecessors {
    /// Those of all buckets.
    list: Vec<Predecessor>,
    /// For each bucket where it ends: one more than the index of its last one; 0 if it has none.
    ends: Vec<usize>,
}

impl Predecessors {
    /// The bucket of what comes before something.
    fn bucket(&self, of: u64) -> usize
        requires { 0 < length self.now.ends.items }
        ensures { result ≡ retraced.bucket_of (length self.now.ends.items) of }
    {
        (of / 64) as usize % self.ends.len()
    }

    /// Adds the place of a look as one that comes before something, if there is something.
    fn add(&mut self, at: usize, after: Option<u64>) -> Result<(), AllocError>
        requires { AreBuckets self.old }
        ensures { OnOk result (AddsPredecessor at after self.old self.new) }
    {
        if let Some(of) = after {
            let bucket = self.bucket(of);
            let before = self.ends[bucket];
            self.list.push(Predecessor { of, at, before })?;
            self.ends[bucket] = self.list.len();
        }
        Ok(())
    }

    /// Those of all looks.
    fn of_looks(alloc: Global, looks: &[Look]) -> Result<Predecessors, AllocError>
        ensures buckets { IfOk result AreBuckets }
        ensures are { IfOk result (λ p. ArePredecessors looks.now (length looks.now) p.list.items) }
    {
        let mut ends = Vec::new(alloc);
        ends.resize(looks.len() + 1, 0)?;
        let mut predecessors = Predecessors {
            list: Vec::new(alloc),
            ends,
        };
        for at in 0..looks.len() {
            let look = &looks[at];
            let next = look.next();
            predecessors.add(at, end_after(look))?;
            predecessors.add(at, next.next.map(|place| place.number() + 1))?;
            predecessors.add(at, next.skip.map(|place| place.number() + 1))?;
        }
        Ok(predecessors)
    }
}

/// The looks that were found to be at places that can end.
#[derive(Drop)]
struct FoundLooks {
    /// For each look whether it was found.
    marks: Vec<bool>,
    /// The indexes of those found, in the order in which they were.
    order: Vec<usize>,
}

impl FoundLooks {
    /// Adds the look of a predecessor, if it comes before this and wasn't found already.
    fn add(&mut self, predecessor: Predecessor, of: u64) -> Result<(), AllocError>
        requires within { predecessor.at < length self.old.marks.items }
        requires marked { MarksFound (length self.old.marks.items) self.old }
        ensures { OnOk result (FindsMore (length self.old.marks.items)
            (λ k. (predecessor.of ≡ of) × (predecessor.at ≡ k)) self.old self.new) }
    {
        let at = predecessor.at;
        if predecessor.of == of && !self.marks[at] {
            self.marks[at] = true;
            self.order.push(at)?;
        }
        Ok(())
    }

    /// Adds the looks at places that come before something.
    fn add_before(&mut self, predecessors: &Predecessors, of: u64) -> Result<(), AllocError>
        requires marked { MarksFound (length self.old.marks.items) self.old }
        requires buckets { AreBuckets predecessors.now }
        requires within { (p : listed.Predecessor) → Has predecessors.now.list.items p
            → p.at < length self.old.marks.items }
        ensures { OnOk result (FindsMore (length self.old.marks.items)
            (HasBefore predecessors.now.list.items of) self.old self.new) }
    {
        let mut end = predecessors.ends[predecessors.bucket(of)];
        while end > 0 {
            let predecessor = predecessors.list[end - 1];
            self.add(predecessor, of)?;
            end = predecessor.before;
        }
        Ok(())
    }
}

/// For each of the looks at all reachable places, in any order, whether the program can end from
/// its place. `AllocError` comes if a growth was refused. The cost is that of `hang_from`.
pub fn can_end(alloc: Global, looks: &[Look]) -> Result<Vec<bool>, AllocError>
    ensures len { IfOk result (λ v. length v.items ≡ length looks.now) }
    ensures each { IfOk result (λ v. (j : Job) → AreLooks j looks.now
        → AreReached j (places_of_looks looks.now) → (k : ℕ) (p : places.Place)
        → slice_get (places_of_looks looks.now) k ≡ Some p
        → (slice_index_or v.items k false ≡ true) ↔ CanEnd j p) }
{
    let predecessors = Predecessors::of_looks(alloc, looks)?;
    let mut marks = Vec::new(alloc);
    marks.resize(looks.len(), false)?;
    let mut found = FoundLooks {
        marks,
        order: Vec::new(alloc),
    };
    found.add_before(&predecessors, 0)?;
    let mut at = 0;
    while at < found.order.len() {
        let place = looks[found.order[at]].place();
        found.add_before(&predecessors, place.number() + 1)?;
        at += 1;
    }
    Ok(found.marks)
}

/// The place of a look without a mark, the first in the order of places.
fn first_left(looks: &[Look], marks: &[bool]) -> Option<Place>
    requires { length marks.now ≡ length looks.now }
    ensures { IsFirstPlace (IsLeftUnmarked (places_of_looks looks.now) marks.now (length looks.now))
        result }
{
    let mut first: Option<Place> = None;
    for at in 0..looks.len() {
        if !marks[at] {
            first = Some(earlier(first, looks[at].place()));
        }
    }
    first
}

/// The earlier of two places in their order, of which the first may be missing.
fn earlier(first: Option<Place>, place: Place) -> Place
    ensures { IsEarlier first place result }
{
    match first {
        Some(first) if first.number() <= place.number() => first,
        _ => place,
    }
}
