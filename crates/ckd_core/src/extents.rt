//! The extents of a file, in whole cylinders.

ghost use Rattle.std.specs.Prelude.{◌≡◌, ◌≢◌, ℕ, ◌<◌, ◌≤◌, ◌&&◌, ◌||◌, false, nat_le, IfOk, IfErr};
ghost use Rattle.std.specs.Prelude.{OnOk, IsOkUnless, MatchResult, slice_index_or};
ghost use Rattle.std.specs.List.{AllByRecursion};
ghost use Rattle.ckd_core.specs.Extents.{AreExtents, IsExtent, has_cylinder};
ghost use Rattle.ckd_core.specs.Faults.{IsFault};
ghost use Rattle.ckd_core.specs.HeldExtents.{IsHeldRun, IsHeldTable};
ghost use Rattle.ckd_core.specs.declared.device.TheConstants.{CYLINDERS};

use crate::device::{CYLINDERS, LAST_CYLINDER};
use std::alloc::Global;
use std::marker::Model;
use thiserror::Error;

/// Why pairs of cylinders aren't extents.
#[derive(Clone, Copy, PartialEq, Eq, Debug, Error)]
pub enum ExtentError {
    /// There is no pair.
    #[error("no extent")]
    Empty,
    /// The pair of this index, counted from 0, is the first wrong pair: its first cylinder is above
    /// its last.
    #[error("extent {0}: first cylinder above last")]
    Backwards(usize),
    /// The pair of this index, counted from 0, is the first wrong pair: it is in order, and its
    /// last cylinder is above that of the device.
    #[error("extent {0}: past the last cylinder of the device")]
    PastDevice(usize),
    /// Each pair is right, but an allocation failed.
    #[error("out of memory")]
    Memory,
}

/// One or more extents of whole cylinders, in the caller's order. They may overlap.
#[derive(Debug, Drop)]
pub struct Extents {
    pairs: Vec<(u16, u16)>,
    /// Which cylinders lie in some extent.
    held: [bool; CYLINDERS],
}

impl Model for Extents {
    ghost use Rattle.std.specs.Prelude.{ℕ, List};
    ghost use Rattle.ckd_core.specs.HeldExtents.{HoldsRight};

    ghost Value = { List (ℕ × ℕ) };

    ghost view = { λ e. e.pairs.items };

    ghost invariant = { λ e. HoldsRight e.pairs.items e.held };
}

impl PartialEq for Extents {
    ghost use Rattle.std.specs.Cmp.{partial_equiv_from_equiv};
    ghost use Rattle.ckd_core.specs.Extents.{same_extents, same_extents-IsEquivalence};

    ghost eq = { same_extents };

    ghost laws = { partial_equiv_from_equiv same_extents-IsEquivalence };

    /// The pairs, in the caller's order.
    fn eq(&self, other: &Extents) -> bool {
        self.pairs == other.pairs
    }
}

impl Eq for Extents {
    ghost use Rattle.ckd_core.specs.Extents.{same_extents-IsEquivalence};

    ghost laws = { same_extents-IsEquivalence };
}

impl Extents {
    /// Extents of these pairs of first and last cylinder.
    ///
    /// An error names the first wrong pair from the left, even if there is no memory; `Backwards`
    /// takes precedence over `PastDevice`. The call takes one pass over the pairs, and memory for a
    /// copy of them.
    pub fn new(alloc: Global, pairs: &[(u16, u16)]) -> Result<Extents, ExtentError>
        ensures ok { IfOk result (λ extents. extents ≡ pairs.now) }
        ensures right { OnOk result (AreExtents pairs.now) }
        ensures fault { IfErr result (IsFault pairs.now) }

        // A fault is named whether or not there is memory.
        ensures named { (fault : ExtentError) → fault ≢ ExtentError.Memory → IsFault pairs.now fault
            → result ≡ Err fault }
        ensures accepted { AreExtents pairs.now → IsOkUnless result ExtentError.Memory }
    {
        judge(pairs)?;
        let held = held_cylinders(pairs);
        let pairs = Vec::from_slice(alloc, pairs).map_err(|_| ExtentError::Memory)?;
        Ok(Extents { pairs, held })
    }

    /// Extents of these pairs, as `new` makes them. The call takes no memory, so that its error is
    /// never `Memory`.
    pub fn from_pairs(pairs: Vec<(u16, u16)>) -> Result<Extents, ExtentError>
        ensures { MatchResult result (λ extents. (extents ≡ pairs.items) × AreExtents pairs.items)
            (λ fault. IsFault pairs.items fault × (fault ≢ ExtentError.Memory)) }
    {
        judge(&pairs)?;
        let held = held_cylinders(&pairs);
        Ok(Extents { pairs, held })
    }

    /// The pairs of first and last cylinder, in the caller's order.
    pub fn pairs(&self) -> &[(u16, u16)]
        ensures value { result.now ≡ self.now }
        ensures right { AreExtents result.now }
    {
        &self.pairs
    }

    /// Whether the cylinder lies in some extent. The cost doesn't depend on the number of extents.
    pub fn has(&self, cylinder: u16) -> bool
        ensures { result ≡ has_cylinder self.now cylinder }
    {
        let index = usize::from(cylinder);
        index < CYLINDERS && self.held[index]
    }
}

/// Whether the pairs are extents; otherwise the first fault from the left.
fn judge(pairs: &[(u16, u16)]) -> Result<(), ExtentError>
    ensures { MatchResult result (λ _. AreExtents pairs.now)
        (λ fault. IsFault pairs.now fault × (fault ≢ ExtentError.Memory)) }
{
    if pairs.is_empty() {
        return Err(ExtentError::Empty);
    }
    for (i, pair) in pairs.iter().enumerate() {
        let (first, last) = *pair;
        if first > last {
            return Err(ExtentError::Backwards(i));
        }
        if last > LAST_CYLINDER {
            return Err(ExtentError::PastDevice(i));
        }
    }
    Ok(())
}

/// Marks the cylinders of an extent as held.
fn hold(held: &mut [bool; CYLINDERS], first: usize, last: usize)
    requires { (first ≤ last) × (last < CYLINDERS) }
    ensures { (c : ℕ) → c < CYLINDERS → slice_index_or held.new c false
        ≡ (slice_index_or held.old c false || (nat_le first c && nat_le c last)) }
{
    held[first..last + 1].fill(true);
}

/// Which cylinders lie in some extent.
fn held_cylinders(pairs: &[(u16, u16)]) -> [bool; CYLINDERS]
    requires { AllByRecursion IsExtent pairs.now }
    ensures { IsHeldTable pairs.now result }
{
    let mut held = [false; CYLINDERS];
    let mut run = (0, 0);
    for pair in pairs {
        let (first, last) = *pair;
        run = hold_beside(&mut held, run, usize::from(first), usize::from(last));
    }
    held
}

/// Marks the cylinders of an extent as held, unless they lie in a run of marked cylinders, which
/// saves most of the work where extents overlap. The run goes from its first cylinder to the one
/// before its end. The answer is the run that goes on with the extent, or that of the extent alone.
fn hold_beside(
    held: &mut [bool; CYLINDERS],
    run: (usize, usize),
    first: usize,
    last: usize,
) -> (usize, usize)
    requires order { (first ≤ last) × (last < CYLINDERS) }
    requires run { IsHeldRun held.old run.0 run.1 }
    ensures held { (c : ℕ) → c < CYLINDERS → slice_index_or held.new c false
        ≡ (slice_index_or held.old c false || (nat_le first c && nat_le c last)) }
    ensures run { IsHeldRun held.new result.0 result.1 }
{
    let (from, end) = run;
    if from <= first && last < end {
        return run;
    }
    hold(held, first, last);
    if from <= first && first <= end {
        return (from, last + 1);
    }
    (first, last + 1)
}
