//! What C lays out, and everything of this crate that is for C alone: the order of fields, and
//! lists that come with a null pointer. The structs are here and not in the library for C, because
//! the questions are about whole tables of programs, which a supervisor's start must not have to
//! copy. The other files take each list by a call of this one.

ghost use Rattle.std.specs.Prelude.{◌≡◌, ◌≢◌, [], map, IfErr, IfOk};
ghost use Rattle.chan_needs.specs.Listed.{pair};

use ccw_core::Area;
use std::alloc::{AllocError, Global};

/// Whole cylinders: the first and the last, both included.
#[repr(C)]
#[derive(Clone, Copy)]
pub struct Extent {
    pub first: u16,
    pub last: u16,
}

/// The lists of `Needs`, in the caller's memory. Lists from elsewhere do no harm: each call answers
/// for what they list. A list stands for all bytes of its areas; the areas may overlap, be empty
/// and come in any order.
#[repr(C)]
#[derive(Clone, Copy)]
pub struct NeedLists<'a> {
    /// The cylinders that it seeks, as runs.
    pub extents: &'a [Extent],
    /// The bytes that it fetches, so that they have to be lent for fetching.
    pub fetch: &'a [Area],
    /// The bytes that it stores into, so that they have to be lent for storing.
    pub store: &'a [Area],
    /// The bytes that nothing else may change while it runs: its CCWs, the arguments of its seeks
    /// and the mask bytes that it sets.
    pub keep: &'a [Area],
    /// How many bytes storage had when the needs were found.
    pub storage_len: u32,
    /// The strictest file mask under which the program has a yes. No job grants an invalid one.
    pub mask: u8,
}

/// All that a supervisor remembers of a program that it has asked about, so that the program may
/// start later, together with others. The struct may hold anything: each call that takes it says
/// what its answer means then.
#[repr(C)]
#[derive(Clone, Copy)]
pub struct Remembered<'a> {
    /// What the program needs and keeps, as `Needs::lists` gave it.
    pub needs: NeedLists<'a>,
    /// The kept bytes as they were, area after area. Bytes after them don't matter.
    pub kept: &'a [u8],
    /// The address of the first CCW.
    pub start: u32,
    /// The number of the device, 2311 or 2314.
    pub device: u16,
}

/// A row of the table of what is in flight: a program that was asked about, or areas that others
/// store over for a while, or rely on. The areas are in the row itself, so that it points at
/// nothing but the program's memory. A row of zeros is nothing at all.
#[repr(C)]
#[derive(Clone, Copy)]
pub struct Row<'a> {
    /// The program, or zeros.
    pub program: Remembered<'a>,
    /// Others store over this area at any time. It may be empty.
    pub stores: Area,
    /// Nothing may store over this area. It may be empty.
    pub keeps: Area,
}

/// The list, or an empty list of our own if it has no elements: from C its pointer may be null, and
/// in the proofs no reference is null.
pub fn or_empty<'a, T>(list: &'a [T]) -> &'a [T]
    ensures { result.now ≡ list.now }
{
    if list.is_empty() { &[] } else { list }
}

/// The extents as pairs of first and last cylinder. `AllocError` means that an allocation failed;
/// none is made for no extents.
pub fn pairs_of(alloc: Global, extents: &[Extent]) -> Result<Vec<(u16, u16)>, AllocError>
    ensures pairs { IfOk result (λ pairs. pairs.items ≡ map pair extents.now) }
    ensures some { IfErr result (λ e. extents.now ≢ []) }
{
    let mut pairs = Vec::new(alloc);
    for extent in or_empty(extents) {
        pairs.push((extent.first, extent.last))?;
    }
    Ok(pairs)
}

impl<'a> NeedLists<'a> {
    /// The cylinders.
    pub(crate) fn extents(&self) -> &'a [Extent]
        ensures { result.now ≡ self.now.extents.now }
    {
        or_empty(self.extents)
    }

    /// The bytes that are fetched.
    pub(crate) fn fetch(&self) -> &'a [Area]
        ensures { result.now ≡ self.now.fetch.now }
    {
        or_empty(self.fetch)
    }

    /// The bytes that are stored into.
    pub(crate) fn store(&self) -> &'a [Area]
        ensures { result.now ≡ self.now.store.now }
    {
        or_empty(self.store)
    }

    /// The bytes that are kept.
    pub(crate) fn keep(&self) -> &'a [Area]
        ensures { result.now ≡ self.now.keep.now }
    {
        or_empty(self.keep)
    }
}

impl<'a> Remembered<'a> {
    /// The kept bytes as they were.
    pub(crate) fn kept(&self) -> &'a [u8]
        ensures { result.now ≡ self.now.kept.now }
    {
        or_empty(self.kept)
    }
}
