//! Jobs by what differs from case to case, and what is asked of one.

use super::guard::Ranges;
use super::{arguments, explore, guard, needs, starts, verdicts};
use ccw_core::{Area, Storage};
use chan_needs::Start;
use chan_walk::{Entry, Job, Limit, Place, Reason, Verdict, WalkError};
use ckd_core::{Device, Extents, FileMask};
use std::alloc::{AllocError, Global};

/// A job by what differs from case to case, and the words put into its storage at their addresses,
/// which ascend.
#[derive(Clone, Copy)]
pub(crate) struct Program<'a> {
    pub(crate) size: usize,
    pub(crate) start: u32,
    pub(crate) device: Device,
    pub(crate) mask: u8,
    pub(crate) extents: &'a [(u16, u16)],
    pub(crate) fetch: &'a [Area],
    pub(crate) store: &'a [Area],
    pub(crate) limit: u32,
    pub(crate) puts: &'a [(usize, u64)],
}

/// What the programs have where they say nothing else.
pub(crate) const USUAL: Program<'static> = Program {
    size: 4096,
    start: 0x800,
    device: Device::D2314,
    mask: 0x00,
    extents: &[(10, 19)],
    fetch: &[Area {
        start: 0x900,
        len: 16,
    }],
    store: &[Area {
        start: 0xA00,
        len: 256,
    }],
    limit: 4096,
    puts: &[],
};

/// The search loop: search for a record by its identifier, try the next one, read what was found.
pub(crate) const SEARCH_LOOP: &[(usize, u64)] = &[
    (0x800, 0x3100_0900_4000_0005),
    (0x808, 0x0800_0800_0000_0000),
    (0x810, 0x0600_0A00_2000_0050),
];

/// A search whose second CCW is entered by its data chain, and fresh by a transfer.
pub(crate) const CHAINED_AND_FRESH: &[(usize, u64)] = &[
    (0x800, 0x3100_0900_8000_0002),
    (0x808, 0x0000_0902_4000_0003),
    (0x810, 0x0800_0808_0000_0000),
    (0x818, 0x0600_0A00_0000_0010),
];

/// A place: its address, how it is entered, and whether it counts as reached by a transfer.
pub(crate) type Row = (u32, Entry, bool);

pub(crate) fn place(row: Row) -> Place {
    Place {
        address: row.0,
        entered: row.1,
        after_transfer: row.2,
    }
}

/// What is asked of the job of a program.
#[derive(Clone, Copy)]
pub(crate) enum Question<'a> {
    /// Whether these are its places, and the marks at these addresses.
    Places(&'a [Row], &'a [(u32, u8)]),
    /// Whether it has so many places, or too many.
    Count(Result<usize, WalkError>),
    /// Whether this is the argument of the seek at its start.
    Argument(Option<[u8; 6]>),
    /// Whether these are the ranges of its guard, and what they meet.
    Guard(&'a Ranges<'a>),
    /// Whether this is its verdict.
    Verdict(Result<Verdict, WalkError>),
    /// Whether this is the own fault of a place.
    Fault(Row, Option<Reason>),
    /// Whether its program keeps 24 bytes, and may start.
    Needs,
    /// Whether this is the answer to a start, with so many right parts remembered.
    Start(usize, Start),
}

/// Whether the job of a program has what is asked for.
pub(crate) fn holds(alloc: Global, program: &Program, question: Question) -> bool {
    let Ok(bytes) = image(alloc, program.size, program.puts) else {
        return false;
    };
    match Extents::new(alloc, program.extents) {
        Ok(extents) => holds_in(alloc, program, bytes.as_slice(), &extents, question),
        Err(_) => false,
    }
}

fn holds_in(
    alloc: Global,
    program: &Program,
    bytes: &[u8],
    extents: &Extents,
    question: Question,
) -> bool {
    let Ok(storage) = Storage::new(bytes) else {
        return false;
    };
    let Some(mask) = FileMask::new(program.mask) else {
        return false;
    };
    let Some(limit) = Limit::new(program.limit) else {
        return false;
    };
    let job = Job {
        storage,
        start: program.start,
        device: program.device,
        mask,
        extents,
        fetch: program.fetch,
        store: program.store,
        limit,
    };
    answers(alloc, &job, question)
}

/// Zeros, with the words put at their addresses.
pub(crate) fn image(
    alloc: Global,
    size: usize,
    puts: &[(usize, u64)],
) -> Result<Vec<u8>, AllocError> {
    let mut bytes = Vec::new(alloc);
    for (address, word) in puts {
        bytes.resize(*address, 0)?;
        bytes.extend_from_slice(&word.to_be_bytes())?;
    }
    bytes.resize(size, 0)?;
    Ok(bytes)
}

fn answers(alloc: Global, job: &Job, question: Question) -> bool {
    match question {
        Question::Places(places, marks) => explore::are_places(alloc, job, places, marks),
        Question::Count(count) => explore::is_count(alloc, job, count),
        Question::Argument(argument) => arguments::is_argument(job, argument),
        Question::Guard(ranges) => guard::has_guard(alloc, job, ranges),
        Question::Verdict(verdict) => verdicts::is_judged(alloc, job, verdict),
        Question::Fault(row, fault) => verdicts::has_fault(job, place(row), fault),
        Question::Needs => needs::has_needs(alloc, job),
        Question::Start(right, answer) => starts::is_answered(alloc, job, right, answer),
    }
}
