//! The verdict at the limit of places, and the own faults of single places.

use crate::shared::expect;
use crate::walk::explore::holds_of_chain;
use crate::walk::program::{CHAINED_AND_FRESH, Program, Question, Row, USUAL, holds};
use chan_walk::{Entry, Job, Place, Reason, Verdict, WalkError, fault_at, verify};
use std::alloc::Global;

/// Whether this is the verdict on a job.
pub(crate) fn is_judged(alloc: Global, job: &Job, verdict: Result<Verdict, WalkError>) -> bool {
    verify(alloc, job) == verdict
}

/// A name, a number of no-operations of which the last is given, a limit, and the answer.
type Chain = (&'static str, usize, u64, u32, Result<Verdict, WalkError>);

const LAST: u64 = 0x0300_0000_0000_0001;

static LIMITS: [Chain; 6] = [
    ("3 within 2", 3, LAST, 2, Err(WalkError::TooManyPlaces)),
    ("3 within 3", 3, LAST, 3, Ok(Verdict::Yes)),
    ("4,096 within 4,096", 4096, LAST, 4096, Ok(Verdict::Yes)),
    (
        "4,097 within 4,096",
        4097,
        LAST,
        4096,
        Err(WalkError::TooManyPlaces),
    ),
    ("4,097 within 4,097", 4097, LAST, 4097, Ok(Verdict::Yes)),
    (
        "the last offends",
        4096,
        0x0200_0000_0000_0001,
        4096,
        Ok(Verdict::No {
            address: 0x87F8,
            reason: Reason::NotInTable,
        }),
    ),
];

#[test]
fn place_limit(rt: HostRuntime) {
    for (name, count, last, limit, answer) in &LIMITS {
        let asked = Question::Verdict(*answer);
        let is_so = holds_of_chain(rt.alloc(), *count, *last, *limit, asked);
        expect(&rt, is_so, name);
    }
}

/// Whether this is the own fault of a place, also of one that no run comes to.
pub(crate) fn has_fault(job: &Job, place: Place, fault: Option<Reason>) -> bool {
    fault_at(job, place) == fault
}

const CHAINED: Row = (0x808, Entry::ChainSearch, false);

const FRESH: Row = (0x808, Entry::Fresh, false);

const BY_A_READ: Row = (0x808, Entry::ChainIn, false);

const BETWEEN: Row = (0x80C, Entry::Fresh, false);

const PAST: Row = (0x1000, Entry::Fresh, false);

static FAULTS: [(&str, Row, Option<Reason>); 5] = [
    ("chained", CHAINED, None),
    ("fresh", FRESH, Some(Reason::InvalidCode)),
    ("chained by a read", BY_A_READ, Some(Reason::StoreNotLent)),
    ("not aligned", BETWEEN, Some(Reason::Misaligned)),
    ("past storage", PAST, Some(Reason::OutsideStorage)),
];

#[test]
fn own_faults(rt: HostRuntime) {
    let program = Program {
        puts: CHAINED_AND_FRESH,
        ..USUAL
    };
    for (name, row, fault) in &FAULTS {
        let asked = Question::Fault(*row, *fault);
        expect(&rt, holds(rt.alloc(), &program, asked), name);
    }
}
