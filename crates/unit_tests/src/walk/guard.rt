//! Worked cases of the guard.

use crate::shared::expect;
use crate::walk::program::{Program, Question, USUAL, holds};
use ccw_core::Area;
use chan_walk::{Guard, Job, explore};
use std::alloc::Global;

/// The ranges of a guard, and ranges by start and length, with whether it meets them.
#[derive(Clone, Copy)]
pub(crate) struct Ranges<'a> {
    ccws: &'a [Area],
    arguments: &'a [Area],
    meets_ccws: &'a [(u32, u32, bool)],
    meets_arguments: &'a [(u32, u32, bool)],
}

/// A seek whose argument comes from three places with gaps between them, and a read over the third.
const SPLIT: Program<'static> = Program {
    store: &[Area {
        start: 0x908,
        len: 2,
    }],
    puts: &[
        (0x800, 0x0700_0900_8000_0002),
        (0x808, 0x0000_0904_8000_0002),
        (0x810, 0x0000_0908_4000_0002),
        (0x818, 0x0600_0908_0000_0002),
        (0x900, 0x0000_0000_000A_0000),
    ],
    ..USUAL
};

static SPLIT_RANGES: Ranges<'static> = Ranges {
    ccws: &[Area {
        start: 0x800,
        len: 32,
    }],
    arguments: &[
        Area {
            start: 0x900,
            len: 2,
        },
        Area {
            start: 0x904,
            len: 2,
        },
        Area {
            start: 0x908,
            len: 2,
        },
    ],
    meets_ccws: &[(0x7FF, 2, true), (0x820, 0xFFFF_FFFF, false)],
    meets_arguments: &[(0x902, 2, false), (0x902, 3, true), (0x900, 0, false)],
};

/// Whether these are the ranges of a job's guard, and what they meet.
pub(crate) fn has_guard(alloc: Global, job: &Job, ranges: &Ranges) -> bool {
    let Ok(explored) = explore(alloc, job) else {
        return false;
    };
    match Guard::new(alloc, job, &explored) {
        Ok(guard) => has_ranges(&guard, ranges),
        Err(_) => false,
    }
}

fn has_ranges(guard: &Guard, ranges: &Ranges) -> bool {
    guard.ccw_ranges() == ranges.ccws
        && guard.argument_ranges() == ranges.arguments
        && meets_ccws(guard, ranges.meets_ccws)
        && meets_arguments(guard, ranges.meets_arguments)
}

fn meets_ccws(guard: &Guard, rows: &[(u32, u32, bool)]) -> bool {
    for (start, len, meets) in rows {
        if guard.meets_ccw(*start, *len) != *meets {
            return false;
        }
    }
    true
}

fn meets_arguments(guard: &Guard, rows: &[(u32, u32, bool)]) -> bool {
    for (start, len, meets) in rows {
        if guard.meets_argument(*start, *len) != *meets {
            return false;
        }
    }
    true
}

#[test]
fn split_guard(rt: HostRuntime) {
    let asked = Question::Guard(&SPLIT_RANGES);
    expect(&rt, holds(rt.alloc(), &SPLIT, asked), "split");
}
