//! Worked cases, with the places that follow from the rules of the channel.

use crate::shared::expect;
use crate::walk::program::{
    CHAINED_AND_FRESH, Program, Question, Row, SEARCH_LOOP, USUAL, holds, place,
};
use chan_walk::{Entry, Explored, Job, Limit, WalkError, explore};
use std::alloc::{AllocError, Global};

/// A program that starts at `800`, its places, and the marks at some addresses.
struct Case<'a> {
    name: &'a str,
    puts: &'a [(usize, u64)],
    places: &'a [Row],
    marks: &'a [(u32, u8)],
}

static CASES: [Case<'static>; 4] = [
    Case {
        name: "search-loop",
        puts: SEARCH_LOOP,
        places: &[
            (0x800, Entry::Fresh, true),
            (0x808, Entry::Fresh, false),
            (0x810, Entry::Fresh, false),
        ],
        marks: &[(0x7F8, 0x00), (0x800, 0x02), (0x808, 0x01), (0x810, 0x01)],
    },
    Case {
        name: "marks",
        puts: CHAINED_AND_FRESH,
        places: &[
            (0x800, Entry::Fresh, true),
            (0x808, Entry::Fresh, true),
            (0x808, Entry::ChainSearch, false),
            (0x810, Entry::Fresh, false),
            (0x818, Entry::Fresh, false),
        ],
        marks: &[
            (0x800, 0x02),
            (0x808, 0x42),
            (0x810, 0x01),
            (0x818, 0x01),
            (0x820, 0x00),
        ],
    },
    Case {
        name: "seek-through-transfer",
        puts: &[
            (0x800, 0x0700_0900_8000_0002),
            (0x808, 0x0800_0820_0000_0000),
            (0x820, 0x0000_0904_4000_0004),
            (0x828, 0x0300_0000_0000_0001),
            (0x900, 0x0000_0000_000A_0000),
        ],
        places: &[
            (0x800, Entry::Fresh, true),
            (0x808, Entry::ChainOut, false),
            (0x820, Entry::ChainOut, true),
            (0x828, Entry::Fresh, false),
        ],
        marks: &[(0x800, 0x02), (0x808, 0x10), (0x820, 0x20), (0x828, 0x01)],
    },
    Case {
        name: "search-enters-itself",
        puts: &[
            (0x800, 0x3100_0900_8000_0001),
            (0x808, 0x0800_0800_0000_0000),
        ],
        places: &[
            (0x800, Entry::Fresh, true),
            (0x800, Entry::ChainSearch, true),
            (0x808, Entry::ChainSearch, false),
        ],
        marks: &[(0x800, 0x82), (0x808, 0x40)],
    },
];

/// Whether these are the places of a job, and the marks at these addresses.
pub(crate) fn are_places(alloc: Global, job: &Job, places: &[Row], marks: &[(u32, u8)]) -> bool {
    match explore(alloc, job) {
        Ok(explored) => has_places(&explored, places) && has_marks(&explored, marks),
        Err(_) => false,
    }
}

/// Whether the places are these, by `len`, by `place` and one after another.
fn has_places(explored: &Explored, places: &[Row]) -> bool {
    explored.len() == places.len()
        && explored.place(places.len()).is_none()
        && has_each(explored, places)
        && are_in_order(explored, places)
}

fn has_each(explored: &Explored, places: &[Row]) -> bool {
    for (index, row) in places.iter().enumerate() {
        if explored.place(index) != Some(place(*row)) {
            return false;
        }
    }
    true
}

fn are_in_order(explored: &Explored, places: &[Row]) -> bool {
    let mut rest = places;
    for found in explored.places() {
        match rest {
            [first, left @ ..] if place(*first) == found => rest = left,
            _ => return false,
        }
    }
    rest.is_empty()
}

fn has_marks(explored: &Explored, rows: &[(u32, u8)]) -> bool {
    for (address, marks) in rows {
        if explored.marks_at(*address) != *marks {
            return false;
        }
    }
    true
}

#[test]
fn places_and_marks(rt: HostRuntime) {
    for case in &CASES {
        let program = Program {
            puts: case.puts,
            ..USUAL
        };
        let asked = Question::Places(case.places, case.marks);
        expect(&rt, holds(rt.alloc(), &program, asked), case.name);
    }
}

/// Whether a job has so many places, or too many.
pub(crate) fn is_count(alloc: Global, job: &Job, count: Result<usize, WalkError>) -> bool {
    match explore(alloc, job) {
        Ok(explored) => Ok(explored.len()) == count,
        Err(error) => Err(error) == count,
    }
}

/// No-operations from `800` on, as many as are given, each of which chains to the next, but the
/// last, which is given.
pub(crate) fn no_operations(
    alloc: Global,
    count: usize,
    last: u64,
) -> Result<Vec<(usize, u64)>, AllocError> {
    let mut puts = Vec::new(alloc);
    let mut address = 0x800usize;
    for _ in 1..count {
        puts.push((address, 0x0300_0000_4000_0001))?;
        address = address.saturating_add(8);
    }
    puts.push((address, last))?;
    Ok(puts)
}

/// Whether the job of so many no-operations under this limit has what is asked for.
pub(crate) fn holds_of_chain(
    alloc: Global,
    count: usize,
    last: u64,
    limit: u32,
    question: Question,
) -> bool {
    match no_operations(alloc, count, last) {
        Ok(puts) => {
            let program = Program {
                size: 65_536,
                limit,
                puts: puts.as_slice(),
                ..USUAL
            };
            holds(alloc, &program, question)
        }
        Err(_) => false,
    }
}

/// Numbers of no-operations and limits, and how many places there are.
static COUNTS: [(usize, u32, Result<usize, WalkError>); 5] = [
    (3, 2, Err(WalkError::TooManyPlaces)),
    (3, 3, Ok(3)),
    (4096, 4096, Ok(4096)),
    (4097, 4096, Err(WalkError::TooManyPlaces)),
    (4097, 4097, Ok(4097)),
];

#[test]
fn place_limit(rt: HostRuntime) {
    for (count, limit, places) in &COUNTS {
        let asked = Question::Count(*places);
        let is_so = holds_of_chain(rt.alloc(), *count, 0x0300_0000_0000_0001, *limit, asked);
        expect(&rt, is_so, "places");
    }
}

/// Numbers of places, and whether a limit may be so many.
static LIMITS: [(u32, bool); 5] = [
    (0, false),
    (1, true),
    (4096, true),
    (65_536, true),
    (65_537, false),
];

/// Whether there is a limit of so many places, or none.
fn is_limit(places: u32, is_so: bool) -> bool {
    match Limit::new(places) {
        Some(limit) => is_so && limit.get() == places,
        None => !is_so,
    }
}

#[test]
fn limits(rt: HostRuntime) {
    for (places, is_so) in &LIMITS {
        expect(&rt, is_limit(*places, *is_so), "limit");
    }
    expect(&rt, Limit::new(4096) == Some(Limit::usual()), "usual");
}

static ERRORS: [(WalkError, &str); 2] = [
    (WalkError::TooManyPlaces, "too many places"),
    (WalkError::Memory, "out of memory"),
];

fn is_error(alloc: Global, error: WalkError, text: &str) -> bool {
    match format!(in alloc; "{error}") {
        Ok(found) => found.as_str() == text,
        Err(_) => false,
    }
}

#[test]
fn texts_of_errors(rt: HostRuntime) {
    for (error, text) in &ERRORS {
        expect(&rt, is_error(rt.alloc(), *error, text), text);
    }
}
