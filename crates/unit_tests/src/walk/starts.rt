//! Whether a program that is remembered may start, and others may write.

use crate::shared::expect;
use crate::walk::program::{Program, Question, SEARCH_LOOP, USUAL, holds};
use ccw_core::{Area, Storage};
use chan_needs::{
    Conflict, Extent, NeedLists, Remembered, Row, Start, StartRefusal, check_start, check_write,
    copy_kept, kept_len, or_empty,
};
use chan_walk::Job;
use std::alloc::Global;

fn area(start: u32, len: u32) -> Area {
    Area { start, len }
}

/// A row in flight whose program keeps some areas, and which stores over an area itself.
fn row<'a>(keep: &'a [Area], stores: Area) -> Row<'a> {
    let program = Remembered {
        needs: NeedLists {
            extents: &[],
            fetch: &[],
            store: &[],
            keep,
            storage_len: 0,
            mask: 0x01,
        },
        kept: &[],
        start: 0,
        device: 0,
    };
    Row {
        program,
        stores,
        keeps: area(0, 0),
    }
}

/// Copies what the search loop keeps, where there is room and storage.
fn are_copied(storage: &Storage, kept: &mut [u8; 24]) -> bool {
    let keep = [Area {
        start: 0x800,
        len: 24,
    }];
    kept_len(&keep) == 24
        && copy_kept(storage, &keep, kept) == Some(24)
        && copy_kept(storage, &[area(0x800, 24)], &mut [0; 23]) == None
        && copy_kept(storage, &[area(4095, 2)], &mut [0; 24]) == None
}

/// Whether this is the answer to a start of the search loop. So many of the first parts of what is
/// remembered are right, and all later ones wrong.
pub(crate) fn is_answered(alloc: Global, job: &Job, right: usize, answer: Start) -> bool {
    let mut kept = [0; 24];
    if !are_copied(&job.storage, &mut kept) {
        return false;
    }
    kept[0] = if right > 3 { 0x31 } else { 0 };
    let last = if right > 5 { 19 } else { 20 };
    let cylinders = [Extent { first: 10, last }];
    let fetch = [area(if right > 6 { 0x900 } else { 0x90C }, 5)];
    let len = if right > 7 { 80 } else { 0xFFFF_FFFF };
    let store = [area(0xA08, 8), area(0xA00, len)];
    let program = Remembered {
        needs: NeedLists {
            extents: or_empty(&cylinders),
            fetch: &fetch,
            store: &store,
            keep: &[area(0x800, 24)],
            storage_len: if right > 2 { 4096 } else { 4095 },
            mask: if right > 4 { 0x00 } else { 0xC0 },
        },
        kept: &kept,
        start: if right > 0 { 0x800 } else { 0x808 },
        device: if right > 1 { 2314 } else { 2311 },
    };
    let keep = if right > 8 { 0xC00 } else { 0xA4F };
    let keeps = [area(keep, 8)];
    let stores = area(if right > 9 { 0xC00 } else { 0x817 }, 2);
    let others = [row(&[], area(0, 0)), row(&keeps, stores)];
    check_start(alloc, job, &program, &others) == Ok(answer)
        && check_write(&others, area(keep + 7, 0xFFFF_FFFF)) == Some((1, keep + 7))
        && check_write(&others, area(keep - 1, 1)) == None
}

static ANSWERS: [Start; 11] = [
    Start::No(StartRefusal::OtherStart),
    Start::No(StartRefusal::OtherDevice),
    Start::No(StartRefusal::OtherLength),
    Start::No(StartRefusal::Changed(0x800)),
    Start::No(StartRefusal::Mask),
    Start::No(StartRefusal::Cylinder(20)),
    Start::No(StartRefusal::Fetch(0x910)),
    Start::No(StartRefusal::Store(0xB00)),
    Start::No(StartRefusal::Conflict(1, Conflict::Stores(0xA4F))),
    Start::No(StartRefusal::Conflict(1, Conflict::Keeps(0x817))),
    Start::Yes,
];

#[test]
fn starts(rt: HostRuntime) {
    let program = Program {
        puts: SEARCH_LOOP,
        ..USUAL
    };
    let is_granted = holds(rt.alloc(), &program, Question::Needs);
    expect(&rt, is_granted, "by its own needs");
    for right in 0..ANSWERS.len() {
        let asked = Question::Start(right, ANSWERS[right]);
        expect(&rt, holds(rt.alloc(), &program, asked), "a start");
    }
}
