//! Runs over devices that fail.
//!
//! What is written over decks that are judged or refused is seen from outside, in `tests/`.

use crate::deck::{SEARCH_LOOP, SEARCH_LOOP_LISTING};
use crate::run::devices::Broken;
use crate::shared::{expect, paper_of};
use ccw_core::Watched;
use chan_args::{Action, Asked};
use chan_run::{RunError, Status, run};
use std::alloc::Global;

/// A search in the last eight bytes of storage.
const END_OF_STORAGE: &str = "chanv deck 1
device 2314
mask 00
start 000FF8
extent 010 019
fetch 000900 000010
store 000A00 000100
storage 0001000
put 000FF8 3100090040000005
end
";

const END_OF_STORAGE_EXPLANATION: &str = "no 001000 outside-storage
000FF8 fresh t . 31 000900 -C---0 00 0005 write search-id-equal
001000 fresh - * no-ccw
because 001000-001007 is not in storage of 0001000 bytes
also 001008 outside-storage
";

/// What is asked for, a text, the read that fails, and what comes of it: the answer, and what was
/// written by then. A write after that fails.
#[derive(Clone, Copy)]
struct Case<'a> {
    action: Action,
    text: &'a str,
    failing: usize,
    answer: Result<Status, RunError>,
    written: &'a [u8],
}

/// The search loop's verdict. Its 205 bytes and the end of the input are 206 reads.
const USUAL: Case<'static> = Case {
    action: Action::Verify,
    text: SEARCH_LOOP,
    failing: 206,
    answer: Ok(Status::Yes),
    written: b"yes\n",
};

/// Whether a run comes to this.
fn is_run(alloc: Global, case: &Case) -> bool {
    let mut from = Watched::new(Broken {
        rest: case.text.as_bytes(),
        reads: 0,
        failing: case.failing,
    });
    let mut to = Watched::new(paper_of(case.written));
    let answer = run(alloc, case.action, &mut from, &mut to);
    answer == case.answer && to.into_inner().left.is_empty()
}

/// Whether a run comes to this where all is read, and fails where one of the reads before does.
fn reads(alloc: Global, whole: &Case) -> bool {
    for failing in 0..206 {
        let case = Case {
            failing,
            answer: Err(RunError::Read),
            written: &[],
            ..*whole
        };
        if !is_run(alloc, &case) {
            return false;
        }
    }
    is_run(alloc, whole)
}

#[test]
fn each_read_failing_in_turn(rt: HostRuntime) {
    let listed = Case {
        action: Action::List { wide: false },
        written: SEARCH_LOOP_LISTING.as_bytes(),
        ..USUAL
    };
    expect(&rt, reads(rt.alloc(), &USUAL), "verify");
    expect(&rt, reads(rt.alloc(), &listed), "list");
}

/// What is asked for, a text, and all that is written over it.
static WRITTEN: [(Action, &str, &str); 3] = [
    (Action::Verify, SEARCH_LOOP, "yes\n"),
    (
        Action::List { wide: false },
        SEARCH_LOOP,
        SEARCH_LOOP_LISTING,
    ),
    (
        Action::Why(Asked::First),
        END_OF_STORAGE,
        END_OF_STORAGE_EXPLANATION,
    ),
];

/// Whether a run is cut off wherever a write fails.
fn is_cut_off(alloc: Global, action: Action, text: &str, whole: &[u8]) -> bool {
    for room in 0..whole.len() {
        let case = Case {
            action,
            text,
            failing: usize::MAX,
            answer: Err(RunError::Write),
            written: &whole[..room],
        };
        if !is_run(alloc, &case) {
            return false;
        }
    }
    true
}

#[test]
fn each_write_failing_in_turn(rt: HostRuntime) {
    for (action, text, whole) in &WRITTEN {
        let cut_off = is_cut_off(rt.alloc(), *action, text, whole.as_bytes());
        expect(&rt, cut_off, text);
    }
}
