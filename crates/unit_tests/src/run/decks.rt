//! What comes of an input over devices that fail, and what is said of it.
//!
//! What is answered over an input that is read, and written, is seen from outside, in `tests/`.

use crate::run::devices::Broken;
use crate::shared::{Paper, expect, paper_of};
use ccw_core::Watched;
use chan_args::{Action, Asked};
use chan_run::{Failure, Naming, Outcome, Response, deliver, ends_run, judge_deck};
use std::alloc::Global;

/// A No Operation, with areas that it doesn't use.
const LENT_IN_VAIN: &str = "chanv deck 1
device 2314
mask 00
start 000800
extent 010 019
fetch 000900 000010
store 000A00 000700
storage 0001000
put 000800 0300000000000001
end
";

const NOTES: &str = "note: store 000A00 000700 reaches past storage
note: fetch 000900 000010 is used by no reachable CCW
note: store 000A00 000700 is used by no reachable CCW
";

/// A name, the read that fails, whether the output can be flushed, what comes of it, what stands on
/// either writer, and whether more was to be told. A write after that fails.
#[derive(Clone, Copy)]
struct Case<'a> {
    name: Option<&'a str>,
    failing: usize,
    flushes: bool,
    outcome: Outcome,
    written: &'a [u8],
    told: &'a [u8],
    is_cut_off: bool,
}

const USUAL: Case<'static> = Case {
    name: None,
    failing: usize::MAX,
    flushes: true,
    outcome: Outcome::Done,
    written: b"yes\n",
    told: b"",
    is_cut_off: false,
};

/// Whether `why` comes to this, over the deck whose areas are lent in vain.
fn is_answered(alloc: Global, case: &Case) -> bool {
    let mut from = Watched::new(Broken {
        rest: LENT_IN_VAIN.as_bytes(),
        reads: 0,
        failing: case.failing,
    });
    let mut to = Watched::new(Paper {
        left: case.written,
        flushes: case.flushes,
    });
    let mut errors = Watched::new(paper_of(case.told));
    let action = Action::Why(Asked::First);
    let naming = Naming {
        name: case.name,
        is_among: false,
    };
    let found = judge_deck(alloc, naming, action, &mut from, &mut to, &mut errors);
    found == case.outcome
        && to.into_inner().left.is_empty()
        && errors.failed() == case.is_cut_off
        && errors.into_inner().left.is_empty()
}

#[test]
fn a_flush_that_fails(rt: HostRuntime) {
    let case = Case {
        flushes: false,
        outcome: Outcome::Failed(Failure::WriteFailed),
        told: b"chanv: write failed\n",
        ..USUAL
    };
    expect(&rt, is_answered(rt.alloc(), &case), "flush");
}

#[test]
fn each_write_over_a_named_input_failing_in_turn(rt: HostRuntime) {
    let whole = b"a.deck: yes\n".as_slice();
    for room in 0..whole.len() {
        let case = Case {
            name: Some("a.deck"),
            outcome: Outcome::Failed(Failure::WriteFailed),
            written: &whole[..room],
            told: b"chanv: write failed\n",
            ..USUAL
        };
        expect(&rt, is_answered(rt.alloc(), &case), "write");
    }
}

#[test]
fn a_read_that_fails(rt: HostRuntime) {
    let case = Case {
        name: Some("a.deck"),
        failing: 20,
        outcome: Outcome::Failed(Failure::ReadFailed),
        written: &[],
        told: b"chanv: a.deck: read failed\n",
        ..USUAL
    };
    expect(&rt, is_answered(rt.alloc(), &case), "read");
}

#[test]
fn each_write_of_the_notes_failing_in_turn(rt: HostRuntime) {
    for room in 0..NOTES.len() + 1 {
        let case = Case {
            told: &NOTES.as_bytes()[..room],
            is_cut_off: room < NOTES.len(),
            ..USUAL
        };
        expect(&rt, is_answered(rt.alloc(), &case), "cut off");
    }
}

/// What a command came to, and with which outcome and line it ends where the flush fails.
static ENDS: &[(Outcome, Outcome, &str)] = &[
    (
        Outcome::Done,
        Outcome::Failed(Failure::WriteFailed),
        "chanv: write failed\n",
    ),
    (
        Outcome::Denied,
        Outcome::Failed(Failure::WriteFailed),
        "chanv: write failed\n",
    ),
    (
        Outcome::Failed(Failure::CannotOpen),
        Outcome::Failed(Failure::CannotOpen),
        "chanv: a.deck: cannot open\n",
    ),
];

/// Whether a command over `a.deck` ends so where the flush fails.
fn is_concluded(alloc: Global, came: Outcome, wanted: Outcome, line: &[u8]) -> bool {
    if ends_run(came) {
        return false;
    }
    let mut to = Watched::new(Paper {
        left: &[],
        flushes: false,
    });
    let mut errors = Watched::new(paper_of(line));
    let end = Response::bare(alloc, came, "");
    let found = deliver(Some("a.deck"), &end, &mut to, &mut errors);
    found == wanted && !errors.failed() && errors.into_inner().left.is_empty()
}

#[test]
fn ends_of_commands(rt: HostRuntime) {
    for (came, end, line) in ENDS {
        expect(
            &rt,
            is_concluded(rt.alloc(), *came, *end, line.as_bytes()),
            line,
        );
    }
}
