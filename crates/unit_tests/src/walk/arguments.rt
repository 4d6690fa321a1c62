//! Worked cases of the argument of a seek.

use crate::shared::expect;
use crate::walk::program::{Program, Question, USUAL, holds};
use chan_walk::{Job, seek_argument};

/// A program, and the argument of the seek at `800`.
struct Case<'a> {
    name: &'a str,
    puts: &'a [(usize, u64)],
    argument: Option<[u8; 6]>,
}

static CASES: [Case<'static>; 5] = [
    Case {
        name: "seek-through-transfer",
        puts: &[
            (0x800, 0x0700_0900_8000_0002),
            (0x808, 0x0800_0820_0000_0000),
            (0x820, 0x0000_0904_4000_0004),
            (0x828, 0x0300_0000_0000_0001),
            (0x900, 0x0000_0000_000A_0000),
        ],
        argument: Some([0, 0, 0, 0x0A, 0, 0]),
    },
    Case {
        name: "seek-two-transfers",
        puts: &[
            (0x800, 0x0700_0900_8000_0002),
            (0x808, 0x0800_0820_0000_0000),
            (0x820, 0x0800_0830_0000_0000),
            (0x828, 0x0300_0000_0000_0001),
            (0x900, 0x0000_0000_000A_0000),
        ],
        argument: None,
    },
    Case {
        name: "split-argument",
        puts: &[
            (0x800, 0x0700_0900_8000_0002),
            (0x808, 0x0000_0904_8000_0002),
            (0x810, 0x0000_0908_4000_0002),
            (0x900, 0x0000_0000_000A_0000),
        ],
        argument: Some([0, 0, 0, 0x0A, 0, 0]),
    },
    Case {
        name: "seek-verdicts/head-19-on-2314",
        puts: &[
            (0x800, 0x0700_0900_0000_0006),
            (0x900, 0x0000_000A_0013_0000),
        ],
        argument: Some([0, 0, 0, 0x0A, 0, 0x13]),
    },
    Case {
        name: "seek-verdicts/five-bytes",
        puts: &[(0x800, 0x0700_0900_0000_0005)],
        argument: None,
    },
];

/// Whether this is the argument of the seek at a job's start.
pub(crate) fn is_argument(job: &Job, argument: Option<[u8; 6]>) -> bool {
    seek_argument(&job.storage, job.start) == argument
}

#[test]
fn arguments(rt: HostRuntime) {
    for case in &CASES {
        let program = Program {
            puts: case.puts,
            ..USUAL
        };
        let asked = Question::Argument(case.argument);
        expect(&rt, holds(rt.alloc(), &program, asked), case.name);
    }
}
