//! The report of an outcome, also over a writer that fails.
//!
//! The lines and statuses of the commands are seen from outside, in `tests/command_lines.py`.

use crate::shared::{expect, paper_of};
use ccw_core::Watched;
use chan_deck::Cause;
use chan_run::{Failure, Outcome, exit_status, report};

/// An outcome, its status, its line, and its line over an input named `a.deck`.
type Row = (Outcome, u8, &'static str, &'static str);

static REPORTS: [Row; 6] = [
    (Outcome::Done, 0, "", ""),
    (Outcome::Denied, 1, "", ""),
    (
        Outcome::Refused {
            line: u64::MAX,
            cause: Cause::PutZero,
        },
        2,
        "chanv: deck line 18446744073709551615: put-zero\n",
        "chanv: a.deck: deck line 18446744073709551615: put-zero\n",
    ),
    (
        Outcome::Failed(Failure::ReadFailed),
        3,
        "chanv: read failed\n",
        "chanv: a.deck: read failed\n",
    ),
    (
        Outcome::Failed(Failure::WriteFailed),
        3,
        "chanv: write failed\n",
        "chanv: write failed\n",
    ),
    (
        Outcome::Failed(Failure::NotCcw),
        4,
        "chanv: not a CCW\n",
        "chanv: not a CCW\n",
    ),
];

/// Whether the report of an outcome has this status, and writes this and no more, or else fails
/// after it.
fn is_reported(outcome: Outcome, status: u8, written: &[u8], fails: bool) -> bool {
    let mut to = Watched::new(paper_of(written));
    let found = report(None, outcome, &mut to);
    found == status && to.failed() == fails && to.into_inner().left.is_empty()
}

/// Whether the report of an outcome over an input of this name has this status and this line.
fn is_reported_over(name: &str, outcome: Outcome, status: u8, line: &[u8]) -> bool {
    let mut to = Watched::new(paper_of(line));
    let found = report(Some(name), outcome, &mut to);
    found == status && !to.failed() && to.into_inner().left.is_empty()
}

/// Whether an outcome has this status and this line, over a writer that takes all and one that
/// fails at once.
fn is_said(outcome: Outcome, status: u8, line: &[u8]) -> bool {
    exit_status(outcome) == status
        && is_reported(outcome, status, line, false)
        && (line.is_empty() || is_reported(outcome, status, &[], true))
}

#[test]
fn reports(rt: HostRuntime) {
    for (outcome, status, line, named) in &REPORTS {
        expect(&rt, is_said(*outcome, *status, line.as_bytes()), line);
        let is_so = is_reported_over("a.deck", *outcome, *status, named.as_bytes());
        expect(&rt, is_so, named);
    }
}
