//! What `show` writes where a write fails, and the texts of its errors.

use crate::shared::{expect, paper_of};
use ccw_core::Watched;
use chan_run::{ShowError, show};
use std::alloc::Global;

/// Whether showing a text answers so, and writes this: a write after that fails.
fn is_shown(alloc: Global, text: &str, answer: Result<(), ShowError>, line: &[u8]) -> bool {
    let mut to = Watched::new(paper_of(line));
    show(alloc, text, &mut to) == answer && to.into_inner().left.is_empty()
}

#[test]
fn show_write_fault(rt: HostRuntime) {
    let text = "06000A0020000050";
    let cut_off = is_shown(rt.alloc(), text, Err(ShowError::Write), b"0");
    expect(&rt, cut_off, "cut off");
    let line = b"06 000A00 --L--0 00 0050 read\n";
    expect(&rt, is_shown(rt.alloc(), text, Ok(()), line), "whole");
}

static ERRORS: [(ShowError, &str); 3] = [
    (ShowError::NotCcw, "not a CCW"),
    (ShowError::Memory, "out of memory"),
    (ShowError::Write, "write failed"),
];

fn is_error(alloc: Global, error: ShowError, text: &str) -> bool {
    match format!(in alloc; "{error}") {
        Ok(found) => found.as_str() == text,
        Err(_) => false,
    }
}

#[test]
fn texts_of_errors(rt: HostRuntime) {
    for (error, text) in &ERRORS {
        expect(&rt, is_error(rt.alloc(), *error, text), text);
    }
}
