//! Calls that no program makes, over one worked case.
//!
//! `tests/refused_memory.py` runs each of these tests and refuses the growths of memory in it, one
//! by one. The test then says `out of memory`, and gives no answer.

use crate::shared::{expect, paper_of};
use ccw_core::Watched;
use chan_args::Action;
use chan_deck::{Deck, DeckError, ListError, read_deck, row_text, write_deck, write_listing};
use chan_run::{RunError, Status, run};
use chan_walk::{Explored, Guard, Job, Verdict, WalkError, explore, first_place};
use std::alloc::{AllocError, Global};
use std::process::Abort;

/// A seek whose argument lies in three pieces, and a read after the last of them.
static DECK: &str = "chanv deck 1
device 2314
mask 00
start 000800
extent 010 019
fetch 000900 000010
store 00090A 000002
storage 0001000
put 000800 0700090080000002
put 000808 0000090480000002
put 000810 0000090840000002
put 000818 0600090A00000002
put 000900 00000000000A0000
end
";

static LISTING: &str = "000800 fresh t . 07 000900 D----0 00 0002 control seek
000808 out - . 00 000904 D----0 00 0002 invalid chained
000810 out - . 00 000908 -C---0 00 0002 invalid chained
000818 fresh - . 06 00090A -----0 00 0002 read read-data
yes
";

/// What is called over the deck.
#[derive(Clone, Copy)]
enum Call {
    /// Nothing more than reading it.
    ReadDeck,
    /// Nothing more than reading it, and exploring its job.
    Explore,
    GuardNew,
    WriteDeck,
    RowText,
    WriteListing,
}

/// Asserts that a call gave the case's answer, and says if memory was refused.
fn expect_answer(rt: &impl Abort, answer: Result<bool, AllocError>) {
    match answer {
        Ok(holds) => expect(rt, holds, "the answer"),
        Err(AllocError) => expect(rt, false, "out of memory"),
    }
}

fn calls(alloc: Global, call: Call) -> Result<bool, AllocError> {
    match read_deck(alloc, DECK.as_bytes()) {
        Ok(deck) => calls_over(alloc, &deck, call),
        Err(DeckError::Memory) => Err(AllocError),
        Err(_) => Ok(false),
    }
}

fn calls_over(alloc: Global, deck: &Deck, call: Call) -> Result<bool, AllocError> {
    let job = deck.job();
    // For the checker alone: it asks for the type of what is borrowed.
    let _storage = job.storage;
    match call {
        Call::ReadDeck => Ok(true),
        Call::WriteDeck => is_written(alloc, deck),
        Call::RowText => is_row(alloc, &job),
        Call::GuardNew => is_guarded(alloc, &job),
        _ => calls_explored(alloc, &job, call),
    }
}

fn calls_explored(alloc: Global, job: &Job, call: Call) -> Result<bool, AllocError> {
    match explore(alloc, job) {
        Ok(places) => match call {
            Call::WriteListing => is_listed(alloc, job, &places),
            _ => Ok(true),
        },
        Err(WalkError::Memory) => Err(AllocError),
        Err(_) => Ok(false),
    }
}

fn is_written(alloc: Global, deck: &Deck) -> Result<bool, AllocError> {
    let text = write_deck(alloc, deck)?;
    Ok(text.as_slice() == DECK.as_bytes())
}

fn is_row(alloc: Global, job: &Job) -> Result<bool, AllocError> {
    let row = row_text(alloc, job, first_place(job), false)?;
    Ok(LISTING.as_bytes().starts_with(row.as_bytes()))
}

fn is_guarded(alloc: Global, job: &Job) -> Result<bool, AllocError> {
    let places = match explore(alloc, job) {
        Ok(places) => places,
        Err(WalkError::Memory) => return Err(AllocError),
        Err(_) => return Ok(false),
    };
    match Guard::new(alloc, job, &places) {
        Ok(guard) => Ok(guard.argument_ranges().len() == 3),
        Err(AllocError) => Err(AllocError),
    }
}

fn is_listed(alloc: Global, job: &Job, places: &Explored) -> Result<bool, AllocError> {
    let mut to = Watched::new(paper_of(LISTING.as_bytes()));
    match write_listing(alloc, job, places, Verdict::Yes, &mut to) {
        Ok(()) => Ok(to.into_inner().left.is_empty()),
        Err(ListError::Memory) => Err(AllocError),
        Err(_) => Ok(false),
    }
}

fn is_run(alloc: Global) -> Result<bool, AllocError> {
    let mut from = Watched::new(DECK.as_bytes());
    let mut to = Watched::new(paper_of(LISTING.as_bytes()));
    match run(alloc, Action::List { wide: false }, &mut from, &mut to) {
        Ok(status) => Ok(status == Status::Yes && to.into_inner().left.is_empty()),
        Err(RunError::Memory) => Err(AllocError),
        Err(_) => Ok(false),
    }
}

#[test]
fn the_deck_is_read(rt: HostRuntime) {
    expect_answer(&rt, calls(rt.alloc(), Call::ReadDeck));
}

#[test]
fn its_job_is_explored(rt: HostRuntime) {
    expect_answer(&rt, calls(rt.alloc(), Call::Explore));
}

#[test]
fn guard_new(rt: HostRuntime) {
    expect_answer(&rt, calls(rt.alloc(), Call::GuardNew));
}

#[test]
fn writes_deck(rt: HostRuntime) {
    expect_answer(&rt, calls(rt.alloc(), Call::WriteDeck));
}

#[test]
fn tells_row(rt: HostRuntime) {
    expect_answer(&rt, calls(rt.alloc(), Call::RowText));
}

#[test]
fn writes_listing(rt: HostRuntime) {
    expect_answer(&rt, calls(rt.alloc(), Call::WriteListing));
}

#[test]
fn runs(rt: HostRuntime) {
    expect_answer(&rt, is_run(rt.alloc()));
}
