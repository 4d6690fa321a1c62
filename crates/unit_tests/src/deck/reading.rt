//! Worked decks, read and written back, and the texts of verdicts and errors.

use crate::deck::SEARCH_LOOP;
use crate::shared::expect;
use ccw_core::{Area, Storage};
use chan_deck::{Cause, Deck, DeckError, ListError, read_deck, verdict_text, write_deck};
use chan_walk::{Job, Reason, Verdict};
use ckd_core::Device;
use std::alloc::Global;

mod versions;

/// Whether the text is read, and written back byte for byte.
fn reads_back(alloc: Global, text: &str) -> bool {
    match read_deck(alloc, text.as_bytes()) {
        Ok(deck) => writes(alloc, &deck, text) && compared(alloc, text, &deck) == Some(true),
        Err(_) => false,
    }
}

fn writes(alloc: Global, deck: &Deck, text: &str) -> bool {
    match write_deck(alloc, deck) {
        Ok(again) => again.as_slice() == text.as_bytes(),
        Err(_) => false,
    }
}

/// Whether the text is read as this deck, where it is read.
fn compared(alloc: Global, text: &str, deck: &Deck) -> Option<bool> {
    match read_deck(alloc, text.as_bytes()) {
        Ok(again) => Some(again == *deck),
        Err(_) => None,
    }
}

/// Whether both texts are read, as two decks that differ.
fn differ(alloc: Global, one: &str, other: &str) -> bool {
    match read_deck(alloc, one.as_bytes()) {
        Ok(deck) => compared(alloc, other, &deck) == Some(false),
        Err(_) => false,
    }
}

fn is_line(alloc: Global, verdict: Verdict, line: &str) -> bool {
    match verdict_text(alloc, verdict) {
        Ok(text) => text.as_str() == line,
        Err(_) => false,
    }
}

/// The search loop's deck without areas and puts.
const BARE: &str = "chanv deck 1
device 2314
mask 00
start 000800
extent 010 019
storage 0001000
end
";

const NO_STORAGE: &str = "chanv deck 1
device 2311
mask D8
start FFFFFF
extent 000 202
extent 202 202
fetch FFFFFF FFFFFF
fetch 000000 000000
store ABCDEF 012345
storage 0000000
end
";

#[test]
fn deck_text(rt: HostRuntime) {
    let alloc = rt.alloc();
    expect(&rt, SEARCH_LOOP.len() == 205, "its length");
    expect(&rt, reads_back(alloc, SEARCH_LOOP), "the search loop");
    expect(&rt, reads_back(alloc, BARE), "no-areas-and-no-words");
    expect(&rt, reads_back(alloc, NO_STORAGE), "no storage");
}

static FETCH: [Area; 1] = [Area {
    start: 0x900,
    len: 16,
}];

static STORE: [Area; 1] = [Area {
    start: 0xA00,
    len: 256,
}];

static FIRST_WORD: [u8; 8] = [0x31, 0x00, 0x09, 0x00, 0x40, 0x00, 0x00, 0x05];

static ZEROS: [u8; 8] = [0; 8];

static CYLINDERS: [(u16, u16); 1] = [(10, 19)];

/// Whether the job has the lines of the search loop before its storage.
fn has_heading(job: &Job) -> bool {
    job.start == 0x800
        && job.device == Device::D2314
        && job.mask.byte() == 0x00
        && job.extents.pairs() == CYLINDERS.as_slice()
        && job.fetch == FETCH.as_slice()
        && job.store == STORE.as_slice()
}

/// Whether storage has the word of the first put, and zeros after the last.
fn has_words(storage: &Storage) -> bool {
    storage.len() == 4096
        && storage.range(0x800, 8) == Some(FIRST_WORD.as_slice())
        && storage.range(0x818, 8) == Some(ZEROS.as_slice())
}

/// Whether the text is read as the search loop's job.
fn is_search_loop(alloc: Global, text: &str) -> bool {
    match read_deck(alloc, text.as_bytes()) {
        Ok(deck) => {
            let job = deck.job();
            has_heading(&job) && has_words(&job.storage)
        }
        Err(_) => false,
    }
}

#[test]
fn deck_job(rt: HostRuntime) {
    expect(&rt, is_search_loop(rt.alloc(), SEARCH_LOOP), "search loop");
}

/// The search loop's deck whose first put has another last digit.
const OTHER: &str = "chanv deck 1
device 2314
mask 00
start 000800
extent 010 019
fetch 000900 000010
store 000A00 000100
storage 0001000
put 000800 3100090040000006
put 000808 0800080000000000
put 000810 06000A0020000050
end
";

#[test]
fn other_words_make_another_deck(rt: HostRuntime) {
    expect(&rt, differ(rt.alloc(), SEARCH_LOOP, OTHER), "another put");
}

/// A reason, the address that it is named for, and the line of that verdict.
static NO_LINES: [(u32, Reason, &str); 5] = [
    (0x810, Reason::Inhibited, "no 000810 inhibited\n"),
    (0xFFFFF8, Reason::ShortSeek, "no FFFFF8 short-seek\n"),
    (
        0x100_0000,
        Reason::OutsideStorage,
        "no 1000000 outside-storage\n",
    ),
    (
        0xABC_DEF0,
        Reason::OutsideStorage,
        "no ABCDEF0 outside-storage\n",
    ),
    (
        0xFFFF_FFF8,
        Reason::OutsideStorage,
        "no FFFFFFF8 outside-storage\n",
    ),
];

#[test]
fn verdict_lines(rt: HostRuntime) {
    let alloc = rt.alloc();
    expect(&rt, is_line(alloc, Verdict::Yes, "yes\n"), "yes");
    for (address, reason, line) in &NO_LINES {
        let verdict = Verdict::No {
            address: *address,
            reason: *reason,
        };
        expect(&rt, is_line(alloc, verdict, line), line);
    }
}

fn is_deck_error(alloc: Global, error: DeckError, text: &str) -> bool {
    match format!(in alloc; "{error}") {
        Ok(found) => found.as_str() == text,
        Err(_) => false,
    }
}

fn is_list_error(alloc: Global, error: ListError, text: &str) -> bool {
    match format!(in alloc; "{error}") {
        Ok(found) => found.as_str() == text,
        Err(_) => false,
    }
}

#[test]
fn texts_of_errors(rt: HostRuntime) {
    let alloc = rt.alloc();
    let refused = DeckError::At {
        line: 9,
        cause: Cause::PutAddress,
    };
    let text = "line 9 is refused: PutAddress";
    expect(&rt, is_deck_error(alloc, refused, text), text);
    let write = is_list_error(alloc, ListError::Write, "write failed");
    expect(&rt, write, "write");
    let memory = is_list_error(alloc, ListError::Memory, "out of memory");
    expect(&rt, memory, "memory");
}
