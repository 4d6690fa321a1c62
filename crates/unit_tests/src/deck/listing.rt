//! Listings, byte for byte.

use crate::deck::SEARCH_LOOP_LISTING;
use crate::shared::{expect, paper_of};
use ccw_core::{Storage, Watched};
use chan_deck::{ListError, read_deck, row_text, write_listing};
use chan_walk::{Entry, Explored, Job, Place, Verdict, explore};
use std::alloc::Global;

/// The lines of a deck up to the start's address, for a 2314 with the mask 00.
const FRONT: &str = "chanv deck 1\ndevice 2314\nmask 00\nstart ";

/// The lines before the puts, from the start's end on: 4,096 bytes of storage, of which 16 may be
/// fetched and 256 stored into.
const LENT: &str = "
extent 010 019
fetch 000900 000010
store 000A00 000100
storage 0001000
";

const SEARCH_LOOP: &str = "put 000800 3100090040000005
put 000808 0800080000000000
put 000810 06000A0020000050
";

/// What is asked of the job of a deck.
#[derive(Clone, Copy)]
enum Question<'a> {
    /// Whether these are rows of its storage.
    Rows(&'a [Row]),
    /// Whether the listing is cut off wherever a write fails.
    CutOff(&'a [u8]),
}

/// Whether the job of the deck of a program with these puts has what is asked for.
fn holds(alloc: Global, start: &str, puts: &str, question: Question) -> bool {
    match [FRONT, start, LENT, puts, "end\n"].concat(alloc) {
        Ok(text) => holds_of_deck(alloc, text.as_bytes(), question),
        Err(_) => false,
    }
}

fn holds_of_deck(alloc: Global, text: &[u8], question: Question) -> bool {
    let Ok(deck) = read_deck(alloc, text) else {
        return false;
    };
    let job = deck.job();
    // For the checker alone: it asks for the type of what is borrowed.
    let _storage: Storage<'_> = job.storage;
    holds_of_job(alloc, &job, question)
}

fn holds_of_job(alloc: Global, job: &Job, question: Question) -> bool {
    match question {
        Question::Rows(rows) => are_rows(alloc, job, rows),
        Question::CutOff(listing) => is_cut_off(alloc, job, listing),
    }
}

/// Whether writing the listing of these places writes this much of it, and answers so.
fn answers(
    alloc: Global,
    job: &Job,
    places: &Explored,
    answer: Result<(), ListError>,
    written: &[u8],
) -> bool {
    let mut to = Watched::new(paper_of(written));
    let found = write_listing(alloc, job, places, Verdict::Yes, &mut to);
    found == answer && to.into_inner().left.is_empty()
}

/// A place, whether it is marked, and its row.
type Row = (Place, bool, &'static str);

static ROWS: [Row; 6] = [
    (
        Place {
            address: 0x800,
            entered: Entry::ChainIn,
            after_transfer: true,
        },
        true,
        "000800 in t * 31 000900 -C---0 00 0005 write chained\n",
    ),
    (
        Place {
            address: 0x808,
            entered: Entry::ChainSearch,
            after_transfer: false,
        },
        false,
        "000808 search - . 08 000800 -----0 00 0000 transfer transfer-in-channel\n",
    ),
    (
        Place {
            address: 0x818,
            entered: Entry::Fresh,
            after_transfer: false,
        },
        false,
        "000818 fresh - . 00 000000 -----0 00 0000 invalid unknown\n",
    ),
    (
        Place {
            address: 0x804,
            entered: Entry::ChainOut,
            after_transfer: false,
        },
        true,
        "000804 out - * no-ccw\n",
    ),
    (
        Place {
            address: 0x100_0000,
            entered: Entry::Fresh,
            after_transfer: true,
        },
        false,
        "1000000 fresh t . no-ccw\n",
    ),
    (
        Place {
            address: 0xFFFF_FFF8,
            entered: Entry::Fresh,
            after_transfer: false,
        },
        false,
        "FFFFFFF8 fresh - . no-ccw\n",
    ),
];

fn are_rows(alloc: Global, job: &Job, rows: &[Row]) -> bool {
    for (place, marked, row) in rows {
        if !is_row(alloc, job, *place, *marked, row) {
            return false;
        }
    }
    true
}

fn is_row(alloc: Global, job: &Job, place: Place, marked: bool, row: &str) -> bool {
    match row_text(alloc, job, place, marked) {
        Ok(text) => text.as_str() == row,
        Err(_) => false,
    }
}

#[test]
fn rows_of_places_that_no_run_reaches(rt: HostRuntime) {
    let rows = holds(rt.alloc(), "000800", SEARCH_LOOP, Question::Rows(&ROWS));
    expect(&rt, rows, "rows");
}

/// Whether a writer that takes so many bytes, one in each call, and then fails has taken the front
/// of the listing, whose write fails but where all was taken.
fn is_cut_off(alloc: Global, job: &Job, listing: &[u8]) -> bool {
    match explore(alloc, job) {
        Ok(places) => {
            fails_at_each(alloc, job, &places, listing)
                && answers(alloc, job, &places, Ok(()), listing)
        }
        Err(_) => false,
    }
}

fn fails_at_each(alloc: Global, job: &Job, places: &Explored, listing: &[u8]) -> bool {
    for room in 0..listing.len() {
        let front = &listing[..room];
        if !answers(alloc, job, places, Err(ListError::Write), front) {
            return false;
        }
    }
    true
}

#[test]
fn listing_cut_off_at_each_byte(rt: HostRuntime) {
    let listing = Question::CutOff(SEARCH_LOOP_LISTING.as_bytes());
    let cut_off = holds(rt.alloc(), "000800", SEARCH_LOOP, listing);
    expect(&rt, cut_off, "cut off");
}
