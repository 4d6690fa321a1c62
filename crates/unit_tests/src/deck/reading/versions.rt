//! Decks of version 2, and how decks of version 1 become such.

use super::{compared, differ, reads_back, writes};
use crate::deck::SEARCH_LOOP;
use crate::shared::expect;
use ccw_core::Storage;
use chan_deck::{Deck, read_deck};
use chan_walk::Limit;
use std::alloc::Global;

/// The search loop's deck in version 2, with the limit of version 1.
const DECK_OF_TWO: &str = "chanv deck 2
device 2314
mask 00
start 000800
limit 04096
extent 010 019
fetch 000900 000010
store 000A00 000100
storage 0001000
put 000800 3100090040000005
put 000808 0800080000000000
put 000810 06000A0020000050
end
";

/// The same with the largest limit.
const LARGEST: &str = "chanv deck 2
device 2314
mask 00
start 000800
limit 65536
extent 010 019
fetch 000900 000010
store 000A00 000100
storage 0001000
put 000800 3100090040000005
put 000808 0800080000000000
put 000810 06000A0020000050
end
";

/// Whether the deck is of this version, and its job may have so many places within reach.
fn is_of(deck: &Deck, version: u8, limit: u32) -> bool {
    let job = deck.job();
    let _storage: Storage<'_> = job.storage;
    deck.version() == version && job.limit.get() == limit
}

/// Whether the text is read as such a deck.
fn reads_as(alloc: Global, text: &str, version: u8, limit: u32) -> bool {
    match read_deck(alloc, text.as_bytes()) {
        Ok(deck) => is_of(&deck, version, limit),
        Err(_) => false,
    }
}

#[test]
fn deck_two(rt: HostRuntime) {
    let alloc = rt.alloc();
    expect(&rt, DECK_OF_TWO.len() == 217, "its length");
    expect(&rt, reads_back(alloc, DECK_OF_TWO), "deck-two");
    expect(&rt, reads_as(alloc, DECK_OF_TWO, 2, 4096), "version 2");
    expect(&rt, reads_as(alloc, SEARCH_LOOP, 1, 4096), "version 1");
    expect(&rt, differ(alloc, SEARCH_LOOP, DECK_OF_TWO), "two versions");
}

/// Whether the text is read, and upgraded to the deck of another.
fn upgrades(alloc: Global, from: &str, limit: Limit, to: &str) -> bool {
    match read_deck(alloc, from.as_bytes()) {
        Ok(deck) => is_upgraded(alloc, &deck.upgrade(limit), limit, to),
        Err(_) => false,
    }
}

fn is_upgraded(alloc: Global, deck: &Deck, limit: Limit, to: &str) -> bool {
    is_of(deck, 2, limit.get())
        && writes(alloc, deck, to)
        && compared(alloc, to, deck) == Some(true)
}

#[test]
fn upgrade(rt: HostRuntime) {
    let alloc = rt.alloc();
    let usual = upgrades(alloc, SEARCH_LOOP, Limit::usual(), DECK_OF_TWO);
    expect(&rt, usual, "the usual limit");
    let largest = match Limit::new(65536) {
        Some(limit) => upgrades(alloc, DECK_OF_TWO, limit, LARGEST),
        None => false,
    };
    expect(&rt, largest, "the largest limit");
}
