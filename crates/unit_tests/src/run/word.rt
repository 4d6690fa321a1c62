//! How words are shown.

use crate::shared::expect;
use chan_args::shown_word;
use std::alloc::Global;

/// A word, and how it is shown.
static WORDS: [(&[u8], &str); 10] = [
    (b"", ""),
    (b"no right.deck", "no right.deck"),
    (b" ~", " ~"),
    (b"good.deck: yes\nevil.deck", "good.deck: yes\\x0Aevil.deck"),
    (b"\x1B[2J", "\\x1B[2J"),
    (b"\x00\x1F\x7F", "\\x00\\x1F\\x7F"),
    (b"\\", "\\x5C"),
    (b"\\x0A", "\\x5Cx0A"),
    (b"caf\xC3\xA9", "caf\\xC3\\xA9"),
    (b"\x80\xFF.deck", "\\x80\\xFF.deck"),
];

fn is_shown(alloc: Global, word: &[u8], text: &str) -> bool {
    match shown_word(alloc, word) {
        Ok(found) => found.as_str() == text,
        Err(_) => false,
    }
}

#[test]
fn words_are_shown(rt: HostRuntime) {
    for (word, shown) in &WORDS {
        expect(&rt, is_shown(rt.alloc(), word, shown), shown);
    }
}
