//! How a word of the command line is shown: on one line of printable ASCII, and no two alike.

use hex::encode_upper;
use std::alloc::{AllocError, Global};

/// A word as it is shown: printable ASCII but a backslash as itself, any other byte as `\x` and its
/// two hexadecimal digits.
pub fn shown_word(alloc: Global, word: &[u8]) -> Result<String, AllocError> {
    let mut text = String::new(alloc);
    for at in 0..word.len() {
        push_shown(alloc, &mut text, word[at])?;
    }
    Ok(text)
}

/// Adds a byte as it is shown.
fn push_shown(alloc: Global, text: &mut String, byte: u8) -> Result<(), AllocError> {
    if (byte.is_ascii_graphic() || byte == b' ') && byte != b'\\' {
        return text.push(char::from(byte));
    }
    text.push_str("\\x")?;
    text.push_str(encode_upper(alloc, [byte])?.as_str())
}
