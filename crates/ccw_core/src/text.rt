//! Texts that grow at their end.

ghost use Rattle.std.specs.Prelude.{◌≡◌, ◌++◌, ℕ, List, IsAscii, OnOk, string_bytes};

use crate::digits::push_ascii;
use std::alloc::AllocError;

/// A text that grows at its end: a `String`, or the bytes of a text. Bytes cost less, because no
/// call looks at what it adds to them.
pub trait Text {
    // The bytes of the text.
    ghost written: { Self → List ℕ };

    /// Adds characters of ASCII.
    fn add_ascii(&mut self, characters: &[u8]) -> Result<(), AllocError>
        requires { IsAscii characters.now }
        ensures { OnOk result (written self.new ≡ written self.old ++ characters.now) };

    /// Adds a word.
    fn add_word(&mut self, word: &str) -> Result<(), AllocError>
        ensures { OnOk result (written self.new ≡ written self.old ++ word.now) };
}

impl Text for String {
    ghost written = { string_bytes };

    #[inline]
    fn add_ascii(&mut self, characters: &[u8]) -> Result<(), AllocError> {
        push_ascii(self, characters)
    }

    #[inline]
    fn add_word(&mut self, word: &str) -> Result<(), AllocError> {
        self.push_str(word)
    }
}

impl Text for Vec<u8> {
    ghost written = { λ bytes. bytes.items };

    #[inline]
    fn add_ascii(&mut self, characters: &[u8]) -> Result<(), AllocError> {
        self.extend_from_slice(characters)
    }

    #[inline]
    fn add_word(&mut self, word: &str) -> Result<(), AllocError> {
        self.extend_from_slice(word.as_bytes())
    }
}
