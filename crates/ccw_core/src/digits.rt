//! Hexadecimal digits in capitals, which the crate `hex` reads and writes.

ghost use Rattle.std.specs.Prelude.{◌≡◌, ◌*◌, ◌++◌, ℕ, List, false, length, slice_index, true};
ghost use Rattle.std.specs.Prelude.{IsAscii, MatchBool, MatchOption, OnOk, string_bytes};
ghost use Rattle.std.specs.Char.{is_ascii_lowercase};
ghost use Rattle.hex.specs.Hex.{IsBytes, encode_upper};

use std::alloc::AllocError;

/// Writes the digits of some bytes, two for each.
pub fn write_digits(bytes: &[u8], digits: &mut [u8])
    requires { length digits.old ≡ 2 * length bytes.now }
    ensures { digits.new ≡ encode_upper bytes.now }
{
    // There is room, so that nothing is refused.
    if hex::encode_to_slice(bytes, digits).is_ok() {
        digits.make_ascii_uppercase();
    }
}

/// The digits of eight bytes. It isn't inlined: by itself it makes all sixteen digits capitals at
/// once.
#[inline(never)]
pub(crate) fn doubleword_digits(bytes: &[u8; 8]) -> [u8; 16]
    ensures { result ≡ encode_upper bytes.now }
{
    let mut digits = [0u8; 16];
    write_digits(bytes, &mut digits);
    digits
}

/// Whether a small letter is among these characters.
#[inline(always)]
fn has_small_letter(characters: &[u8]) -> bool
    ensures { MatchBool result
        ((i : ℕ) × (is_ascii_lowercase (slice_index characters.now i) ≡ true))
        ((i : ℕ) → is_ascii_lowercase (slice_index characters.now i) ≡ false) }
{
    let mut found = false;
    for character in characters {
        found |= character.is_ascii_lowercase();
    }
    found
}

/// The bytes whose digits these are, if they are those of so many bytes.
#[inline(always)]
pub fn read_digits<const N: usize>(digits: &[u8]) -> Option<[u8; N]>
    ensures { MatchOption result
        ((bytes : List ℕ) → length bytes ≡ N → IsBytes bytes
        → digits.now ≡ encode_upper bytes → ⊥)
        (λ bytes. (length bytes ≡ N) × IsBytes bytes × (digits.now ≡ encode_upper bytes)) }
{
    if has_small_letter(digits) {
        return None;
    }
    let mut bytes = [0u8; N];
    match hex::decode_to_slice(digits, &mut bytes) {
        Ok(()) => Some(bytes),
        Err(_) => None,
    }
}

/// Adds characters of ASCII to a text.
pub fn push_ascii(out: &mut String, characters: &[u8]) -> Result<(), AllocError>
    requires { IsAscii characters.now }
    ensures { OnOk result (string_bytes out.new ≡ string_bytes out.old ++ characters.now) }
{
    out.push_str(str::from_utf8(characters).unwrap_or(""))
}
