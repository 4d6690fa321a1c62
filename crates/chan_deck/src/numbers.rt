//! The numbers in a line.

ghost use Rattle.std.specs.Prelude.{◌≡◌, ◌<◌, ◌*◌, ◌^◌, ◌++◌, ℕ, List, MatchOption, length};
ghost use Rattle.hex.specs.Hex.{IsBytes, encode_upper};
ghost use Rattle.chan_deck.specs.Item.{IsAddress, IsByte, address_digits, byte_digits};
ghost use Rattle.chan_deck.specs.Item.{cylinder_digits, limit_digits, size_digits};

use crate::placed_bytes::write_at;
use byteorder::{BigEndian, ByteOrder};
use ccw_core::read_digits;
use hex::FromHex;

/// A byte of two digits.
pub(crate) fn byte_of(digits: &[u8]) -> Option<u8>
    ensures { MatchOption result
        ((n : ℕ) → IsByte n → digits.now ≡ byte_digits n → ⊥)
        (λ n. IsByte n × (digits.now ≡ byte_digits n)) }
{
    let [byte]: [u8; 1] = read_digits(digits)?;
    Some(byte)
}

/// The byte that two digits of either case spell.
pub(crate) fn spelled_byte(digits: &[u8]) -> Option<u8> {
    let [byte] = <[u8; 1]>::from_hex(digits).ok()?;
    Some(byte)
}

/// An address of six digits.
#[tactic(auto, using(crate::proofs::ByteNumbers::address_rules))]
pub(crate) fn address_of(digits: &[u8]) -> Option<u32>
    ensures { MatchOption result
        ((n : ℕ) → IsAddress n → digits.now ≡ address_digits n → ⊥)
        (λ n. IsAddress n × (digits.now ≡ address_digits n)) }
{
    let bytes: [u8; 3] = read_digits(digits)?;
    Some(BigEndian::read_u24(&bytes))
}

/// A number of bytes of storage in seven digits.
pub(crate) fn size_of(digits: &[u8]) -> Option<u32>
    ensures { MatchOption result
        ((n : ℕ) → n < 2 ^ 28 → digits.now ≡ size_digits n → ⊥)
        (λ n. (n < 2 ^ 28) × (digits.now ≡ size_digits n)) }
{
    let bytes = read_fields::<8, 4>(b"0", digits)?;
    Some(u32::from_be_bytes(bytes))
}

/// The bytes whose digits two fields have together, if they are those of so many bytes.
#[inline(always)]
pub(crate) fn read_fields<const D: usize, const N: usize>(
    first: &[u8],
    second: &[u8],
) -> Option<[u8; N]>
    requires twice { D ≡ 2 * N }
    requires few { N < 16 }
    ensures { MatchOption result
        ((bytes : List ℕ) → length bytes ≡ N → IsBytes bytes
        → first.now ++ second.now ≡ encode_upper bytes → ⊥)
        (λ bytes. (length bytes ≡ N) × IsBytes bytes
        × (first.now ++ second.now ≡ encode_upper bytes)) }
{
    if first.len() + second.len() != D {
        return None;
    }
    let mut digits = [0u8; D];
    write_at(&mut digits, 0, first);
    write_at(&mut digits, first.len(), second);
    read_digits(&digits)
}

/// A cylinder of three decimal digits.
pub(crate) fn cylinder_of(digits: &[u8]) -> Option<u16>
    ensures { MatchOption result
        ((n : ℕ) → n < 1000 → digits.now ≡ cylinder_digits n → ⊥)
        (λ n. (n < 1000) × (digits.now ≡ cylinder_digits n)) }
{
    match digits {
        [
            hundreds @ b'0'..=b'9',
            tens @ b'0'..=b'9',
            ones @ b'0'..=b'9',
        ] => Some(
            u16::from(hundreds - b'0') * 100 + u16::from(tens - b'0') * 10 + u16::from(ones - b'0'),
        ),
        _ => None,
    }
}

/// A number of places of five decimal digits.
pub(crate) fn places_of(digits: &[u8]) -> Option<u32>
    ensures { MatchOption result
        ((n : ℕ) → n < 100000 → digits.now ≡ limit_digits n → ⊥)
        (λ n. (n < 100000) × (digits.now ≡ limit_digits n)) }
{
    match digits {
        [
            ten_thousands @ b'0'..=b'9',
            thousands @ b'0'..=b'9',
            hundreds @ b'0'..=b'9',
            tens @ b'0'..=b'9',
            ones @ b'0'..=b'9',
        ] => Some(
            u32::from(ten_thousands - b'0') * 10_000
                + u32::from(thousands - b'0') * 1_000
                + u32::from(hundreds - b'0') * 100
                + u32::from(tens - b'0') * 10
                + u32::from(ones - b'0'),
        ),
        _ => None,
    }
}
