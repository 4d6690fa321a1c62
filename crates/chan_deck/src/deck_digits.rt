//! Writing the digits of a deck.

ghost use Rattle.std.specs.Prelude.{◌≡◌, ◌<◌};
ghost use Rattle.std.specs.Int.{w32, w64, to_be_bytes};
ghost use Rattle.hex.specs.Hex.{encode_upper};
ghost use Rattle.chan_deck.specs.Item as item;

use ccw_core::{Area, write_digits};

/// The three digits of a cylinder.
pub(crate) fn cylinder_digits(cylinder: u16) -> [u8; 3]
    requires { cylinder < 1000 }
    ensures { result ≡ item.cylinder_digits cylinder }
{
    let hundreds = b'0' + (cylinder / 100) as u8;
    let tens = b'0' + (cylinder / 10 % 10) as u8;
    let ones = b'0' + (cylinder % 10) as u8;
    [hundreds, tens, ones]
}

/// The five digits of a number of places.
pub(crate) fn limit_digits(places: u32) -> [u8; 5]
    requires { places < 100000 }
    ensures { result ≡ item.limit_digits places }
{
    let ten_thousands = b'0' + (places / 10_000) as u8;
    let thousands = b'0' + (places / 1_000 % 10) as u8;
    let hundreds = b'0' + (places / 100 % 10) as u8;
    let tens = b'0' + (places / 10 % 10) as u8;
    let ones = b'0' + (places % 10) as u8;
    [ten_thousands, thousands, hundreds, tens, ones]
}

/// The two digits of a byte.
pub(crate) fn byte_digits(byte: u8) -> [u8; 2]
    ensures { result ≡ item.byte_digits byte }
{
    let mut digits = [0u8; 2];
    write_digits(&[byte], &mut digits);
    digits
}

/// The eight digits of a number.
pub(crate) fn number_digits(number: u32) -> [u8; 8]
    ensures { result ≡ encode_upper (to_be_bytes w32 number) }
{
    let mut digits = [0u8; 8];
    write_digits(&number.to_be_bytes(), &mut digits);
    digits
}

/// The six digits of an address.
#[tactic(auto, unfolding(hex::specs::Hex::encode_with))]
pub(crate) fn address_digits(address: u32) -> [u8; 6]
    ensures { result ≡ item.address_digits address }
{
    let [_, _, a, b, c, d, e, f] = number_digits(address);
    [a, b, c, d, e, f]
}

/// The seven digits of a number of bytes.
#[tactic(auto, unfolding(hex::specs::Hex::encode_with))]
pub(crate) fn size_digits(size: u32) -> [u8; 7]
    ensures { result ≡ item.size_digits size }
{
    let [_, a, b, c, d, e, f, g] = number_digits(size);
    [a, b, c, d, e, f, g]
}

/// The thirteen characters of an area.
#[tactic(auto, unfolding(hex::specs::Hex::encode_with))]
pub(crate) fn area_digits(area: Area) -> [u8; 13]
    ensures { result ≡ item.area_digits area }
{
    let [a, b, c, d, e, f] = address_digits(area.start);
    let [g, h, i, j, k, l] = address_digits(area.len);
    [a, b, c, d, e, f, b' ', g, h, i, j, k, l]
}

/// The sixteen digits of eight bytes, as the number that has them.
pub(crate) fn word_digits(word: u64) -> [u8; 16]
    ensures { result ≡ encode_upper (to_be_bytes w64 word) }
{
    let mut digits = [0u8; 16];
    write_digits(&word.to_be_bytes(), &mut digits);
    digits
}
