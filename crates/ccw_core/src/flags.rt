//! The flags of a channel command word, by name and as the text shows them.

ghost use Rattle.std.specs.Prelude.{⊤, ◌≡◌, [], ◌∷◌, codes};
ghost use Rattle.ccw_core.specs.Ccw.{flag_letters, letter_of};
ghost use Rattle.ccw_core.specs.Flags.{bits_of};

use bitflags::{Flag, Flags, bitflag_items};

/// The named flags of a channel command word.
///
/// `CD` chains data, `CC` chains commands, `SLI` suppresses the length indication, `SKIP` stores
/// nothing, `PCI` asks for a program-controlled interruption.
#[derive(Clone, Copy, PartialEq, Eq, Debug)]
pub struct CcwFlags(u8);

bitflag_items! {
    impl CcwFlags: u8 {
        const CD = 0x80;
        const CC = 0x40;
        const SLI = 0x20;
        const SKIP = 0x10;
        const PCI = 0x08;
    }
}

impl Flags for CcwFlags {
    type Bits = u8;

    ghost exact = { ⊤ };

    ghost table = { (codes "CD", 128) ∷ (codes "CC", 64) ∷ (codes "SLI", 32) ∷ (codes "SKIP", 16)
        ∷ (codes "PCI", 8) ∷ [] };

    ghost set_of = { bits_of };

    fn flags<'a>() -> &'a [Flag<CcwFlags>] {
        CcwFlags::FLAGS
    }

    fn bits(&self) -> u8 {
        self.0
    }

    fn from_bits_retain(bits: u8) -> CcwFlags {
        CcwFlags(bits)
    }
}

/// The letter of each flag, in the order in which a text shows them.
pub const FLAG_LETTERS: [(CcwFlags, u8); 5] = [
    (CcwFlags::CD, b'D'),
    (CcwFlags::CC, b'C'),
    (CcwFlags::SLI, b'L'),
    (CcwFlags::SKIP, b'S'),
    (CcwFlags::PCI, b'P'),
];

/// A flag's letter where it is on, and else a dash.
fn letter(flags: u8, named: (CcwFlags, u8)) -> u8
    ensures { result ≡ letter_of flags (bits_of named.0) named.1 }
{
    let (flag, letter) = named;
    if CcwFlags::from_bits_retain(flags).intersects(flag) {
        letter
    } else {
        b'-'
    }
}

/// A flag byte as text: the named flags by letter, the three low bits as a digit.
pub(crate) fn flag_letters(flags: u8) -> [u8; 6]
    ensures { result ≡ flag_letters flags }
{
    let [cd, cc, sli, skip, pci] = FLAG_LETTERS;
    [
        letter(flags, cd),
        letter(flags, cc),
        letter(flags, sli),
        letter(flags, skip),
        letter(flags, pci),
        b'0' + flags % 8,
    ]
}
