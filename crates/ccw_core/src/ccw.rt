//! The channel command word.

ghost use Rattle.std.specs.Prelude.{◌≡◌, ◌≤◌, ◌<◌, ◌↔◌, ◌-◌, ◌++◌, bit_and, IsTrue};
ghost use Rattle.std.specs.Prelude.{IsSome, IsNone, IfSome, IfOk, OnOk, is_some, string_bytes};
ghost use Rattle.ccw_core.specs.Ccw.{Fields, bytes_of, ccw, ccw_text, is_formed, is_on};
ghost use Rattle.ccw_core.specs.Ccw.{is_transfer};
ghost use Rattle.ccw_core.specs.Ccw as specs;
ghost use Rattle.ccw_core.specs.Flags.{bits_of};
ghost use Rattle.ccw_core.specs.Group.{group_of};
ghost use Rattle.ccw_core.specs.declared.group.Group.TheVariants.{Transfer};
ghost use Rattle.ccw_core.specs.declared.ccw.TheConstants.{STORAGE_LIMIT};

use crate::digits::doubleword_digits;
use crate::flags::{CcwFlags, flag_letters};
use crate::group::Group;
use crate::text::Text;
use bitflags::Flags;
use byteorder::{BigEndian, ByteOrder};
use std::alloc::{AllocError, Global};
use std::marker::Model;

/// The most bytes that storage may have, since an address has 24 bits. Each address is below.
pub const STORAGE_LIMIT: u32 = 16_777_216;

/// A channel command word (CCW): the channel's instruction for one block of storage.
///
/// A value keeps every bit of its eight bytes, whether or not the channel would accept them
/// (System/360 Principles of Operation, A22-6821).
#[derive(Clone, Copy, PartialEq, Eq, Debug)]
pub struct Ccw {
    command: u8,
    address: u32,
    flags: u8,
    spare: u8,
    count: u16,
}

impl Model for Ccw {
    ghost use Rattle.std.specs.Prelude.{◌<◌};
    ghost use Rattle.ccw_core.specs.Ccw.{Fields};
    ghost use Rattle.ccw_core.specs.declared.ccw.TheConstants.{STORAGE_LIMIT};

    ghost Value = { Fields };

    ghost view = { λ c. record {
      command = c.command;
      address = c.address;
      flags = c.flags;
      spare = c.spare;
      count = c.count;
    } };

    ghost invariant = { λ c. c.address < STORAGE_LIMIT };

    ghost inverse = { λ d. record {
      command = d.command;
      address = d.address;
      flags = d.flags;
      spare = d.spare;
      count = d.count;
    } };
}

impl Ccw {
    /// A CCW of these fields. It is `None` exactly if the address isn't below
    /// [`STORAGE_LIMIT`].
    pub fn new(command: u8, address: u32, flags: u8, spare: u8, count: u16) -> Option<Ccw>
        ensures found { IsSome result ↔ (address < STORAGE_LIMIT) }
        ensures refused { IsNone result ↔ (STORAGE_LIMIT ≤ address) }
        ensures value { let c : Fields = record
            { command = command; address = address; flags = flags; spare = spare; count = count } in
            IfSome result (λ r. r ≡ c) }
    {
        if address < STORAGE_LIMIT {
            Some(Ccw {
                command,
                address,
                flags,
                spare,
                count,
            })
        } else {
            None
        }
    }

    /// The command code, byte 0.
    pub fn command(&self) -> u8
        ensures { result ≡ self.now.command }
    {
        self.command
    }

    /// The data address, bytes 1 to 3, below [`STORAGE_LIMIT`].
    pub fn address(&self) -> u32
        ensures value { result ≡ self.now.address }
        ensures below { result < STORAGE_LIMIT }
    {
        self.address
    }

    /// The flags, byte 4, with the three low bits.
    pub fn flags(&self) -> u8
        ensures { result ≡ self.now.flags }
    {
        self.flags
    }

    /// Byte 5, which the channel ignores.
    pub fn spare(&self) -> u8
        ensures { result ≡ self.now.spare }
    {
        self.spare
    }

    /// The count of data bytes, bytes 6 and 7.
    pub fn count(&self) -> u16
        ensures { result ≡ self.now.count }
    {
        self.count
    }

    /// The CCW that eight bytes hold, numbers with their highest byte first. No bit is lost:
    /// `to_bytes` gives the same bytes.
    pub fn from_bytes(bytes: &[u8; 8]) -> Ccw
        ensures fields { result ≡ ccw bytes.now 0 }
        ensures whole { bytes_of result ≡ bytes.now }
    {
        Ccw {
            command: bytes[0],
            address: BigEndian::read_u24(&bytes[1..]),
            flags: bytes[4],
            spare: bytes[5],
            count: BigEndian::read_u16(&bytes[6..]),
        }
    }

    /// The eight bytes of the CCW. `from_bytes` gives the same CCW.
    pub fn to_bytes(&self) -> [u8; 8]
        ensures bytes { result ≡ bytes_of self.now }
        ensures whole { ccw result 0 ≡ self.now }
    {
        let count = self.count;
        let mut bytes = [self.command, 0, 0, 0, self.flags, self.spare, 0, 0];
        BigEndian::write_u24(&mut bytes[1..4], self.address);
        BigEndian::write_u16(&mut bytes[6..], count);
        bytes
    }

    /// The group of the command code.
    pub fn group(&self) -> Group
        ensures { result ≡ group_of self.now.command }
    {
        Group::of(self.command)
    }

    /// Whether the CCW is a transfer in channel: the next CCW is at its address field.
    pub fn is_transfer(&self) -> bool
        ensures value { result ≡ is_transfer self.now }
        ensures group { IsTrue result ↔ (group_of self.now.command ≡ Transfer) }
    {
        self.command % 16 == 0b1000
    }

    /// Whether a flag is on.
    pub fn has_flag(&self, flag: CcwFlags) -> bool
        ensures { result ≡ is_on self.now.flags (bits_of flag) }
    {
        CcwFlags::from_bits_retain(self.flags).intersects(flag)
    }

    /// Chain data: the operation goes on with the next CCW.
    #[tactic(auto, unfolding(crate::specs::Ccw::chains_data))]
    pub fn chains_data(&self) -> bool
        ensures { result ≡ specs.chains_data self.now }
    {
        self.has_flag(CcwFlags::CD)
    }

    /// Chain command, unless data is chained: the next CCW begins a new operation.
    #[tactic(auto, unfolding(crate::specs::Ccw::chains_command))]
    pub fn chains_command(&self) -> bool
        ensures { result ≡ specs.chains_command self.now }
    {
        self.has_flag(CcwFlags::CC)
    }

    /// The flags by name; `None` exactly if one of the three low bits is set.
    pub fn known_flags(&self) -> Option<CcwFlags>
        ensures found { IsSome result ↔ (bit_and self.now.flags 7 ≡ 0) }
        ensures formed { is_some result ≡ is_formed self.now }
        ensures value { IfSome result (λ f. bits_of f ≡ self.now.flags) }
    {
        CcwFlags::from_bits(self.flags)
    }

    /// Adds the CCW to a text: `code address flags spare count group`, with one space between two
    /// parts and no end of line.
    #[tactic(auto, unfolding(hex::specs::Hex::encode_with))]
    pub fn push_text<T: Text>(&self, out: &mut T) -> Result<(), AllocError>
        ensures { OnOk result (T.written out.new ≡ T.written out.old ++ ccw_text self.now) }
    {
        let bytes = self.to_bytes();
        let [a, b, c, d, e, f, g, h, _, _, i, j, k, l, m, n] = doubleword_digits(&bytes);
        let [cd, cc, sli, skip, pci, low] = flag_letters(bytes[4]);
        let text = [
            a, b, b' ', c, d, e, f, g, h, b' ', cd, cc, sli, skip, pci, low, b' ', i, j, b' ', k,
            l, m, n, b' ',
        ];
        out.add_ascii(&text)?;
        out.add_word(Group::of(bytes[0]).word())
    }

    /// The CCW as text. An error means that an allocation failed.
    pub fn text(&self, alloc: Global) -> Result<String, AllocError>
        ensures { IfOk result (λ t. string_bytes t ≡ ccw_text self.now) }
    {
        let mut text = String::new(alloc);
        self.push_text(&mut text)?;
        Ok(text)
    }
}
