//! The file mask, by which a supervisor inhibits writes and seeks.

ghost use Rattle.std.specs.Prelude.{◌≡◌, ◌↔◌, true, None, IsSome, IfSome, option_map};
ghost use Rattle.std.specs.Prelude.{if◌then◌else◌};
ghost use Rattle.ckd_core.specs.Entries.{entry_of};
ghost use Rattle.ckd_core.specs.Levels.{mask_of};
ghost use Rattle.ckd_core.specs.Mask as specs;
ghost use Rattle.ckd_core.specs.Mask.{StrictnessIsByClass, inhibits_class, is_at_least, is_mask};
ghost use Rattle.ckd_core.specs.Mask.{permits_beyond};
ghost use Rattle.ckd_core.specs.Command.{class_passes};
ghost use Rattle.ckd_core.specs.Command as table;

use crate::command::{Command, MaskClass, lookup};
use crate::levels::Levels;
use std::marker::Model;

/// The bits that decide over writes.
const WRITES: u8 = 0xC0;

/// The bits that decide over seeks.
const SEEKS: u8 = 0x18;

/// A file mask: one byte, of which the bits `C0` decide over writes and the bits `18` over seeks.
///
/// | bits `C0` | inhibited | bits `18` | inhibited |
/// |---|---|---|---|
/// | `00` | WriteHome | `00` | none |
/// | `40` | WriteHome, WriteFormat, WriteUpdate | `08` | Seek, Recalibrate |
/// | `80` | WriteHome, WriteFormat | `10` | Seek, Recalibrate, SeekCylinder |
/// | `C0` | none | `18` | Seek, Recalibrate, SeekCylinder, SeekHead |
///
/// The bits are those of the component descriptions of the 2841 with the 2311, and of the 2314.
/// That a mask has no other bit, that Recalibrate counts as Seek and Erase as a formatting write,
/// is this project's choice.
#[derive(Clone, Copy, PartialEq, Eq, Debug)]
pub struct FileMask {
    byte: u8,
}

impl Model for FileMask {
    ghost use Rattle.std.specs.Prelude.{ℕ, ◌≡◌, true};
    ghost use Rattle.ckd_core.specs.Mask.{is_mask};

    ghost Value = { ℕ };

    ghost view = { λ m. m.byte };

    ghost invariant = { λ m. is_mask m.byte ≡ true };

    ghost inverse = { λ n. record { byte = n } };
}

impl FileMask {
    /// The mask of this byte, or `None` exactly if a bit outside `C0` and `18` is on.
    pub fn new(byte: u8) -> Option<FileMask>
        ensures mask { IsSome result ↔ (is_mask byte ≡ true) }
        ensures value { IfSome result (λ mask. mask ≡ byte) }
    {
        if byte & !(WRITES | SEEKS) == 0 {
            Some(FileMask { byte })
        } else {
            None
        }
    }

    /// The byte.
    pub fn byte(&self) -> u8
        ensures value { result ≡ self.now }
        ensures mask { is_mask result ≡ true }
    {
        self.byte
    }

    /// Whether the mask inhibits the command, by the tables of the type.
    pub fn inhibits(&self, command: Command) -> bool
        ensures { result ≡ inhibits_class self.now (entry_of command).class }
    {
        self.inhibits_class(command.class())
    }

    /// Whether the mask is at least as strict as another: it inhibits every class of commands that
    /// the other inhibits. The call takes no memory.
    ///
    /// From lax to strict, the bits `C0` are `C0`, `00`, `80`, `40`, and the bits `18` are `00`,
    /// `08`, `10`, `18`.
    pub fn at_least(&self, than: FileMask) -> bool
        ensures { result ≡ is_at_least self.now than }
    {
        let FileMask { byte } = *self;
        let (levels, least) = (Levels::of(byte), Levels::of(than.byte()));
        least.writes <= levels.writes && least.seeks <= levels.seeks
    }

    /// The mask of these levels.
    pub fn of_levels(levels: Levels) -> FileMask
        ensures { result ≡ mask_of levels.writes levels.seeks }
    {
        let writes = match levels.writes {
            0 => 0xC0,
            1 => 0x00,
            2 => 0x80,
            _ => 0x40,
        };
        FileMask {
            byte: writes + 8 * levels.seeks,
        }
    }

    /// The command of least code that another mask inhibits and this mask permits. If this mask is
    /// at least as strict, there is no such command.
    pub fn least_permitted(&self, than: FileMask) -> Option<Command>
        ensures { option_map entry_of result ≡ specs.least_permitted self.now than }
    {
        for code in 0..256u16 {
            if let Some(command) = self.permitted(than, code as u8) {
                return Some(command);
            }
        }
        None
    }

    /// The command of a code, if another mask inhibits it and this mask permits it.
    fn permitted(&self, than: FileMask, code: u8) -> Option<Command>
        ensures { option_map entry_of result ≡ (if class_passes (permits_beyond self.now than)
            (table.lookup code) then table.lookup code else None) }
    {
        let command = lookup(code)?;
        if than.inhibits(command) && !self.inhibits(command) {
            Some(command)
        } else {
            None
        }
    }

    fn inhibits_class(&self, class: MaskClass) -> bool
        ensures { result ≡ inhibits_class self.now class }
    {
        let (levels, most) = (Levels::of(self.byte), Levels::permitting(class));
        most.writes < levels.writes || most.seeks < levels.seeks
    }
}

/// A law: a byte is at least as strict as a mask exactly if it is a mask itself and inhibits each
/// class of commands that the mask inhibits.
fn strictness_is_by_class()
    ensures { StrictnessIsByClass }
{}
