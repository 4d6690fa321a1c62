//! How strict a file mask is, as two levels.

ghost use Rattle.std.specs.Prelude.{◌≡◌, ◌≤◌, min};
ghost use Rattle.ckd_core.specs.Levels as specs;

use crate::command::MaskClass;

/// How strict a mask is over writes and over seeks, each from 0, lax, to 3, strict.
#[derive(Clone, Copy)]
pub struct Levels {
    pub writes: u8,
    pub seeks: u8,
    pub ghost few_writes: { writes ≤ 3 },
    pub ghost few_seeks: { seeks ≤ 3 },
}

impl Levels {
    /// The levels of a mask's byte.
    pub fn of(byte: u8) -> Levels
        ensures writes { result.writes ≡ specs.write_level byte }
        ensures seeks { result.seeks ≡ specs.seek_level byte }
    {
        let writes = match byte & 0xC0 {
            0x40 => 3,
            0x80 => 2,
            0xC0 => 0,
            _ => 1,
        };
        let seeks = match byte & 0x18 {
            0x18 => 3,
            0x10 => 2,
            0x00 => 0,
            _ => 1,
        };
        Levels { writes, seeks }
    }

    /// The strictest levels that don't inhibit a class of commands.
    pub fn permitting(class: MaskClass) -> Levels
        ensures writes { result.writes ≡ specs.writes_up_to class }
        ensures seeks { result.seeks ≡ specs.seeks_up_to class }
    {
        let (writes, seeks) = match class {
            MaskClass::Plain | MaskClass::SetMask => (3, 3),
            MaskClass::Seek | MaskClass::Recalibrate => (3, 0),
            MaskClass::SeekCylinder => (3, 1),
            MaskClass::SeekHead => (3, 2),
            MaskClass::WriteHome => (0, 3),
            MaskClass::WriteFormat => (1, 3),
            MaskClass::WriteUpdate => (2, 3),
        };
        Levels { writes, seeks }
    }

    /// The laxer of two masks' levels, taken level by level.
    pub fn laxer(self, other: Levels) -> Levels
        ensures writes { result.writes ≡ min self.writes other.writes }
        ensures seeks { result.seeks ≡ min self.seeks other.seeks }
    {
        Levels {
            writes: self.writes.min(other.writes),
            seeks: self.seeks.min(other.seeks),
        }
    }
}
