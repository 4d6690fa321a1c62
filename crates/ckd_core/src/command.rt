//! The commands of the two devices, each with its code, name, kind and mask class.

ghost use Rattle.std.specs.Prelude.{◌≡◌, option_map};
ghost use Rattle.ckd_core.specs.Entries.{entry_of};
ghost use Rattle.ckd_core.specs.Command as table;

/// Where a command moves its data.
#[derive(Clone, Copy, PartialEq, Eq, Debug)]
pub enum Kind {
    /// Moves no data.
    Idle,
    /// Stores: from the device into storage.
    Inward,
    /// Fetches: from storage to the device.
    Outward,
    /// Fetches, and may end with status modifier.
    Search,
}

/// What a file mask decides over.
#[derive(Clone, Copy, PartialEq, Eq, Debug)]
pub enum MaskClass {
    /// No mask inhibits it.
    Plain,
    /// Seek, which may change cylinder and head.
    Seek,
    /// Seek Cylinder.
    SeekCylinder,
    /// Seek Head.
    SeekHead,
    /// Recalibrate: a mask treats it like Seek.
    Recalibrate,
    /// Writes of a home address or of record zero.
    WriteHome,
    /// Writes that lay out a record anew, and Erase.
    WriteFormat,
    /// Writes into a record that exists.
    WriteUpdate,
    /// Set File Mask, which no mask inhibits.
    SetMask,
}

/// A command of the table.
#[derive(Clone, Copy, PartialEq, Eq)]
pub struct Command {
    code: u8,
    name: &'static str,
    kind: Kind,
    class: MaskClass,
}

impl Command {
    /// The command code, byte 0 of a CCW.
    pub fn code(&self) -> u8
        ensures { result ≡ (entry_of self.now).code }
    {
        self.code
    }

    /// The name in small letters, with `-mt` at its end if the multi-track bit is on.
    pub fn name(&self) -> &'static str
        ensures { result.now ≡ (entry_of self.now).name }
    {
        self.name
    }

    /// Where the command moves its data.
    pub fn kind(&self) -> Kind
        ensures { result ≡ (entry_of self.now).kind }
    {
        self.kind
    }

    /// What a file mask decides over.
    pub fn class(&self) -> MaskClass
        ensures { result ≡ (entry_of self.now).class }
    {
        self.class
    }
}

/// The command with this code, or `None` if the table doesn't list the code. The call takes a few
/// comparisons and no memory.
///
/// The table is that of the component descriptions of the 2841 with the 2311, and of the 2314,
/// without the commands that this project leaves out.
pub fn lookup(code: u8) -> Option<Command>
    ensures { option_map entry_of result ≡ table.lookup code }
{
    if let Some(command) = control(code) {
        return Some(command);
    }
    if let Some(command) = search(code) {
        return Some(command);
    }
    if let Some(command) = read(code) {
        return Some(command);
    }
    write(code)
}

fn control(code: u8) -> Option<Command>
    ensures { option_map entry_of result ≡ table.find_code code table.control_commands }
{
    let (name, kind, class) = match code {
        0x03 => ("no-operation", Kind::Idle, MaskClass::Plain),
        0x07 => ("seek", Kind::Outward, MaskClass::Seek),
        0x0B => ("seek-cylinder", Kind::Outward, MaskClass::SeekCylinder),
        0x1B => ("seek-head", Kind::Outward, MaskClass::SeekHead),
        0x13 => ("recalibrate", Kind::Idle, MaskClass::Recalibrate),
        0x1F => ("set-file-mask", Kind::Outward, MaskClass::SetMask),
        0x04 => ("sense", Kind::Inward, MaskClass::Plain),
        _ => return None,
    };
    Some(Command {
        code,
        name,
        kind,
        class,
    })
}

fn search(code: u8) -> Option<Command>
    ensures { option_map entry_of result ≡ table.find_code code table.search_commands }
{
    let name = match code {
        0x39 => "search-home-address-equal",
        0xB9 => "search-home-address-equal-mt",
        0x31 => "search-id-equal",
        0xB1 => "search-id-equal-mt",
        0x51 => "search-id-high",
        0xD1 => "search-id-high-mt",
        0x71 => "search-id-equal-or-high",
        0xF1 => "search-id-equal-or-high-mt",
        0x29 => "search-key-equal",
        0xA9 => "search-key-equal-mt",
        0x49 => "search-key-high",
        0xC9 => "search-key-high-mt",
        0x69 => "search-key-equal-or-high",
        0xE9 => "search-key-equal-or-high-mt",
        _ => return None,
    };
    Some(Command {
        code,
        name,
        kind: Kind::Search,
        class: MaskClass::Plain,
    })
}

fn read(code: u8) -> Option<Command>
    ensures { option_map entry_of result ≡ table.find_code code table.read_commands }
{
    let name = match code {
        0x1A => "read-home-address",
        0x9A => "read-home-address-mt",
        0x12 => "read-count",
        0x92 => "read-count-mt",
        0x16 => "read-record-zero",
        0x96 => "read-record-zero-mt",
        0x06 => "read-data",
        0x86 => "read-data-mt",
        0x0E => "read-key-data",
        0x8E => "read-key-data-mt",
        0x1E => "read-count-key-data",
        0x9E => "read-count-key-data-mt",
        _ => return None,
    };
    Some(Command {
        code,
        name,
        kind: Kind::Inward,
        class: MaskClass::Plain,
    })
}

fn write(code: u8) -> Option<Command>
    ensures { option_map entry_of result ≡ table.find_code code table.write_commands }
{
    let (name, class) = match code {
        0x19 => ("write-home-address", MaskClass::WriteHome),
        0x15 => ("write-record-zero", MaskClass::WriteHome),
        0x1D => ("write-count-key-data", MaskClass::WriteFormat),
        0x01 => ("write-special-count-key-data", MaskClass::WriteFormat),
        0x11 => ("erase", MaskClass::WriteFormat),
        0x05 => ("write-data", MaskClass::WriteUpdate),
        0x0D => ("write-key-data", MaskClass::WriteUpdate),
        _ => return None,
    };
    Some(Command {
        code,
        name,
        kind: Kind::Outward,
        class,
    })
}
