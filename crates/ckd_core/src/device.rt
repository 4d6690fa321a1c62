//! The two devices and their geometry.

ghost use Rattle.std.specs.Prelude.{◌≡◌};
ghost use Rattle.ckd_core.specs.Device.{cylinders_of, heads_of};

/// How many cylinders either device has.
pub const CYLINDERS: usize = 203;

/// The last cylinder of either device.
pub const LAST_CYLINDER: u16 = 202;

/// A disk of count-key-data records.
#[derive(Clone, Copy, PartialEq, Eq, Debug)]
pub enum Device {
    /// IBM 2311: heads 0 to 9.
    D2311,
    /// IBM 2314: heads 0 to 19.
    D2314,
}

impl Device {
    /// How many heads the device has. Each cylinder has as many tracks.
    pub fn heads(self) -> u16
        ensures { result ≡ heads_of self }
    {
        match self {
            Device::D2311 => 10,
            Device::D2314 => 20,
        }
    }

    /// How many cylinders the device has.
    pub fn cylinders(self) -> u16
        ensures { result ≡ cylinders_of self }
    {
        CYLINDERS as u16
    }
}
