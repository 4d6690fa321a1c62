//! Tracks, by cylinder and head, and whether a seek may go there.

ghost use Rattle.std.specs.Prelude.{◌≡◌, ◌↔◌, ◌&&◌, true, IsSome, nat_lt};
ghost use Rattle.ckd_core.specs.Track.{has_no_bin, track_of};
ghost use Rattle.ckd_core.specs.Extents.{has_cylinder};
ghost use Rattle.ckd_core.specs.Device.{heads_of};

use crate::device::Device;
use crate::extents::Extents;
use byteorder::{BigEndian, ByteOrder};

/// A track of a device.
#[derive(Clone, Copy, PartialEq, Eq, Debug)]
pub struct Track {
    /// The cylinder, from 0 on.
    pub cylinder: u16,
    /// The head, from 0 on.
    pub head: u16,
}

impl Track {
    /// The track that the argument of a seek names: two bytes of bin, two of cylinder, two of head,
    /// each number with its high byte first. It is `None` exactly if a byte of bin isn't zero: the
    /// devices have no bins (component descriptions of the 2841 with the 2311, and of the 2314).
    /// The track may lie outside a device.
    pub fn from_argument(argument: [u8; 6]) -> Option<Track>
        ensures value { result ≡ track_of argument }
        ensures no_bin { IsSome result ↔ (has_no_bin argument ≡ true) }
    {
        if BigEndian::read_u16(&argument) != 0 {
            return None;
        }
        Some(Track {
            cylinder: BigEndian::read_u16(&argument[2..]),
            head: BigEndian::read_u16(&argument[4..]),
        })
    }
}

/// Whether a seek may go to the track: its cylinder lies in an extent, and its head is below the
/// device's number of heads. The cost doesn't depend on the number of extents.
pub fn allowed(extents: &Extents, device: Device, track: Track) -> bool
    ensures { result ≡ (has_cylinder extents.now track.cylinder
        && nat_lt track.head (heads_of device)) }
{
    extents.has(track.cylinder) && track.head < device.heads()
}
