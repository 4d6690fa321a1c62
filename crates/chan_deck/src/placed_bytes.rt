//! Bytes that are put at a place among others.

ghost use Rattle.std.specs.Prelude.{◌≡◌, ◌+◌, ◌≤◌, ◌++◌, length, take, drop};

/// Writes bytes over those at a place.
pub(crate) fn write_at(room: &mut [u8], at: usize, bytes: &[u8])
    requires { at + length bytes.now ≤ length room.old }
    ensures { room.new
        ≡ (take at room.old ++ bytes.now) ++ drop (at + length bytes.now) room.old }
{
    room[at..at + bytes.len()].copy_from_slice(bytes);
}
