//! What the channel looks at in a CCW before it carries it out, and whether it skips.

ghost use Rattle.std.specs.Prelude.{◌≡◌, length};
ghost use Rattle.ccw_core.specs.Ccw as specs;
ghost use Rattle.ccw_core.specs.Held.{bytes_held};

use ccw_core::{Ccw, CcwFlags, Group, Storage};

/// Skip: nothing is stored.
#[tactic(auto, unfolding(ccw_core::specs::Ccw::skips))]
pub(crate) fn skips(ccw: &Ccw) -> bool
    ensures { result ≡ specs.skips ccw.now }
{
    ccw.has_flag(CcwFlags::SKIP)
}

/// The three low flag bits, which have to be zero, are zero.
pub(crate) fn is_formed(ccw: &Ccw) -> bool
    ensures { result ≡ specs.is_formed ccw.now }
{
    ccw.known_flags().is_some()
}

/// The command code is no command's.
#[tactic(auto, unfolding(ccw_core::specs::Ccw::is_invalid))]
pub(crate) fn is_invalid(ccw: &Ccw) -> bool
    ensures { result ≡ specs.is_invalid ccw.now }
{
    ccw.group() == Group::Invalid
}

/// The count, which may not be zero, is not zero.
#[tactic(auto, unfolding(ccw_core::specs::Ccw::has_count))]
pub(crate) fn has_count(ccw: &Ccw) -> bool
    ensures { result ≡ specs.has_count ccw.now }
{
    ccw.count() > 0
}

/// The whole data range lies in storage.
#[tactic(auto, unfolding(ccw_core::specs::Ccw::has_data_in))]
pub(crate) fn has_data_in(storage: &Storage, ccw: &Ccw) -> bool
    ensures { result ≡ specs.has_data_in (length (bytes_held storage.now)) ccw.now }
{
    ccw.address() + u32::from(ccw.count()) <= storage.len()
}
