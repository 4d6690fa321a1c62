//! The version of the library.

ghost use Rattle.std.specs.Prelude.{◌≡◌};
ghost use Rattle.chanv_c.specs.Version.{version};

/// The version: 65,536 times its first number, 256 times its second, and its third.
#[unsafe(no_mangle)]
pub extern "C" fn chanv_version() -> u32
    ensures { result ≡ version }
{
    let (first, second, third) = (1, 0, 0);
    65536 * first + 256 * second + third
}
