//! The version of the library.

ghost use Rattle.std.specs.Prelude.{◌≡◌};

/// Major, minor and patch number, each in two decimal digits.
pub const VERSION: u32 = 302;

/// The version that is linked: 100 times the minor number and the patch number, behind 10,000 times
/// the major one.
#[unsafe(no_mangle)]
pub extern "C" fn jk_version() -> u32
    ensures { result ≡ VERSION }
{
    VERSION
}
