//! The version of the library, for programs that ask for it while they run.

ghost use Rattle.std.specs.Prelude.{◌≡◌};

// Version 0.2.0.
const VERSION: u32 = 200;

/// Returns the version of the library: 10,000 times the major number, plus 100 times the minor number, plus the patch
/// number.
#[unsafe(no_mangle)]
pub extern "C" fn qrproved_version() -> u32
    ensures { result ≡ 200 }
{
    VERSION
}
