//! The library's version.

ghost use Rattle.std.specs.Prelude.{◌≡◌};
ghost use Rattle.vortex_c.specs.Statuses.{version_number};

/// Version 0.1.0: a byte for each of the three numbers, below a byte that is 0.
pub const VERSION: u32 = 0x00_01_00;

/// The version of the library as one number: 65536 times the major version, 256 times the minor
/// one, and the patch.
#[unsafe(no_mangle)]
pub extern "C" fn doqallin_version() -> u32
    ensures { result ≡ version_number }
{
    VERSION
}
