//! Which version of the library this is.

ghost use Rattle.std.specs.Prelude.{◌≡◌};
ghost use Rattle.aia_c.specs.declared.version.TheConstants.{VERSION};

/// The version: 10,000 times its major number, 100 times its minor one, and its patch number.
pub const VERSION: u32 = 10_000;

/// Gives the version of the library, as `AIA_VERSION` is that of the header.
#[unsafe(no_mangle)]
pub extern "C" fn aia_version() -> u32
    ensures { result ≡ VERSION }
{
    VERSION
}
