//! The version of the library.

ghost use Rattle.std.specs.Prelude.{◌≡◌};

/// The version: a million times its first number, a thousand times its second, and its third.
#[unsafe(no_mangle)]
pub extern "C" fn polygon_c_version() -> u32
    ensures { result ≡ 1000000 }
{
    1_000_000
}
