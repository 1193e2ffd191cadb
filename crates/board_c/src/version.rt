//! The version of the interface.

ghost use Rattle.std.specs.Prelude.{◌≡◌};
ghost use Rattle.board_c.specs.Version.{interface};

/// That of `board.h`: `BOARD_INTERFACE`.
const INTERFACE: u32 = 8;

/// The version of the interface: `BOARD_INTERFACE` of the `board.h` that belongs to this library.
#[unsafe(no_mangle)]
pub extern "C" fn board_version() -> u32
    ensures version { result ≡ interface }
{
    INTERFACE
}
