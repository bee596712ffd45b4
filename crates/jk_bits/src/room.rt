//! How many bits a byte carries (T.800 B.10.1).

ghost use Rattle.std.specs.Prelude.{◌≡◌, ◌==◌};
ghost use Rattle.jk_bits.specs.Stuffing.{room};

/// A byte behind which one bit is stuffed.
pub(crate) const FULL: u8 = 0xFF;

/// How many bits the byte behind `before` carries.
pub(crate) fn room_after(before: u8) -> u8
    ensures { result ≡ room (before == 255) }
{
    if before == FULL { 7 } else { 8 }
}
