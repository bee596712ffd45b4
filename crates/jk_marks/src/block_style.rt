//! The byte of a code-block style.

ghost use Rattle.std.specs.Prelude.{◌≡◌};
ghost use Rattle.jk_marks.specs.BlockStyle.{bit_of, style_byte, style_of};

use jk_math::Style;

/// 1 or 0.
pub(crate) fn bit(value: bool) -> u8
    ensures { result ≡ bit_of value }
{
    if value { 1 } else { 0 }
}

/// The byte of a style.
pub fn style_byte(style: Style) -> u8
    ensures { result ≡ style_byte style }
{
    2 * bit(style.reset) + 8 * bit(style.causal) + 32 * bit(style.segments)
}

/// The style that a byte says.
pub fn style_of(byte: u32) -> Style
    ensures { result ≡ style_of byte }
{
    Style {
        reset: byte / 2 % 2 == 1,
        causal: byte / 8 % 2 == 1,
        segments: byte / 32 % 2 == 1,
    }
}
