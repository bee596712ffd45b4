//! The values in the lines of `jk info --all`, each behind a space.

ghost use Rattle.std.specs.Prelude.{◌≡◌, ◌<◌, ◌++◌, true, OnOk, IfOk};
ghost use Rattle.std.specs.String.{string_bytes};
ghost use Rattle.std.specs.Fmt.{decimal, digit_glyph};
ghost use Rattle.jk_commands.specs.Values.{value, size_value, pair_value, labelled, hex_text, kind_byte, kind_text};
ghost use Rattle.jk_commands.specs.Values.{marker_name};

use jk_marks::marker;
use std::alloc::{AllocError, Global};

/// Appends a value.
pub(crate) fn put_value(values: &mut String, text: &str) -> Result<(), AllocError>
    ensures { OnOk result (string_bytes values.new ≡ string_bytes values.old ++ value text.now) }
{
    values.push_str(" ")?;
    values.push_str(text)
}

/// Appends a number as a value.
pub(crate) fn put_number(alloc: Global, values: &mut String, number: u64) -> Result<(), AllocError>
    ensures { OnOk result (string_bytes values.new ≡ string_bytes values.old ++ value (decimal number)) }
{
    put_value(values, number.to_string(alloc)?.as_str())
}

/// Appends a width and a height.
pub(crate) fn put_size(
    alloc: Global,
    values: &mut String,
    width: u64,
    height: u64,
) -> Result<(), AllocError>
    ensures { OnOk result (string_bytes values.new ≡ string_bytes values.old ++ size_value width height) }
{
    put_number(alloc, values, width)?;
    values.push_str("x")?;
    values.push_str(height.to_string(alloc)?.as_str())
}

/// Appends a name and a number.
pub(crate) fn put_pair(
    alloc: Global,
    values: &mut String,
    name: &str,
    number: u64,
) -> Result<(), AllocError>
    ensures { OnOk result (string_bytes values.new ≡ string_bytes values.old ++ pair_value name.now number) }
{
    put_value(values, name)?;
    values.push_str("=")?;
    values.push_str(number.to_string(alloc)?.as_str())
}

/// Appends a line: a label, and the values, or `none` where there is none.
#[tactic(auto, unfolding(crate::specs::Values::labelled))]
pub(crate) fn put_line(line: &mut String, label: &str, values: &str) -> Result<(), AllocError>
    ensures { OnOk result (string_bytes line.new ≡ string_bytes line.old ++ labelled label.now values.now) }
{
    line.push_str(label)?;
    line.push_str(":")?;
    if values.is_empty() {
        line.push_str(" none")?;
    } else {
        line.push_str(values)?;
    }
    line.push_str("\n")
}

/// A hexadecimal digit.
fn hex_digit(number: u8) -> u8
    requires { number < 16 }
    ensures value { result ≡ digit_glyph true number }
    ensures ascii { result < 128 }
{
    if number < 10 {
        b'0' + number
    } else {
        b'A' + (number - 10)
    }
}

/// Appends a byte as two hexadecimal digits.
fn put_hex(text: &mut String, byte: u8) -> Result<(), AllocError>
    ensures { OnOk result (string_bytes text.new ≡ string_bytes text.old ++ hex_text byte) }
{
    text.push(char::from(hex_digit(byte / 16)))?;
    text.push(char::from(hex_digit(byte % 16)))
}

/// Appends a byte of the kind of a box.
fn put_kind_byte(text: &mut String, byte: u8) -> Result<(), AllocError>
    ensures { OnOk result (string_bytes text.new ≡ string_bytes text.old ++ kind_byte byte) }
{
    if byte.is_ascii_alphanumeric() {
        return text.push(char::from(byte));
    }
    text.push_str("%")?;
    put_hex(text, byte)
}

/// The kind of a box as text: a letter or a digit as it is, another byte behind % as in a URL.
pub(crate) fn kind_name(alloc: Global, kind: u32) -> Result<String, AllocError>
    ensures { IfOk result (λ s. string_bytes s ≡ kind_text kind) }
{
    let [first, second, third, fourth] = kind.to_be_bytes();
    let mut text = String::new(alloc);
    put_kind_byte(&mut text, first)?;
    put_kind_byte(&mut text, second)?;
    put_kind_byte(&mut text, third)?;
    put_kind_byte(&mut text, fourth)?;
    Ok(text)
}

/// The name of a marker (T.800 table A.2), or the hexadecimal digits of that of another standard.
pub(crate) fn name_of_marker(alloc: Global, marker: u16) -> Result<String, AllocError>
    ensures { IfOk result (λ s. string_bytes s ≡ marker_name marker) }
{
    let mut text = String::new(alloc);
    match marker {
        marker::TLM => text.push_str("TLM")?,
        marker::PLT => text.push_str("PLT")?,
        marker::CRG => text.push_str("CRG")?,
        marker::COM => text.push_str("COM")?,
        _ => {
            put_hex(&mut text, (marker >> 8) as u8)?;
            put_hex(&mut text, (marker & 0xFF) as u8)?;
        }
    }
    Ok(text)
}
