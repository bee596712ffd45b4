//! What the log tells of a request.

ghost use Rattle.std.specs.Prelude.{◌≡◌, ◌≤◌, ◌<◌, ◌++◌, ◌∷◌, [], OnOk, IfOk};
ghost use Rattle.std.specs.String.{string_bytes};
ghost use Rattle.jk_port.specs.Records.{Spells, SpellsRequest};

use std::alloc::{AllocError, Global};
use std::fmt;
use std::fmt::Write as _;

/// A request and its reply, as a line of the log tells them.
#[derive(Debug, Drop)]
pub struct Record {
    /// The method and the target, of bytes that can be read.
    pub request: String,
    pub status: u16,
    /// How many bytes of the reply were sent.
    pub bytes: u64,
    /// How many microseconds it took from the bytes of the request to the last byte of the reply.
    pub micros: u64,
}

impl fmt::Display for Record {
    ghost use Rattle.std.specs.Prelude.{Some};
    ghost use Rattle.jk_port.specs.Records.{record_text};

    ghost output = { λ r. Some (record_text (string_bytes r.request) r.status r.bytes r.micros) };

    fn fmt<W: fmt::Write>(&self, f: &mut fmt::Formatter<W>) -> fmt::Result {
        write!(
            f,
            "{} {} {} {}",
            self.request, self.status, self.bytes, self.micros
        )
    }
}

/// A hexadecimal digit.
fn digit(value: u8) -> u8
    requires { value < 16 }
    ensures { (33 ≤ result) × (result ≤ 126) }
{
    if value < 10 {
        b'0' + value
    } else {
        b'a' + (value - 10)
    }
}

/// Appends a graphic character of ASCII.
fn put_graphic(text: &mut String, byte: u8) -> Result<(), AllocError>
    requires { (33 ≤ byte) × (byte ≤ 126) }
    ensures { OnOk result (string_bytes text.new ≡ string_bytes text.old ++ byte ∷ []) }
{
    text.push(char::from(byte))
}

/// Appends a byte of a request: as it is where it is a graphic character of ASCII, else as % and two
/// hexadecimal digits.
fn put_byte(text: &mut String, byte: u8) -> Result<(), AllocError>
    ensures { OnOk result (Spells (string_bytes text.old) (string_bytes text.new)) }
{
    if 33 <= byte && byte <= 126 {
        return put_graphic(text, byte);
    }
    put_graphic(text, b'%')?;
    put_graphic(text, digit(byte / 16))?;
    put_graphic(text, digit(byte % 16))
}

/// Appends the bytes of a request, of which each can be read.
fn put_readable(text: &mut String, bytes: &[u8]) -> Result<(), AllocError>
    ensures { OnOk result (Spells (string_bytes text.old) (string_bytes text.new)) }
{
    for byte in bytes {
        put_byte(text, *byte)?;
    }
    Ok(())
}

/// The method and the target of a request: two words of graphic characters, whatever the bytes are,
/// so that no request breaks a line of the log.
pub fn request_text(alloc: Global, method: &[u8], target: &[u8]) -> Result<String, AllocError>
    ensures { IfOk result (λ t. SpellsRequest (string_bytes t)) }
{
    let mut text = String::new(alloc);
    put_readable(&mut text, method)?;
    text.push(' ')?;
    put_readable(&mut text, target)?;
    Ok(text)
}
