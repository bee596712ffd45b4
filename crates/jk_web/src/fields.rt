//! The fields of a head that are judged.

ghost use Rattle.std.specs.Prelude.{◌≡◌, length, map, All};
ghost use Rattle.std.specs.List.{list_any};
ghost use Rattle.std.specs.Str.{str_eq_ignore_ascii_case};
ghost use Rattle.httparse.specs.Spans.{IsHeaderWithin, header_bytes};
ghost use Rattle.jk_web.specs.Fields.{announces_body, asks_close};

use httparse::spans::HeaderSpan;

/// Whether two words are the same but for the case of their letters.
fn same_word(a: &[u8], b: &[u8]) -> bool
    ensures { result ≡ str_eq_ignore_ascii_case a.now b.now }
{
    a.eq_ignore_ascii_case(b)
}

/// Whether a field says that a body may follow.
fn announces_body(name: &[u8], value: &[u8]) -> bool
    ensures { result ≡ announces_body (name.now, value.now) }
{
    same_word(name, b"transfer-encoding")
        || same_word(name, b"content-length") && value != b"0".as_slice()
}

/// Whether a field asks that the connection is closed.
fn asks_close(name: &[u8], value: &[u8]) -> bool
    ensures { result ≡ asks_close (name.now, value.now) }
{
    same_word(name, b"connection") && same_word(value, b"close")
}

/// Whether some field of the head says that a body may follow.
pub(crate) fn announce_body(head: &[u8], fields: &[HeaderSpan]) -> bool
    requires { All (IsHeaderWithin (length head.now)) fields.now }
    ensures { result ≡ list_any announces_body (map (header_bytes head.now) fields.now) }
{
    for field in fields {
        if announces_body(field.name.of(head), field.value.of(head)) {
            return true;
        }
    }
    false
}

/// Whether some field of the head asks that the connection is closed.
pub(crate) fn ask_close(head: &[u8], fields: &[HeaderSpan]) -> bool
    requires { All (IsHeaderWithin (length head.now)) fields.now }
    ensures { result ≡ list_any asks_close (map (header_bytes head.now) fields.now) }
{
    for field in fields {
        if asks_close(field.name.of(head), field.value.of(head)) {
            return true;
        }
    }
    false
}
