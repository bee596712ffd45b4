//! Replies.

ghost use Rattle.std.specs.Prelude.{◌≡◌, ◌++◌, IfOk, IfErr, OnOk};
ghost use Rattle.jk_math.specs.Memory.{IsMemory};
ghost use Rattle.jk_web.specs.Replies.{phrase_of, media_text, status_line, field_line, allow_line, close_line};
ghost use Rattle.jk_web.specs.Replies.{head_text, printed, error, bad_reply};

use crate::octets::Octets;
use http::StatusCode;
use jk_math::Fault;
use std::alloc::{AllocError, Global};

/// More than the bytes of a head.
const HEAD_ROOM: usize = 192;

/// What a body is.
#[derive(Clone, Copy, Debug, PartialEq, Eq)]
pub enum Media {
    /// Text.
    Plain,
    /// A JP2 file.
    Jp2,
}

/// A reply.
#[derive(Debug, Drop)]
pub struct Reply {
    pub status: u16,
    /// Whether the connection closes behind it.
    pub close: bool,
    /// The whole reply, as it is sent.
    pub bytes: Octets,
}

impl Media {
    /// The media type.
    fn name(self) -> &'static str
        ensures { result.now ≡ media_text self }
    {
        match self {
            Media::Plain => "text/plain",
            Media::Jp2 => "image/jp2",
        }
    }
}

/// The phrase of a status, empty where none is known.
#[tactic(auto, unfolding(crate::specs::Replies::phrase_of))]
fn phrase(status: u16) -> &'static str
    ensures { result.now ≡ phrase_of status }
{
    match StatusCode::from_u16(status) {
        Ok(code) => code.canonical_reason().unwrap_or(""),
        Err(_) => "",
    }
}

/// Appends a status line.
fn put_status(alloc: Global, out: &mut Vec<u8>, status: u16) -> Result<(), AllocError>
    ensures { OnOk result (out.new.items ≡ out.old.items ++ status_line status) }
{
    out.extend_from_slice(b"HTTP/1.1 ")?;
    out.extend_from_slice(status.to_string(alloc)?.as_bytes())?;
    out.push(b' ')?;
    out.extend_from_slice(phrase(status).as_bytes())?;
    out.extend_from_slice(b"\r\n")?;
    Ok(())
}

/// Appends a field line.
fn put_field(out: &mut Vec<u8>, name: &str, value: &str) -> Result<(), AllocError>
    ensures { OnOk result (out.new.items ≡ out.old.items ++ field_line name.now value.now) }
{
    out.extend_from_slice(name.as_bytes())?;
    out.extend_from_slice(b": ")?;
    out.extend_from_slice(value.as_bytes())?;
    out.extend_from_slice(b"\r\n")?;
    Ok(())
}

/// Appends the only method that is allowed, where another isn't.
fn put_allow(out: &mut Vec<u8>, status: u16) -> Result<(), AllocError>
    ensures { OnOk result (out.new.items ≡ out.old.items ++ allow_line status) }
{
    if status == 405 {
        return put_field(out, "Allow", "GET");
    }
    Ok(())
}

/// Appends that the connection closes.
fn put_close(out: &mut Vec<u8>, close: bool) -> Result<(), AllocError>
    ensures { OnOk result (out.new.items ≡ out.old.items ++ close_line close) }
{
    if close {
        return put_field(out, "Connection", "close");
    }
    Ok(())
}

/// The reply up to its body, with room for the body.
#[tactic(auto, unfolding(crate::specs::Replies::head_text))]
fn head(
    alloc: Global,
    status: u16,
    media: Media,
    size: usize,
    close: bool,
) -> Result<Vec<u8>, AllocError>
    ensures { IfOk result (λ v. v.items ≡ head_text status media size close) }
{
    let mut out = Vec::with_capacity(alloc, size.saturating_add(HEAD_ROOM))?;
    put_status(alloc, &mut out, status)?;
    put_allow(&mut out, status)?;
    put_field(&mut out, "Content-Type", media.name())?;
    put_field(&mut out, "Content-Length", size.to_string(alloc)?.as_str())?;
    put_close(&mut out, close)?;
    out.extend_from_slice(b"\r\n")?;
    Ok(out)
}

/// A reply with this body.
pub(crate) fn answered(
    alloc: Global,
    status: u16,
    media: Media,
    body: &[u8],
    close: bool,
) -> Result<Reply, Fault>
    ensures exact { IfOk result (λ r. r ≡ printed record { status = status; media = media; body = body.now } close) }
    ensures memory { IfErr result (λ e. IsMemory e) }
{
    let mut bytes = head(alloc, status, media, body.len(), close)?;
    bytes.extend_from_slice(body)?;
    Ok(Reply {
        status,
        close,
        bytes: Octets::new(bytes),
    })
}

/// The body of a reply that isn't what was asked for.
fn error_body(alloc: Global, status: u16) -> Result<Vec<u8>, AllocError>
    ensures { IfOk result (λ v. v.items ≡ (error status).body) }
{
    let mut body = Vec::new(alloc);
    body.extend_from_slice(status.to_string(alloc)?.as_bytes())?;
    body.push(b' ')?;
    body.extend_from_slice(phrase(status).as_bytes())?;
    body.push(b'\n')?;
    Ok(body)
}

/// A reply that isn't what was asked for, and says why by its status.
pub(crate) fn refuse(alloc: Global, status: u16, close: bool) -> Result<Reply, Fault>
    ensures exact { IfOk result (λ r. r ≡ printed (error status) close) }
    ensures memory { IfErr result (λ e. IsMemory e) }
{
    let body = error_body(alloc, status)?;
    answered(alloc, status, Media::Plain, &body, close)
}

/// The reply to a bad request, behind which the connection closes.
pub fn bad(alloc: Global, status: u16) -> Result<Reply, Fault>
    ensures exact { IfOk result (λ r. r ≡ bad_reply status) }
    ensures memory { IfErr result (λ e. IsMemory e) }
{
    refuse(alloc, status, true)
}
