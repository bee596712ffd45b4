//! Heads of requests at the front of bytes.

ghost use Rattle.std.specs.Prelude.{◌≡◌, ℕ, List};
ghost use Rattle.httparse.specs.Grammar.{RequestHead};
ghost use Rattle.httparse.specs.Spans.{IsRequestWithin, IsRequestAt};
ghost use Rattle.jk_web.specs.Heads.{IsWhole, IsGood, IsQuiet, IsBad};
ghost use Rattle.jk_web.specs.Serving.{HasRequests};
ghost use Rattle.jk_web.specs.Judging.{IfHead, IsHead, OnMoreNeeded, IfStatus, IsHeadAt, IsHeadWithin, judged};

use crate::fields::{announce_body, ask_close};
use httparse::spans::{EMPTY_HEADER_SPAN, HeaderSpan, RequestSpans, Span, parse_request};
use httparse::{Error, Status};

/// The bytes of the longest head.
pub const HEAD_LIMIT: usize = 8192;

/// The most fields of a head.
pub const FIELD_LIMIT: usize = 64;

/// Where the parts of a whole head are.
#[derive(Clone, Copy)]
pub(crate) struct Head {
    pub(crate) method: Span,
    pub(crate) target: Span,
    pub(crate) closes: bool,
    pub(crate) length: usize,
}

/// What bytes begin with.
#[derive(Clone, Copy)]
pub(crate) enum Verdict {
    /// A whole head, which is to be answered.
    Whole(Head),
    /// No whole head yet.
    More,
    /// What can't be answered, and the status that says why.
    Bad(u16),
}

/// Judges a whole head by its fields.
fn judge_head(window: &[u8], fields: &[HeaderSpan], spans: RequestSpans) -> Verdict
    requires { IsRequestWithin window.now fields.now spans }
    ensures { (h : RequestHead) → IsRequestAt window.now fields.now spans h → result ≡ judged spans h }
{
    let fields = &fields[..spans.headers];
    if announce_body(window, fields) {
        return Verdict::Bad(400);
    }
    Verdict::Whole(Head {
        method: spans.method,
        target: spans.path,
        closes: spans.version == 0 || ask_close(window, fields),
        length: spans.len,
    })
}

/// What the bytes begin with: a head is sought in the first 8,192 of them.
pub(crate) fn judge(rest: &[u8]) -> Verdict
    ensures within { IfHead result (IsHeadWithin rest.now) }
    ensures whole { IfHead result (IsHeadAt rest.now) }
    ensures found { (h : RequestHead) (tail : List ℕ) → IsWhole rest.now h tail → IsGood h → IsHead result }
    ensures more { OnMoreNeeded result (IsQuiet rest.now) }
    ensures bad { IfStatus result (IsBad rest.now) }
{
    let window = &rest[..HEAD_LIMIT.min(rest.len())];
    let mut fields = [EMPTY_HEADER_SPAN; FIELD_LIMIT];
    match parse_request(window, &mut fields) {
        Ok(Status::Complete(spans)) => judge_head(window, &fields, spans),
        Ok(Status::Partial) => {
            if window.len() < HEAD_LIMIT {
                Verdict::More
            } else {
                Verdict::Bad(431)
            }
        }
        Err(error) => match error {
            Error::TooManyHeaders => Verdict::Bad(431),
            _ => Verdict::Bad(400),
        },
    }
}

/// Judges the requests that bytes hold, up to the first that closes or to the first bad one.
///
/// It tells nothing: with it a contract may say that there are such requests.
pub(crate) fn judge_all(rest: &[u8])
    ensures { HasRequests rest.now }
{
    let mut start = 0;
    'requests: loop {
        match judge(&rest[start..]) {
            Verdict::Whole(head) => {
                if head.closes {
                    return;
                }
                start += head.length;
            }
            Verdict::More => return,
            Verdict::Bad(_) => return,
        }
    }
}
