//! Requests out of the bytes of a connection, which come in any pieces.

ghost use Rattle.std.specs.Prelude.{◌≡◌, ℕ, ◌++◌, ◌⊎◌, List, [], None, Some, Ok, IsOk, IsErr, IfOk, IfErr, MatchResult};
ghost use Rattle.httparse.specs.Grammar.{RequestHead};
ghost use Rattle.jk_math.specs.Memory.{IsMemory};
ghost use Rattle.jk_web.specs.Heads.{IsWhole, IsGood, IsQuiet, IsBad};
ghost use Rattle.jk_web.specs.Judging.{IsHeadWithin};
ghost use Rattle.httparse.specs.Spans.{span_bytes};
ghost use Rattle.jk_web.specs.Unread.{Unread, out_of_memory, bad};
ghost use Rattle.jk_web.specs.Serving.{HasRequests};
ghost use Rattle.jk_web.specs.Sessions.{TakesRequest, IfRequest, IsRequestUnlessMemory, OnMore, IfBad};

use crate::head::{Head, Verdict, judge, judge_all};
use crate::octets::Octets;
use crate::request::Request;
use jk_math::{Fault, Refused};
use std::alloc::{AllocError, Global};
use std::marker::Model;

/// What comes next on a connection.
#[derive(Debug, Drop)]
pub enum Next {
    /// A request.
    Request(Request),
    /// Nothing, before more bytes come.
    More,
    /// What can't be answered, and the status that says why.
    Bad(u16),
}

/// Why a session gives no more requests.
#[derive(Clone, Copy)]
enum Stuck {
    Memory(Refused),
    Bad(u16),
}

/// The bytes of a connection of which no request was made.
#[derive(Drop)]
pub struct Session {
    alloc: Global,
    bytes: Vec<u8>,
    start: usize,
    stuck: Option<Stuck>,
}

impl Model for Session {
    ghost use Rattle.std.specs.Prelude.{◌≤◌, drop, length};
    ghost use Rattle.jk_web.specs.Unread.{Unread};

    ghost Value = { Unread };

    ghost use Rattle.jk_web.specs.Registers.{reason_of};

    ghost view = { λ s. record { rest = drop s.start s.bytes.items; stuck = reason_of s.stuck } };

    ghost invariant = { λ s. s.start ≤ length s.bytes.items };
}

/// The request that a head asks for.
fn request_of(alloc: Global, rest: &[u8], head: Head) -> Result<Request, AllocError>
    requires { IsHeadWithin rest.now head }
    ensures { IfOk result
        (λ r. r ≡ record {
          method = span_bytes rest.now head.method;
          target = span_bytes rest.now head.target;
          closes = head.closes;
        }) }
{
    Ok(Request {
        method: Octets::new(Vec::from_slice(alloc, head.method.of(rest))?),
        target: Octets::new(Vec::from_slice(alloc, head.target.of(rest))?),
        closes: head.closes,
    })
}

impl Session {
    /// A session before the first byte.
    pub fn new(alloc: Global) -> Session
        ensures { result ≡ record { rest = []; stuck = None } }
    {
        Session {
            alloc,
            bytes: Vec::new(alloc),
            start: 0,
            stuck: None,
        }
    }

    /// Lets go the bytes of which requests were made, where they are as many as those that are
    /// left.
    fn compact(&mut self)
        ensures { self.new ≡ self.old }
    {
        if self.start >= self.bytes.len() - self.start {
            self.bytes.drain(..self.start);
            self.start = 0;
        }
    }

    /// Takes the next piece of the connection. `Memory` where it can't be kept, and from then on.
    ///
    /// A session that has met a bad request passes the piece over.
    pub fn feed(&mut self, piece: &[u8]) -> Result<(), Fault>
        ensures running { self.old.stuck ≡ None → MatchResult result
            (λ _. self.new ≡ record self.old { rest = self.old.rest ++ piece.now })
            (λ e. IsMemory e × (self.new ≡ record self.old { stuck = Some out_of_memory })) }
        ensures passes { (status : ℕ) → self.old.stuck ≡ Some (bad status) → IsOk result × (self.new ≡ self.old) }
        ensures fails { self.old.stuck ≡ Some out_of_memory → IsErr result × (self.new ≡ self.old) }
        ensures memory { IfErr result (λ e. IsMemory e) }
    {
        match self.stuck {
            Some(Stuck::Memory(refused)) => return Err(Fault::Memory(refused)),
            Some(Stuck::Bad(_)) => return Ok(()),
            None => {}
        }
        self.compact();
        match self.bytes.extend_from_slice(piece) {
            Ok(()) => Ok(()),
            Err(error) => {
                let refused = Refused::from(error);
                self.stuck = Some(Stuck::Memory(refused));
                Err(Fault::Memory(refused))
            }
        }
    }

    /// What comes next. `Bad` stays, and so does `Memory`.
    ///
    /// A head is sought in the first 8,192 bytes that are left, and its fields are judged once it
    /// is whole.
    pub fn next(&mut self) -> Result<Next, Fault>
        ensures request { IfRequest result (TakesRequest self.old self.new) }
        ensures found { (h : RequestHead) (tail : List ℕ) → IsWhole self.old.rest h tail → IsGood h
            → self.old.stuck ≡ None → IsRequestUnlessMemory result }
        ensures more { OnMore result (IsQuiet self.old.rest × (self.old.stuck ≡ None) × (self.new ≡ self.old)) }
        ensures bad { IfBad result (λ status. (self.new ≡ record self.old { stuck = Some (bad status) })
            × ((self.old.stuck ≡ Some (bad status)) ⊎ ((self.old.stuck ≡ None) × IsBad self.old.rest status))) }
        ensures stays { (status : ℕ) → self.old.stuck ≡ Some (bad status) → result ≡ Ok (Next.Bad status) }
        ensures memory { IfErr result (λ e. IsMemory e × (self.new ≡ record self.old { stuck = Some out_of_memory })) }
        ensures fails { self.old.stuck ≡ Some out_of_memory → IsErr result }
    {
        match self.stuck {
            Some(Stuck::Memory(refused)) => return Err(Fault::Memory(refused)),
            Some(Stuck::Bad(status)) => return Ok(Next::Bad(status)),
            None => {}
        }
        match judge(&self.bytes[self.start..]) {
            Verdict::Whole(head) => {
                match request_of(self.alloc, &self.bytes[self.start..], head) {
                    Ok(request) => {
                        self.start += head.length;
                        Ok(Next::Request(request))
                    }
                    Err(error) => {
                        let refused = Refused::from(error);
                        self.stuck = Some(Stuck::Memory(refused));
                        Err(Fault::Memory(refused))
                    }
                }
            }
            Verdict::More => Ok(Next::More),
            Verdict::Bad(status) => {
                self.stuck = Some(Stuck::Bad(status));
                Ok(Next::Bad(status))
            }
        }
    }

    /// Judges the requests that are left, and gives none of them.
    pub(crate) fn judge_left(&self)
        ensures { HasRequests self.now.rest }
    {
        judge_all(&self.bytes[self.start..]);
    }
}
