//! Connections whose requests are answered one after another.

ghost use Rattle.std.specs.Prelude.{◌≡◌, ◌≤◌, List, ℕ, None, Ok, MatchBool, length};
ghost use Rattle.std.specs.Io.KnownBytes.{Appends, Consumes, IsAtEnd};
ghost use Rattle.jk_web.specs.Serving.{TellsEnd, EndsConnection};
ghost use Rattle.jk_web.specs.Turns.{IsReadIn};

use crate::budget::{Budget, Last};
use crate::reply::bad;
use crate::service::Service;
use crate::session::{Next, Session};
use jk_math::{Fault, write_out};
use std::alloc::Global;
use std::io::{Read, Write};

/// The most bytes of a read.
const PIECE: usize = 4096;

/// Why a connection has ended.
#[derive(Clone, Copy, Debug, PartialEq, Eq)]
pub enum End {
    /// The input has ended, or the reply to a request closes.
    Closed,
    /// A bad request came.
    Bad,
    /// A read failed.
    ReadFailed,
    /// A write failed, or took nothing.
    WriteFailed,
    /// No read is left.
    TurnsSpent,
}

/// Answers the requests that have come whole, and tells why the connection ends, if it does.
fn answer_all<O: Write, S: Service>(
    alloc: Global,
    session: &mut Session,
    writer: &mut O,
    service: &mut S,
) -> Result<Option<End>, Fault>
    requires { session.old.stuck ≡ None }
    ensures { (text : List ℕ) × Appends (O.contents writer.old) (O.contents writer.new) text
        × TellsEnd S.gives S.refuses service.old session.old.rest text session.new service.new result }
{
    'requests: loop {
        match session.next()? {
            Next::More => return Ok(None),
            Next::Request(request) => {
                let reply = match service.answer(alloc, &request) {
                    Ok(reply) => reply,
                    Err(fault) => return Err(fault),
                };
                if !write_out(writer, reply.bytes.as_slice()) {
                    session.judge_left();
                    return Ok(Some(End::WriteFailed));
                }
                if request.closes {
                    return Ok(Some(End::Closed));
                }
            }
            Next::Bad(status) => {
                let reply = bad(alloc, status)?;
                if !write_out(writer, reply.bytes.as_slice()) {
                    return Ok(Some(End::WriteFailed));
                }
                return Ok(Some(End::Bad));
            }
        }
    }
}

/// Answers the requests of a connection one after another, in at most so many reads. TurnsSpent:
/// none is left. ReadFailed: the last one failed.
fn serve_turns<'a, I: Read, O: Write, S: Service>(
    alloc: Global,
    budget: &mut Budget<'a, I>,
    writer: &mut O,
    service: &mut S,
    turns: u64,
) -> Result<End, Fault>
    requires { budget.old.left ≡ turns }
    ensures same_reference { budget.new.reader.ghost_name ≡ budget.old.reader.ghost_name }
    ensures spent { result ≡ Ok End.TurnsSpent → budget.new.left ≡ 0 }
    ensures failed { result ≡ Ok End.ReadFailed → budget.new.last ≡ Last.Failed }
    ensures text { (stream : List ℕ) × (text : List ℕ)
        × Consumes (I.remaining budget.old.reader.now) (I.remaining budget.new.reader.now) stream
        × Appends (O.contents writer.old) (O.contents writer.new) text
        × EndsConnection S.gives S.refuses service.old stream text (IsAtEnd (I.remaining budget.new.reader.now))
        (turns ≤ length stream) service.new result
        × IsReadIn turns stream result }
{
    let mut session = Session::new(alloc);
    let mut piece = [0; PIECE];
    'turns: for _ in 0..turns {
        let count = match budget.read(&mut piece) {
            Ok(0) => return Ok(End::Closed),
            Ok(count) => count,
            Err(_) => return Ok(End::ReadFailed),
        };
        if let Err(fault) = session.feed(&piece[..count]) {
            return Err(fault);
        }
        match answer_all(alloc, &mut session, writer, service) {
            Ok(None) => {}
            Ok(Some(end)) => return Ok(end),
            Err(fault) => return Err(fault),
        }
    }
    Ok(End::TurnsSpent)
}

/// Answers the requests of a connection one after another, in at most so many reads.
///
/// What is written is the replies to the requests in order, whatever pieces they come in, up to the
/// first that closes or to the first bad one. Where memory or an answer is refused, whole replies
/// are written alone.
pub fn serve_connection<I: Read, O: Write, S: Service>(
    alloc: Global,
    reader: &mut I,
    writer: &mut O,
    service: &mut S,
    turns: u64,
) -> Result<End, Fault>
    ensures { (stream : List ℕ) × (text : List ℕ)
        × Consumes (I.remaining reader.old) (I.remaining reader.new) stream
        × Appends (O.contents writer.old) (O.contents writer.new) text
        × EndsConnection S.gives S.refuses service.old stream text (IsAtEnd (I.remaining reader.new))
        (turns ≤ length stream) service.new result
        × IsReadIn turns stream result }
{
    let mut budget = Budget::new(reader, turns);
    serve_turns(alloc, &mut budget, writer, service, turns)
}
