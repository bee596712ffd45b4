//! Requests that name another host than the server's: they are rejected before they are answered.
//!
//! A page of another site can't make a browser ask for images here under a name of its own (DNS
//! rebinding) where the server knows its names.

ghost use Rattle.std.specs.Prelude.{◌≤◌, length, All, IfOk};
ghost use Rattle.httparse.specs.Spans.{IsHeaderWithin};

use httparse::Status;
use httparse::spans::{EMPTY_HEADER_SPAN, HeaderSpan, parse_request};
use jk_web::{FIELD_LIMIT, HEAD_LIMIT};
use std::alloc::Global;
use std::io::{self, Read, Write};
use std::sync::Arc;

/// How many bytes are read at a time.
const PIECE: usize = 4096;

/// What is sent for a request that names another host.
static FORBIDDEN: &str =
    "HTTP/1.1 403 Forbidden\r\nContent-Type: text/plain\r\nContent-Length: 14\r\n\
Connection: close\r\n\r\n403 Forbidden\n";

/// The names under which a server may be asked.
#[derive(Drop)]
pub struct HostNames {
    names: Vec<String>,
}

/// A host without its port (RFC 3986, 3.2.2): an address of IPv6 stands in brackets.
fn without_port(host: &[u8]) -> &[u8] {
    let end = if host.starts_with(b"[") {
        host.iter().position(|byte| *byte == b']')
    } else {
        host.iter().position(|byte| *byte == b':')
    };
    let end = end.unwrap_or(host.len()).min(host.len());
    if host.starts_with(b"[") && end < host.len() {
        return &host[..end + 1];
    }
    &host[..end]
}

impl HostNames {
    /// These names; ports behind them don't count.
    pub fn new(names: Vec<String>) -> HostNames {
        HostNames { names }
    }

    /// Whether the value of a Host field is one of the names, with or without a port. Letters of
    /// either case are the same.
    pub fn has(&self, host: &[u8]) -> bool {
        let host = without_port(host);
        for name in &self.names {
            if host.eq_ignore_ascii_case(without_port(name.as_bytes())) {
                return true;
            }
        }
        false
    }

    /// Whether a head names a host, and no other than these.
    fn allow(&self, head: &[u8], fields: &[HeaderSpan]) -> bool
        requires { All (IsHeaderWithin (length head.now)) fields.now }
    {
        let mut is_named = false;
        for field in fields {
            if field.name.of(head).eq_ignore_ascii_case(b"host") {
                if !self.has(field.value.of(head)) {
                    return false;
                }
                is_named = true;
            }
        }
        is_named
    }

    /// What bytes begin with, of which a head is sought as who answers seeks it.
    fn judge(&self, bytes: &[u8]) -> Asked {
        let window = &bytes[..HEAD_LIMIT.min(bytes.len())];
        let mut fields = [EMPTY_HEADER_SPAN; FIELD_LIMIT];
        match parse_request(window, &mut fields) {
            Ok(Status::Complete(spans)) => {
                if self.allow(window, &fields[..spans.headers]) {
                    Asked::Whole(spans.len)
                } else {
                    Asked::OtherHost
                }
            }
            Ok(Status::Partial) if window.len() < HEAD_LIMIT => Asked::Open,
            _ => Asked::NoHead,
        }
    }
}

/// What the bytes of a connection begin with.
#[derive(Clone, Copy)]
enum Asked {
    /// A whole head of so many bytes, for one of the names.
    Whole(usize),
    /// A whole head for another host.
    OtherHost,
    /// No whole head yet.
    Open,
    /// What is no head, whatever follows: who answers says so.
    NoHead,
}

/// What is given on of the bytes that came.
#[derive(Clone, Copy)]
enum Passing {
    /// So many of the bytes that are held: the rest of a head.
    Head(usize),
    /// All.
    All,
    /// None any more.
    None,
}

/// Between a connection and who answers its requests: each head is given on once it is whole and names
/// one of the server's hosts. For the first that names another the reply 403 is sent, and nothing more
/// is given on.
#[derive(Drop)]
pub struct HostGate {
    names: Arc<HostNames>,
    held: Vec<u8>,
    passing: Passing,
}

impl HostGate {
    /// Before the first byte.
    pub fn new(alloc: Global, names: Arc<HostNames>) -> HostGate {
        HostGate {
            names,
            held: Vec::new(alloc),
            passing: Passing::Head(0),
        }
    }

    /// Gives on bytes that are held, at most so many.
    fn give(&mut self, buf: &mut [u8], most: usize) -> usize
        ensures { result ≤ length buf.new }
    {
        let count = most.min(self.held.len()).min(buf.len());
        buf[..count].copy_from_slice(&self.held[..count]);
        self.held.drain(..count);
        count
    }

    /// Reads once from the connection. Whether bytes came.
    fn read_more<I: Read>(&mut self, input: &mut I) -> io::Result<bool> {
        let mut piece = [0u8; PIECE];
        let count = input.read(&mut piece)?.min(PIECE);
        self.held.extend_from_slice(&piece[..count])?;
        Ok(count > 0)
    }

    /// Judges what is held: sends 403 for another host, and reads more where no head is whole.
    fn step<I: Read, O: Write>(&mut self, input: &mut I, output: &mut O) -> io::Result<()> {
        match self.names.judge(&self.held) {
            Asked::Whole(length) => self.passing = Passing::Head(length),
            Asked::NoHead => self.passing = Passing::All,
            Asked::OtherHost => {
                self.passing = Passing::None;
                self.held.clear();
                output.write_all(FORBIDDEN.as_bytes())?;
            }
            Asked::Open => {
                if !self.read_more(input)? {
                    self.passing = Passing::All;
                }
            }
        }
        Ok(())
    }

    /// Whether a request for another host was met.
    pub fn is_shut(&self) -> bool {
        matches!(self.passing, Passing::None)
    }

    /// Reads what is given on: none at the end of the connection, or behind a request for another
    /// host.
    pub fn read<I: Read, O: Write>(
        &mut self,
        input: &mut I,
        output: &mut O,
        buf: &mut [u8],
    ) -> io::Result<usize>
        ensures { IfOk result (λ n. n ≤ length buf.new) }
    {
        for _step in 0..u64::MAX {
            match self.passing {
                Passing::None => return Ok(0),
                Passing::All if self.held.is_empty() => return input.read(buf),
                Passing::All => {
                    let most = self.held.len();
                    return Ok(self.give(buf, most));
                }
                Passing::Head(0) => self.step(input, output)?,
                Passing::Head(left) => {
                    let count = self.give(buf, left);
                    self.passing = Passing::Head(left.saturating_sub(count));
                    return Ok(count);
                }
            }
        }
        Ok(0)
    }
}
