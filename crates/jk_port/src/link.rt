//! A connection that was taken.

ghost use Rattle.std.specs.Prelude.{◌<◌, ◌≤◌, ◌^◌, length, IfOk};

use crate::hosts::HostGate;
use crate::log::Log;
use crate::pace::Pace;
use crate::record::{Record, request_text};
use jk_web::{End, Reply, Request, Witness, why};
use std::alloc::{AllocError, Global};
use std::io::{self, ErrorKind, Read, Write};
use std::net::TcpStream;
use std::sync::{Arc, Mutex, Wait};
use std::time::{Clock, Duration, Instant, SystemTime, UNIX_EPOCH};

/// A reply that is being sent.
#[derive(Drop)]
struct Sending {
    record: Record,
    // How many bytes of it there are.
    size: u64,
    // Why it isn't what was asked for, if so.
    why: Option<&'static str>,
}

/// What changes while a connection lasts.
#[derive(Drop)]
struct State {
    pace: Pace,
    // How long a read and a write may wait, in milliseconds, as the system was told.
    read_wait: u64,
    write_wait: u64,
    // When the bytes of the request came, in microseconds since the connection was taken.
    since: u64,
    sending: Option<Sending>,
    // What the system said of the last read or write, if that failed.
    said: Option<io::Error>,
}

/// A connection that was taken. Its reader, its writer and its witness share it.
#[derive(Drop)]
pub struct Link<R> {
    rt: R,
    alloc: Global,
    pub(crate) stream: TcpStream,
    taken: Instant,
    log: Option<Arc<Log>>,
    state: Mutex<State>,
}

/// A time in microseconds.
fn micros(time: Duration) -> u64 {
    time.as_secs()
        .saturating_mul(1_000_000)
        .saturating_add(time.subsec_micros() as u64)
}

impl<R: Clock + Drop> Link<R> {
    /// A connection that was taken just now. A read or a write on it may wait for so many
    /// milliseconds.
    pub(crate) fn new(
        rt: R,
        alloc: Global,
        stream: TcpStream,
        wait: u64,
        log: Option<Arc<Log>>,
    ) -> io::Result<Link<R>>
        requires { wait < 2 ^ 32 }
    {
        let longest = Some(Duration::from_millis(wait));
        stream.set_read_timeout(longest)?;
        stream.set_write_timeout(longest)?;
        let taken = Instant::now(&rt)?;
        Ok(Link {
            rt,
            alloc,
            stream,
            taken,
            log,
            state: Mutex::new(State {
                pace: Pace::new(wait),
                read_wait: wait,
                write_wait: wait,
                since: 0,
                sending: None,
                said: None,
            }),
        })
    }

    /// The time since it was taken, in microseconds.
    fn age(&self) -> io::Result<u64> {
        Ok(micros(self.taken.elapsed(&self.rt)?))
    }
}

impl<R: Clock + Wait + Drop> Link<R> {
    /// Lets a read or a write wait for so many milliseconds.
    ///
    /// TimedOut: for none.
    fn allow(&self, wait: u64, is_write: bool) -> io::Result<()> {
        if wait == 0 {
            return Err(io::Error::new(ErrorKind::TimedOut, "a request or a reply took too long"));
        }
        let mut guard = self.state.lock(&self.rt);
        let state = &mut *guard;
        let longest = Some(Duration::from_millis(wait));
        if is_write && state.write_wait != wait {
            self.stream.set_write_timeout(longest)?;
            state.write_wait = wait;
        }
        if !is_write && state.read_wait != wait {
            self.stream.set_read_timeout(longest)?;
            state.read_wait = wait;
        }
        Ok(())
    }

    /// Gets ready for a read or a write, which may wait for what its pace says. Until when, in
    /// milliseconds since the connection was taken.
    ///
    /// TimedOut: the request or the reply takes too long.
    fn begin(&self, is_write: bool) -> io::Result<u64> {
        let now = self.age()? / 1000;
        let wait = self.state.lock(&self.rt).pace.wait_for(now, is_write);
        self.allow(wait, is_write)?;
        Ok(now.saturating_add(wait))
    }

    /// Gets ready to make a read or a write again that was interrupted, within its time.
    ///
    /// TimedOut: its time is over.
    fn resume(&self, until: u64, is_write: bool) -> io::Result<()> {
        let now = self.age()? / 1000;
        self.allow(until.saturating_sub(now), is_write)
    }

    /// Keeps what was said of a read or a write that failed.
    fn failed(&self, said: io::Error) -> io::Error {
        self.state.lock(&self.rt).said = Some(said);
        said
    }

    /// Bytes of a request came: the log is to tell when.
    fn came(&self) -> io::Result<()> {
        if self.log.is_some() {
            let now = self.age()?;
            self.state.lock(&self.rt).since = now;
        }
        Ok(())
    }

    /// So many bytes of a reply were sent. What is told of one that was sent whole.
    fn sent(&self, count: u64) -> io::Result<Option<Sending>> {
        let mut guard = self.state.lock(&self.rt);
        let state = &mut *guard;
        state.pace.sent(count);
        let Some(mut sending) = state.sending.take() else {
            return Ok(None);
        };
        let now = self.age()?;
        sending.record.bytes = sending.record.bytes.saturating_add(count);
        sending.record.micros = now.saturating_sub(state.since);
        if sending.record.bytes < sending.size {
            state.sending = Some(sending);
            return Ok(None);
        }
        state.since = now;
        Ok(Some(sending))
    }

    /// Gives the log a line, behind the time in seconds since 1970.
    fn log_line(&self, text: Result<String, AllocError>) {
        let Some(log) = &self.log else {
            return;
        };
        let Ok(text) = text else {
            return;
        };
        let now = match SystemTime::now(&self.rt) {
            Ok(now) => now.duration_since(UNIX_EPOCH).unwrap_or(Duration::ZERO),
            Err(_) => Duration::ZERO,
        };
        let line = format!(in self.alloc;
            "{}.{:03} {}\n",
            now.as_secs(),
            now.subsec_millis(),
            text
        );
        if let Ok(line) = line {
            log.put(&self.rt, line.as_str());
        }
    }

    /// Gives the log the line of a request, with why it isn't answered as it asks, if so.
    fn log_sending(&self, sending: &Sending) {
        let record = &sending.record;
        self.log_line(match sending.why {
            Some(why) => format!(in self.alloc; "{record} ({why})"),
            None => record.to_string(self.alloc),
        });
    }

    /// The connection has ended: the log is given what was sent of a reply that wasn't sent whole,
    /// and why it ended, if by a fault.
    pub(crate) fn ended(&self, end: Option<End>) {
        let mut guard = self.state.lock(&self.rt);
        let state = &mut *guard;
        let sending = state.sending.take();
        let said = state.said;
        drop(guard);
        if self.log.is_none() {
            return;
        }
        if let Some(sending) = sending {
            self.log_sending(&sending);
        }
        match end {
            Some(End::Closed) => {}
            Some(End::Bad) => self.log_line(String::from_str(
                self.alloc,
                "connection: a bad request",
            )),
            Some(End::TurnsSpent) => self.log_line(String::from_str(
                self.alloc,
                "connection: too many reads",
            )),
            Some(End::ReadFailed) => self.log_failure("read", said),
            Some(End::WriteFailed) => self.log_failure("write", said),
            None => self.log_line(String::from_str(
                self.alloc,
                "connection: a request was refused for want of memory",
            )),
        }
    }

    /// Gives the log the line of a read or a write that failed.
    fn log_failure(&self, call: &str, said: Option<io::Error>) {
        let text = match said {
            Some(said) if said.kind() == ErrorKind::WouldBlock => {
                format!(in self.alloc; "connection: a {call} waited too long")
            }
            Some(said) => format!(in self.alloc; "connection: a {call} failed: {said}"),
            None => format!(in self.alloc; "connection: a {call} failed"),
        };
        self.log_line(text);
    }
}

impl<R: Clock + Wait + Drop> Link<R> {
    /// Reads, and waits for no longer than its pace says. An interrupted read is made again.
    fn receive(&self, buf: &mut [u8]) -> io::Result<usize>
        ensures { IfOk result (λ n. n ≤ length buf.new) }
    {
        let until = self.begin(false)?;
        for _ in self.rt.forever() {
            match (&self.stream).read(buf) {
                Err(said) if said.kind() == ErrorKind::Interrupted => self.resume(until, false)?,
                answer => return answer,
            }
        }
        unreachable!()
    }

    /// Writes, and waits for no longer than its pace says. An interrupted write is made again.
    fn send(&self, bytes: &[u8]) -> io::Result<usize>
        ensures { IfOk result (λ n. n ≤ length bytes.now) }
    {
        let until = self.begin(true)?;
        for _ in self.rt.forever() {
            match (&self.stream).write(bytes) {
                Err(said) if said.kind() == ErrorKind::Interrupted => self.resume(until, true)?,
                answer => return answer,
            }
        }
        unreachable!()
    }

    /// Reads, and keeps what was said where that failed.
    fn read(&self, buf: &mut [u8]) -> io::Result<usize>
        ensures { IfOk result (λ n. n ≤ length buf.new) }
    {
        let count = match self.receive(buf) {
            Ok(count) => count,
            Err(said) => return Err(self.failed(said)),
        };
        match self.came() {
            Ok(()) => Ok(count),
            Err(said) => Err(self.failed(said)),
        }
    }

    /// Writes, and keeps what was said where that failed.
    fn write(&self, bytes: &[u8]) -> io::Result<usize>
        ensures { IfOk result (λ n. n ≤ length bytes.now) }
    {
        let count = match self.send(bytes) {
            Ok(count) => count,
            Err(said) => return Err(self.failed(said)),
        };
        match self.sent(count as u64) {
            Ok(Some(sending)) => self.log_sending(&sending),
            Ok(None) => {}
            Err(said) => return Err(self.failed(said)),
        }
        Ok(count)
    }
}

/// The bytes of a connection, as they come and go.
#[derive(Clone, Copy)]
struct Wire<'l, R> {
    link: &'l Link<R>,
}

impl<'l, R: Clock + Wait + Drop> Read for Wire<'l, R> {
    fn read(&mut self, buf: &mut [u8]) -> io::Result<usize> {
        self.link.read(buf)
    }
}

impl<'l, R: Clock + Wait + Drop> Write for Wire<'l, R> {
    fn write(&mut self, bytes: &[u8]) -> io::Result<usize> {
        self.link.write(bytes)
    }

    fn flush(&mut self) -> io::Result<()> {
        Ok(())
    }
}

/// What is read of a connection: where the server has names, requests for these alone.
#[derive(Drop)]
pub struct Incoming<R> {
    pub(crate) link: Arc<Link<R>>,
    pub(crate) gate: Option<HostGate>,
}

/// Reads what a gate gives on.
fn read_gated<R: Clock + Wait + Drop>(
    link: &Link<R>,
    gate: &mut HostGate,
    buf: &mut [u8],
) -> io::Result<usize>
    ensures { IfOk result (λ n. n ≤ length buf.new) }
{
    let was_shut = gate.is_shut();
    let (mut input, mut output) = (Wire { link }, Wire { link });
    let count = gate.read(&mut input, &mut output, buf)?;
    if gate.is_shut() && !was_shut {
        link.log_line(String::from_str(
            link.alloc,
            "connection: a request for another host was answered 403",
        ));
    }
    Ok(count)
}

impl<R: Clock + Wait + Drop> Read for Incoming<R> {
    fn read(&mut self, buf: &mut [u8]) -> io::Result<usize> {
        match &mut self.gate {
            Some(gate) => read_gated(&*self.link, gate, buf),
            None => self.link.read(buf),
        }
    }
}

/// Where the replies of a connection are written.
#[derive(Drop)]
pub struct Outgoing<R> {
    pub(crate) link: Arc<Link<R>>,
}

impl<R: Clock + Wait + Drop> Write for Outgoing<R> {
    fn write(&mut self, bytes: &[u8]) -> io::Result<usize> {
        self.link.write(bytes)
    }

    fn flush(&mut self) -> io::Result<()> {
        Ok(())
    }
}

/// Who is told of the requests of a connection.
#[derive(Drop)]
pub struct Listener<R> {
    pub(crate) link: Arc<Link<R>>,
}

impl<R: Clock + Wait + Drop> Witness for Listener<R> {
    fn answered(&self, request: &Request, reply: &Reply) {
        let link = &*self.link;
        if link.log.is_none() {
            return;
        }
        let Ok(text) = request_text(
            link.alloc,
            request.method.as_slice(),
            request.target.as_slice(),
        ) else {
            return;
        };
        link.state.lock(&link.rt).sending = Some(Sending {
            record: Record {
                request: text,
                status: reply.status,
                bytes: 0,
                micros: 0,
            },
            size: reply.bytes.as_slice().len() as u64,
            why: why(link.alloc, request.target.as_slice(), reply.status),
        });
    }
}
