//! A port on which connections come.

ghost use Rattle.std.specs.Prelude.{◌<◌, ◌^◌};

use crate::hosts::{HostGate, HostNames};
use crate::lingering::read_out;
use crate::link::{Incoming, Link, Listener, Outgoing};
use crate::log::Log;
use crate::refused_row::Row;
use jk_web::{Connection, End, Source};
use std::alloc::{AllocError, Global};
use std::io::{self, ErrorKind};
use std::net::{Net, TcpListener, TcpStream};
use std::sync::atomic::{AtomicU64, Ordering};
use std::sync::{Arc, Mutex, Wait};
use std::thread;
use std::time::Clock;

/// A port that is listened on, and its number.
#[derive(Drop)]
pub struct Port {
    listener: TcpListener,
    pub number: u16,
    // The names under which it may be asked, if not every one is right.
    hosts: Option<Arc<HostNames>>,
}

impl Port {
    /// The same port, of which requests for these hosts alone are answered.
    pub fn for_hosts(self, alloc: Global, hosts: HostNames) -> Result<Port, AllocError> {
        let Port {
            listener,
            number,
            ..
        } = self;
        Ok(Port {
            listener,
            number,
            hosts: Some(Arc::new(alloc, hosts)?),
        })
    }

    /// What lets requests of a connection through, if not all are.
    fn gate(&self, alloc: Global) -> Result<Option<HostGate>, AllocError> {
        match &self.hosts {
            Some(hosts) => Ok(Some(HostGate::new(alloc, Arc::try_clone(hosts)?))),
            None => Ok(None),
        }
    }
}

/// Listens on a port of 127.0.0.1, or on one that is free for 0.
pub fn bind<R: Net<Listener = TcpListener, Stream = TcpStream>>(
    rt: &R,
    port: u16,
) -> io::Result<Port> {
    let listener = TcpListener::bind(rt, ("127.0.0.1", port))?;
    let number = listener.local_addr()?.port();
    Ok(Port {
        listener,
        number,
        hosts: None,
    })
}

/// The connections that come on a port, so many. One that can't be taken counts as one of them.
/// Before the first one is taken a text is written to standard error.
#[derive(Drop)]
pub struct Arriving<R> {
    rt: R,
    alloc: Global,
    port: Port,
    most: u64,
    // How long a read or a write may wait, in milliseconds.
    wait: u64,
    log: Option<Arc<Log>>,
    // What is written when the first connection is waited for.
    started: String,
    // How many were taken, or couldn't be.
    taken: AtomicU64,
    row: Mutex<Row>,
    ghost short: { wait < 2 ^ 32 },
}

impl<R: Clone> Arriving<R> {
    /// So many connections of a port. A read or a write on one may wait for so many milliseconds.
    /// The text is written to standard error before the first one is taken.
    pub fn new(
        rt: R,
        alloc: Global,
        port: Port,
        most: u64,
        wait: u32,
        log: Option<Arc<Log>>,
        started: String,
    ) -> Arriving<R> {
        Arriving {
            rt,
            alloc,
            port,
            most,
            wait: wait as u64,
            log,
            started,
            taken: AtomicU64::new(0),
            row: Mutex::new(Row::none()),
        }
    }
}

impl<R: Clock + Wait + Eprint + Clone + Drop> Arriving<R> {
    /// The log, if there is one.
    pub fn log(&self) -> Option<&Arc<Log>> {
        self.log.as_ref()
    }

    /// No more connections come: what is left to be told of those that couldn't be taken is told.
    pub fn end(&self) {
        self.row.lock(&self.rt).end(&self.rt);
    }

    /// Takes a stream. An interrupted call is made again.
    fn stream(&self) -> io::Result<TcpStream> {
        for _ in self.rt.forever() {
            match self.port.listener.accept() {
                Ok((stream, _)) => return Ok(stream),
                Err(said) if said.kind() == ErrorKind::Interrupted => {}
                Err(said) => return Err(said),
            }
        }
        unreachable!()
    }

    /// Takes a connection.
    fn accept(&self) -> io::Result<Arc<Link<R>>> {
        let stream = self.stream()?;
        let log = match &self.log {
            Some(log) => Some(Arc::try_clone(log)?),
            None => None,
        };
        let link = Link::new(self.rt.clone()?, self.alloc, stream, self.wait, log)?;
        Ok(Arc::new(self.alloc, link)?)
    }

    /// Takes a connection, with its reader, its writer and its witness.
    fn connection(&self) -> io::Result<Connection<Incoming<R>, Outgoing<R>, Listener<R>>> {
        let link = self.accept()?;
        let gate = self.port.gate(self.alloc)?;
        let output = Arc::try_clone(&link)?;
        let witness = Arc::try_clone(&link)?;
        Ok(Connection {
            input: Incoming { link, gate },
            output: Outgoing { link: output },
            witness: Listener { link: witness },
        })
    }
}

impl<R: Clock + Wait + Eprint + Clone + Drop + Send + Sync> Source for Arriving<R> {
    type In = Incoming<R>;

    type Out = Outgoing<R>;

    type Told = Listener<R>;

    fn take(&self) -> Option<Connection<Incoming<R>, Outgoing<R>, Listener<R>>> {
        for _connection in 0..u64::MAX {
            let number = self.taken.fetch_add(1, Ordering::SeqCst);
            if number == 0 {
                let _ = self.rt.eprint(self.started.as_str());
            }
            if number >= self.most {
                return None;
            }
            match self.connection() {
                Ok(connection) => {
                    self.row.lock(&self.rt).end(&self.rt);
                    return Some(connection);
                }
                Err(said) => {
                    let pause = self.row.lock(&self.rt).add(&self.rt, said);
                    thread::sleep(&self.rt, pause);
                }
            }
        }
        None
    }

    fn ended(
        &self,
        connection: Connection<Incoming<R>, Outgoing<R>, Listener<R>>,
        end: Option<End>,
    ) {
        let link = &*connection.input.link;
        link.ended(end);
        match end {
            Some(End::Bad) | Some(End::Closed) => {
                let _ = read_out(&self.rt, &link.stream);
            }
            _ => {}
        }
    }
}
