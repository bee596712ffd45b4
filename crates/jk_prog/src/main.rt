//! The program `jk`.
#![tactic(auto)]

mod files;
mod finder;
mod host;
mod keeper;
mod regular;
mod serving;
mod source;
mod stored;
mod unjudged;

use crate::host::Host;
use crate::serving::{Asked, Lines, serve, serve_opening};
use jk_line::{FaultLine, Status, run};
use jk_math::Fault;
use jk_terminal::Teller;
use std::alloc::Global;
use std::env;
use std::io::{self, ErrorKind, IsTerminal};
use std::process::ExitCode;

/// The words of the command line. The first of them is the program's name, whatever file it lies
/// in.
fn words(rt: &HostRuntime, alloc: Global) -> io::Result<Vec<String>> {
    let mut words = Vec::new(alloc);
    words.push(String::from_str(alloc, "jk")?)?;
    for word in env::args(rt)?.skip(1) {
        words.push(word)?;
    }
    Ok(words)
}

/// What is said where the words can't be had.
fn refused(rt: &HostRuntime, said: io::Error) -> Status {
    if said.kind() == ErrorKind::InvalidData {
        let _ = rt.eprint("error: a word of the command line isn't UTF-8\n");
        return Status::WrongLine;
    }
    let _ = rt.eprint("jk: F1 Memory\n");
    Status::Refused
}

/// How large a piece of memory may be that is kept for the next one once it is given back: just
/// below the 32 MiB up to which glibc keeps such pieces.
const KEPT: usize = 31 << 20;

/// Takes a large piece of memory and gives it back. The C library maps each large piece anew, and
/// the system clears it, until one of its size was given back; then it keeps what is freed
/// (mallopt(3), M_MMAP_THRESHOLD).
fn keep_freed_memory(alloc: Global) {
    let _ = Vec::<u8>::with_capacity(alloc, KEPT);
}

/// Writes the fault with which serving ended, if it did.
fn ended<R: Eprint>(rt: &R, served: Result<(), Fault>) -> Status {
    match served {
        Ok(()) => Status::Done,
        Err(fault) => {
            let _ = rt.eprint(&FaultLine { fault });
            Status::Refused
        }
    }
}

fn main(rt: HostRuntime) -> ExitCode {
    let alloc = rt.alloc();
    keep_freed_memory(alloc);
    let own: Result<HostRuntime, _> = rt.clone();
    let status = match (words(&rt, alloc), own) {
        (Ok(words), Ok(own)) => {
            let is_terminal = rt.stderr().is_terminal();
            let teller = Teller::start(&rt, alloc, is_terminal);
            let mut host = Host::new(own, is_terminal, teller.counted.again());
            let status = run(alloc, &words, &mut host);
            teller.end(&rt);
            match host.into_asked() {
                Some(asked) => {
                    let Asked {
                        port,
                        mut desk,
                        shelves,
                        serving,
                        opening,
                    } = asked;
                    let served = match opening {
                        Some(opening) => {
                            let asked = (port, serving);
                            let streams = (Lines { rt: &rt }, io::writer(&rt));
                            serve_opening(&rt, alloc, asked, desk, opening, shelves, streams)
                        }
                        None => serve(&rt, alloc, port, &mut desk, shelves, serving),
                    };
                    ended(&rt, served)
                }
                None => status,
            }
        }
        (Err(said), _) => refused(&rt, said),
        (_, Err(_)) => refused(&rt, io::Error::from(ErrorKind::OutOfMemory)),
    };
    ExitCode::from(status.code())
}
