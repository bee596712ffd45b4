//! Serving an archive over sockets.

ghost use Rattle.std.specs.Prelude.{◌≡◌, ◌<◌, vec_len};
ghost use Rattle.std.specs.Thread.{IsSync, IsSend};

use crate::beginning::Beginning;
use crate::desk::{Desk, Keeper};
use crate::operating::operate;
use crate::table::entries;
use jk_hall::{Hall, Reader, Source, Start, Writer, serve_all};
use jk_jobs::Open;
use jk_math::Fault;
use jk_port::Arriving;
use jk_store::Shelf;
use std::alloc::Global;
use std::sync::{Arc, Wait};
use std::thread::{JoinHandle, Threads};
use std::time::Clock;
use std::{io, thread};

/// What was served.
#[derive(Clone, Copy, Debug, PartialEq, Eq)]
pub struct Served {
    /// How many connections were attended to.
    pub connections: u64,
}

/// Follows the lines of standard input, and answers them on standard output. Where that ends before
/// the input does, it is told.
fn operate_here<R: Wait + Input + Print + Eprint, S: Shelf, K: Keeper<S>, P: Shelf>(
    rt: &R,
    alloc: Global,
    desk: &mut Desk<S, K, P>,
    writer: &mut Writer,
) -> Result<(), Fault> {
    let mut input = rt.reader();
    let mut output = io::writer(rt);
    let operated = operate(rt, alloc, desk, writer, &mut input, &mut output);
    if let Err(fault) = &operated {
        let _ = eprintln!(rt; "jk: no more images are added: {fault}");
    }
    operated
}

/// Attends to the connections of a source. Where that doesn't begin, those who wait for it are told.
pub(crate) fn serve_from_start<R: Threads + Wait + Sync, F: Shelf + Drop + Send, C: Source + Sync>(
    rt: &R,
    alloc: Global,
    workers: (Vec<Reader>, Vec<F>),
    source: &C,
    start: &Start,
) -> Result<u64, Fault>
    requires { (0 < vec_len workers.0) × (vec_len workers.0 ≡ vec_len workers.1) }
{
    let (readers, shelves) = workers;
    let beginning = Beginning { rt, source, start };
    let served = serve_all(rt, alloc, readers, shelves, &Open, &beginning);
    start.give_up(rt);
    served
}

/// Attends to the connections of a port by these readers, and meanwhile follows the operator.
///
/// WorkerFailed: a thread can't be had.
fn attend<R, S: Shelf, K: Keeper<S>, P: Shelf, F: Shelf + Drop + Send>(
    rt: &R,
    alloc: Global,
    desk: &mut Desk<S, K, P>,
    writer: &mut Writer,
    workers: (Vec<Reader>, Vec<F>),
    source: &Arriving<R>,
) -> Result<Served, Fault>
where
    R: Threads + Wait + Clock + Input + Print + Eprint + Clone + Drop + Send + Sync,
    requires { (0 < vec_len workers.0) × (vec_len workers.0 ≡ vec_len workers.1) }
{
    let due = Start::due();
    let start = &due;
    let (served, operated) = thread::scope(
        thread::scope_env(),
        rt,
        move |scope| -> (Result<u64, Fault>, Result<(), Fault>)
            requires { IsSync R.row × IsSend F.row × (0 < vec_len workers.0)
                × (vec_len workers.0 ≡ vec_len workers.1) }
        {
            let serving = scope.spawn(
                move || -> Result<u64, Fault>
                    requires { IsSync R.row × IsSend F.row × (0 < vec_len workers.0)
                        × (vec_len workers.0 ≡ vec_len workers.1) }
                { serve_from_start(rt, alloc, workers, source, start) },
            );
            let Ok(serving) = serving else {
                return (Err(Fault::WorkerFailed), Ok(()));
            };
            let operated = if start.wait(rt) {
                operate_here(rt, alloc, desk, writer)
            } else {
                Ok(())
            };
            (serving.join(rt), operated)
        },
    );
    source.end();
    let connections = served?;
    operated?;
    Ok(Served { connections })
}

/// Starts the thread that writes the log, if there is one. Where it can't be started that is told,
/// and no line of the log is written.
pub(crate) fn start_log<R>(rt: &R, alloc: Global, source: &Arriving<R>) -> Option<JoinHandle<()>>
where
    R: Threads + Wait + Clock + Eprint + Clone + Drop + Send + Sync + 'static,
{
    let log = Arc::try_clone(source.log()?).ok()?;
    let own = rt.clone().ok()?;
    match thread::spawn(rt, move || log.write_all(&own, alloc)) {
        Ok(writing) => Some(writing),
        Err(_) => {
            let _ = eprintln!(rt; "jk: the log isn't written, since no thread can be started");
            None
        }
    }
}

/// Lets the log be written to its end.
pub(crate) fn end_log<R>(rt: &R, source: &Arriving<R>, writing: Option<JoinHandle<()>>)
where
    R: Threads + Wait + Clock + Eprint + Clone + Drop,
{
    if let Some(log) = source.log() {
        log.close(rt);
    }
    if let Some(writing) = writing {
        writing.join(rt);
    }
}

/// Serves the images of an archive on a port, with a worker for each of the shelves, until so many
/// connections have come and standard input has ended. Lines of standard input are followed
/// meanwhile (`operate`).
///
/// BadParameters: other than 1 to 64 shelves. WorkerFailed: a worker can't have its place or its
/// thread.
pub fn serve_port<R, S: Shelf, K: Keeper<S>, P: Shelf, F: Shelf + Drop + Send>(
    rt: &R,
    alloc: Global,
    desk: &mut Desk<S, K, P>,
    shelves: Vec<F>,
    source: &Arriving<R>,
) -> Result<Served, Fault>
where
    R: Threads + Wait + Clock + Input + Print + Eprint + Clone + Drop + Send + Sync + 'static,
{
    let entries = entries(alloc, &desk.archive)?;
    if shelves.is_empty() {
        return Err(Fault::BadParameters);
    }
    let (mut writer, readers) = Hall::new(rt, alloc, shelves.len(), entries)?;
    let writing = start_log(rt, alloc, source);
    let served = attend(rt, alloc, desk, &mut writer, (readers, shelves), source);
    end_log(rt, source, writing);
    writer.close(rt);
    served
}
