//! Serving the archive of a folder.

use crate::finder::FolderFinder;
use crate::keeper::FolderKeeper;
use jk_line::{Serving, listening, opening, served};
use jk_math::Fault;
use jk_serve::{Arriving, Desk, Finder, Keeper, Log, Opening, Paths, Port, Served};
use jk_store::{Folder, Shelf};
use jk_terminal::Watched;
use std::alloc::Global;
use std::io::{self, Read, Write};
use std::rt::Files;
use std::sync::{Arc, Wait};
use std::thread::Threads;
use std::time::Clock;

/// How many connections are taken.
fn connections(serving: Serving) -> u64 {
    match serving.connections {
        Some(count) => count as u64,
        None => u64::MAX,
    }
}

/// What a command line asks to serve. It is served by `main`, where it is known of the runtime that
/// its workers may be given it: a bound says of `Files` what holds of one thread.
#[derive(Drop)]
pub(crate) struct Asked<R: Files> {
    pub(crate) port: Port,
    pub(crate) desk: Desk<Watched<Folder<R>, R>, FolderKeeper<R>, Paths<R>>,
    pub(crate) shelves: Vec<Folder<R>>,
    pub(crate) serving: Serving,
    pub(crate) opening: Option<Opening<FolderFinder<R>>>,
}

/// A shelf of the folder for each worker.
pub(crate) fn shelves<R: Files + Clone + Drop>(
    rt: &R,
    alloc: Global,
    folder: &str,
    workers: usize,
) -> Result<Vec<Folder<R>>, Fault> {
    let mut shelves = Vec::new(alloc);
    for _ in 0..workers {
        let shelf = Folder::new(rt.clone()?, alloc, folder)?;
        shelves.push(shelf)?;
    }
    Ok(shelves)
}

/// The connections of a port, as they are asked for, and what is said when serving begins.
fn arriving<R: Clone>(
    rt: &R,
    alloc: Global,
    port: Port,
    serving: Serving,
    started: String,
) -> Result<Arriving<R>, Fault> {
    let log = if serving.log {
        Some(Arc::new(alloc, Log::new(alloc))?)
    } else {
        None
    };
    let wait = serving.timeout.saturating_mul(1000);
    let own = rt.clone()?;
    Ok(Arriving::new(own, alloc, port, connections(serving), wait, log, started))
}

/// Tells how many connections were served.
fn tell_served<R: Eprint>(rt: &R, alloc: Global, all: Served) -> Result<(), Fault> {
    let ended = served(alloc, all.connections)?;
    let _ = rt.eprint(ended.as_str());
    Ok(())
}

/// Serves an archive on a port, with a worker for each shelf, and tells when it begins and ends.
pub(crate) fn serve<R, S: Shelf, K: Keeper<S>, P: Shelf, F: Shelf + Drop + Send>(
    rt: &R,
    alloc: Global,
    port: Port,
    desk: &mut Desk<S, K, P>,
    shelves: Vec<F>,
    serving: Serving,
) -> Result<(), Fault>
where
    R: Input + Print + Eprint + Clock + Clone + Drop + Threads + Wait + Send + Sync + 'static,
{
    let images = desk.archive.list().len();
    let started = listening(alloc, images, port.number, serving.unserved)?;
    let arriving = arriving(rt, alloc, port, serving, started)?;
    let all = jk_serve::serve_port(rt, alloc, desk, shelves, &arriving)?;
    tell_served(rt, alloc, all)?;
    match serving.left_out {
        Some(fault) => Err(fault),
        None => Ok(()),
    }
}

/// Standard input, of which nothing is held between two reads.
#[derive(Drop)]
pub(crate) struct Lines<'r, R> {
    pub(crate) rt: &'r R,
}

impl<'r, R: Input> Read for Lines<'r, R> {
    fn read(&mut self, buf: &mut [u8]) -> io::Result<usize> {
        self.rt.reader().read(buf)
    }
}

/// The same while the files of the archive are opened, and another thread follows the lines of an
/// input and answers them.
pub(crate) fn serve_opening<
    R,
    S: Shelf + Drop,
    K: Keeper<S> + Drop,
    P: Shelf + Drop + Send,
    F: Shelf + Drop + Send,
    N: Finder + Drop,
    I: Read + Drop + Send,
    O: Write + Drop + Send,
>(
    rt: &R,
    alloc: Global,
    asked: (Port, Serving),
    desk: Desk<S, K, P>,
    files: Opening<N>,
    shelves: Vec<F>,
    streams: (I, O),
) -> Result<(), Fault>
where
    R: Eprint + Clock + Clone + Drop + Threads + Wait + Send + Sync + 'static,
{
    let (port, serving) = asked;
    let started = opening(alloc, files.names.len(), port.number, serving.unserved)?;
    let arriving = arriving(rt, alloc, port, serving, started)?;
    let all = jk_serve::serve_opening(rt, alloc, desk, files, shelves, &arriving, streams)?;
    tell_served(rt, alloc, all)
}
