//! Many connections, each attended to by one of several readers.

ghost use Rattle.std.specs.Prelude.{◌≡◌, ◌<◌, vec_len};

use crate::reader::Reader;
use crate::start::Start;
use jk_jobs::Gate;
use jk_math::Fault;
use jk_store::Shelf;
use jk_web::{Connection, End, Source, Witness};
use std::alloc::Global;
use std::io::{Read, Write};
use std::sync::atomic::{AtomicUsize, Ordering};
use std::sync::{Mutex, Wait};
use std::thread;
use std::thread::{Scope, Threads};

/// The most reads of a connection.
const TURNS: u64 = 65536;

/// Attends to a connection, and tells why it has ended, or None where a request was refused.
fn attend<S: Shelf, I: Read, O: Write, W: Witness>(
    alloc: Global,
    reader: &mut Reader,
    shelf: &mut S,
    connection: &mut Connection<I, O, W>,
) -> Option<End> {
    let Connection {
        input,
        output,
        witness,
    } = connection;
    let witness: &W = witness;
    reader
        .attend(alloc, shelf, input, output, witness, TURNS)
        .ok()
}

/// What the workers share.
#[derive(Drop)]
struct Shared<'a, G, C> {
    gate: &'a G,
    source: &'a C,
    start: Start,
    // How many connections were taken, and how many have ended.
    taken: AtomicUsize,
    ended: Mutex<u64>,
}

/// Attends to connections until no more come.
fn work<W: Wait, S: Shelf + Drop, G: Gate, C: Source>(
    rt: &W,
    alloc: Global,
    worker: (Reader, S),
    shared: &Shared<'_, G, C>,
) {
    let (mut reader, mut shelf) = worker;
    for _ in rt.forever() {
        let Some(mut connection) = shared.source.take() else {
            break;
        };
        let number = shared.taken.fetch_add(1, Ordering::SeqCst);
        shared.gate.began(number);
        let end = attend(alloc, &mut reader, &mut shelf, &mut connection);
        shared.gate.ended(number);
        shared.source.ended(connection, end);
        let mut ended = shared.ended.lock(rt);
        *ended = ended.saturating_add(1);
    }
}

/// Attends to connections once all workers are there. Where they aren't it attends to none.
fn work_from_start<W: Wait, S: Shelf + Drop, G: Gate, C: Source>(
    rt: &W,
    alloc: Global,
    worker: (Reader, S),
    shared: &Shared<'_, G, C>,
) {
    if shared.start.wait(rt) {
        work(rt, alloc, worker, shared);
    }
}

/// Each reader with a shelf.
fn paired<S: Shelf + Drop>(
    alloc: Global,
    readers: Vec<Reader>,
    shelves: Vec<S>,
) -> Result<Vec<(Reader, S)>, Fault> {
    let mut workers = Vec::with_capacity(alloc, readers.len())?;
    let mut shelves = shelves.into_iter();
    for reader in readers {
        let Some(shelf) = shelves.next() else {
            break;
        };
        workers.push((reader, shelf))?;
    }
    Ok(workers)
}

/// Starts a thread for each of the other workers, and then serves connections in this one. Returns
/// false, and no connection is taken, if a thread cannot be started.
fn start_and_work<
    's,
    E,
    R: Threads + Wait + Sync + 's,
    S: Shelf + Drop + Send + 's,
    G: Gate + Sync + 's,
    C: Source + Sync + 's,
>(
    scope: &Scope<'s, E>,
    rt: &'s R,
    alloc: Global,
    mut others: Vec<(Reader, S)>,
    own: (Reader, S),
    shared: &'s Shared<'s, G, C>,
) -> bool {
    let Some(worker) = others.pop() else {
        shared.start.begin(rt);
        work(rt, alloc, own, shared);
        return true;
    };
    if scope
        .spawn(move || work_from_start(rt, alloc, worker, shared))
        .is_err()
    {
        shared.start.give_up(rt);
        return false;
    }
    start_and_work(scope, rt, alloc, others, own, shared)
}

/// Has these workers serve connections, each in a thread of its own but for the last. Returns false,
/// and no connection is taken, if a thread cannot be started.
fn work_all<R: Threads + Wait + Sync, S: Shelf + Drop + Send, G: Gate + Sync, C: Source + Sync>(
    rt: &R,
    alloc: Global,
    workers: Vec<(Reader, S)>,
    shared: &Shared<'_, G, C>,
) -> bool {
    let mut others = workers;
    let Some(own) = others.pop() else {
        return true;
    };
    thread::scope(thread::scope_env(), rt, move |scope| -> bool {
        start_and_work(scope, rt, alloc, others, own, shared)
    })
}

/// Attends to the connections of a source until no more come, each reader to one at a time, and
/// tells how many have ended, or 2^64 - 1 where there were more. Connections are numbered from 0 as
/// they are taken. The first is taken when there is a thread for each reader but one.
///
/// WorkerFailed: a thread can't be had. Then no connection is taken.
pub fn serve_all<
    R: Threads + Wait + Sync,
    S: Shelf + Drop + Send,
    G: Gate + Sync,
    C: Source + Sync,
>(
    rt: &R,
    alloc: Global,
    readers: Vec<Reader>,
    shelves: Vec<S>,
    gate: &G,
    source: &C,
) -> Result<u64, Fault>
    requires { (0 < vec_len readers) × (vec_len readers ≡ vec_len shelves) }
{
    let workers = paired(alloc, readers, shelves)?;
    let shared = Shared {
        gate,
        source,
        start: Start::due(),
        taken: AtomicUsize::new(0),
        ended: Mutex::new(0),
    };
    if !work_all(rt, alloc, workers, &shared) {
        return Err(Fault::WorkerFailed);
    }
    let ended = shared.ended.lock(rt);
    Ok(*ended)
}
