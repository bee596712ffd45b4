//! Serving an archive over sockets while its files are opened.

ghost use Rattle.std.specs.Prelude.{◌≡◌, ◌<◌, vec_len};
ghost use Rattle.std.specs.Thread.{IsSync, IsSend};

use crate::desk::{Desk, Keeper};
use crate::distant_desk::DistantDesk;
use crate::finder::Finder;
use crate::noticing::Noticing;
use crate::opener::{Opener, Opening};
use crate::operating::follow_all;
use crate::owner::Owner;
use crate::post::{Post, Request};
use crate::serving::{Served, end_log, serve_from_start, start_log};
use crate::table::{Table, entries};
use jk_hall::{Hall, Reader, Source, Start};
use jk_math::Fault;
use jk_port::Arriving;
use jk_store::Shelf;
use std::alloc::Global;
use std::io::{Read, Write};
use std::sync::Wait;
use std::thread;
use std::thread::Threads;
use std::time::Clock;

/// Who adds images: what reads the files that are added, where the lines come from, and where they
/// are answered.
#[derive(Drop)]
struct Operator<P, I, O> {
    paths: P,
    input: I,
    output: O,
}

/// Has what waits published.
fn settle<R: Wait>(rt: &R, post: &Post) -> Result<(), Fault> {
    post.ask(rt, Request::Settle)?;
    Ok(())
}

/// Follows the operator's lines, and answers them. Where that ends before the input does, it is
/// told.
fn operate_there<R: Wait + Clock + Eprint, P: Shelf + Drop, I: Read + Drop, O: Write + Drop>(
    rt: &R,
    alloc: Global,
    post: &Post,
    operator: Operator<P, I, O>,
) -> Result<(), Fault> {
    let Operator {
        paths,
        mut input,
        mut output,
    } = operator;
    let mut desk = DistantDesk {
        clock: rt,
        post,
        paths,
    };
    let mut followed = follow_all(rt, alloc, &mut desk, &mut (), &mut input, &mut output);
    if followed.is_ok() {
        followed = settle(rt, post);
    }
    post.end_lines(rt);
    if let Err(fault) = &followed {
        let _ = eprintln!(rt; "jk: no more images are added: {fault}");
    }
    followed
}

/// Follows the operator's lines once connections are attended to.
fn operate_from_start<R: Wait + Clock + Eprint, P: Shelf + Drop, I: Read + Drop, O: Write + Drop>(
    rt: &R,
    alloc: Global,
    post: &Post,
    operator: Operator<P, I, O>,
    start: &Start,
) -> Result<(), Fault> {
    if start.wait(rt) {
        return operate_there(rt, alloc, post, operator);
    }
    Ok(())
}

/// Attends to connections of which it is noticed what isn't found.
fn serve_noticing<R: Threads + Wait + Sync, F: Shelf + Drop + Send, C: Source + Sync>(
    rt: &R,
    alloc: Global,
    post: &Post,
    workers: (Vec<Reader>, Vec<F>),
    source: &C,
    start: &Start,
) -> Result<u64, Fault>
    requires { (0 < vec_len workers.0) × (vec_len workers.0 ≡ vec_len workers.1) }
{
    let noticing = Noticing { source, post };
    let served = serve_from_start(rt, alloc, workers, &noticing, start);
    post.end_serving(rt);
    served
}

/// Opens the files that wait, and does what the operator asks, until the lines have ended, once
/// connections are attended to. Where the opening is given up, it is told.
fn own<R: Wait + Clock + Eprint, S: Shelf, K: Keeper<S>, N: Finder + Drop>(
    rt: &R,
    alloc: Global,
    post: &Post,
    owner: &mut Owner<S, K>,
    opening: Opening<N>,
    start: &Start,
) -> Result<(), Fault> {
    if !start.wait(rt) {
        return Ok(());
    }
    let opened = match Opener::new(rt, alloc, opening) {
        Ok(mut opener) => opener.run(rt, owner, post),
        Err(fault) => Err(fault),
    };
    if let Err(fault) = &opened {
        let _ = eprintln!(rt; "jk: not all files of the folder are listed: {fault}");
    }
    owner.follow_all(rt, alloc, post);
    opened
}

/// How what goes on while an archive is served has ended.
#[derive(Drop)]
pub struct Ends {
    /// How many connections were attended to.
    pub served: Result<u64, Fault>,
    /// Shelf: what stands under a name couldn't be opened as a file, or a file couldn't be read.
    /// Limit: there are more images than 4,096. Memory: it was refused.
    pub opened: Result<(), Fault>,
    /// As of `operate`.
    pub operated: Result<(), Fault>,
}

/// The ends where a thread can't be had.
fn not_begun() -> Ends {
    Ends {
        served: Err(Fault::WorkerFailed),
        opened: Ok(()),
        operated: Ok(()),
    }
}

/// Has an archive, while in another thread connections are attended to, and in a third one the
/// operator's lines are followed.
fn meanwhile<
    R: Threads + Wait + Clock + Eprint + Sync,
    S: Shelf,
    K: Keeper<S>,
    P: Shelf + Drop + Send,
    F: Shelf + Drop + Send,
    N: Finder + Drop,
    C: Source + Sync,
    I: Read + Drop + Send,
    O: Write + Drop + Send,
>(
    rt: &R,
    alloc: Global,
    owner: &mut Owner<S, K>,
    opening: Opening<N>,
    operator: Operator<P, I, O>,
    workers: (Vec<Reader>, Vec<F>),
    source: &C,
) -> Ends
    requires { (0 < vec_len workers.0) × (vec_len workers.0 ≡ vec_len workers.1) }
{
    let (kept, due) = (Post::new(alloc), Start::due());
    let (post, start) = (&kept, &due);
    thread::scope(
        thread::scope_env(),
        rt,
        move |scope| -> Ends
            requires { IsSync R.row × IsSync C.row × IsSend P.row × IsSend F.row × IsSend I.row × IsSend O.row
                × (0 < vec_len workers.0) × (vec_len workers.0 ≡ vec_len workers.1) }
        {
            let operating = scope.spawn(move || operate_from_start(
                rt, alloc, post, operator, start,
            ));
            let Ok(operating) = operating else {
                return not_begun();
            };
            let serving = scope.spawn(
                move || -> Result<u64, Fault>
                    requires { IsSync R.row × IsSync C.row × IsSend F.row × (0 < vec_len workers.0)
                        × (vec_len workers.0 ≡ vec_len workers.1) }
                { serve_noticing(rt, alloc, post, workers, source, start) },
            );
            let Ok(serving) = serving else {
                start.give_up(rt);
                return not_begun();
            };
            let opened = own(rt, alloc, post, owner, opening, start);
            Ends {
                served: serving.join(rt),
                opened,
                operated: operating.join(rt),
            }
        },
    )
}

/// Serves an archive to the connections of a source, with a worker for each of the shelves, while
/// files of its folder are opened, listed and published (`Opening`), and the lines of an operator
/// are followed, as by `operate`. It ends when no more connections come and the lines have ended;
/// then no more files are opened.
///
/// BadParameters: other than 1 to 64 shelves. WorkerFailed: a worker can't have its place. At the end
/// of serving it is WorkerFailed where a thread can't be had: then nothing has begun.
pub fn serve_meanwhile<
    R: Threads + Wait + Clock + Eprint + Sync,
    S: Shelf + Drop,
    K: Keeper<S> + Drop,
    P: Shelf + Drop + Send,
    F: Shelf + Drop + Send,
    N: Finder + Drop,
    C: Source + Sync,
    I: Read + Drop + Send,
    O: Write + Drop + Send,
>(
    rt: &R,
    alloc: Global,
    desk: Desk<S, K, P>,
    opening: Opening<N>,
    shelves: Vec<F>,
    source: &C,
    streams: (I, O),
) -> Result<Ends, Fault> {
    if shelves.is_empty() {
        return Err(Fault::BadParameters);
    }
    let Desk {
        archive,
        keeper,
        paths,
    } = desk;
    let (input, output) = streams;
    let listed = entries(alloc, &archive)?;
    let (writer, readers) = Hall::new(rt, alloc, shelves.len(), listed)?;
    let operator = Operator {
        paths,
        input,
        output,
    };
    let mut owner = Owner {
        table: Table::new(archive, writer),
        keeper,
    };
    let ends = meanwhile(
        rt,
        alloc,
        &mut owner,
        opening,
        operator,
        (readers, shelves),
        source,
    );
    let Owner {
        table,
        keeper: _keeper,
    } = owner;
    table.into_writer().close(rt);
    Ok(ends)
}

/// Serves the images of an archive on a port while files of its folder are opened, until so many
/// connections have come and the operator's lines have ended, which are followed meanwhile
/// (`serve_meanwhile`).
///
/// Else as `serve_port`. The first of these faults at the end: of serving, of opening, of the
/// operator.
pub fn serve_opening<
    R,
    S: Shelf + Drop,
    K: Keeper<S> + Drop,
    P: Shelf + Drop + Send,
    F: Shelf + Drop + Send,
    N: Finder + Drop,
    I: Read + Drop + Send,
    O: Write + Drop + Send,
>(
    rt: &R,
    alloc: Global,
    desk: Desk<S, K, P>,
    opening: Opening<N>,
    shelves: Vec<F>,
    source: &Arriving<R>,
    streams: (I, O),
) -> Result<Served, Fault>
where
    R: Threads + Wait + Clock + Eprint + Clone + Drop + Send + Sync + 'static,
{
    let writing = start_log(rt, alloc, source);
    let ends = serve_meanwhile(rt, alloc, desk, opening, shelves, source, streams);
    source.end();
    end_log(rt, source, writing);
    let Ends {
        served,
        opened,
        operated,
    } = ends?;
    let connections = served?;
    opened?;
    operated?;
    Ok(Served { connections })
}
