//! Files that are opened while they are served.

use crate::calls::{PAGE, equal, page_shelf, put, write};
use crate::streams::{Stream, Streams, wait_for};
use jk_hall::{Connection, Nobody, Source};
use jk_math::Fault;
use jk_serve::{Desk, Ends, Finder, Keeper, Opening, Stamp, serve_meanwhile};
use jk_store::{Archive, Images, MemoryShelf, Prepared, Shelf};
use jk_web::End;
use std::alloc::Global;
use std::io::{self, Read};
use std::process::Abort;
use std::sync::atomic::{AtomicUsize, Ordering};
use std::sync::{Mutex, Wait};
use std::thread::Threads;
use std::time::Clock;
use vectors::bytes_of;

/// The PGM file of one grey sample, 128.
static GREY: &[u8] = b"P5\n1 1\n255\n\x80";

/// The JP2 file of one grey sample with 11 levels, one more than jk takes, as a hexadecimal text.
static DEEP: &str =
    "0000000C 6A502020 0D0A870A 00000014 66747970 6A703220 00000000 6A703220 0000002D 6A703268 00000016 69686472 00000001 00000001 0001 07 07 00 00 0000000F 636F6C72 01 00 00 00000011 00000086 6A703263 FF4F FF51 0029 0000 00000001 00000001 00000000 00000000 00000001 00000001 00000000 00000000 0001 07 01 01 FF52 000C 00 00 0001 00 0B 04 04 00 01 FF5C 0025 40 40404040 40404040 40404040 40404040 40404040 40404040 40404040 40404040 4040 FF90 000A 0000 0000001A 00 01 FF93 00000000 00000000 00000000 FFD9";

/// What is seen of the opening.
#[derive(Drop)]
struct Seen {
    // How many reads have begun, and whether they may go on.
    reads: AtomicUsize,
    open: AtomicUsize,
    // How often the folder was listed again, and whether all files were opened.
    lists: AtomicUsize,
    opened: AtomicUsize,
    told: Mutex<Vec<u8>>,
}

impl Seen {
    fn new(alloc: Global, open: usize) -> Seen {
        Seen {
            reads: AtomicUsize::new(0),
            open: AtomicUsize::new(open),
            lists: AtomicUsize::new(0),
            opened: AtomicUsize::new(0),
            told: Mutex::new(Vec::new(alloc)),
        }
    }

    /// Keeps a line.
    fn tell<R: Wait>(&self, rt: &R, line: &str) {
        let mut told = self.told.lock(rt);
        let _ = told.extend_from_slice(line.as_bytes());
    }
}

/// After how many listings the file of the image `late` becomes one.
const CHANGE: usize = 20;

/// The names of images.
fn names_of(alloc: Global, names: &[&str]) -> Result<Vec<String>, Fault> {
    let mut all = Vec::new(alloc);
    for name in names {
        all.push(String::from_str(alloc, name)?)?;
    }
    Ok(all)
}

/// Writes the file of one grey sample.
fn put_page(files: &mut MemoryShelf, alloc: Global, name: &str) -> Result<(), Fault> {
    let page = bytes_of(alloc, &[PAGE])?;
    files.write(alloc, name, &page)
}

/// A folder in memory, to which files come meanwhile.
#[derive(Drop)]
struct Found<'a, R> {
    rt: &'a R,
    alloc: Global,
    files: MemoryShelf,
    // The names of the images there each time when it is listed again; the last from then on.
    lists: &'static [&'static [&'static str]],
    seen: &'a Seen,
}

impl<'a, R: Wait> Finder for Found<'a, R> {
    fn names(&mut self, alloc: Global) -> Result<Vec<String>, Fault> {
        let number = self.seen.lists.fetch_add(1, Ordering::SeqCst);
        if number == CHANGE {
            put_page(&mut self.files, alloc, "late.jp2")?;
        }
        let last = self.lists.len().saturating_sub(1);
        match self.lists.get(number.min(last)) {
            Some(list) => names_of(alloc, list),
            None => Ok(Vec::new(alloc)),
        }
    }

    fn stamp(&mut self, _alloc: Global, name: &str) -> Option<Stamp> {
        let is_changed = CHANGE < self.seen.lists.load(Ordering::SeqCst);
        let seconds = if name == "late" && is_changed { 1 } else { 0 };
        Some(Stamp {
            length: 167,
            seconds,
            nanos: 0,
            changed: 0,
            changed_nanos: 0,
        })
    }

    fn read(&mut self, alloc: Global, name: &str) -> Result<Prepared, Fault> {
        self.seen.reads.fetch_add(1, Ordering::SeqCst);
        wait_for(&self.seen.open);
        Prepared::read(alloc, &mut self.files, name)
    }

    fn tell(&mut self, name: &str, fault: Fault) {
        if let Ok(line) = format!(in self.alloc; "{name} {fault}\n") {
            self.seen.tell(self.rt, line.as_str());
        }
    }

    fn tell_unlisted(&mut self, fault: Fault) {
        self.tell("", fault);
    }

    fn tell_full(&mut self, name: &str, _more: usize) {
        self.tell(name, Fault::Limit);
    }

    fn tell_opened(&mut self, _images: usize) {
        self.seen.opened.store(1, Ordering::SeqCst);
    }
}

/// Who keeps a folder that nobody else adds to.
#[derive(Drop)]
struct Alone;

impl Keeper<MemoryShelf> for Alone {
    fn lock(&mut self, _alloc: Global) -> Result<(), Fault> {
        Ok(())
    }

    fn try_lock(&mut self, _alloc: Global) -> Result<bool, Fault> {
        Ok(true)
    }

    fn tell_waiting(&self) {}

    fn release(&mut self) {}

    fn has_other(&self, _shelf: &MemoryShelf, _name: &str) -> bool {
        false
    }
}

/// Connections, of which the first comes when a read has begun, and lets the reads go on when it has
/// ended, and the others come when all files are opened, and the folder was listed so often.
#[derive(Drop)]
struct Clients<'a> {
    streams: Streams,
    seen: &'a Seen,
    lists: usize,
}

impl<'a> Source for Clients<'a> {
    type In = Stream;

    type Out = Vec<u8>;

    type Told = Nobody;

    fn take(&self) -> Option<Connection<Stream, Vec<u8>, Nobody>> {
        if self.streams.taken.load(Ordering::SeqCst) == 0 {
            wait_for(&self.seen.reads);
        } else {
            wait_for(&self.seen.opened);
            for _ in 0..crate::streams::TURNS {
                if self.lists <= self.seen.lists.load(Ordering::SeqCst) {
                    break;
                }
                std::thread::yield_now();
            }
        }
        self.streams.take()
    }

    fn ended(&self, connection: Connection<Stream, Vec<u8>, Nobody>, end: Option<End>) {
        self.streams.ended(connection, end);
        self.seen.open.store(1, Ordering::SeqCst);
    }
}

/// A desk at an archive of which no file is opened, whose shelf has the files of these names.
fn desk(rt: &impl Abort, alloc: Global, names: &[&str]) -> Desk<MemoryShelf, Alone, MemoryShelf> {
    let mut paths = MemoryShelf::new(alloc);
    write(rt, &mut paths, alloc, "p", GREY);
    let images = Images::none(alloc);
    Desk {
        archive: Archive::with(page_shelf(rt, alloc, names), images),
        keeper: Alone,
        paths,
    }
}

/// The images of which files stand in the folder at first, in another order than that of names; one
/// of them isn't an image's, one has more levels than jk takes, and one can't be read.
static FIRST: [&str; 6] = ["b", "h", "a", "bad", "deep", "none"];

/// The files that are opened.
fn files(rt: &impl Abort, alloc: Global) -> MemoryShelf {
    let mut files = page_shelf(rt, alloc, &["a", "b", "h", "new", "z"]);
    write(rt, &mut files, alloc, "bad.jp2", GREY);
    let deep = bytes_of(alloc, &[DEEP]).expect(rt, "a file");
    write(rt, &mut files, alloc, "deep.jp2", &deep);
    write(rt, &mut files, alloc, "late.jp2", GREY);
    files
}

/// What is opened: the files of the first images, and then what is listed.
fn opening<'a, R: Wait + Abort>(
    rt: &'a R,
    alloc: Global,
    seen: &'a Seen,
    watch: Option<u32>,
    lists: &'static [&'static [&'static str]],
) -> Opening<Found<'a, R>> {
    Opening {
        finder: Found {
            rt,
            alloc,
            files: files(rt, alloc),
            lists,
            seen,
        },
        names: names_of(alloc, &FIRST).expect(rt, "names"),
        passed: names_of(alloc, &["pipe"]).expect(rt, "names"),
        watch,
    }
}

/// One shelf with the files of these images.
fn one_shelf(rt: &impl Abort, alloc: Global, names: &[&str]) -> Vec<MemoryShelf> {
    let mut all = Vec::new(alloc);
    all.push(page_shelf(rt, alloc, names)).expect(rt, "a shelf");
    all
}

/// What is answered where clients are served while files are opened, and lines are followed; and how
/// each of them ends.
fn ends<'a, R: Threads + Wait + Clock + Eprint + Sync + Abort>(
    rt: &R,
    alloc: Global,
    opening: Opening<Found<'a, R>>,
    clients: &Clients<'a>,
    lines: &[u8],
) -> (Vec<u8>, Ends) {
    let shelves = one_shelf(rt, alloc, &["a", "b", "h", "new", "late"]);
    let desk = desk(rt, alloc, &FIRST);
    let mut output = Vec::new(alloc);
    let streams = (lines, &mut output);
    let ends = serve_meanwhile(rt, alloc, desk, opening, shelves, clients, streams);
    let ends = ends.expect(rt, "its ends");
    (output, ends)
}

/// The lines of a text in the order of their bytes, each behind a line's end.
fn sorted(rt: &impl Abort, alloc: Global, text: &[u8]) -> Vec<u8> {
    let mut lines = Vec::new(alloc);
    for line in text.split(|byte| *byte == b'\n') {
        lines.push(line).expect(rt, "a line");
    }
    lines.sort().expect(rt, "lines");
    let mut all = Vec::new(alloc);
    for line in &lines {
        put(rt, &mut all, line);
        put(rt, &mut all, b"\n");
    }
    all
}

/// Both connections are served, and a file can't be read.
fn are_served(rt: &impl Abort, ends: &Ends, clients: &Clients) {
    equal(
        rt,
        (ends.served, ends.operated, ends.opened),
        (Ok(2), Ok(()), Err(Fault::Shelf)),
    );
    equal(rt, clients.streams.counts(), (2, 0));
}

/// These lines are told, and no other.
fn tells<R: Wait + Abort>(rt: &R, alloc: Global, seen: &Seen, due: &[u8]) {
    let told = seen.told.lock(rt);
    let lines = sorted(rt, alloc, told.as_slice());
    equal(rt, lines.as_slice(), due);
}

/// The replies of a connection that asks for an image that waits, and of one that asks for the list
/// when all files are opened: what was asked for is behind the file that was being read.
static ASKED: [(&[u8], &[u8]); 2] = [
    (
        b"GET /images/h HTTP/1.1\r\n\r\n",
        b"HTTP/1.1 404 Not Found\r\nContent-Type: text/plain\r\nContent-Length: 14\r\n\r\n404 Not Found\n",
    ),
    (
        b"GET /images HTTP/1.1\r\n\r\n",
        b"HTTP/1.1 200 OK\r\nContent-Type: text/plain\r\nContent-Length: 36\r\n\r\na 1 1 1 8 0\nh 1 1 1 8 0\nb 1 1 1 8 0\n",
    ),
];

/// What is asked for and waits is 404 and opened next. A file that isn't an image's is told, and so
/// are one that jk doesn't take and one that can't be read, which is the status; the others are
/// served. An image whose file waits isn't added.
#[test]
fn what_is_asked_for_is_next(rt: HostRuntime) {
    let alloc = rt.alloc();
    let seen = Seen::new(alloc, 0);
    let clients = Clients {
        streams: Streams::new(alloc, &ASKED, 1),
        seen: &seen,
        lists: 0,
    };
    let files = opening(&rt, alloc, &seen, None, LISTS);
    let (output, ends) = ends(&rt, alloc, files, &clients, b"add h p\nadd a p\n");
    are_served(&rt, &ends, &clients);
    let refused: &[u8] = b"refused h F18 NameTaken\nrefused a F18 NameTaken\n";
    equal(&rt, output.as_slice(), refused);
    tells(
        &rt,
        alloc,
        &seen,
        b"\nbad F13 BadBox\ndeep F7 Limit\nnone F20 Shelf\n",
    );
}

/// The same of a folder that is watched: a connection that asks for nothing that waits, and one that
/// asks for the list when the folder was listed often.
static WATCHED: [(&[u8], &[u8]); 2] = [
    (
        b"GET /images/x HTTP/1.1\r\n\r\n",
        b"HTTP/1.1 404 Not Found\r\nContent-Type: text/plain\r\nContent-Length: 14\r\n\r\n404 Not Found\n",
    ),
    (
        b"GET /images HTTP/1.1\r\n\r\n",
        b"HTTP/1.1 200 OK\r\nContent-Type: text/plain\r\nContent-Length: 65\r\n\r\na 1 1 1 8 0\nb 1 1 1 8 0\nh 1 1 1 8 0\nnew 1 1 1 8 0\nlate 1 1 1 8 0\n",
    ),
];

/// What stands in the folder each time.
const LISTS: &[&[&str]] = &[
    &["a", "b", "h", "bad", "deep", "none", "pipe"],
    &["pipe", "new", "a", "b", "h", "bad", "deep", "none"],
    &["late", "a", "new", "b", "h", "bad", "deep", "none", "pipe"],
];

/// What comes to a folder is listed, also where there is a file that jk doesn't take; one that isn't
/// an image's is told once, and listed when it has changed.
#[test]
fn what_comes_is_listed(rt: HostRuntime) {
    let alloc = rt.alloc();
    let seen = Seen::new(alloc, 1);
    let clients = Clients {
        streams: Streams::new(alloc, &WATCHED, 1),
        seen: &seen,
        lists: 40,
    };
    let files = opening(&rt, alloc, &seen, Some(0), LISTS);
    let (output, ends) = ends(&rt, alloc, files, &clients, b"");
    are_served(&rt, &ends, &clients);
    equal(&rt, output.len(), 0);
    tells(
        &rt,
        alloc,
        &seen,
        b"\nbad F13 BadBox\ndeep F7 Limit\nlate F13 BadBox\nnone F20 Shelf\n",
    );
}

/// Lines that come once a connection has ended.
#[derive(Drop)]
struct Late<'a> {
    streams: &'a Streams,
    bytes: &'static [u8],
}

impl<'a> Read for Late<'a> {
    fn read(&mut self, buf: &mut [u8]) -> io::Result<usize> {
        wait_for(&self.streams.ended);
        let count = self.bytes.len().min(buf.len());
        for i in 0..count {
            if i < self.bytes.len() && i < buf.len() {
                buf[i] = self.bytes[i];
            }
        }
        self.bytes = b"";
        Ok(count)
    }
}

/// Connections that are served once while files are opened, the lines that come behind them, how many
/// end, and what is answered.
type Once = (
    &'static [(&'static [u8], &'static [u8])],
    &'static [u8],
    u64,
    &'static [u8],
);

/// No connection and no line, and one of each.
static NONE_AND_ONE: [Once; 2] = [
    (&[], b"", 0, b""),
    (
        &[(
            b"GET /images/x HTTP/1.1\r\n\r\n",
            b"HTTP/1.1 404 Not Found\r\nContent-Type: text/plain\r\nContent-Length: 14\r\n\r\n404 Not Found\n",
        )],
        b"add x p\n",
        1,
        b"added x\n",
    ),
];

/// It ends by itself.
fn ends_once<R>(rt: &R, alloc: Global, watch: Option<u32>, once: &Once)
where
    R: Threads + Wait + Clock + Eprint + Sync + Abort,
{
    let (cases, lines, served, answers) = *once;
    let seen = Seen::new(alloc, 1);
    let streams = Streams::new(alloc, cases, 1);
    if cases.is_empty() {
        streams.ended.store(1, Ordering::SeqCst);
    }
    let files = opening(rt, alloc, &seen, watch, LISTS);
    let late = Late {
        streams: &streams,
        bytes: lines,
    };
    let shelves = one_shelf(rt, alloc, &["a"]);
    let desk = desk(rt, alloc, &FIRST);
    let mut output = Vec::new(alloc);
    let both = (late, &mut output);
    let ends = serve_meanwhile(rt, alloc, desk, files, shelves, &streams, both);
    let ends = ends.expect(rt, "its ends");
    equal(rt, (ends.served, ends.operated), (Ok(served), Ok(())));
    equal(rt, output.as_slice(), answers);
}

/// How often each end is tried.
const TIMES: usize = 50;

/// Where no connection comes, or one, and no line or one behind it, it ends by itself, whether the
/// folder is watched or not; and what is added last is answered.
#[test]
fn each_end_comes(rt: HostRuntime) {
    for _ in 0..TIMES {
        for watch in [None, Some(0), Some(3600)] {
            for once in &NONE_AND_ONE {
                ends_once(&rt, rt.alloc(), watch, once);
            }
        }
    }
}

/// A connection that asks for 17 images that wait, each once, and one that asks for the list when all
/// files are opened, with the replies.
static SEVENTEEN: [(&[u8], &[u8]); 2] = [
    (
        b"GET /images/n04 HTTP/1.1\r\n\r\nGET /images/n05 HTTP/1.1\r\n\r\nGET /images/n06 HTTP/1.1\r\n\r\nGET /images/n07 HTTP/1.1\r\n\r\nGET /images/n08 HTTP/1.1\r\n\r\nGET /images/n09 HTTP/1.1\r\n\r\nGET /images/n10 HTTP/1.1\r\n\r\nGET /images/n11 HTTP/1.1\r\n\r\nGET /images/n12 HTTP/1.1\r\n\r\nGET /images/n13 HTTP/1.1\r\n\r\nGET /images/n14 HTTP/1.1\r\n\r\nGET /images/n15 HTTP/1.1\r\n\r\nGET /images/n16 HTTP/1.1\r\n\r\nGET /images/n17 HTTP/1.1\r\n\r\nGET /images/n18 HTTP/1.1\r\n\r\nGET /images/n19 HTTP/1.1\r\n\r\nGET /images/n20 HTTP/1.1\r\n\r\n",
        b"HTTP/1.1 404 Not Found\r\nContent-Type: text/plain\r\nContent-Length: 14\r\n\r\n404 Not Found\nHTTP/1.1 404 Not Found\r\nContent-Type: text/plain\r\nContent-Length: 14\r\n\r\n404 Not Found\nHTTP/1.1 404 Not Found\r\nContent-Type: text/plain\r\nContent-Length: 14\r\n\r\n404 Not Found\nHTTP/1.1 404 Not Found\r\nContent-Type: text/plain\r\nContent-Length: 14\r\n\r\n404 Not Found\nHTTP/1.1 404 Not Found\r\nContent-Type: text/plain\r\nContent-Length: 14\r\n\r\n404 Not Found\nHTTP/1.1 404 Not Found\r\nContent-Type: text/plain\r\nContent-Length: 14\r\n\r\n404 Not Found\nHTTP/1.1 404 Not Found\r\nContent-Type: text/plain\r\nContent-Length: 14\r\n\r\n404 Not Found\nHTTP/1.1 404 Not Found\r\nContent-Type: text/plain\r\nContent-Length: 14\r\n\r\n404 Not Found\nHTTP/1.1 404 Not Found\r\nContent-Type: text/plain\r\nContent-Length: 14\r\n\r\n404 Not Found\nHTTP/1.1 404 Not Found\r\nContent-Type: text/plain\r\nContent-Length: 14\r\n\r\n404 Not Found\nHTTP/1.1 404 Not Found\r\nContent-Type: text/plain\r\nContent-Length: 14\r\n\r\n404 Not Found\nHTTP/1.1 404 Not Found\r\nContent-Type: text/plain\r\nContent-Length: 14\r\n\r\n404 Not Found\nHTTP/1.1 404 Not Found\r\nContent-Type: text/plain\r\nContent-Length: 14\r\n\r\n404 Not Found\nHTTP/1.1 404 Not Found\r\nContent-Type: text/plain\r\nContent-Length: 14\r\n\r\n404 Not Found\nHTTP/1.1 404 Not Found\r\nContent-Type: text/plain\r\nContent-Length: 14\r\n\r\n404 Not Found\nHTTP/1.1 404 Not Found\r\nContent-Type: text/plain\r\nContent-Length: 14\r\n\r\n404 Not Found\nHTTP/1.1 404 Not Found\r\nContent-Type: text/plain\r\nContent-Length: 14\r\n\r\n404 Not Found\n",
    ),
    (
        b"GET /images HTTP/1.1\r\n\r\n",
        b"HTTP/1.1 200 OK\r\nContent-Type: text/plain\r\nContent-Length: 12\r\n\r\na 1 1 1 8 0\n",
    ),
];

/// The names of the images whose files are to be opened, of which none but the first can be read.
static TWENTY: [&str; 21] = [
    "a", "n01", "n02", "n03", "n04", "n05", "n06", "n07", "n08", "n09", "n10", "n11", "n12", "n13",
    "n14", "n15", "n16", "n17", "n18", "n19", "n20",
];

/// What is told of these: the last 16 that were asked for are the first, in the order in which they
/// were, and then the others in the order of their names.
static IN_ORDER: &[u8] =
    b"n05 F20 Shelf\nn06 F20 Shelf\nn07 F20 Shelf\nn08 F20 Shelf\nn09 F20 Shelf\nn10 F20 Shelf\nn11 F20 Shelf\nn12 F20 Shelf\nn13 F20 Shelf\nn14 F20 Shelf\nn15 F20 Shelf\nn16 F20 Shelf\nn17 F20 Shelf\nn18 F20 Shelf\nn19 F20 Shelf\nn20 F20 Shelf\nn01 F20 Shelf\nn02 F20 Shelf\nn03 F20 Shelf\nn04 F20 Shelf\n";

/// Of the names that are asked for the last sixteen are opened first.
#[test]
fn the_last_sixteen_are_next(rt: HostRuntime) {
    let alloc = rt.alloc();
    let seen = Seen::new(alloc, 0);
    let clients = Clients {
        streams: Streams::new(alloc, &SEVENTEEN, 1),
        seen: &seen,
        lists: 0,
    };
    let mut files = opening(&rt, alloc, &seen, None, LISTS);
    files.names = names_of(alloc, &TWENTY).expect(&rt, "names");
    let (_, ends) = ends(&rt, alloc, files, &clients, b"");
    are_served(&rt, &ends, &clients);
    let told = seen.told.lock(&rt);
    equal(&rt, told.as_slice(), IN_ORDER);
}
