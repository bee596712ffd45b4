//! What the tests share: a catalogue of images of one grey sample of 128, and the calls that they
//! make and count on, without their contracts: where one is refused, the test ends there, and who
//! calls it has no other way to go on.

ghost use Rattle.std.specs.Prelude.{◌≡◌, ◌<◌, List, All, vec_len};
ghost use Rattle.jk_store.specs.declared.entry.Entry.{Entry};
ghost use Rattle.jk_hall.specs.Writing.{hall_of};
ghost use Rattle.jk_hall.specs.Reading.{Opens, hall_of_reader};

use jk_hall::{Hall, Nobody, Reader, Source, Writer, serve_all};
use jk_jobs::Gate;
use jk_math::Fault;
use jk_store::{Archive, Entry, MemoryShelf, Shelf};
use jk_web::{End, Octets, Reply, Request};
use std::alloc::Global;
use std::fmt::Debug;
use std::process::Abort;
use std::sync::{Arc, Wait};
use std::thread::Threads;
use vectors::{Pieces, bytes_of};

/// The JP2 file of one grey sample, 128, without levels, as a hexadecimal text.
pub(crate) static PAGE: &str =
    "0000000C 6A502020 0D0A870A 00000014 66747970 6A703220 00000000 6A703220 0000002D 6A703268 00000016 69686472 00000001 00000001 0001 07 07 00 00 0000000F 636F6C72 01 00 00 00000011 0000005A 6A703263 FF4F FF51 0029 0000 00000001 00000001 00000000 00000000 00000001 00000001 00000000 00000000 0001 07 01 01 FF52 000C 00 00 0001 00 00 04 04 00 01 FF5C 0004 40 40 FF90 000A 0000 0000000F 00 01 FF93 00 FFD9";

/// Two values are equal.
pub(crate) fn equal<T: PartialEq + Debug + Copy>(rt: &impl Abort, found: T, due: T) {
    vectors::equal(found, due).expect(rt, "equal values");
}

/// Two values are equal, in this case of several.
pub(crate) fn equal_at<C: Debug + Copy, T: PartialEq + Debug + Copy>(
    rt: &impl Abort,
    case: C,
    found: T,
    due: T,
) {
    vectors::equal_at(case, found, due).expect(rt, "equal values");
}

/// The file of one grey sample.
pub(crate) fn page(rt: &impl Abort, alloc: Global) -> Vec<u8> {
    bytes_of(alloc, &[PAGE]).expect(rt, "a file")
}

/// Adds bytes.
pub(crate) fn put(rt: &impl Abort, out: &mut Vec<u8>, more: &[u8]) {
    out.extend_from_slice(more).expect(rt, "more bytes");
}

/// Writes a file.
pub(crate) fn write(
    rt: &impl Abort,
    shelf: &mut MemoryShelf,
    alloc: Global,
    name: &str,
    bytes: &[u8],
) {
    shelf.write(alloc, name, bytes).expect(rt, "a file");
}

/// A shelf in memory on which images of these names have the file of one grey sample.
pub(crate) fn page_shelf(rt: &impl Abort, alloc: Global, names: &[&str]) -> MemoryShelf {
    let mut shelf = MemoryShelf::new(alloc);
    let page = page(rt, alloc);
    for name in names {
        let file = format!(in alloc; "{name}.jp2").expect(rt, "a name");
        write(rt, &mut shelf, alloc, file.as_str(), &page);
    }
    shelf
}

/// A shelf in memory with the images `a` and `b`.
pub(crate) fn shelf(rt: &impl Abort, alloc: Global) -> MemoryShelf {
    page_shelf(rt, alloc, &["a", "b"])
}

/// So many shelves with these images.
pub(crate) fn shelves(
    rt: &impl Abort,
    alloc: Global,
    count: usize,
    names: &[&str],
) -> Vec<MemoryShelf>
    ensures { vec_len result ≡ count }
{
    let mut all = Vec::new(alloc);
    for _ in 0..count {
        all.push(page_shelf(rt, alloc, names))
            .expect(rt, "a shelf more");
    }
    all
}

/// The entries of images of these names, in order.
pub(crate) fn page_entries(rt: &impl Abort, alloc: Global, names: &[&str]) -> Vec<Arc<Entry>> {
    let archive = Archive::open(alloc, page_shelf(rt, alloc, names)).expect(rt, "an archive");
    let mut all = Vec::new(alloc);
    for entry in archive.list() {
        all.push(another(rt, entry)).expect(rt, "an entry more");
    }
    all
}

/// An entry once more.
pub(crate) fn another(rt: &impl Abort, entry: &Arc<Entry>) -> Arc<Entry> {
    Arc::try_clone(entry).expect(rt, "an entry")
}

/// A hall of so many readers in which images of these names are listed.
pub(crate) fn opened<R: Wait + Abort>(
    rt: &R,
    alloc: Global,
    workers: usize,
    names: &[&str],
) -> (Writer, Vec<Reader>)
    ensures count { vec_len result.1 ≡ workers }
    ensures readers { (list : List Entry) × All (Opens (hall_of result.0) list) result.1.items }
{
    let listed = page_entries(rt, alloc, names);
    Hall::new(rt, alloc, workers, listed).expect(rt, "a hall")
}

/// The entry of `b`.
pub(crate) fn entry_of_b(rt: &impl Abort, alloc: Global) -> Arc<Entry> {
    page_entries(rt, alloc, &["b"]).pop().expect(rt, "an entry")
}

/// The same of one reader.
pub(crate) fn opened_for_one<R: Wait + Abort>(
    rt: &R,
    alloc: Global,
    names: &[&str],
) -> (Writer, Reader) {
    let (writer, mut readers) = opened(rt, alloc, 1, names);
    (writer, readers.pop().expect(rt, "a reader"))
}

/// Why a reader's connection ends, in at most so many reads.
pub(crate) fn attend<S: Shelf>(
    rt: &impl Abort,
    alloc: Global,
    reader: &mut Reader,
    files: &mut S,
    input: &mut Pieces,
    output: &mut Vec<u8>,
    turns: u64,
) -> End {
    reader
        .attend(alloc, files, input, output, &Nobody, turns)
        .expect(rt, "a connection")
}

/// What a reader replies where this is asked. It stays one of its hall.
pub(crate) fn replied(
    rt: &impl Abort,
    alloc: Global,
    reader: &mut Reader,
    files: &mut MemoryShelf,
    target: &[u8],
) -> Reply
    ensures { hall_of_reader reader.new ≡ hall_of_reader reader.old }
{
    let request = get(rt, alloc, target);
    reader.serve(alloc, files, &request).expect(rt, "a reply")
}

/// Why an entry isn't published, where it isn't. The writer stays that of its hall.
pub(crate) fn refusal<R: Wait>(rt: &R, writer: &mut Writer, entry: Arc<Entry>) -> Option<Fault>
    ensures { hall_of writer.new ≡ hall_of writer.old }
{
    writer.publish(rt, entry).err()
}

/// Publishes what waits.
pub(crate) fn settle<R: Wait + Abort>(rt: &R, writer: &mut Writer) {
    writer.settle(rt).expect(rt, "what waits");
}

/// How many connections of a source end, to which these readers attend, each with a shelf that has
/// these images.
pub(crate) fn served<R, G, C>(
    rt: &R,
    alloc: Global,
    readers: Vec<Reader>,
    names: &[&str],
    gate: &G,
    source: &C,
) -> Result<u64, Fault>
where
    R: Threads + Wait + Sync + Abort,
    G: Gate + Sync,
    C: Source + Sync,
    requires { 0 < vec_len readers }
{
    let files = shelves(rt, alloc, readers.len(), names);
    serve_all(rt, alloc, readers, files, gate, source)
}

/// The same of so many readers of a hall in which `a` is listed, with shelves that have `a` and `b`.
pub(crate) fn served_anew<R, G, C>(
    rt: &R,
    alloc: Global,
    workers: usize,
    gate: &G,
    source: &C,
) -> Result<u64, Fault>
where
    R: Threads + Wait + Sync + Abort,
    G: Gate + Sync,
    C: Source + Sync,
    requires { 0 < workers }
{
    let (writer, readers) = opened(rt, alloc, workers, &["a"]);
    let ended = served(rt, alloc, readers, &["a", "b"], gate, source);
    writer.close(rt);
    ended
}

/// A request for this target.
fn get(rt: &impl Abort, alloc: Global, target: &[u8]) -> Request {
    let mut method = Vec::new(alloc);
    let mut path = Vec::new(alloc);
    put(rt, &mut method, b"GET");
    put(rt, &mut path, target);
    Request {
        method: Octets::new(method),
        target: Octets::new(path),
        closes: false,
    }
}
