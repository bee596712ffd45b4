//! Two readers, of which one is told what is published, and halls that open with lists of several
//! lengths.

ghost use Rattle.std.specs.Prelude.{◌≡◌, List, All};
ghost use Rattle.jk_store.specs.declared.entry.Entry.{Entry};
ghost use Rattle.jk_hall.specs.Writing.{hall_of};
ghost use Rattle.jk_hall.specs.Reading.{Opens, hall_of_reader};

use crate::calls::{
    another, entry_of_b, equal, opened, opened_for_one, page, page_shelf, put, refusal, replied,
    shelf,
};
use jk_hall::{Reader, Writer};
use jk_math::Fault;
use jk_store::MemoryShelf;
use std::alloc::Global;
use std::process::Abort;
use std::sync::Wait;

/// What is replied: the status, and whether the file of one sample ends the reply.
type Seen = (u16, bool);

/// What a reader replies where this is asked.
fn sees(
    rt: &impl Abort,
    alloc: Global,
    reader: &mut Reader,
    files: &mut MemoryShelf,
    target: &[u8],
) -> Seen
    ensures { hall_of_reader reader.new ≡ hall_of_reader reader.old }
{
    let page = page(rt, alloc);
    let reply = replied(rt, alloc, reader, files, target);
    (reply.status, reply.bytes.as_slice().ends_with(&page))
}

/// What two readers see of `b`: the first one before it is published, and where it was told of it;
/// the other, which was told nothing, behind its publishing; and what is said to its publish and to
/// its second one.
fn told<R: Wait + Abort>(
    rt: &R,
    alloc: Global,
    writer: &mut Writer,
    first: &mut Reader,
    second: &mut Reader,
) -> ([Seen; 3], [Option<Fault>; 2])
    requires { hall_of_reader first.old ≡ hall_of writer.old }
{
    let entry = entry_of_b(rt, alloc);
    let again = another(rt, &entry);
    let mut files = shelf(rt, alloc);
    let before = sees(rt, alloc, first, &mut files, b"/images/b");
    let published = refusal(rt, writer, entry);
    first.learn(writer.tell());
    let behind = sees(rt, alloc, first, &mut files, b"/images/b");
    let taken = refusal(rt, writer, again);
    let untold = sees(rt, alloc, second, &mut files, b"/images/b");
    ([before, behind, untold], [published, taken])
}

/// The last of the readers of a hall.
fn last_of(rt: &impl Abort, writer: &Writer, readers: &mut Vec<Reader>) -> Reader
    requires { (list : List Entry) × All (Opens (hall_of writer.now) list) readers.old.items }
    ensures { hall_of_reader result ≡ hall_of writer.now }
{
    readers.pop().expect(rt, "a reader")
}

#[test]
fn a_reader_that_is_told_and_one_that_is_not(rt: HostRuntime) {
    let alloc = rt.alloc();
    let (mut writer, mut readers) = opened(&rt, alloc, 2, &["a"]);
    let mut first = last_of(&rt, &writer, &mut readers);
    let mut second = readers.pop().expect(&rt, "a reader");
    let (seen, said) = told(&rt, alloc, &mut writer, &mut first, &mut second);
    writer.close(&rt);
    equal(&rt, said, [None, Some(Fault::NameTaken)]);
    equal(&rt, seen, [(404, false), (200, true), (200, true)]);
}

/// The names of images, in the order in which they are listed.
static NAMES: [&str; 5] = ["a", "b", "c", "d", "e"];

/// The lines of the first of the images.
fn lines_of(rt: &impl Abort, alloc: Global, count: usize) -> Vec<u8> {
    let mut lines = Vec::new(alloc);
    put(rt, &mut lines, b"\r\n\r\n");
    for name in &NAMES[..count.min(NAMES.len())] {
        put(rt, &mut lines, name.as_bytes());
        put(rt, &mut lines, b" 1 1 1 8 0\n");
    }
    lines
}

/// What a reader replies where an image is asked for.
fn sees_image(
    rt: &impl Abort,
    alloc: Global,
    reader: &mut Reader,
    files: &mut MemoryShelf,
    name: &str,
) -> Seen {
    let target = format!(in alloc; "/images/{name}").expect(rt, "a target");
    sees(rt, alloc, reader, files, target.as_bytes())
}

/// How many of the images a reader gives the file of, and how many it doesn't know.
fn given(rt: &impl Abort, alloc: Global, reader: &mut Reader) -> (usize, usize) {
    let mut files = page_shelf(rt, alloc, &NAMES);
    let (mut given, mut unknown) = (0usize, 0usize);
    for name in &NAMES {
        match sees_image(rt, alloc, reader, &mut files, name) {
            (200, true) => given = given.saturating_add(1),
            (404, false) => unknown = unknown.saturating_add(1),
            _ => {}
        }
    }
    (given, unknown)
}

/// Whether a reader's list is that of the first of the images.
fn lists(rt: &impl Abort, alloc: Global, reader: &mut Reader, count: usize) -> bool {
    let mut files = page_shelf(rt, alloc, &[]);
    let list = replied(rt, alloc, reader, &mut files, b"/images");
    let due = lines_of(rt, alloc, count);
    list.bytes.as_slice().ends_with(&due)
}

/// Whether the list of the reader of a hall that opens with so many images is that of these, of how
/// many it gives the file, and how many it doesn't know.
fn opened_with<R: Wait + Abort>(rt: &R, alloc: Global, count: usize) -> (bool, usize, usize) {
    let names = &NAMES[..count.min(NAMES.len())];
    let (writer, mut reader) = opened_for_one(rt, alloc, names);
    let is_listed = lists(rt, alloc, &mut reader, count);
    let (given, unknown) = given(rt, alloc, &mut reader);
    writer.close(rt);
    (is_listed, given, unknown)
}

#[test]
fn halls_that_open_with_lists(rt: HostRuntime) {
    for count in [0, 1, 2, 5] {
        let found = opened_with(&rt, rt.alloc(), count);
        equal(&rt, found, (true, count, 5usize.saturating_sub(count)));
    }
}
