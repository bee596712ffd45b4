//! The windows that a reader keeps, from connection to connection.

use crate::calls::{attend, equal, opened_for_one, page, put, shelf};
use crate::counted::Counted;
use jk_hall::Reader;
use jk_web::End;
use std::alloc::Global;
use std::process::Abort;
use vectors::Pieces;

/// Requests for windows of these widths. Those that pass the edge of the one sample are windows of
/// their own, whose file is the image's.
fn requests(rt: &impl Abort, alloc: Global, widths: &[u32]) -> Vec<u8> {
    let mut text = Vec::new(alloc);
    for width in widths {
        let request = format!(in alloc;
            "GET /images/a/window?x=0&y=0&w={width}&h=1 HTTP/1.1\r\n\r\n"
        ).expect(rt, "a request");
        put(rt, &mut text, request.as_bytes());
    }
    text
}

/// So many replies with the file of one sample.
fn replies(rt: &impl Abort, alloc: Global, count: usize) -> Vec<u8> {
    let page = page(rt, alloc);
    let mut text = Vec::new(alloc);
    for _ in 0..count {
        put(
            rt,
            &mut text,
            b"HTTP/1.1 200 OK\r\nContent-Type: image/jp2\r\nContent-Length: 167\r\n\r\n",
        );
        put(rt, &mut text, &page);
    }
    text
}

/// How often a shelf has been read behind a connection that asks a reader for windows of these
/// widths, each of which is replied.
fn read_for(
    rt: &impl Abort,
    alloc: Global,
    reader: &mut Reader,
    files: &mut Counted,
    widths: &[u32],
) -> u64 {
    let mut input = Pieces::new(requests(rt, alloc, widths), 1000, false);
    let mut output = Vec::new(alloc);
    let end = attend(rt, alloc, reader, files, &mut input, &mut output, 1000);
    let due = replies(rt, alloc, widths.len());
    equal(rt, end, End::Closed);
    equal(rt, output.as_slice(), due.as_slice());
    files.reads
}

/// The widths of sixteen windows, each twice.
static TWICE: [u32; 32] = [
    1, 2, 3, 4, 5, 6, 7, 8, 9, 10, 11, 12, 13, 14, 15, 16, 1, 2, 3, 4, 5, 6, 7, 8, 9, 10, 11, 12,
    13, 14, 15, 16,
];

/// How often the shelf has been read behind each of five connections to one reader.
fn read_in_turn(rt: &impl Abort, alloc: Global, reader: &mut Reader) -> [u64; 5] {
    let mut files = Counted::new(shelf(rt, alloc));
    [
        read_for(rt, alloc, reader, &mut files, &TWICE),
        read_for(rt, alloc, reader, &mut files, &TWICE),
        read_for(rt, alloc, reader, &mut files, &[17]),
        read_for(rt, alloc, reader, &mut files, &[17, 2, 16]),
        read_for(rt, alloc, reader, &mut files, &[1, 4, 3]),
    ]
}

/// Sixteen windows are read once each, on one connection and the next. The seventeenth takes the
/// place of the one that was asked for first, and that one, asked for again, the place of the next.
#[test]
fn sixteen_windows_are_kept(rt: HostRuntime) {
    let (writer, mut reader) = opened_for_one(&rt, rt.alloc(), &["a"]);
    let read = read_in_turn(&rt, rt.alloc(), &mut reader);
    writer.close(&rt);
    equal(&rt, read, [16, 16, 17, 17, 19]);
}
