//! Digests of the parts of a file.

use crate::asserts::equal;
use crate::calls::{archive_of, bytes, open, put, write};
use crate::contents::Content;
use jk_store::{Archive, Entry, MemoryShelf};
use std::alloc::Global;
use std::process::Abort;
use vectors::bytes_of;

/// The digests of the parts of an entry's file, joined.
fn digests(rt: &impl Abort, alloc: Global, entry: &Entry) -> Vec<u8> {
    let mut all = Vec::new(alloc);
    for digest in &entry.parts {
        put(rt, &mut all, digest);
    }
    all
}

/// Those of an archive's first image.
fn first_digests(rt: &impl Abort, alloc: Global, archive: &Archive<MemoryShelf>) -> Vec<u8> {
    digests(rt, alloc, archive.list().first().expect(rt, "an image"))
}

#[test]
fn one_part(rt: HostRuntime) {
    let alloc = rt.alloc();
    let archive = archive_of(&rt, alloc, &[("a.jp2", Content::Page)]);
    let due = bytes(&rt, alloc, Content::Digest);
    equal(
        &rt,
        first_digests(&rt, alloc, &archive).as_slice(),
        due.as_slice(),
    );
}

/// The JP2 file of one grey sample, and behind it a box `free` of so many bytes, of which the ninth
/// is 0 and each that follows is one more than the one before it, or 0 behind 250: 167 bytes more in
/// all.
fn long_page(rt: &impl Abort, alloc: Global, size: u32) -> Vec<u8> {
    let mut bytes = bytes(rt, alloc, Content::Page);
    put(rt, &mut bytes, &size.to_be_bytes());
    put(
        rt,
        &mut bytes,
        &bytes_of(alloc, &["66726565"]).expect(rt, "bytes"),
    );
    for number in 0..size.saturating_sub(8) {
        bytes.push((number % 251) as u8).expect(rt, "room");
    }
    bytes
}

/// Where the box has 40,000 bytes, the SHA-256 of the file's first 16,384, of the next 16,384, and of
/// the last 7,399, by another program.
static LONG: [&str; 3] = [
    "D9FAEF9D035348682DF4F85F7A474D6BF0C6EB0A4A24ED881A59BD2F3C465323",
    "39832D42C65C4E37EDEE3379BCD6F01121FF7F5D0CFEE3C85DEC395C320333B0",
    "3359CD2FAEA2CA490F514B47DF6520B4FB9A8F5304F8EBBE2D91A3BA1861401B",
];

/// The digests of its parts, where an archive is opened with it.
fn long_digests(rt: &impl Abort, alloc: Global, size: u32) -> Vec<u8> {
    let mut shelf = MemoryShelf::new(alloc);
    write(rt, &mut shelf, alloc, "a.jp2", &long_page(rt, alloc, size));
    first_digests(rt, alloc, &open(rt, alloc, shelf))
}

#[test]
fn three_parts(rt: HostRuntime) {
    let alloc = rt.alloc();
    let due = bytes_of(alloc, &LONG).expect(&rt, "bytes");
    equal(
        &rt,
        long_digests(&rt, alloc, 40_000).as_slice(),
        due.as_slice(),
    );
}

/// Where the box has 90,000 bytes, the SHA-256 of each 16,384 of the file, and of the last 8,247, by
/// another program.
static LONGER: [&str; 6] = [
    "BC2D4ADF6648EC8123CBC6C6FD388C90FDA1810517DCDD0B6E777F0FEC171583",
    "39832D42C65C4E37EDEE3379BCD6F01121FF7F5D0CFEE3C85DEC395C320333B0",
    "616AC91F8FBC568CCD5C5133D3AC67F37FA4991DF9067CB214F2D9625A300E5F",
    "5C1F2F356263C139EF1E0A7878CEE980F01319EA19460E8C3631E7036DDFEC33",
    "A7D925EDE86DA2683223A1E2470733513266B0B7B28C1DE69F100DBD042E0468",
    "7EA3769F1FCE65A0B187249B96AA64A666B7A227ED05CCAB1FE007A1C533067C",
];

#[test]
fn six_parts(rt: HostRuntime) {
    let alloc = rt.alloc();
    let due = bytes_of(alloc, &LONGER).expect(&rt, "bytes");
    equal(
        &rt,
        long_digests(&rt, alloc, 90_000).as_slice(),
        due.as_slice(),
    );
}
