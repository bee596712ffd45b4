//! What `jk decode` makes of files of images by chance: row by row what it makes of whole images.

use crate::chance::{Chance, Kind, image, parameters};
use jk_code::encode;
use jk_commands::{decode_file, decode_rows_into, decode_rows_into_with};
use jk_math::Fault;
use std::alloc::Global;
use std::io::{self, ErrorKind, Write};
use std::process::Abort;
use std::test::Fail;
use std::thread::Threads;
use vectors::{equal, equal_at};

/// Takes what it is given in so many calls, and then refuses.
#[derive(Drop)]
struct Refusing {
    bytes: Vec<u8>,
    calls: u32,
}

impl Write for Refusing {
    fn write(&mut self, buf: &[u8]) -> io::Result<usize> {
        if self.calls == 0 {
            return Err(io::Error::from(ErrorKind::BrokenPipe));
        }
        self.calls -= 1;
        match self.bytes.extend_from_slice(buf) {
            Ok(()) => Ok(buf.len()),
            Err(_) => Err(io::Error::from(ErrorKind::OutOfMemory)),
        }
    }

    fn flush(&mut self) -> io::Result<()> {
        Ok(())
    }
}

/// What is written of a file, by the whole image.
fn due(alloc: Global, file: &[u8], reduce: u32) -> Result<Vec<u8>, Fault> {
    let mut bytes = Vec::new(alloc);
    bytes.extend_from_slice(file)?;
    decode_file(alloc, bytes, reduce)
}

/// Row by row the same is written, or there is the same fault, by this thread alone, or by so many
/// workers.
fn beside_whole<R: Abort + Threads + Sync>(
    rt: &R,
    alloc: Global,
    workers: Option<usize>,
    file: &[u8],
    reduce: u32,
) {
    let mut written = Vec::new(alloc);
    let told = match workers {
        Some(workers) => { decode_rows_into_with(rt, alloc, workers, file, reduce, &mut written) }
        None => decode_rows_into(alloc, file, reduce, &mut written),
    };
    match due(alloc, file, reduce) {
        Ok(due) => {
            equal(told, Ok(())).expect(rt, "what is due");
            equal(written.as_slice(), due.as_slice()).expect(rt, "what is due");
        }
        Err(fault) => equal(told, Err(fault)).expect(rt, "what is due"),
    }
}

/// Where a writer refuses its first call, or its second, that is told behind the faults of the file,
/// and a beginning was written.
fn refused(rt: &impl Abort, alloc: Global, file: &[u8], reduce: u32, calls: u32) {
    let mut writer = Refusing {
        bytes: Vec::new(alloc),
        calls,
    };
    let told = decode_rows_into(alloc, file, reduce, &mut writer);
    match due(alloc, file, reduce) {
        Ok(due) => {
            equal_at(calls, told, Err(Fault::Shelf)).expect(rt, "what is due");
            equal(due.starts_with(&writer.bytes), true).expect(rt, "what is due");
        }
        Err(fault) => equal_at(calls, told, Err(fault)).expect(rt, "what is due"),
    }
}

/// An image by chance, its file, whole and damaged.
fn one_case<R: Abort + Threads + Sync>(
    rt: &R,
    alloc: Global,
    chance: &mut Chance,
    kind: Kind,
) -> Result<(), Fail> {
    let image = image(alloc, chance, kind)?;
    let given = parameters(alloc, chance, image.planes().len())?;
    let Ok(file) = encode(alloc, &image, &given) else {
        return Ok(());
    };
    let reduce = if chance.tossed() {
        0
    } else {
        chance.below(given.levels as u32 + 2)
    };
    beside_whole(rt, alloc, None, &file, reduce);
    beside_whole(rt, alloc, Some(2), &file, reduce);
    refused(rt, alloc, &file, reduce, 0);
    refused(rt, alloc, &file, reduce, 1);
    let mut damaged = file;
    let at = damaged.len().saturating_sub(1 + chance.below(20) as usize);
    if let Some(byte) = damaged.get_mut(at) {
        *byte ^= 0x5A;
    }
    beside_whole(rt, alloc, None, &damaged, reduce);
    beside_whole(rt, alloc, Some(3), &damaged, reduce);
    refused(rt, alloc, &damaged, reduce, 0);
    refused(rt, alloc, &damaged, reduce, 1);
    Ok(())
}

/// Some images of this kind.
fn cases<R: Abort + Threads + Sync>(
    rt: &R,
    alloc: Global,
    state: u32,
    kind: Kind,
) -> Result<(), Fail> {
    let mut chance = Chance { state };
    for _ in 0..8 {
        one_case(rt, alloc, &mut chance, kind)?;
    }
    Ok(())
}

#[test]
fn files_of_images(rt: HostRuntime) -> Result<(), Fail> {
    let kind = Kind {
        columns: 5,
        rows: 150,
        bits: 8,
        signed: false,
    };
    cases(&rt, rt.alloc(), 64, kind)
}

#[test]
fn files_of_wide_samples(rt: HostRuntime) -> Result<(), Fail> {
    let kind = Kind {
        columns: 9,
        rows: 20,
        bits: 16,
        signed: false,
    };
    cases(&rt, rt.alloc(), 65, kind)
}

#[test]
fn files_of_signed_samples(rt: HostRuntime) -> Result<(), Fail> {
    let kind = Kind {
        columns: 9,
        rows: 9,
        bits: 8,
        signed: true,
    };
    cases(&rt, rt.alloc(), 66, kind)
}

/// No worker, and one more than 64, before anything of the file is looked at.
#[test]
fn workers_out_of_range(rt: HostRuntime) {
    for workers in [0, 65] {
        let mut written = Vec::new(rt.alloc());
        let told = decode_rows_into_with(&rt, rt.alloc(), workers, &[], 0, &mut written);
        equal_at(workers, told, Err(Fault::BadParameters)).expect(&rt, "the range");
        equal(written.is_empty(), true).expect(&rt, "the range");
    }
}
