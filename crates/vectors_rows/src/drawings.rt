//! What `jk encode` makes of PGM and PPM files by chance: row by row what it makes of whole images.

use crate::chance::{Chance, parameters};
use jk_commands::{Plan, encode_file_into, encode_rows_from, encode_rows_into};
use jk_jobs::Open;
use jk_math::Fault;
use std::alloc::Global;
use std::fmt::Write;
use std::marker::Sync;
use std::process::Abort;
use std::test::Fail;
use std::thread::Threads;
use vectors::equal;

/// How large a file is, and where a sample of it is above maxval.
#[derive(Clone, Copy)]
pub(crate) struct Drawing {
    pub(crate) colour: bool,
    pub(crate) width: u32,
    pub(crate) height: u32,
    pub(crate) depth: u8,
    pub(crate) spoiled: Option<u32>,
}

/// The bytes of a file.
pub(crate) fn file(alloc: Global, chance: &mut Chance, drawing: Drawing) -> Result<Vec<u8>, Fail> {
    let maxval = (1u64 << drawing.depth.min(16)) as u32 - 1;
    let mut head = String::new(alloc);
    let magic = if drawing.colour { "P6" } else { "P5" };
    write!(
        head,
        "{}\n{} {}\n{}\n",
        magic, drawing.width, drawing.height, maxval
    )?;
    let mut bytes = Vec::new(alloc);
    bytes.extend_from_slice(head.as_bytes())?;
    let components = if drawing.colour { 3 } else { 1 };
    for at in 0..drawing
        .width
        .saturating_mul(drawing.height)
        .saturating_mul(components)
    {
        let mut sample = chance.below(maxval.saturating_add(1).max(1));
        if drawing.spoiled == Some(at) {
            sample = maxval.saturating_add(1);
        }
        if maxval > 255 {
            bytes.push((sample >> 8 & 0xFF) as u8)?;
        }
        bytes.push((sample & 0xFF) as u8)?;
    }
    Ok(bytes)
}

/// How it is encoded.
pub(crate) fn plan(alloc: Global, chance: &mut Chance, drawing: Drawing) -> Result<Plan, Fail> {
    let mut parameters = parameters(alloc, chance, 1)?;
    parameters.colour = chance.tossed();
    if chance.below(4) == 0 {
        parameters.layers = 0;
    }
    let edge = 1u32 << 31;
    let mut x0 = chance.below(70);
    let mut y0 = chance.below(70);
    if chance.below(6) == 0 {
        y0 = (edge - drawing.height.min(1000)).saturating_sub(chance.below(2));
    }
    if chance.below(6) == 0 {
        x0 = (edge - drawing.width.min(1000)).saturating_sub(chance.below(2));
    }
    Ok(Plan {
        parameters,
        colour: chance.tossed(),
        x0,
        y0,
    })
}

/// A file by chance.
fn one_case<R: Threads + Sync + Abort>(
    rt: &R,
    alloc: Global,
    chance: &mut Chance,
) -> Result<(), Fail> {
    let mut drawing = Drawing {
        colour: chance.tossed(),
        width: 1 + chance.below(9),
        height: 1 + chance.below(150),
        depth: 1 + chance.below(16) as u8,
        spoiled: None,
    };
    if chance.below(3) == 0 {
        let components = if drawing.colour { 3 } else { 1 };
        let count = drawing
            .width
            .saturating_mul(drawing.height)
            .saturating_mul(components)
            .max(1);
        drawing.spoiled = Some(match chance.below(3) {
            0 => 0,
            1 => count / 2,
            _ => count - 1,
        });
    }
    let bytes = file(alloc, chance, drawing)?;
    let mut again = Chance {
        state: chance.state,
    };
    let mut by_workers = Chance {
        state: chance.state,
    };
    let mut rows = Vec::new(alloc);
    let told = encode_rows_into(alloc, &bytes, plan(alloc, chance, drawing)?, &mut rows);
    let mut worked = Vec::new(alloc);
    let workers = 1 + drawing.height as usize % 5;
    let by = plan(alloc, &mut by_workers, drawing)?;
    let mut source = bytes.as_slice();
    let told_by = encode_rows_from(rt, alloc, workers, &Open, &mut source, by, &mut worked);
    let mut whole = Vec::new(alloc);
    let due = encode_file_into(alloc, bytes, plan(alloc, &mut again, drawing)?, &mut whole);
    equal(told, due).expect(rt, "what is due");
    equal(rows.as_slice(), whole.as_slice()).expect(rt, "what is due");
    equal(told_by, due).expect(rt, "what is due by workers");
    equal(worked.as_slice(), whole.as_slice()).expect(rt, "what is due by workers");
    Ok(())
}

#[test]
fn files_of_drawings(rt: HostRuntime) -> Result<(), Fail> {
    let mut chance = Chance { state: 67 };
    for _ in 0..60 {
        one_case(&rt, rt.alloc(), &mut chance)?;
    }
    Ok(())
}

/// Workers out of range are refused before all else, and nothing is read or written.
#[test]
fn too_few_and_too_many_workers(rt: HostRuntime) -> Result<(), Fail> {
    let alloc = rt.alloc();
    let drawing = Drawing {
        colour: false,
        width: 3,
        height: 2,
        depth: 8,
        spoiled: None,
    };
    for workers in [0, 65] {
        let asked = plan(alloc, &mut Chance { state: 72 }, drawing)?;
        let mut rows = Vec::new(alloc);
        let mut source = b"P9".as_slice();
        let told = encode_rows_from(&rt, alloc, workers, &Open, &mut source, asked, &mut rows);
        equal(told, Err(Fault::BadParameters)).expect(&rt, "what is due");
        equal(source.len(), 2).expect(&rt, "what is left");
        equal(rows.len(), 0).expect(&rt, "what is due");
    }
    Ok(())
}
