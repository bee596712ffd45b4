//! Images by chance, decoded row by row: the rows one below the other are the image that was encoded.

ghost use Rattle.std.specs.Prelude.{◌≤◌};

use crate::chance::{Chance, Kind, image, parameters};
use jk_code::{Rows, decode, decode_rows, encode};
use jk_math::{Fault, Image};
use std::alloc::Global;
use std::process::Abort;
use std::test::Fail;
use vectors::{equal, equal_at};

/// The rows that were taken, put together again.
#[derive(Drop)]
struct Whole {
    stripes: usize,
    planes: Vec<Vec<i32>>,
}

impl Rows for Whole {
    ghost took = { λ _ _ _. Unit {0} };

    ghost refused = { λ _ _ _ _. ⊥ };

    fn take(&mut self, alloc: Global, rows: Image) -> Result<(), Fault> {
        self.stripes = self.stripes.saturating_add(1);
        for c in 0..rows.planes().len() {
            if self.planes.len() <= c {
                self.planes.push(Vec::new(alloc))?;
            }
            if let Some(plane) = self.planes.get_mut(c) {
                plane.extend_from_slice(rows.planes().plane(c))?;
            }
        }
        Ok(())
    }
}

/// What refuses the rows of each stripe but the first ones.
#[derive(Drop)]
struct Full {
    left: usize,
}

impl Rows for Full {
    ghost use Rattle.std.specs.Prelude.{◌≡◌};
    ghost use Rattle.jk_math.specs.declared.fault.Fault.TheVariants.{Shelf};

    ghost took = { λ _ _ _. Unit {0} };

    ghost refused = { λ _ _ e _. e ≡ Shelf };

    fn take(&mut self, _alloc: Global, _rows: Image) -> Result<(), Fault> {
        if self.left == 0 {
            return Err(Fault::Shelf);
        }
        self.left -= 1;
        Ok(())
    }
}

/// Whether these are the planes of an image.
fn are_planes(rt: &impl Abort, planes: &[Vec<i32>], due: &Image) {
    equal(planes.len(), due.planes().len()).expect(rt, "the components");
    for c in 0..due.planes().len() {
        let rows = planes.get(c).expect(rt, "a plane");
        equal_at(c, rows.as_slice(), due.planes().plane(c)).expect(rt, "the samples");
    }
}

/// Decodes a file row by row in steps of so many rows: they are this image, or, where none is given, what
/// all rows in one step are, with its fault.
fn rows_in_steps(
    rt: &impl Abort,
    alloc: Global,
    file: &[u8],
    due: Option<&Image>,
    reduce: u32,
    step: u32,
) -> Result<(), Fail>
    requires { 1 ≤ step }
{
    let mut whole = Whole {
        stripes: 0,
        planes: Vec::new(alloc),
    };
    let told = decode_rows(alloc, file, reduce, step, &mut whole);
    if let Some(image) = due {
        equal(told, Ok(())).expect(rt, "no fault");
        are_planes(rt, &whole.planes, image);
        return Ok(());
    }
    match decode(alloc, file, reduce) {
        Ok(image) => {
            equal(told, Ok(())).expect(rt, "no fault");
            are_planes(rt, &whole.planes, &image);
        }
        Err(fault) => equal(told, Err(fault)).expect(rt, "the fault"),
    }
    Ok(())
}

/// What refuses rows is told as it refuses, where the file has no fault, and else the fault is.
fn refused(rt: &impl Abort, alloc: Global, file: &[u8], left: usize) {
    let mut full = Full { left };
    let told = decode_rows(alloc, file, 0, 1, &mut full);
    match decode(alloc, file, 0) {
        Ok(_) => equal(told.is_ok() || told == Err(Fault::Shelf), true).expect(rt, "what is due"),
        Err(fault) => equal(told, Err(fault)).expect(rt, "what is due"),
    }
}

/// An image by chance, its file, whole and damaged.
fn one_case(rt: &impl Abort, alloc: Global, chance: &mut Chance) -> Result<(), Fail> {
    let kind = Kind {
        columns: 24,
        rows: 130,
        bits: 8,
        signed: false,
    };
    let image = image(alloc, chance, kind)?;
    let given = parameters(alloc, chance, image.planes().len())?;
    let Ok(file) = encode(alloc, &image, &given) else {
        return Ok(());
    };
    let reduce = chance.below(given.levels as u32 + 1);
    let step = 1 + chance.below(20);
    rows_in_steps(rt, alloc, &file, Some(&image), 0, step)?;
    rows_in_steps(rt, alloc, &file, None, reduce, step)?;
    refused(rt, alloc, &file, chance.below(3) as usize);
    let mut damaged = file;
    let at = damaged.len().saturating_sub(1 + chance.below(20) as usize);
    if let Some(byte) = damaged.get_mut(at) {
        *byte ^= 0x5A;
    }
    rows_in_steps(rt, alloc, &damaged, None, reduce, step)?;
    refused(rt, alloc, &damaged, 1);
    Ok(())
}

#[test]
fn rows_of_images(rt: HostRuntime) -> Result<(), Fail> {
    let mut chance = Chance { state: 63 };
    for _ in 0..12 {
        one_case(&rt, rt.alloc(), &mut chance)?;
    }
    Ok(())
}
