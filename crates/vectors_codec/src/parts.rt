ghost use Rattle.std.specs.Prelude.{◌≡◌, length};
ghost use Rattle.jk_marks.specs.Siz.{IsSiz, tile_count};

use crate::asserts::equal;
use crate::texts::{MAIN, bytes};
use jk_geom::tile_count;
use jk_marks::marker::{COD, EOC, QCD, SIZ, SOC, SOD, SOT};
use jk_marks::{Cursor, Main, Order, Precincts, TilePart, read_main, read_tile_part};
use jk_math::Fault;
use std::alloc::Global;
use std::process::Abort;

#[test]
fn cursor(rt: HostRuntime) {
    let file = [0xFF, 0x4F, 7, 0, 4, 0xAB, 0xCD, 1, 2, 3, 4, 9];
    let mut cursor = Cursor::new(&file, 0);
    equal(&rt, cursor.two_bytes(), Ok(SOC));
    equal(&rt, cursor.byte(), Ok(7));
    equal(&rt, cursor.enter(), Ok(4));
    equal(&rt, cursor.four_bytes(), Err(Fault::BadLength));
    equal(&rt, cursor.two_bytes(), Ok(0xABCD));
    cursor.leave();
    equal(&rt, cursor.at(), 7);
    equal(&rt, cursor.four_bytes(), Ok(0x0102_0304));
    equal(&rt, cursor.is_at_end(), false);
    equal(&rt, cursor.two_bytes(), Err(Fault::Truncated));
    equal(&rt, cursor.left(), 1);
}

/// The main header at the front of a file.
fn main_of(rt: &impl Abort, file: &[u8]) -> Main
    ensures { IsSiz result.siz }
{
    let (main, _) = read_main(file).expect(rt, "an answer");
    main
}

/// How many parts of each tile were read: so many of the first, and none of the others.
fn seen_of(rt: &impl Abort, alloc: Global, main: &Main, first: u16) -> Vec<u16>
    requires { IsSiz main.now.siz }
    ensures { length result.items ≡ tile_count main.now.siz }
{
    let mut seen = vec![in alloc; 0u16; tile_count(&main.siz) as usize].expect(rt, "an answer");
    if !seen.is_empty() {
        seen[0] = first;
    }
    seen
}

/// Tile, number and place of a tile-part, behind so many parts of the first tile.
fn part_after(
    rt: &impl Abort,
    alloc: Global,
    main: &Main,
    bytes: &[u8],
    first: u16,
) -> Result<(u16, u8, usize, usize), Fault>
    requires { IsSiz main.now.siz }
{
    let seen = seen_of(rt, alloc, main, first);
    numbers(read_tile_part(bytes, main, &seen))
}

/// The numbers of a tile-part.
fn numbers(part: Result<TilePart, Fault>) -> Result<(u16, u8, usize, usize), Fault> {
    let part = part?;
    Ok((part.tile, part.part, part.start, part.end))
}

/// What a test looks at of a main header.
#[derive(Drop)]
struct Seen {
    length: usize,
    size: (u32, u32),
    tiles: u32,
    order: Order,
    precincts: usize,
    exponents: usize,
}

/// The fields of a main header.
fn main_fields(rt: &impl Abort, file: &[u8]) -> Seen {
    let (main, length) = read_main(file).expect(rt, "an answer");
    Seen {
        length,
        size: (main.siz.x1, main.siz.y1),
        tiles: tile_count(&main.siz),
        order: main.cod.order,
        precincts: main.cod.style.precincts.as_slice().len(),
        exponents: main.qcd.exponents.len(),
    }
}

#[test]
fn main_headers(rt: HostRuntime) {
    let part = "FF90 000A 0000 0000000F 00 01 FF93 00";
    let file = bytes(&rt, rt.alloc(), &[MAIN, part]);
    equal(&rt, file.len(), 80);
    let seen = main_fields(&rt, &file);
    equal(&rt, seen.length, 65);
    equal(&rt, seen.size, (1, 1));
    equal(&rt, seen.tiles, 1);
    equal(&rt, seen.order, Order::Lrcp);
    equal(&rt, (seen.precincts, seen.exponents), (0, 1));
    equal(&rt, Precincts::none().as_slice().len(), 0);
    equal(&rt, (SOC, SIZ, COD, QCD), (0xFF4F, 0xFF51, 0xFF52, 0xFF5C));
    equal(&rt, (SOT, SOD, EOC), (0xFF90, 0xFF93, 0xFFD9));
}

#[test]
fn tile_parts(rt: HostRuntime) {
    let alloc = rt.alloc();
    let text = "FF90 000A 0000 0000000F 00 01 FF93 00";
    let main = main_of(&rt, &bytes(&rt, alloc, &[MAIN, text]));
    let part = bytes(&rt, alloc, &[text]);
    equal(
        &rt,
        part_after(&rt, alloc, &main, &part, 0),
        Ok((0, 0, 14, 15)),
    );
    equal(
        &rt,
        part_after(&rt, alloc, &main, &part, 1),
        Err(Fault::BadValue),
    );
}
