//! Images as PGM and PPM files: photographs, slices of a body, pages of text and slides.

use crate::chance::{Chance, mixed};
use crate::noise::Plane;
use jk_math::Fault;
use std::alloc::Global;

/// How many columns and rows.
pub(crate) type Size = (usize, usize);

/// The head of a file, with room for so many bytes behind it.
fn headed(alloc: Global, kind: &str, size: Size, top: u32, room: usize) -> Result<Vec<u8>, Fault> {
    let (width, height) = size;
    let mut bytes = Vec::with_capacity(alloc, room.saturating_add(32))?;
    let head = format!(in alloc; "{kind}\n{width} {height}\n{top}\n")?;
    bytes.extend_from_slice(head.as_bytes())?;
    Ok(bytes)
}

/// How many samples.
fn count(size: Size) -> usize {
    size.0.saturating_mul(size.1)
}

/// A value as a byte.
fn byte(value: u32) -> u8 {
    value.min(255) as u8
}

/// A photograph in colour, by 8 bits: light, and two fainter and coarser planes by which it is
/// redder or bluer.
pub(crate) fn photograph(alloc: Global, seed: u64, size: Size) -> Result<Vec<u8>, Fault> {
    let light = Plane::noise(alloc, Chance::new(seed, 1), size, (9, 0), 255)?;
    let red = Plane::noise(alloc, Chance::new(seed, 2), size, (9, 0), 63)?;
    let blue = Plane::noise(alloc, Chance::new(seed, 3), size, (9, 0), 63)?;
    let mut bytes = headed(alloc, "P6", size, 255, count(size).saturating_mul(3))?;
    for y in 0..size.1 {
        let colours = red.rows_from(y).iter().zip(blue.rows_from(y).iter());
        for (l, (r, b)) in light.rows_from(y).iter().zip(colours).take(size.0) {
            bytes.push(byte(l.saturating_add(*r).saturating_sub(32)))?;
            bytes.push(byte(*l))?;
            bytes.push(byte(l.saturating_add(*b).saturating_sub(32)))?;
        }
    }
    Ok(bytes)
}

/// A photograph in shades of grey, by 8 bits.
pub(crate) fn grey(alloc: Global, seed: u64, size: Size) -> Result<Vec<u8>, Fault> {
    let light = Plane::noise(alloc, Chance::new(seed, 4), size, (9, 0), 255)?;
    let mut bytes = headed(alloc, "P5", size, 255, count(size))?;
    for y in 0..size.1 {
        for value in light.rows_from(y).iter().take(size.0) {
            bytes.push(byte(*value))?;
        }
    }
    Ok(bytes)
}

/// A slice of a body, by so many bits up to 16: what is dark around it lies within a coarse line,
/// and has the noise of the device.
pub(crate) fn slice(alloc: Global, seed: u64, size: Size, bits: u32) -> Result<Vec<u8>, Fault> {
    let top = (1u32 << (bits & 15)).saturating_sub(1).max(255);
    let body = Plane::noise(alloc, Chance::new(seed, 5), size, (8, 0), top)?;
    let line = Plane::noise(alloc, Chance::new(seed, 6), size, (8, 3), 63)?;
    let mut chance = Chance::new(seed, 7);
    let mut bytes = headed(alloc, "P5", size, top, count(size).saturating_mul(2))?;
    for y in 0..size.1 {
        let lines = line.rows_from(y >> 3);
        for (x, value) in body.rows_from(y).iter().take(size.0).enumerate() {
            let shown = if lines.get(x >> 3).copied().unwrap_or(0) < 22 {
                chance.next() & 15
            } else {
                *value
            };
            bytes.push(byte(shown >> 8))?;
            bytes.push(byte(shown & 0xFF))?;
        }
    }
    Ok(bytes)
}

/// Noise alone, by 16 bits.
pub(crate) fn noise(alloc: Global, seed: u64, size: Size) -> Result<Vec<u8>, Fault> {
    let mut chance = Chance::new(seed, 8);
    let mut bytes = headed(alloc, "P5", size, 65535, count(size).saturating_mul(2))?;
    for _ in 0..count(size) {
        let number = chance.next();
        bytes.push(byte(number & 0xFF))?;
        bytes.push(byte(number >> 8 & 0xFF))?;
    }
    Ok(bytes)
}

/// The letter at a place of a page, as 35 bits, five in each of seven rows; none between words.
fn letter(seed: u64, line: u64, place: u64) -> u64 {
    let number = mixed(seed ^ mixed(line << 20 ^ place));
    if number & 7 == 0 {
        return 0;
    }
    // Of forty letters each looks the same wherever it stands.
    let kind = (number >> 8) % 40;
    mixed(kind) | mixed(kind.wrapping_add(1000)) & 0x0004_2108_4210
}

/// Whether there is ink at a place of a page: letters of 15 by 21 in lines of 40.
fn is_inked(seed: u64, x: u64, y: u64) -> bool {
    let (line, down) = (y / 40, y % 40);
    let (place, across) = (x / 18, x % 18);
    if down < 8 || 29 <= down || 15 <= across {
        return false;
    }
    let bit = (down - 8) / 3 * 5 + across / 3;
    letter(seed, line, place) >> (bit & 63) & 1 == 1
}

/// A page of text, by 8 bits: black on white within margins, with grey at the left of a stroke and
/// behind it.
pub(crate) fn page(alloc: Global, seed: u64, size: Size) -> Result<Vec<u8>, Fault> {
    let mut bytes = headed(alloc, "P5", size, 255, count(size))?;
    let (left, right) = (size.0 / 10, size.0.saturating_sub(size.0 / 10));
    let (upper, lower) = (size.1 / 12, size.1.saturating_sub(size.1 / 12));
    for y in 0..size.1 {
        let mut before = false;
        for x in 0..size.0 {
            let within = left <= x && x < right && upper <= y && y < lower;
            let now = within && is_inked(seed, x as u64, y as u64);
            bytes.push(match (before, now) {
                (false, false) => 255,
                (true, true) => 20,
                _ => 140,
            })?;
            before = now;
        }
    }
    Ok(bytes)
}

/// A slide under a microscope, by 8 bits, and the cells of 64 by 64 in which it has tissue.
#[derive(Drop)]
pub(crate) struct Slide {
    pub(crate) bytes: Vec<u8>,
    pub(crate) cells: Vec<(u32, u32)>,
}

/// How many columns and rows the tissue has before it comes again, by an exponent.
const TISSUE: u32 = 10;

/// Whether a coarse plane has tissue in the cell of a place.
fn has_tissue(cells: &[u32], x: usize) -> bool {
    150 < cells.get(x >> 6).copied().unwrap_or(0)
}

impl Slide {
    /// Some tissue on a bright ground.
    pub(crate) fn new(alloc: Global, seed: u64, size: Size) -> Result<Slide, Fault> {
        let side = 1usize << TISSUE;
        let tissue = Plane::noise(alloc, Chance::new(seed, 9), (side, side), (6, 0), 255)?;
        let place = Plane::noise(alloc, Chance::new(seed, 10), size, (10, 6), 255)?;
        let mut bytes = headed(alloc, "P5", size, 255, count(size))?;
        let mut cells = Vec::new(alloc);
        for y in 0..size.1 {
            let places = place.rows_from(y >> 6);
            let row = tissue.rows_from(y & (side - 1));
            for x in 0..size.0 {
                let shown = if has_tissue(places, x) {
                    row.get(x & (side - 1)).copied().unwrap_or(0)
                } else {
                    243
                };
                bytes.push(byte(shown))?;
                if x & 63 == 0 && y & 63 == 0 && has_tissue(places, x) {
                    cells.push(((x & 0xFFFF) as u32, (y & 0xFFFF) as u32))?;
                }
            }
        }
        Ok(Slide { bytes, cells })
    }
}
