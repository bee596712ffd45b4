//! Planes of noise in octaves, the finer the fainter, as photographs have it.

use crate::chance::Chance;
use jk_math::Fault;
use std::alloc::Global;

/// Numbers in rows of a width.
#[derive(Drop)]
pub(crate) struct Plane {
    pub(crate) width: usize,
    pub(crate) values: Vec<u32>,
}

/// A row with a number between each two, and before the first.
fn widen(row: &[u32], wide: &mut Vec<u32>) -> Result<(), Fault> {
    wide.clear();
    let mut before = row.first().copied().unwrap_or(0);
    for value in row {
        wide.push(before.wrapping_add(*value) >> 1)?;
        wide.push(*value)?;
        before = *value;
    }
    Ok(())
}

/// Appends a row between two, and each number is raised by less than a size.
fn append_between(
    above: &[u32],
    below: &[u32],
    chance: &mut Chance,
    size: u32,
    values: &mut Vec<u32>,
) -> Result<(), Fault> {
    for (upper, lower) in above.iter().zip(below.iter()) {
        let between = upper.wrapping_add(*lower) >> 1;
        values.push(between.wrapping_add(chance.part(size)))?;
    }
    Ok(())
}

impl Plane {
    /// A plane of numbers below a size.
    fn new(
        alloc: Global,
        chance: &mut Chance,
        (width, height): (usize, usize),
        size: u32,
    ) -> Result<Plane, Fault> {
        let width = width.max(1);
        let count = width.saturating_mul(height);
        let mut values = Vec::with_capacity(alloc, count)?;
        for _ in 0..count {
            values.push(chance.part(size))?;
        }
        Ok(Plane { width, values })
    }

    /// The plane with twice as many columns and rows, in which each number is raised by less than a
    /// size.
    fn finer(&self, alloc: Global, chance: &mut Chance, size: u32) -> Result<Plane, Fault> {
        let width = self.width.saturating_mul(2);
        let mut values = Vec::with_capacity(alloc, self.values.len().saturating_mul(4))?;
        let mut above = Vec::with_capacity(alloc, width)?;
        let mut below = Vec::with_capacity(alloc, width)?;
        for (at, row) in self.values.chunks(self.width.max(1)).enumerate() {
            widen(row, &mut below)?;
            if at == 0 {
                widen(row, &mut above)?;
            }
            append_between(&above, &below, chance, size, &mut values)?;
            append_between(&below, &below, chance, size, &mut values)?;
            widen(row, &mut above)?;
        }
        Ok(Plane { width, values })
    }

    /// Noise whose coarsest cells have sides of 2^`coarsest` and whose finest have sides of
    /// 2^`finest`, from 0 to `top`, in cells of that finest size.
    pub(crate) fn noise(
        alloc: Global,
        mut chance: Chance,
        (width, height): (usize, usize),
        (coarsest, finest): (u32, u32),
        top: u32,
    ) -> Result<Plane, Fault> {
        let mut size = top.saturating_mul(3) / 5;
        let mut sum = size / 2;
        let side = |length: usize| (length >> (coarsest & 15)).saturating_add(1);
        let mut plane = Plane::new(alloc, &mut chance, (side(width), side(height)), size)?;
        for _ in finest..coarsest {
            size = size.saturating_mul(76) / 100;
            sum = sum.saturating_add(size / 2);
            plane = plane.finer(alloc, &mut chance, size)?;
        }
        let floor = sum.saturating_sub(top / 2);
        for value in plane.values.iter_mut() {
            *value = value.saturating_sub(floor).min(top);
        }
        Ok(plane)
    }

    /// The rows from a row on, each with all its columns.
    pub(crate) fn rows_from(&self, row: usize) -> &[u32] {
        let start = row.saturating_mul(self.width).min(self.values.len());
        &self.values[start..]
    }
}
