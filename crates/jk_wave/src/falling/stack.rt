//! Levels one under another.

ghost use Rattle.std.specs.Prelude.{◌≡◌, ℕ, ℤ, [], Ok, IfOk, IfErr, OnOk, ◌+◌, ◌-◌, ◌*◌, ◌^◌, ◌<◌, ◌≤◌, ◌++◌, length, All, slice_index_or};
ghost use Rattle.jk_math.specs.declared.rect.Rect.{Rect};
ghost use Rattle.jk_math.specs.Answer.{Answers};
ghost use Rattle.jk_math.specs.Memory.{IsMemory};
ghost use Rattle.jk_math.specs.Lists.{lists_of};
ghost use Rattle.jk_math.specs.Raster.{columns_of, places_of, plane_at, raster};
ghost use Rattle.jk_math.specs.Signed.{IsBelow};
ghost use Rattle.jk_geom.specs.Rectangles.{IsArea, resolution_area};
ghost use Rattle.jk_wave.specs.Analysis.{reduced, analysed_bands};
ghost use Rattle.jk_wave.specs.Levels.{part_list};
ghost use Rattle.jk_wave.specs.SourceRows.{AreBelow};
ghost use Rattle.jk_wave.specs.climbing.Held.{rows_between};
ghost use Rattle.jk_wave.specs.declared.falling.level.FallingLevel.{FallingLevel};
ghost use Rattle.jk_wave.specs.falling.Stack.{reduced_rows, AreFallenTo, GivesBands, IsGiven, IsGivenSmall, KeepsAll, HaveBands};

use crate::bands::Bands;
use crate::falling::intervals::rows_fallen;
use crate::falling::level::FallingLevel;
use crate::parts::LevelParts;
use crate::places::cut;
use jk_geom::resolution;
use jk_math::{Fault, Planes, Rect};
use std::alloc::Global;

/// All levels of a tile-component, the highest first, which are given its samples row by row and
/// make the rows of its sub-bands (FDWT, T.800 F.4.1).
#[derive(Drop)]
pub struct Falling {
    /// The tile-component, with so many decomposition levels.
    pub(crate) rect: Rect,
    pub(crate) levels: u8,
    /// The row of samples that is next.
    pub(crate) y: u32,
    pub(crate) all: Vec<FallingLevel>,
    /// The rows of LL that were made.
    pub(crate) low: Vec<i32>,
}

/// Levels before their first rows.
fn first_levels(alloc: Global, rect: &Rect, levels: u8) -> Result<Vec<FallingLevel>, Fault>
    requires area { IsArea rect.now }
    requires levels { levels ≤ 10 }
    ensures at { IfOk result (λ v. (f : ℕ → ℕ → ℤ) → AreFallenTo rect.now levels rect.now.y0 f v.items) }
    ensures none { IfOk result (λ v. (n o : ℕ) (other : FallingLevel) → n < levels → o < 4
        → part_list (slice_index_or v.items n other).parts o ≡ []) }
    ensures err { IfErr result (λ e. IsMemory e) }
{
    let mut all = Vec::new(alloc);
    for n in 0..levels {
        all.push(FallingLevel::new(alloc, &resolution(rect, levels, levels - n))?)?;
    }
    Ok(all)
}

impl Falling {
    /// The levels before the first row. Memory is the only fault.
    pub fn new(alloc: Global, rect: &Rect, levels: u8) -> Result<Falling, Fault>
        requires area { IsArea rect.now }
        requires levels { levels ≤ 10 }
        ensures standing { IfOk result IsGivenSmall }
        ensures given { IfOk result (λ s. (f : ℕ → ℕ → ℤ) → IsGiven f s) }
        ensures none { IfOk result (λ s. (f : ℕ → ℕ → ℤ) → KeepsAll f s) }
        ensures first { IfOk result (λ s. (s.rect ≡ rect.now) × (s.levels ≡ levels) × (s.y ≡ rect.now.y0)) }
        ensures err { IfErr result (λ e. IsMemory e) }
    {
        Ok(Falling {
            rect: *rect,
            levels,
            y: rect.y0,
            all: first_levels(alloc, rect, levels)?,
            low: Vec::new(alloc),
        })
    }

    /// Makes all levels take what comes of the rows of the highest up to row `e`, and puts the rows
    /// of LL in their place. The first level that is given no row ends it.
    fn step(&mut self, e: u32, rows: &mut Vec<i32>) -> Result<(), Fault>
        requires order { self.old.y ≤ e }
        requires inside { e ≤ self.old.rect.y1 }
        requires given { (f : ℕ → ℕ → ℤ) × AreBelow (2 ^ 17) self.old.rect f × IsGiven f self.old
            × (rows.old.items ≡ raster (rows_between self.old.rect self.old.y e) f) }
        ensures rows { OnOk result ((f : ℕ → ℕ → ℤ) → IsGiven f self.old
            → rows.old.items ≡ raster (rows_between self.old.rect self.old.y e) f
            → AreFallenTo self.old.rect self.old.levels e f self.new.all.items
            × GivesBands self.old.rect self.old.levels self.old.y e f self.old.all.items self.new.all.items
            × (rows.new.items ≡ reduced_rows self.old.rect self.old.levels self.old.y e f self.old.levels)) }
        ensures same { (self.new.rect ≡ self.old.rect) × (self.new.levels ≡ self.old.levels)
            × (self.new.y ≡ self.old.y) × (self.new.low ≡ self.old.low) }
        ensures err { IfErr result (λ e. IsMemory e) }
    {
        let mut t = e;
        for n in 0..self.levels as usize {
            if self.all[n].y == t {
                return Ok(());
            }
            self.all[n].step(t, rows)?;
            t = (rows_fallen(&self.all[n].area, t) + 1) / 2;
        }
        Ok(())
    }

    /// Takes the rows of samples up to row `e`, of which `rows` is the list, and puts the rows of the
    /// sub-bands that are made of them behind the ones that it has. `rows` becomes room for the next.
    /// Memory is the only fault; the levels aren't to be used behind it.
    pub fn give(&mut self, e: u32, rows: &mut Vec<i32>) -> Result<(), Fault>
        requires order { self.old.y ≤ e }
        requires inside { e ≤ self.old.rect.y1 }
        requires standing { IsGivenSmall self.old }
        requires long { length rows.old.items ≡ (e - self.old.y) * columns_of self.old.rect }
        requires small { All (IsBelow (2 ^ 17)) rows.old.items }
        ensures standing { OnOk result (IsGivenSmall self.new) }
        ensures given { OnOk result ((f : ℕ → ℕ → ℤ) → IsGiven f self.old
            → rows.old.items ≡ raster (rows_between self.old.rect self.old.y e) f → IsGiven f self.new) }
        ensures bands { OnOk result ((f : ℕ → ℕ → ℤ) → IsGiven f self.old
            → rows.old.items ≡ raster (rows_between self.old.rect self.old.y e) f
            → GivesBands self.old.rect self.old.levels self.old.y e f self.old.all.items self.new.all.items
            × (self.new.low.items ≡ self.old.low.items
            ++ reduced_rows self.old.rect self.old.levels self.old.y e f self.old.levels)) }
        ensures same { OnOk result ((self.new.rect ≡ self.old.rect) × (self.new.levels ≡ self.old.levels)
            × (self.new.y ≡ e)) }
        ensures err { IfErr result (λ e. IsMemory e) }
    {
        self.step(e, rows)?;
        self.low.extend_from_slice(rows)?;
        self.y = e;
        Ok(())
    }

    /// The rows of sub-band `b`, numbered as in QCD, that were made and not let go of, one behind
    /// another.
    pub fn rows(&self, b: u8) -> &[i32]
        requires standing { IsGivenSmall self.now }
        requires b { b ≤ 3 * self.now.levels }
        ensures low { b ≡ 0 → result.now ≡ self.now.low.items }
        ensures high { (n o : ℕ) (other : FallingLevel) → n < self.now.levels → 0 < o → o < 4
            → b ≡ 3 * (self.now.levels - (n + 1)) + o → result.now ≡ part_list (slice_index_or self.now.all.items n other).parts o }
    {
        if b == 0 {
            return &self.low;
        }
        let n = self.levels - 1 - (b - 1) / 3;
        self.all[n as usize].rows((b - 1) % 3 + 1)
    }

    /// Lets go of all rows that were made.
    pub fn clear(&mut self)
        requires standing { IsGivenSmall self.old }
        ensures standing { IsGivenSmall self.new }
        ensures given { (f : ℕ → ℕ → ℤ) → IsGiven f self.old → IsGiven f self.new }
        ensures high { (n o : ℕ) (other : FallingLevel) → n < self.old.levels → 0 < o → o < 4
            → part_list (slice_index_or self.new.all.items n other).parts o ≡ [] }
        ensures low { self.new.low.items ≡ [] }
        ensures same { (self.new.rect ≡ self.old.rect) × (self.new.levels ≡ self.old.levels)
            × (self.new.y ≡ self.old.y) }
    {
        for n in 0..self.levels as usize {
            self.all[n].clear();
        }
        self.low.clear();
    }

    /// The sub-bands in the order of QCD, behind the last row.
    pub fn into_bands(self, alloc: Global) -> Result<Bands, Fault>
        requires last { self.y ≡ self.rect.y1 }
        requires standing { IsGivenSmall self }
        ensures exact { IfOk result (λ b. (f : ℕ → ℕ → ℤ) → KeepsAll f self → b.bands ≡ analysed_bands self.rect self.levels f) }
        ensures given { IfOk result (λ b. (b.rect ≡ self.rect) × (b.levels ≡ self.levels)) }
        ensures err { IfErr result (λ e. IsMemory e) }
    {
        let Falling {
            rect,
            levels,
            y: _y,
            all,
            low,
        } = self;
        Ok(Bands {
            rect,
            levels,
            bands: Planes::new(listed(alloc, levels, all, low)?),
        })
    }
}

/// The lists of the sub-bands in the order of QCD, of what the levels made.
fn listed(
    alloc: Global,
    levels: u8,
    made: Vec<FallingLevel>,
    low: Vec<i32>,
) -> Result<Vec<Vec<i32>>, Fault>
    requires count { length made.items ≡ levels }
    ensures exact { IfOk result (λ v. (rect : Rect) (f : ℕ → ℕ → ℤ) → HaveBands rect levels f made.items
        → low.items ≡ raster (resolution_area rect levels (levels - levels)) (reduced rect levels f levels)
        → lists_of v.items ≡ analysed_bands rect levels f) }
    ensures err { IfErr result (λ e. IsMemory e) }
{
    let mut all = made;
    let mut bands = Vec::new(alloc);
    for _n in 0..levels {
        let level = all.remove(0);
        let LevelParts {
            ll: _ll,
            hl,
            lh,
            hh,
        } = level.made();
        bands.push(hh)?;
        bands.push(lh)?;
        bands.push(hl)?;
    }
    bands.push(low)?;
    bands.reverse();
    Ok(bands)
}

/// The sub-bands of a tile-component from its samples row by row, which are given to its levels in
/// steps of `step` rows (FDWT, T.800 F.4.1).
pub fn analyse_by_rows(
    alloc: Global,
    rect: &Rect,
    levels: u8,
    samples: &[i32],
    step: u32,
) -> Result<Bands, Fault>
    requires area { IsArea rect.now }
    requires levels { levels ≤ 10 }
    requires whole { length samples.now ≡ places_of rect.now }
    requires small { All (IsBelow (2 ^ 17)) samples.now }
    requires step { 1 ≤ step }
    ensures exact { Answers (λ b. b.bands) result (Ok (analysed_bands rect.now levels (plane_at rect.now samples.now))) }
    ensures given { IfOk result (λ b. (b.rect ≡ rect.now) × (b.levels ≡ levels)) }
{
    let mut falling = Falling::new(alloc, rect, levels)?;
    let width = (rect.x1 - rect.x0) as usize;
    let mut rows = Vec::new(alloc);
    let mut e = rect.y0;
    while e < rect.y1 {
        let to = e.saturating_add(step).min(rect.y1);
        let at = (e - rect.y0) as usize * width;
        let count = (to - e) as usize * width;
        rows.clear();
        rows.extend_from_slice(cut(samples, at, count))?;
        falling.give(to, &mut rows)?;
        e = to;
    }
    falling.into_bands(alloc)
}
