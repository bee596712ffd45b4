//! Images: where they lie on the reference grid, and their samples.

ghost use Rattle.std.specs.Prelude.{◌≡◌, ◌+◌, ◌*◌, ◌^◌, ◌<◌, ◌≤◌, ◌↔◌, IsTrue, Ok, Err, IfErr, IfOk, length, All, map};
ghost use Rattle.std.specs.Prelude.{List, ℤ, ◌≤ℤ◌};
ghost use Rattle.std.specs.Global.{Vec};
ghost use Rattle.jk_math.specs.Picture.{Picture, IsFrame, IsPlane, AreComponents, IsPicture, lowest, greatest};
ghost use Rattle.jk_math.specs.Picture.{sample_at};
ghost use Rattle.jk_math.specs.Lists.{lists_of};

use crate::fault::Fault;
use crate::planes::Planes;
use std::marker::Model;

/// An image of the profile: 1 to 4 components of one size, depth and sign.
#[derive(Debug, Drop)]
pub struct Image {
    x0: u32,
    y0: u32,
    width: u32,
    height: u32,
    depth: u8,
    signed: bool,
    planes: Planes,
}

impl Model for Image {
    ghost Value = { Picture };

    ghost view = { λ i.
        record {
          x0 = i.x0;
          y0 = i.y0;
          width = i.width;
          height = i.height;
          depth = i.depth;
          signed = i.signed;
          planes = i.planes;
        } };

    ghost invariant = { λ i. IsPicture
        (record {
          x0 = i.x0;
          y0 = i.y0;
          width = i.width;
          height = i.height;
          depth = i.depth;
          signed = i.signed;
          planes = i.planes;
        }) };
}

/// The least and the greatest sample of a depth, 1 to 16 bits (T.800 A.5.1, Ssiz).
pub fn sample_range(depth: u8, signed: bool) -> (i32, i32)
    requires some { 1 ≤ depth }
    requires few { depth ≤ 16 }
    ensures lowest { result.0 ≡ lowest depth signed }
    ensures greatest { result.1 ≡ greatest depth signed }
{
    if signed {
        let half = (1u32 << (depth - 1)) as i32;
        (-half, half - 1)
    } else {
        (0, (1u32 << depth) as i32 - 1)
    }
}

/// Whether an image of this size may stand at this place.
fn is_frame(x0: u32, y0: u32, width: u32, height: u32) -> bool
    ensures { IsTrue result ↔ IsFrame x0 y0 width height }
{
    width > 0
        && height > 0
        && x0 as u64 + (width as u64) < 1 << 31
        && y0 as u64 + (height as u64) < 1 << 31
        && width as u64 * height as u64 <= 1 << 28
}

/// Whether a sample lies within the range of its depth.
#[inline(always)]
fn is_within(sample: &i32, depth: u8, signed: bool) -> bool
    requires some { 1 ≤ depth }
    requires few { depth ≤ 16 }
    ensures { IsTrue result ↔ (lowest depth signed ≤ℤ sample.now) × (sample.now ≤ℤ greatest depth signed) }
{
    let (lowest, greatest) = sample_range(depth, signed);
    lowest <= *sample && *sample <= greatest
}

/// Whether all of these samples lie within the range of their depth. Every one is looked at, so
/// that several are looked at together.
fn are_within(samples: &[i32], depth: u8, signed: bool) -> bool
    requires some { 1 ≤ depth }
    requires few { depth ≤ 16 }
    ensures { IsTrue result ↔ All (λ s. (lowest depth signed ≤ℤ s) × (s ≤ℤ greatest depth signed)) samples.now }
{
    let mut within = true;
    for sample in samples {
        within &= is_within(sample, depth, signed);
    }
    within
}

/// Whether these are all the samples of a component, each within the range of its depth.
fn is_plane(samples: &[i32], area: usize, depth: u8, signed: bool) -> bool
    requires some { 1 ≤ depth }
    requires few { depth ≤ 16 }
    ensures { IsTrue result ↔ IsPlane area depth signed samples.now }
{
    samples.len() == area && are_within(samples, depth, signed)
}

/// Whether each plane has all its samples, each within the range of its depth.
fn are_planes(planes: &[Vec<i32>], area: usize, depth: u8, signed: bool) -> bool
    requires some { 1 ≤ depth }
    requires few { depth ≤ 16 }
    ensures { IsTrue result ↔ All (λ plane. IsPlane area depth signed plane.items) planes.now }
{
    planes
        .iter()
        .all(|plane| is_plane(plane, area, depth, signed))
}

/// Whether these are 1 to 4 planes of 1 to 16 bits, with all their samples.
fn are_components(planes: &[Vec<i32>], area: usize, depth: u8, signed: bool) -> bool
    ensures { IsTrue result ↔ AreComponents area depth signed (lists_of planes.now) }
{
    if !(1..=16).contains(&depth) {
        return false;
    }
    if !(1..=4).contains(&planes.len()) {
        return false;
    }
    are_planes(planes, area, depth, signed)
}

impl Image {
    /// An image whose upper left sample stands at (`x0`, `y0`), of 1 to 16 bits, with 1 to 4 planes
    /// of `width` times `height` samples row by row.
    ///
    /// BadParameters: a side of 0, an area above 2^28, a right or lower edge at 2^31 or beyond,
    /// another depth or number of planes, a plane of another length, or a sample outside the range
    /// of the depth.
    pub fn new(
        x0: u32,
        y0: u32,
        width: u32,
        height: u32,
        depth: u8,
        signed: bool,
        planes: Vec<Vec<i32>>,
    ) -> Result<Image, Fault>
        ensures made { let p : Picture = record {
          x0 = x0;
          y0 = y0;
          width = width;
          height = height;
          depth = depth;
          signed = signed;
          planes = lists_of planes.items;
        } in
            IsPicture p → result ≡ Ok p }
        ensures value { IfOk result
            (λ image. image
            ≡ record {
              x0 = x0;
              y0 = y0;
              width = width;
              height = height;
              depth = depth;
              signed = signed;
              planes = lists_of planes.items;
            }) }
        ensures profile { IfOk result IsPicture }
        ensures refused { IfErr result (λ e. e ≡ Fault.BadParameters) }
    {
        if !is_frame(x0, y0, width, height) {
            return Err(Fault::BadParameters);
        }
        if !are_components(&planes, width as usize * height as usize, depth, signed) {
            return Err(Fault::BadParameters);
        }
        Ok(Image {
            x0,
            y0,
            width,
            height,
            depth,
            signed,
            planes: Planes::new(planes),
        })
    }

    /// The column of the upper left sample on the reference grid.
    pub fn x0(&self) -> u32
        ensures value { result ≡ self.now.x0 }
        ensures profile { IsPicture self.now }
    {
        self.x0
    }

    /// The row of the upper left sample on the reference grid.
    pub fn y0(&self) -> u32
        ensures { result ≡ self.now.y0 }
    {
        self.y0
    }

    /// Samples in a row.
    pub fn width(&self) -> u32
        ensures value { result ≡ self.now.width }
        ensures profile { IsPicture self.now }
    {
        self.width
    }

    /// Rows.
    pub fn height(&self) -> u32
        ensures { result ≡ self.now.height }
    {
        self.height
    }

    /// Bits of a sample, the sign counted.
    pub fn depth(&self) -> u8
        ensures { result ≡ self.now.depth }
    {
        self.depth
    }

    /// Whether samples may be negative.
    pub fn signed(&self) -> bool
        ensures { result ≡ self.now.signed }
    {
        self.signed
    }

    /// The samples of each component.
    pub fn planes(&self) -> &Planes
        ensures { result.now ≡ self.now.planes }
    {
        &self.planes
    }

    /// The sample of a component at a column and a row, counted from the upper left sample.
    pub fn sample(&self, component: usize, x: u32, y: u32) -> i32
        requires component { component < length self.now.planes }
        requires column { x < self.now.width }
        requires row { y < self.now.height }
        ensures { result ≡ sample_at self.now component x y }
    {
        self.planes.plane(component)[y as usize * self.width as usize + x as usize]
    }

    /// The same samples with the upper left one at (`x0`, `y0`).
    ///
    /// BadParameters: a right or lower edge at 2^31 or beyond.
    pub fn place(self, x0: u32, y0: u32) -> Result<Image, Fault>
        ensures placed { IsFrame x0 y0 self.width self.height → result ≡ Ok (record self { x0 = x0; y0 = y0 }) }
        ensures value { IfOk result (λ image. image ≡ record self { x0 = x0; y0 = y0 }) }
        ensures profile { IfOk result IsPicture }
        ensures refused { IfErr result (λ e. e ≡ Fault.BadParameters) }
    {
        if !is_frame(x0, y0, self.width, self.height) {
            return Err(Fault::BadParameters);
        }
        Ok(Image { x0, y0, ..self })
    }
}
