//! Reading.

ghost use Rattle.std.specs.Prelude.{◌≡◌, ◌*◌, ◌+◌, ◌-◌, ◌<◌, ◌≤◌, ◌^◌, ℕ, List, false, nat_lt, length, drop, IfOk};
ghost use Rattle.std.specs.Prelude.{IfErr, Ok, map, pos, slice_index, slice_index_or};
ghost use Rattle.std.specs.List.{range_with_len};
ghost use Rattle.jk_math.specs.Memory.{IsMemory};
ghost use Rattle.jk_math.specs.Answer.{Answers};
ghost use Rattle.jk_math.specs.Picture.{Picture};
ghost use Rattle.jk_math.specs.Lists.{lists_of};
ghost use Rattle.jk_pnm.specs.Pnm.{components_of, plane_from, IsPnm};
ghost use Rattle.jk_pnm.specs.Reading.{raster_size, samples_of, picture_at, pnm_at};

use crate::header::{Header, read_header};
use jk_math::{Fault, Image};
use std::alloc::Global;

/// Samples of one byte, one after another.
fn bytes_plane(alloc: Global, raster: &[u8]) -> Result<Vec<i32>, Fault>
    ensures value { IfOk result (λ v. v.items ≡ map pos raster.now) }
    ensures err { IfErr result (λ e. IsMemory e) }
{
    Ok(raster.iter().map(|byte| *byte as i32).collect(alloc)?)
}

/// Puts the samples that a raster in colours has of a component, each of one byte, into a list.
fn put_narrow(samples: &mut [i32], raster: &[u8], component: usize)
    requires component { component < 3 }
    requires whole { length samples.old * 3 ≤ length raster.now }
    ensures count { length samples.new ≡ length samples.old }
    ensures each { (k : ℕ) → k < length samples.old
        → slice_index_or samples.new k (pos 0) ≡ pos (slice_index raster.now (k * 3 + component)) }
{
    for pixel in 0..samples.len() {
        samples[pixel] = raster[pixel * 3 + component] as i32;
    }
}

/// The samples that a raster in colours has of a component, each of one byte.
#[inline(never)]
fn narrow_plane(
    alloc: Global,
    raster: &[u8],
    pixels: usize,
    component: usize,
) -> Result<Vec<i32>, Fault>
    requires component { component < 3 }
    requires whole { pixels * 3 ≤ length raster.now }
    ensures value { IfOk result
        (λ v. v.items ≡ map (λ pixel. pos (slice_index raster.now (pixel * 3 + component))) (range_with_len 0 pixels)) }
    ensures err { IfErr result (λ e. IsMemory e) }
{
    let mut samples = vec![in alloc; 0; pixels]?;
    put_narrow(&mut samples, raster, component);
    Ok(samples)
}

/// Puts the samples that a raster has of one of so many components, each of two bytes, into a list.
#[inline(always)]
fn put_wide(samples: &mut [i32], raster: &[u8], components: usize, component: usize)
    requires component { component < components }
    requires whole { 2 * (length samples.old * components) ≤ length raster.now }
    ensures count { length samples.new ≡ length samples.old }
    ensures each { (k : ℕ) → k < length samples.old → slice_index_or samples.new k (pos 0)
        ≡ pos (256 * slice_index raster.now (2 * (k * components + component))
        + slice_index raster.now (2 * (k * components + component) + 1)) }
{
    for pixel in 0..samples.len() {
        let at = 2 * (pixel * components + component);
        samples[pixel] = (256 * raster[at] as u32 + raster[at + 1] as u32) as i32;
    }
}

/// The samples of a component, each of two bytes.
#[inline(never)]
fn wide_plane(
    alloc: Global,
    raster: &[u8],
    pixels: usize,
    components: usize,
    component: usize,
) -> Result<Vec<i32>, Fault>
    requires component { component < components }
    requires whole { 2 * (pixels * components) ≤ length raster.now }
    ensures value { IfOk result
        (λ v. v.items
        ≡ map (λ pixel.
        pos (256 * slice_index raster.now (2 * (pixel * components + component))
        + slice_index raster.now (2 * (pixel * components + component) + 1))) (range_with_len 0 pixels)) }
    ensures err { IfErr result (λ e. IsMemory e) }
{
    let mut samples = vec![in alloc; 0; pixels]?;
    if components == 1 {
        put_wide(&mut samples, raster, 1, component);
        return Ok(samples);
    }
    put_wide(&mut samples, raster, components, component);
    Ok(samples)
}

/// The samples of a component.
fn plane(alloc: Global, header: &Header, raster: &[u8], component: usize) -> Result<Vec<i32>, Fault>
    requires component { component < components_of header.now.colour }
    requires whole { length raster.now ≡ raster_size header.now }
    ensures value { IfOk result
        (λ v. v.items
        ≡ map pos (plane_from header.now.maxval (components_of header.now.colour)
        (header.now.width * header.now.height) raster.now component)) }
    ensures err { IfErr result (λ e. IsMemory e) }
{
    let pixels = header.pixels();
    let components = header.components();
    if header.is_wide() {
        wide_plane(alloc, raster, pixels, components, component)
    } else if components == 1 {
        bytes_plane(alloc, raster)
    } else {
        narrow_plane(alloc, raster, pixels, component)
    }
}

/// The samples of a raster, by components.
fn planes(alloc: Global, header: &Header, raster: &[u8]) -> Result<Vec<Vec<i32>>, Fault>
    requires { length raster.now ≡ raster_size header.now }
    ensures value { IfOk result (λ v. lists_of v.items ≡ map (map pos) (samples_of header.now raster.now)) }
    ensures err { IfErr result (λ e. IsMemory e) }
{
    let components = header.components();
    let mut planes = Vec::new(alloc);
    for component in 0..components {
        planes.push(plane(alloc, header, raster, component)?)?;
    }
    Ok(planes)
}

/// The picture of these planes. BadPnm: a sample above maxval.
fn page(header: &Header, planes: Vec<Vec<i32>>) -> Result<Image, Fault>
    requires wide { 0 < header.now.width }
    requires high { 0 < header.now.height }
    requires area { header.now.width * header.now.height ≤ 2 ^ 28 }
    requires depth { 2 ^ header.now.depth ≡ header.now.maxval + 1 }
    requires bits { (1 ≤ header.now.depth) × (header.now.depth ≤ 16) }
    ensures { (raster : List ℕ) → lists_of planes.items ≡ map (map pos) (samples_of header.now raster)
        → Answers (λ i. i) result (picture_at header.now raster) }
{
    match Image::new(
        0,
        0,
        header.width,
        header.height,
        header.depth,
        false,
        planes,
    ) {
        Ok(image) => Ok(image),
        Err(_) => Err(Fault::BadPnm),
    }
}

/// The picture of a raster. BadPnm: a sample above maxval.
pub(crate) fn picture(alloc: Global, header: &Header, raster: &[u8]) -> Result<Image, Fault>
    requires wide { 0 < header.now.width }
    requires high { 0 < header.now.height }
    requires area { header.now.width * header.now.height ≤ 2 ^ 28 }
    requires depth { 2 ^ header.now.depth ≡ header.now.maxval + 1 }
    requires bits { (1 ≤ header.now.depth) × (header.now.depth ≤ 16) }
    requires whole { length raster.now ≡ raster_size header.now }
    ensures { Answers (λ i. i) result (picture_at header.now raster.now) }
{
    let planes = planes(alloc, header, raster)?;
    page(header, planes)
}

/// How many bytes of a file are let go of at a time.
const PIECE: usize = 1 << 20;

/// The samples of the last bytes of a file, each of one byte.
///
/// The bytes are let go of as their samples are made, the last ones first, so that file and samples
/// are never both whole in memory.
#[inline(never)]
fn last_samples(alloc: Global, bytes: Vec<u8>, count: usize) -> Result<Vec<i32>, Fault>
    requires { count ≤ length bytes.items }
    ensures value { IfOk result (λ v. v.items ≡ map pos (drop (length bytes.items - count) bytes.items)) }
    ensures err { IfErr result (λ e. IsMemory e) }
{
    let mut left = bytes;
    let mut samples = Vec::with_capacity(alloc, count)?;
    for _ in 0..count {
        let Some(byte) = left.pop() else {
            break;
        };
        samples.push(byte as i32)?;
        if left.len() % PIECE == 0 {
            left.shrink_to_fit();
        }
    }
    samples.reverse();
    Ok(samples)
}

/// The picture of a file of one component and samples of one byte, whose end is the raster.
fn grey_picture(alloc: Global, header: &Header, bytes: Vec<u8>) -> Result<Image, Fault>
    requires wide { 0 < header.now.width }
    requires high { 0 < header.now.height }
    requires area { header.now.width * header.now.height ≤ 2 ^ 28 }
    requires depth { 2 ^ header.now.depth ≡ header.now.maxval + 1 }
    requires bits { (1 ≤ header.now.depth) × (header.now.depth ≤ 16) }
    requires grey { header.now.colour ≡ false }
    requires narrow { nat_lt 255 header.now.maxval ≡ false }
    requires room { raster_size header.now ≤ length bytes.items }
    ensures { Answers (λ i. i) result
        (picture_at header.now (drop (length bytes.items - raster_size header.now) bytes.items)) }
{
    let samples = last_samples(alloc, bytes, header.raster_size())?;
    let mut planes = Vec::with_capacity(alloc, 1)?;
    planes.push(samples)?;
    page(header, planes)
}

/// The picture that a file has.
#[tactic(auto, unfolding(crate::specs::Reading::pnm_at))]
fn pnm(alloc: Global, bytes: &[u8]) -> Result<Image, Fault>
    ensures { Answers (λ i. i) result (pnm_at bytes.now) }
{
    let (header, raster) = read_header(bytes)?;
    if raster.len() != header.raster_size() {
        return Err(Fault::BadPnm);
    }
    picture(alloc, &header, raster)
}

/// The picture that a file has. A file of one component and samples of one byte is let go of while
/// its samples are made.
#[tactic(auto, unfolding(crate::specs::Reading::pnm_at))]
fn pnm_of(alloc: Global, bytes: Vec<u8>) -> Result<Image, Fault>
    ensures { Answers (λ i. i) result (pnm_at bytes.items) }
{
    let (header, raster) = read_header(&bytes)?;
    if raster.len() != header.raster_size() {
        return Err(Fault::BadPnm);
    }
    if header.colour || header.is_wide() {
        return picture(alloc, &header, raster);
    }
    grey_picture(alloc, &header, bytes)
}

/// The picture of a PGM file (`P5`, one component) or a PPM file (`P6`, three components), its
/// upper left sample at (0, 0), its samples unsigned and of 1 to 16 bits.
///
/// BadPnm: the file isn't in the grammar, its maxval isn't one less than a power of two, its raster
/// has another length than the header asks for, or a sample is above maxval.
pub fn read(alloc: Global, bytes: &[u8]) -> Result<Image, Fault>
    ensures exact { Answers (λ i. i) result (pnm_at bytes.now) }
    // What is read is a file of this picture.
    ensures found { IfOk result (λ i. IsPnm bytes.now i) }
    // A file of a picture is read.
    ensures only { (p : Picture) → IsPnm bytes.now p → Answers (λ i. i) result (Ok p) }
{
    pnm(alloc, bytes)
}

/// The picture of a PGM or PPM file, as [`read`] gives it. The file is let go of; one of a single
/// component with samples of one byte piece by piece as they are made, so that file and image take
/// little more memory than the image.
pub fn read_owned(alloc: Global, bytes: Vec<u8>) -> Result<Image, Fault>
    ensures exact { Answers (λ i. i) result (pnm_at bytes.items) }
    // What is read is a file of this picture.
    ensures found { IfOk result (λ i. IsPnm bytes.items i) }
    // A file of a picture is read.
    ensures only { (p : Picture) → IsPnm bytes.items p → Answers (λ i. i) result (Ok p) }
{
    pnm_of(alloc, bytes)
}
