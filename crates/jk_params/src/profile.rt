//! Whether an image is written with parameters.

ghost use Rattle.std.specs.Prelude.{◌≡◌, ◌+◌, ◌-◌, ◌*◌, ◌/◌, ◌<◌, ◌≤◌, ◌^◌, ℕ, IsTrue, IfOk, Ok, Err, if◌then◌else◌};
ghost use Rattle.std.specs.Prelude.{length, option_map, Option, nat_lt, nat_le, ◌&&◌, true, replicate};
ghost use Rattle.std.specs.Option.{ForSome};
ghost use Rattle.std.specs.List.{list_all};
ghost use Rattle.jk_math.specs.Picture.{IsPicture};
ghost use Rattle.jk_marks.specs.Siz.{IsSiz};
ghost use Rattle.jk_geom.specs.TileShapes.{AreCodings};
ghost use Rattle.jk_params.specs.Coding.{coding_with};
ghost use Rattle.jk_params.specs.Headers.{most_packets};
ghost use Rattle.jk_params.specs.PictureFrames.{IsPictureFrame};
ghost use Rattle.jk_params.specs.Profile.{siz_of, siz_for, cod_of, coding_for, frame_packets, are_sizes, are_precincts};
ghost use Rattle.jk_params.specs.Profile.{is_tile, is_contained, is_profile, is_profile_for, tiles_of, tiles_for};
ghost use Rattle.jk_params.specs.Profile.{IsWrittenBy, IsWrittenFor};
ghost use Rattle.jk_params.specs.Tiling.{first_tile, tile_side, tiles_between};

use crate::coding::coding;
use crate::count::count_alike;
use crate::parameters::{Container, Parameters};
use crate::picture_frame::{PictureFrame, frame_of};
use jk_geom::Codings;
use jk_marks::{Cod, Coding, CodingStyle, Exponents, Precincts, Quantisation, Siz};
use jk_math::{Fault, Image};

/// Whether levels, layers and code-block sizes are within the profile.
fn sizes(parameters: &Parameters) -> bool
    ensures { result ≡ are_sizes parameters.now }
{
    parameters.levels <= 5
        && 1 <= parameters.layers
        && parameters.layers <= 32
        && 2 <= parameters.xcb
        && parameters.xcb <= 10
        && 2 <= parameters.ycb
        && parameters.ycb <= 10
        && parameters.xcb + parameters.ycb <= 12
}

/// Whether each exponent is at most 15.
fn are_small(sizes: &[(u8, u8)]) -> bool
    ensures { result ≡ list_all (λ s. nat_le s.0 15 && nat_le s.1 15) sizes.now }
{
    sizes.iter().all(|s| s.0 <= 15 && s.1 <= 15)
}

/// Whether no exponent is 0.
fn are_positive(sizes: &[(u8, u8)]) -> bool
    ensures { result ≡ list_all (λ s. nat_lt 0 s.0 && nat_lt 0 s.1) sizes.now }
{
    sizes.iter().all(|s| 0 < s.0 && 0 < s.1)
}

/// Whether these are no precinct sizes, or one for each resolution, with 0 only at the lowest.
fn precincts(levels: u8, sizes: &[(u8, u8)]) -> bool
    ensures { result ≡ are_precincts levels sizes.now }
{
    if sizes.is_empty() {
        return true;
    }
    if sizes.len() != levels as usize + 1 {
        return false;
    }
    are_small(sizes) && are_positive(&sizes[1..])
}

/// Whether a tile may have these sides.
fn tile(sides: Option<(u32, u32)>) -> bool
    ensures { result ≡ is_tile sides }
{
    match sides {
        None => true,
        Some((width, height)) => {
            1 <= width && width < 1 << 31 && 1 <= height && height < 1 << 31
        }
    }
}

/// Whether the container holds so many components of this sign.
fn container(container: Container, components: usize, signed: bool) -> bool
    ensures { result ≡ is_contained container components signed }
{
    match container {
        Container::Raw => true,
        Container::Jp2 => !signed && (components == 1 || components == 3),
    }
}

/// Where the first tile of a side begins.
fn first_tile(side: Option<u32>, start: u32) -> u32
    requires { ForSome side (λ s. 0 < s) }
    ensures value { result ≡ first_tile side start }
    ensures below { result ≤ start }
{
    match side {
        None => 0,
        Some(side) => side * (start / side),
    }
}

/// The side of a tile of an image that ends there.
fn tile_side(side: Option<u32>, end: u32) -> u32
    ensures { result ≡ tile_side side end }
{
    match side {
        None => end,
        Some(side) => side,
    }
}

/// How many tiles of a side lie between the start of the first one and the end of the image.
fn tiles(side: Option<u32>, start: u32, end: u32) -> u64
    requires some { ForSome side (λ s. (0 < s) × (s < 2 ^ 31)) }
    requires small { end < 2 ^ 31 }
    requires order { start < end }
    ensures value { result ≡ tiles_between side start end }
    ensures below { result < 2 ^ 32 }
{
    match side {
        None => 1,
        Some(side) => {
            let first = first_tile(Some(side), start);
            ((end - first) as u64 + side as u64 - 1) / side as u64
        }
    }
}

/// The width and the height of a tile, where they are given.
fn sides(tile: Option<(u32, u32)>) -> (Option<u32>, Option<u32>)
    requires { is_tile tile ≡ true }
    ensures width { result.0 ≡ option_map (λ t. t.0) tile }
    ensures height { result.1 ≡ option_map (λ t. t.1) tile }
    ensures wide { ForSome result.0 (λ s. (0 < s) × (s < 2 ^ 31)) }
    ensures high { ForSome result.1 (λ s. (0 < s) × (s < 2 ^ 31)) }
{
    match tile {
        None => (None, None),
        Some((width, height)) => (Some(width), Some(height)),
    }
}

/// Whether the tiling has at most 65,535 tiles.
fn are_few_tiles(tile: Option<(u32, u32)>, frame: &PictureFrame) -> bool
    requires tile { is_tile tile ≡ true }
    requires frame { IsPictureFrame frame.now }
    ensures { result ≡ nat_le (tiles_for tile frame.now) 65535 }
{
    let (x0, y0) = (frame.x0, frame.y0);
    let (x1, y1) = (x0 + frame.width, y0 + frame.height);
    let (width, height) = sides(tile);
    tiles(width, x0, x1) * tiles(height, y0, y1) <= 65535
}

/// The image and tile size segment that is written of an image with this frame (T.800 A.5.1).
#[tactic(auto, using(crate::proofs::ProfileLaws::siz_fits))]
pub fn siz_for(frame: &PictureFrame, parameters: &Parameters) -> Siz
    requires frame { IsPictureFrame frame.now }
    requires tile { is_tile parameters.now.tile ≡ true }
    requires few { nat_le (tiles_for parameters.now.tile frame.now) 65535 ≡ true }
    ensures value { result ≡ siz_for frame.now parameters.now }
    ensures siz { IsSiz result }
{
    let (x0, y0) = (frame.x0, frame.y0);
    let (x1, y1) = (x0 + frame.width, y0 + frame.height);
    let (width, height) = sides(parameters.tile);
    Siz {
        rsiz: 0,
        x1,
        y1,
        x0,
        y0,
        tile_width: tile_side(width, x1),
        tile_height: tile_side(height, y1),
        tile_x0: first_tile(width, x0),
        tile_y0: first_tile(height, y0),
        components: frame.components,
        depth: frame.depth,
        signed: frame.signed,
    }
}

/// The image and tile size segment that is written (T.800 A.5.1).
pub fn siz_of(image: &Image, parameters: &Parameters) -> Siz
    requires tile { is_tile parameters.now.tile ≡ true }
    requires few { nat_le (tiles_of parameters.now.tile image.now) 65535 ≡ true }
    ensures value { result ≡ siz_of image.now parameters.now }
    ensures siz { IsSiz result }
    ensures picture { IsPicture image.now }
{
    siz_for(&frame_of(image), parameters)
}

/// The coding style segment that is written (T.800 A.6.1).
pub fn cod_of(parameters: &Parameters) -> Cod
    requires { length parameters.now.precincts.items ≤ 11 }
    ensures { result ≡ cod_of parameters.now }
{
    Cod {
        sop: parameters.sop,
        eph: parameters.eph,
        order: parameters.order,
        layers: parameters.layers,
        colour: parameters.colour,
        style: CodingStyle {
            levels: parameters.levels,
            xcb: parameters.xcb,
            ycb: parameters.ycb,
            style: parameters.style,
            precincts: Precincts::new(&parameters.precincts),
        },
    }
}

/// How each component is coded, with these guard bits and exponents.
pub fn coding_with(parameters: &Parameters, steps: &Quantisation) -> Coding
    requires { length parameters.now.precincts.items ≤ 11 }
    ensures { result ≡ coding_with (cod_of parameters.now).style steps.now }
{
    coding(&cod_of(parameters).style, steps)
}

/// How each component is coded. The exponents say nothing of the packets.
fn coding_for(parameters: &Parameters) -> Coding
    requires { length parameters.now.precincts.items ≤ 11 }
    ensures { result ≡ coding_for parameters.now }
{
    let steps = Quantisation {
        guard: 2,
        exponents: Exponents::new(&[]),
    };
    coding_with(parameters, &steps)
}

/// How the components of an image are coded, so many of them, but for their exponents.
#[tactic(auto, using(crate::proofs::ProfileLaws::codings_fit))]
pub fn codings_for(parameters: &Parameters, components: usize) -> Codings
    requires sizes { are_sizes parameters.now ≡ true }
    requires precincts { are_precincts parameters.now.levels parameters.now.precincts.items ≡ true }
    requires some { 1 ≤ components }
    requires few { components ≤ 4 }
    ensures value { result ≡ replicate components (coding_for parameters.now) }
    ensures codings { AreCodings result }
{
    let mut codings = Codings::none();
    for _ in 0..components {
        codings.push(coding_for(parameters));
    }
    codings
}

/// Whether there are at most 2^24 packets.
fn are_few_packets(frame: &PictureFrame, parameters: &Parameters) -> bool
    requires frame { IsPictureFrame frame.now }
    requires sizes { are_sizes parameters.now ≡ true }
    requires precincts { are_precincts parameters.now.levels parameters.now.precincts.items ≡ true }
    requires tile { is_tile parameters.now.tile ≡ true }
    requires few { nat_le (tiles_for parameters.now.tile frame.now) 65535 ≡ true }
    ensures { result ≡ nat_le (frame_packets parameters.now frame.now) most_packets }
{
    let siz = siz_for(frame, parameters);
    let codings = codings_for(parameters, siz.components as usize);
    count_alike(&siz, parameters.layers, &codings) <= 1 << 24
}

impl Parameters {
    /// Whether the image is written with these parameters.
    ///
    /// BadParameters: a field outside the range that it names, an image that the container doesn't
    /// hold, more than 65,535 tiles, or more than 2^24 packets.
    #[tactic(auto, unfolding(crate::specs::Profile::is_profile))]
    pub fn check(&self, image: &Image) -> Result<(), Fault>
        ensures exact { result ≡ (if is_profile self.now image.now then Ok tt else Err Fault.BadParameters) }
        // What is within the profile has a size, and a coding that can be counted.
        ensures sound { IfOk result (λ _. IsWrittenBy self.now image.now) }
    {
        self.check_frame(&frame_of(image))
    }

    /// Whether an image with this frame is written with these parameters, as [`Parameters::check`]
    /// says: the samples say nothing of it.
    #[tactic(auto, unfolding(crate::specs::Profile::is_profile_for))]
    pub fn check_frame(&self, frame: &PictureFrame) -> Result<(), Fault>
        requires { IsPictureFrame frame.now }
        ensures exact { result ≡ (if is_profile_for self.now frame.now then Ok tt else Err Fault.BadParameters) }
        // What is within the profile has a size, and a coding that can be counted.
        ensures sound { IfOk result (λ _. IsWrittenFor self.now frame.now) }
    {
        let components = frame.components as usize;
        if !sizes(self) || !precincts(self.levels, &self.precincts) {
            return Err(Fault::BadParameters);
        }
        if self.colour && components < 3 {
            return Err(Fault::BadParameters);
        }
        if !container(self.container, components, frame.signed) {
            return Err(Fault::BadParameters);
        }
        if !tile(self.tile) || !are_few_tiles(self.tile, frame) {
            return Err(Fault::BadParameters);
        }
        if !are_few_packets(frame, self) {
            return Err(Fault::BadParameters);
        }
        Ok(())
    }
}
