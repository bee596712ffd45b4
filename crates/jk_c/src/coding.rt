//! How an image is encoded, as C programs tell it.

ghost use Rattle.std.specs.Prelude.{◌≡◌, ◌⊎◌, ◌≤◌, ◌<◌, ◌^◌, ◌↔◌, IsTrue, IfOk, IfErr, map, take, false};
ghost use Rattle.jk_math.specs.Memory.{IsMemory};
ghost use Rattle.jk_math.specs.declared.fault.Fault.TheVariants.{BadParameters};
ghost use Rattle.jk_marks.specs.OrderCode.{order_code};
ghost use Rattle.jk_c.specs.Codings.{IsKnownCoding, AreParameters, exponents_of, tile_of, container_of, is_set};

use jk_marks::{Order, style_byte, style_of};
use jk_math::Fault;
use jk_params::{Container, Parameters};
use std::alloc::Global;

/// How an image is encoded.
#[repr(C)]
#[derive(Clone, Copy, Debug, PartialEq, Eq)]
pub struct CallerCoding {
    /// Decomposition levels, 0 to 5.
    pub levels: u32,
    /// Layers, 1 to 32.
    pub layers: u32,
    /// The progression order, 0 to 4 (T.800 Table A.16).
    pub order: u32,
    /// The width of a tile; with a height of 0 as well, there is one tile.
    pub tile_width: u32,
    /// The height of a tile.
    pub tile_height: u32,
    /// The exponent of a code-block's width, 2 to 10.
    pub block_width: u32,
    /// The exponent of a code-block's height, 2 to 10; both are at most 12.
    pub block_height: u32,
    /// How many precinct sizes are given: none, or one for each resolution.
    pub precinct_count: u32,
    /// Exponents of precinct sizes, PPx + 16 PPy, from the lowest resolution on.
    pub precincts: [u8; 8],
    /// Whether components 0 to 2 go through the colour transform.
    pub colour: u32,
    /// Whether SOP stands before each packet.
    pub sop: u32,
    /// Whether EPH stands after each packet header.
    pub eph: u32,
    /// Whether a bare codestream is written, and no JP2 file.
    pub raw: u32,
    /// The style of code-blocks: 2, context reset, 8, vertically causal contexts, and 32,
    /// segmentation symbols, added (T.800 Table A.19).
    pub style: u32,
    /// Zeros.
    pub reserved: [u32; 3],
}

/// Whether what a coding says has a place in parameters.
fn is_known(coding: &CallerCoding) -> bool
    ensures { IsTrue result ↔ IsKnownCoding coding.now }
{
    coding.levels <= 255
        && coding.layers <= 65535
        && coding.order <= 4
        && coding.block_width <= 255
        && coding.block_height <= 255
        && coding.precinct_count <= 8
        && style_byte(style_of(coding.style)) as u32 == coding.style
        && coding.reserved == [0; 3]
}

/// The order of a number.
fn order(number: u32) -> Order
    requires { number ≤ 4 }
    ensures { order_code result ≡ number }
{
    match number {
        0 => Order::Lrcp,
        1 => Order::Rlcp,
        2 => Order::Rpcl,
        3 => Order::Pcrl,
        _ => Order::Cprl,
    }
}

/// The sides of a tile, or none where both are 0.
fn tile(width: u32, height: u32) -> Option<(u32, u32)>
    ensures { result ≡ tile_of width height }
{
    if width == 0 && height == 0 {
        None
    } else {
        Some((width, height))
    }
}

/// What holds the codestream.
fn container(raw: u32) -> Container
    ensures { result ≡ container_of raw }
{
    if raw == 0 {
        Container::Jp2
    } else {
        Container::Raw
    }
}

/// Pairs of exponents, of one byte each.
fn precincts(alloc: Global, sizes: &[u8]) -> Result<Vec<(u8, u8)>, Fault>
    ensures value { IfOk result (λ v. v.items ≡ map exponents_of sizes.now) }
    ensures err { IfErr result IsMemory }
{
    Ok(
        sizes
            .iter()
            .map(|both| (*both % 16, *both / 16))
            .collect(alloc)?,
    )
}

/// The parameters that a coding asks for.
///
/// BadParameters: it says what has no place in them.
pub(crate) fn parameters(alloc: Global, coding: &CallerCoding) -> Result<Parameters, Fault>
    ensures value { IfOk result (λ q. AreParameters coding.now q) }
    ensures known { IfOk result (λ _. IsKnownCoding coding.now) }
    ensures err { IfErr result (λ e. IsMemory e ⊎ ((e ≡ BadParameters) × (IsKnownCoding coding.now → ⊥))) }
{
    if !is_known(coding) {
        return Err(Fault::BadParameters);
    }
    let precincts = precincts(alloc, &coding.precincts[..coding.precinct_count as usize])?;
    Ok(Parameters {
        levels: coding.levels as u8,
        layers: coding.layers as u16,
        order: order(coding.order),
        tile: tile(coding.tile_width, coding.tile_height),
        xcb: coding.block_width as u8,
        ycb: coding.block_height as u8,
        style: style_of(coding.style),
        precincts,
        colour: coding.colour != 0,
        sop: coding.sop != 0,
        eph: coding.eph != 0,
        container: container(coding.raw),
    })
}
