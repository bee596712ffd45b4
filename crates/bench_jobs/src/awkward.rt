//! Awkward files: small code-blocks, small tiles and precincts, many layers, and noise.

use crate::calls::{decoded, encoded, plain};
use crate::digest::Digest;
use crate::drawing::{grey, noise, photograph};
use crate::scale::Scale;
use jk_commands::EncodeOptions;
use jk_marks::Order;
use jk_math::Fault;
use std::alloc::Global;

/// Encodes and decodes an image.
fn turn(
    alloc: Global,
    digest: &mut Digest,
    drawn: Vec<u8>,
    options: EncodeOptions,
) -> Result<(), Fault> {
    let file = encoded(alloc, drawn, options)?;
    digest.take(&file);
    digest.take(&decoded(alloc, &file, 0)?);
    Ok(())
}

/// Code-blocks of so many columns and rows, by exponents.
fn with_blocks(alloc: Global, block_x: u32, block_y: u32) -> EncodeOptions {
    let mut options = plain(alloc);
    options.block_x = block_x;
    options.block_y = block_y;
    options
}

/// Square tiles.
fn with_tiles(alloc: Global, side: u32, levels: u32) -> EncodeOptions {
    let mut options = plain(alloc);
    options.tile_width = Some(side);
    options.tile_height = Some(side);
    options.levels = levels;
    options
}

/// Many layers, in precincts of 32 by 32, with SOP and EPH.
fn with_layers(alloc: Global) -> Result<EncodeOptions, Fault> {
    let mut options = plain(alloc);
    options.layers = Some(32);
    options.order = Some(Order::Lrcp);
    options.precincts = String::from_str(alloc, "555555555555")?;
    options.sop = true;
    options.eph = true;
    Ok(options)
}

/// Images in small code-blocks, in small tiles, in many layers, in narrow code-blocks with all
/// styles, and noise.
pub(crate) fn awkward(alloc: Global, seed: u64, scale: Scale) -> Result<Digest, Fault> {
    let mut digest = Digest::new();
    let square = scale.size(640, 640);
    turn(
        alloc,
        &mut digest,
        grey(alloc, seed, square)?,
        with_blocks(alloc, 2, 2),
    )?;
    let mut both = with_tiles(alloc, 128, 3);
    both.block_x = 2;
    both.block_y = 2;
    turn(alloc, &mut digest, grey(alloc, seed ^ 1, square)?, both)?;
    let small = with_tiles(alloc, 32, 2);
    turn(
        alloc,
        &mut digest,
        photograph(alloc, seed ^ 2, square)?,
        small,
    )?;
    turn(
        alloc,
        &mut digest,
        photograph(alloc, seed ^ 3, square)?,
        with_tiles(alloc, 64, 5),
    )?;
    turn(
        alloc,
        &mut digest,
        grey(alloc, seed ^ 4, scale.size(1024, 512))?,
        with_layers(alloc)?,
    )?;
    let mut narrow = with_blocks(alloc, 3, 9);
    narrow.style.reset = true;
    narrow.style.causal = true;
    narrow.style.segments = true;
    turn(alloc, &mut digest, grey(alloc, seed ^ 5, square)?, narrow)?;
    turn(
        alloc,
        &mut digest,
        noise(alloc, seed ^ 6, square)?,
        plain(alloc),
    )?;
    Ok(digest)
}
