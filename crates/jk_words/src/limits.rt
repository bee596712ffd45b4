//! Which option of an encoding is outside its limits.

use jk_options::EncodeOptions;
use std::alloc::{AllocError, Global};

/// The words for a number that is outside its limits.
fn outside(
    alloc: Global,
    name: &str,
    number: u32,
    least: u32,
    most: u32,
) -> Result<Option<String>, AllocError> {
    if least <= number && number <= most {
        return Ok(None);
    }
    let words = format!(in alloc; "{name} is {number}, and may be {least} to {most}")?;
    Ok(Some(words))
}

/// The words for a side of a tile.
fn bad_side(
    alloc: Global,
    name: &str,
    side: Option<u32>,
    other: &str,
) -> Result<Option<String>, AllocError> {
    match side {
        Some(number) => outside(alloc, name, number, 1, 0x7FFF_FFFF),
        None => {
            let words = format!(in alloc; "{other} is given without {name}")?;
            Ok(Some(words))
        }
    }
}

/// The words for the sides of a tile.
fn bad_tile(alloc: Global, options: &EncodeOptions) -> Result<Option<String>, AllocError> {
    let (width, height) = (options.tile_width, options.tile_height);
    if width.is_none() && height.is_none() {
        return Ok(None);
    }
    let words = bad_side(alloc, "--tile-width", width, "--tile-height")?;
    if words.is_some() {
        return Ok(words);
    }
    bad_side(alloc, "--tile-height", height, "--tile-width")
}

/// The words for the sides of a code-block.
fn bad_blocks(alloc: Global, options: &EncodeOptions) -> Result<Option<String>, AllocError> {
    let (width, height) = (options.block_x, options.block_y);
    let words = outside(alloc, "--block-x", width, 2, 10)?;
    if words.is_some() {
        return Ok(words);
    }
    let words = outside(alloc, "--block-y", height, 2, 10)?;
    if words.is_some() {
        return Ok(words);
    }
    if width as u64 + height as u64 > 12 {
        let words = format!(in alloc;
            "--block-x and --block-y are {width} and {height}, and may be 12 at most in all"
        )?;
        return Ok(Some(words));
    }
    Ok(None)
}

/// The words for precinct sizes.
fn bad_precincts(alloc: Global, options: &EncodeOptions) -> Result<Option<String>, AllocError> {
    let text = options.precincts.as_str();
    let digits = text.as_bytes();
    if digits.is_empty() {
        return Ok(None);
    }
    if digits.len() % 2 != 0 || !digits.iter().all(|digit| digit.is_ascii_hexdigit()) {
        let words = format!(in alloc;
            "--precincts is {text}, and may be WIDTH,HEIGHT, powers of two up to 32768, or pairs of hexadecimal digits"
        )?;
        return Ok(Some(words));
    }
    let (sizes, wanted) = (digits.len() as u64 / 2, options.levels as u64 + 1);
    if sizes != wanted {
        let words = format!(in alloc;
            "--precincts has {sizes} sizes, and must have one for each of {wanted} resolutions"
        )?;
        return Ok(Some(words));
    }
    if digits.len() > 2 && digits[2..].contains(&b'0') {
        let words = String::from_str(
            alloc,
            "--precincts has an exponent 0, which only the first size may have",
        )?;
        return Ok(Some(words));
    }
    Ok(None)
}

/// Which option is the first that is outside its limits.
fn first_bad(alloc: Global, options: &EncodeOptions) -> Result<Option<String>, AllocError> {
    let words = outside(alloc, "--levels", options.levels, 0, 5)?;
    if words.is_some() {
        return Ok(words);
    }
    let words = outside(alloc, "--layers", options.layers(), 1, 32)?;
    if words.is_some() {
        return Ok(words);
    }
    let words = bad_tile(alloc, options)?;
    if words.is_some() {
        return Ok(words);
    }
    let words = bad_blocks(alloc, options)?;
    if words.is_some() {
        return Ok(words);
    }
    bad_precincts(alloc, options)
}

/// Why an image isn't encoded with these options, in words.
pub fn bad_option(alloc: Global, options: &EncodeOptions) -> Result<String, AllocError> {
    match first_bad(alloc, options)? {
        Some(words) => Ok(words),
        None => String::from_str(
            alloc,
            "with --x0 and --y0 the right and lower edges may be 2147483647 at most, and there may be 65535 tiles and 16777216 packets",
        ),
    }
}
