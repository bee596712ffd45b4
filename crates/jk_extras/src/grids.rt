//! Resolutions (T.800 I.5.3.7).

ghost use Rattle.std.specs.Prelude.{◌≡◌, ◌+◌, ◌<◌, ◌≤◌, length};
ghost use Rattle.jk_boxes.specs.Boxes.{head_size};
ghost use Rattle.jk_extras.specs.Grids.{signed_byte, ratio_of, has_zero, grid_at, grids_passed, grids_at};

use byteorder::{BigEndian, ByteOrder};
use jk_boxes::{BoxHead, read_box};
use jk_math::Fault;

/// The capture resolution box.
pub(crate) const CAPTURE: u32 = 0x7265_7363;
/// The default display resolution box.
pub(crate) const DISPLAY: u32 = 0x7265_7364;

/// A number of samples of the reference grid per metre: the numerator by the denominator, times ten
/// to the exponent.
#[derive(Clone, Copy, Debug, PartialEq, Eq)]
pub struct Ratio {
    pub numerator: u16,
    pub denominator: u16,
    pub exponent: i8,
}

/// A resolution.
#[derive(Clone, Copy, Debug, PartialEq, Eq)]
pub struct Grid {
    /// Samples of a column.
    pub down: Ratio,
    /// Samples of a row.
    pub across: Ratio,
}

/// What a resolution box tells.
#[derive(Clone, Copy, Debug, PartialEq, Eq)]
pub struct Grids {
    pub capture: Option<Grid>,
    pub display: Option<Grid>,
}

/// A byte in two's complement.
fn signed(byte: u8) -> i8
    ensures { result ≡ signed_byte byte }
{
    if byte < 128 {
        byte as i8
    } else {
        -1 - (255 - byte) as i8
    }
}

/// The ratio whose numerator stands at a place, and whose exponent at another.
fn read_ratio(contents: &[u8], at: usize, exponent: usize) -> Ratio
    requires whole { at + 4 ≤ length contents.now }
    requires inside { exponent < length contents.now }
    ensures { result ≡ ratio_of at exponent contents.now }
{
    Ratio {
        numerator: BigEndian::read_u16(&contents[at..]),
        denominator: BigEndian::read_u16(&contents[at + 2..]),
        exponent: signed(contents[exponent]),
    }
}

/// Whether a numerator or a denominator is 0.
pub(crate) fn has_zero(grid: &Grid) -> bool
    ensures { result ≡ has_zero grid.now }
{
    grid.down.numerator == 0
        || grid.down.denominator == 0
        || grid.across.numerator == 0
        || grid.across.denominator == 0
}

/// The contents of a capture or of a display resolution box.
#[tactic(auto, unfolding(crate::specs::Grids::grid_at))]
fn read_grid(contents: &[u8]) -> Result<Grid, Fault>
    ensures { result ≡ grid_at contents.now }
{
    if contents.len() != 10 {
        return Err(Fault::BadBox);
    }
    let grid = Grid {
        down: read_ratio(contents, 0, 8),
        across: read_ratio(contents, 4, 9),
    };
    if has_zero(&grid) {
        return Err(Fault::BadValue);
    }
    Ok(grid)
}

/// Passes a box within a resolution box, which begins the rest. The first of each kind counts.
#[tactic(auto, unfolding(crate::specs::Grids::grids_passed))]
fn pass_grid(grids: Grids, head: &BoxHead, rest: &[u8]) -> Result<Grids, Fault>
    requires head { head_size head.now.form ≤ head.now.size }
    requires whole { head.now.size ≤ length rest.now }
    ensures { result ≡ grids_passed grids head.now rest.now }
{
    if head.kind == CAPTURE && grids.capture.is_none() {
        let grid = read_grid(head.contents(rest))?;
        return Ok(Grids {
            capture: Some(grid),
            display: grids.display,
        });
    }
    if head.kind == DISPLAY && grids.display.is_none() {
        let grid = read_grid(head.contents(rest))?;
        return Ok(Grids {
            capture: grids.capture,
            display: Some(grid),
        });
    }
    Ok(grids)
}

/// The contents of a resolution box.
pub fn read_grids(contents: &[u8]) -> Result<Grids, Fault>
    ensures { result ≡ grids_at contents.now }
{
    let mut at = 0;
    let mut grids = Grids {
        capture: None,
        display: None,
    };
    while at < contents.len() {
        let rest = &contents[at..];
        let head = read_box(rest, false)?;
        grids = pass_grid(grids, &head, rest)?;
        at += head.size;
    }
    Ok(grids)
}
