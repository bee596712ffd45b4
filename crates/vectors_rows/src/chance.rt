//! Images and parameters by chance.

ghost use Rattle.std.specs.Prelude.{◌<◌, ◌≤◌};

use jk_marks::Order;
use jk_math::{Image, Style};
use jk_params::{Container, Parameters};
use std::alloc::Global;
use std::test::Fail;
use vectors::drawn;

/// Numbers by chance.
#[derive(Drop)]
pub(crate) struct Chance {
    pub(crate) state: u32,
}

impl Chance {
    /// A number below another one.
    pub(crate) fn below(&mut self, limit: u32) -> u32
        requires { 1 ≤ limit }
        ensures { result < limit }
    {
        self.state = drawn(self.state);
        (self.state >> 8) % limit
    }

    /// Yes or no.
    pub(crate) fn tossed(&mut self) -> bool {
        self.below(2) == 0
    }
}

/// What images by chance have at most, and whether their samples may be negative.
#[derive(Clone, Copy)]
pub(crate) struct Kind {
    pub(crate) columns: u32,
    pub(crate) rows: u32,
    pub(crate) bits: u32,
    pub(crate) signed: bool,
}

/// Samples of so many bits by chance.
pub(crate) fn plane(
    alloc: Global,
    chance: &mut Chance,
    count: u32,
    depth: u8,
    signed: bool,
) -> Result<Vec<i32>, Fail>
    requires { depth ≤ 16 }
{
    let range = 1u32 << depth;
    let least = if signed {
        (range / 2 & 0xFFFF) as i32
    } else {
        0
    };
    let mut plane = Vec::new(alloc);
    for _ in 0..count {
        plane.push((chance.below(range.max(1)) & 0xFFFF) as i32 - least)?;
    }
    Ok(plane)
}

/// An image by chance.
pub(crate) fn image(alloc: Global, chance: &mut Chance, kind: Kind) -> Result<Image, Fail> {
    let (x, y) = (chance.below(40), chance.below(40));
    let width = 1 + chance.below(kind.columns.max(1));
    let height = 1 + chance.below(kind.rows.max(1));
    let depth = 1 + chance.below(kind.bits.max(1).min(16)) as u8;
    let count = width.saturating_mul(height);
    let mut planes = Vec::new(alloc);
    for _ in 0..1 + chance.below(4) {
        planes.push(plane(alloc, chance, count, depth, kind.signed)?)?;
    }
    Ok(Image::new(x, y, width, height, depth, kind.signed, planes)?)
}

/// Styles of code-blocks by chance.
fn style(chance: &mut Chance) -> Style {
    Style {
        reset: chance.tossed(),
        causal: chance.tossed(),
        segments: chance.tossed(),
    }
}

/// Parameters by chance.
pub(crate) fn parameters(
    alloc: Global,
    chance: &mut Chance,
    components: usize,
) -> Result<Parameters, Fail> {
    let levels = chance.below(6) as u8;
    let mut precincts = Vec::new(alloc);
    if chance.tossed() {
        for _ in 0..levels + 1 {
            precincts.push((1 + chance.below(5) as u8, 1 + chance.below(5) as u8))?;
        }
    }
    let tile = if chance.tossed() {
        Some((9 + chance.below(30), 9 + chance.below(30)))
    } else {
        None
    };
    Ok(Parameters {
        levels,
        layers: 1 + chance.below(3) as u16,
        order: Order::Lrcp,
        tile,
        xcb: 2 + chance.below(3) as u8,
        ycb: 2 + chance.below(3) as u8,
        style: style(chance),
        precincts,
        colour: components >= 3 && chance.tossed(),
        sop: false,
        eph: false,
        container: Container::Raw,
    })
}
