//! Tiles by chance, the same in each run.

ghost use Rattle.std.specs.Prelude.{◌≡◌, ◌+◌, ◌<◌, ◌≤◌, ◌^◌, ℕ, length, slice_index_or};
ghost use Rattle.jk_marks.specs.Coding.{IsCoding};
ghost use Rattle.jk_geom.specs.Rectangles.{IsArea};
ghost use Rattle.jk_geom.specs.TileShapes.{AreCodings, IsTileShape};

use jk_geom::{Codings, TileShape};
use jk_marks::{Coding, Exponents, Order, Precincts};
use jk_math::{Rect, Style};

/// Numbers by chance, by a linear congruence modulo 2^64.
#[derive(Drop)]
pub(crate) struct Random {
    state: u64,
}

impl Random {
    /// The numbers from a seed.
    pub(crate) fn new(seed: u64) -> Random {
        Random { state: seed }
    }

    /// A number below `count`.
    pub(crate) fn below(&mut self, count: u32) -> u32
        requires { 0 < count }
        ensures { result < count }
    {
        self.state = self
            .state
            .wrapping_mul(6_364_136_223_846_793_005)
            .wrapping_add(1_442_695_040_888_963_407);
        ((self.state >> 33) % count as u64) as u32
    }
}

/// The exponent of a precinct's size, often small.
fn exponent(random: &mut Random, least: u8) -> u8
    requires { least ≤ 1 }
    ensures small { result < 16 }
    ensures least { least ≤ result }
{
    if random.below(6) == 0 {
        15
    } else {
        least + random.below(4) as u8
    }
}

/// A coding with these precincts.
pub(crate) fn coding(levels: u8, xcb: u8, ycb: u8, sizes: &[(u8, u8)]) -> Coding
    requires levels { levels ≤ 10 }
    requires narrow { (2 ≤ xcb) × (xcb ≤ 6) }
    requires low { (2 ≤ ycb) × (ycb ≤ 6) }
    requires count { length sizes.now ≡ levels + 1 }
    requires small { (r : ℕ) → r ≤ levels
        → ((slice_index_or sizes.now r (0, 0)).0 < 16) × ((slice_index_or sizes.now r (0, 0)).1 < 16) }
    requires whole { (r : ℕ) → 0 < r → r ≤ levels
        → (0 < (slice_index_or sizes.now r (0, 0)).0) × (0 < (slice_index_or sizes.now r (0, 0)).1) }
    ensures { IsCoding result }
{
    Coding {
        levels,
        xcb,
        ycb,
        precincts: Precincts::new(sizes),
        style: Style::plain(),
        guard: 0,
        exponents: Exponents::new(&[]),
    }
}

/// A coding of up to 4 levels.
fn any_coding(random: &mut Random) -> Coding
    ensures { IsCoding result }
{
    let levels = random.below(5) as u8;
    let mut sizes = [(1, 1); 11];
    sizes[0] = (exponent(random, 0), exponent(random, 0));
    for r in 1..levels as usize + 1 {
        sizes[r] = (exponent(random, 1), exponent(random, 1));
    }
    let xcb = 2 + random.below(3) as u8;
    let ycb = 2 + random.below(3) as u8;
    coding(levels, xcb, ycb, &sizes[..levels as usize + 1])
}

/// The codings of so many components.
fn any_codings(random: &mut Random, components: u32) -> Codings
    requires some { 1 ≤ components }
    requires few { components ≤ 4 }
    ensures { AreCodings result }
{
    let mut codings = Codings::none();
    for _component in 0..components {
        codings.push(any_coding(random));
    }
    codings
}

/// The order of a number below 5.
pub(crate) fn order(number: u32) -> Order {
    match number {
        0 => Order::Lrcp,
        1 => Order::Rlcp,
        2 => Order::Rpcl,
        3 => Order::Pcrl,
        _ => Order::Cprl,
    }
}

/// A place below 2^20, often a small one.
fn place(random: &mut Random) -> u32
    ensures { result < 2 ^ 20 }
{
    match random.below(3) {
        0 => random.below(8),
        1 => random.below(100),
        _ => random.below(1 << 20),
    }
}

/// A tile at an odd or even place, up to 40 wide and high, with 1 to 3 components and 1 to 3
/// layers.
pub(crate) fn any_tile(random: &mut Random) -> TileShape
    ensures { IsTileShape result }
{
    let x0 = place(random);
    let y0 = place(random);
    let width = 1 + random.below(40);
    let height = 1 + random.below(40);
    let order = order(random.below(5));
    let layers = 1 + random.below(3) as u16;
    let components = 1 + random.below(3);
    TileShape {
        rect: Rect {
            x0,
            y0,
            x1: x0 + width,
            y1: y0 + height,
        },
        layers,
        order,
        codings: any_codings(random, components),
    }
}
