//! How many packets a tile has.

ghost use Rattle.std.specs.Prelude.{◌≡◌, ◌+◌, ◌-◌, ◌^◌, ◌<◌, ◌≤◌, min};
ghost use Rattle.jk_marks.specs.Coding.{IsCoding};
ghost use Rattle.jk_geom.specs.Rectangles.{IsArea};
ghost use Rattle.jk_geom.specs.TileShapes.{AreCodings};
ghost use Rattle.jk_geom.specs.Counts.{packet_number, precincts_below};

use crate::precincts::precinct_count;
use crate::shape::Codings;
use jk_marks::Coding;
use jk_math::Rect;

/// How many precincts a component has, and 2^64 - 1 where there are more.
#[tactic(auto, using(crate::proofs::Counts::below_step, crate::proofs::Counts::below_none))]
fn precincts(rect: &Rect, coding: &Coding) -> u64
    requires area { IsArea rect.now }
    requires coding { IsCoding coding.now }
    ensures { result ≡ min (precincts_below rect.now coding.now (coding.now.levels + 1)) (2 ^ 64 - 1) }
{
    let mut count: u64 = 0;
    for r in 0..coding.levels + 1 {
        let (across, down) = precinct_count(rect, coding, r);
        count = count.saturating_add(across as u64 * down as u64);
    }
    count
}

/// How many packets a tile with so many layers and these codings has, and 2^64 - 1 where there are
/// more: one for each layer of each precinct (T.800 B.9).
pub fn packet_count(rect: &Rect, layers: u16, codings: &Codings) -> u64
    requires area { IsArea rect.now }
    requires layers { 1 ≤ layers }
    requires codings { AreCodings codings.now }
    ensures { result ≡ min (packet_number rect.now layers codings.now) (2 ^ 64 - 1) }
{
    let mut count: u64 = 0;
    let codings = codings.as_slice();
    for c in 0..codings.len() {
        count = count.saturating_add(precincts(rect, &codings[c]));
    }
    count.saturating_mul(layers as u64)
}
