//! Leaves of which a query says nothing, since a node over them isn't below the threshold.

ghost use Rattle.std.specs.Prelude.{◌≡◌, ℕ, ◌+◌, ◌*◌, ◌/◌, ◌^◌, ◌<◌, ◌≤◌, length, IfSome, None};
ghost use Rattle.jk_tree.specs.TagTree.{shape_of, count, top};
ghost use Rattle.jk_tree.specs.Asking.{IsClosed};

use crate::levels::{Levels, node_over};
use crate::node::Node;

/// Closed leaves of a row, from some place on.
#[derive(Clone, Copy, Drop)]
pub(crate) struct ClosedRun {
    /// Where they end.
    pub(crate) end: u32,
    /// The first row below, down to which the leaves under these are closed too.
    pub(crate) below: u32,
}

/// The first place behind the node of a level over a place.
fn behind(place: u32, level: u32) -> u32
    requires place { place < 65536 }
    requires level { level ≤ 16 }
    ensures after { place < result }
    ensures same { (x : ℕ) → place ≤ x → x < result → x / 2 ^ level ≡ place / 2 ^ level }
{
    ((place >> level) + 1) << level
}

/// The level of the node by which leaf (`column`, `row`) is closed, if it is.
fn closed_level(
    nodes: &[Node],
    levels: Levels,
    column: u32,
    row: u32,
    threshold: u16,
) -> Option<u32>
    requires column { column < levels.width }
    requires row { row < levels.height }
    requires root { levels.root ≡ top (shape_of levels.width levels.height) }
    requires small { levels.root ≤ 16 }
    requires long { length nodes.now ≡ count (shape_of levels.width levels.height) }
    ensures closed { IfSome result
        (λ i. IsClosed (shape_of levels.width levels.height) nodes.now threshold i column row) }
    ensures open { result ≡ None → (i : ℕ)
        → IsClosed (shape_of levels.width levels.height) nodes.now threshold i column row → ⊥ }
{
    let mut start = nodes.len();
    let mut level = levels.root + 1;
    while level > 0 {
        level -= 1;
        let (from, place) = node_over(levels, level, start, column, row);
        start = from;
        let node = nodes[place];
        if !node.known && node.low >= threshold {
            return Some(level);
        }
        if !node.known || node.low >= threshold {
            return None;
        }
    }
    None
}

/// The closed leaves of a row, from `column` on.
pub(crate) fn closed_run(
    nodes: &[Node],
    levels: Levels,
    column: u32,
    row: u32,
    threshold: u16,
) -> ClosedRun
    requires column { column ≤ levels.width }
    requires row { row < levels.height }
    requires root { levels.root ≡ top (shape_of levels.width levels.height) }
    requires small { levels.root ≤ 16 }
    requires long { length nodes.now ≡ count (shape_of levels.width levels.height) }
    ensures end { (column ≤ result.end) × (result.end ≤ levels.width) }
    ensures below { (row < result.below) × (result.below ≤ levels.height) }
    ensures closed { (x y : ℕ) → column ≤ x → x < result.end → row ≤ y → y < result.below
        → (i : ℕ) × IsClosed (shape_of levels.width levels.height) nodes.now threshold i x y }
    ensures open { result.end < levels.width → (i : ℕ)
        → IsClosed (shape_of levels.width levels.height) nodes.now threshold i result.end row → ⊥ }
{
    let width = levels.width as u32;
    let mut end = column;
    let mut below = levels.height as u32;
    while end < width {
        let Some(level) = closed_level(nodes, levels, end, row, threshold) else {
            return ClosedRun { end, below };
        };
        end = width.min(behind(end, level));
        below = below.min(behind(row, level));
    }
    ClosedRun { end, below }
}
