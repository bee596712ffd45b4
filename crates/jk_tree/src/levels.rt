//! The levels of a tag tree, from the leaves up to the root.

ghost use Rattle.std.specs.Prelude.{◌≡◌, ◌<◌, ◌≤◌, ◌+◌, ◌*◌, ◌/◌, ◌^◌};
ghost use Rattle.jk_tree.specs.TagTree.{shape_of, wide, top, start, node_number, count};

/// The leaves across and down, and the level of the root.
#[derive(Clone, Copy, Drop)]
pub(crate) struct Levels {
    pub(crate) width: u16,
    pub(crate) height: u16,
    pub(crate) root: u32,
}

/// How many nodes of a level stand over `leaves` leaves in a row.
pub(crate) fn nodes_over(leaves: u16, level: u32) -> usize
    requires { level ≤ 16 }
    ensures exact { result ≡ wide leaves level }
    ensures small { result ≤ 65536 }
{
    (leaves as usize + (1 << level) - 1) >> level
}

/// The level of the root.
pub(crate) fn root_level(width: u16, height: u16) -> u32
    ensures level { result ≡ top (shape_of width height) }
    ensures small { result ≤ 16 }
{
    let most = width.max(height) as u32;
    let mut level = 0;
    while 1 << level < most {
        level += 1;
    }
    level
}

/// How many nodes there are.
pub(crate) fn node_count(width: u16, height: u16, root: u32) -> usize
    requires level { root ≡ top (shape_of width height) }
    requires small { root ≤ 16 }
    ensures { result ≡ count (shape_of width height) }
{
    let mut count = 0;
    for level in 0..root + 1 {
        count += nodes_over(width, level) * nodes_over(height, level);
    }
    count
}

/// Where a level begins, and where its node over leaf (`column`, `row`) stands.
///
/// `above` is where the level above it begins.
pub(crate) fn node_over(
    levels: Levels,
    level: u32,
    above: usize,
    column: u32,
    row: u32,
) -> (usize, usize)
    requires level { level ≤ top (shape_of levels.width levels.height) }
    requires small { level ≤ 16 }
    requires above { above ≡ start (shape_of levels.width levels.height) (level + 1) }
    requires column { column < levels.width }
    requires row { row < levels.height }
    ensures start { result.0 ≡ start (shape_of levels.width levels.height) level }
    ensures place { result.1
        ≡ node_number (shape_of levels.width levels.height) level (column / 2 ^ level) (row / 2 ^ level) }
    ensures within { result.1 < count (shape_of levels.width levels.height) }
{
    let across = nodes_over(levels.width, level);
    let start = above - across * nodes_over(levels.height, level);
    (
        start,
        start + (row >> level) as usize * across + (column >> level) as usize,
    )
}
