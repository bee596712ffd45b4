//! Tag trees that are read (T.800 B.10.2).

ghost use Rattle.std.specs.Prelude.{◌≡◌, ℕ, ◌+◌, ◌-◌, ◌*◌, ◌/◌, ◌%◌, ◌<◌, ◌≤◌, ◌++◌, [], ◌∷◌, List, Bool, false, true};
ghost use Rattle.std.specs.Prelude.{length};
ghost use Rattle.std.specs.Prelude.{Ok, Err};
ghost use Rattle.std.specs.Prelude.{None, Some, IfOk, IfErr, OnErr, IfSome, IsOkAnd, MatchResult};
ghost use Rattle.jk_math.specs.Answer.{Reads};
ghost use Rattle.jk_math.specs.Memory.{IsMemory};
ghost use Rattle.jk_bits.specs.Reading.{Bits, ahead};
ghost use Rattle.jk_bits.specs.Giving.{Stops};
ghost use Rattle.jk_tree.specs.TagTree.{shape_of, query_of, Values, IsTree, Query, count, top, told};
ghost use Rattle.jk_tree.specs.Asking.{IsAnswer, AreToldBySome, AreTold, ask_at, blank_tree, climb, node_at, visit};
ghost use Rattle.jk_tree.specs.Asking.{walk, IsKnown, IsClosed};

use crate::closed::closed_run;
use crate::levels::{Levels, node_count, node_over, root_level};
use crate::node::{Node, blank_nodes};
use jk_bits::BitReader;
use jk_math::Fault;
use std::alloc::Global;
use std::marker::Model;

/// A tag tree of which nothing is known but what its queries read.
#[derive(Drop)]
pub struct ReadTree {
    levels: Levels,
    nodes: Vec<Node>,
    failed: Option<Fault>,
}

impl Model for ReadTree {
    ghost use Rattle.std.specs.Prelude.{◌≡◌, ◌≤◌, length};
    ghost use Rattle.jk_tree.specs.TagTree.{shape_of, count, top};
    ghost use Rattle.jk_tree.specs.Asking.{TagTreeRead};

    ghost Value = { TagTreeRead };

    ghost view = { λ t. record {
      shape = shape_of t.levels.width t.levels.height;
      nodes = t.nodes.items;
      failed = t.failed;
    } };

    ghost invariant = { λ t. (t.levels.root ≡ top (shape_of t.levels.width t.levels.height))
        × (t.levels.root ≤ 16)
        × (length t.nodes.items ≡ count (shape_of t.levels.width t.levels.height)) };
}

/// Zeros from `low` on up to a one, as far as the threshold.
fn climb(low: u16, threshold: u16, reader: &mut BitReader<'_>) -> Result<Node, Fault>
    requires { low ≤ threshold }
    ensures exact { Reads (climb low (threshold - low)) reader.old reader.new result }
    ensures stops { OnErr result (Stops reader.old reader.new) }
{
    let mut low = low;
    while low < threshold {
        let one = reader.bit()?;
        if one {
            return Ok(Node { low, known: true });
        }
        low += 1;
    }
    Ok(Node { low, known: false })
}

/// What a node tells; of the node above it `over` is known, as far as the threshold.
fn visit(node: Node, over: u16, threshold: u16, reader: &mut BitReader<'_>) -> Result<Node, Fault>
    requires { over ≤ threshold }
    ensures exact { Reads (visit node over threshold) reader.old reader.new result }
    ensures stops { OnErr result (Stops reader.old reader.new) }
{
    if node.known || node.low >= threshold {
        return Ok(node);
    }
    climb(node.low.max(over), threshold, reader)
}

/// The nodes over a leaf, from the root down, as far as they are below the threshold: whether all
/// are.
fn walk(
    nodes: &mut Vec<Node>,
    levels: Levels,
    leaf: u32,
    threshold: u16,
    reader: &mut BitReader<'_>,
) -> Result<bool, Fault>
    requires leaf { leaf < levels.width * levels.height }
    requires root { levels.root ≡ top (shape_of levels.width levels.height) }
    requires small { levels.root ≤ 16 }
    requires long { length nodes.old.items ≡ count (shape_of levels.width levels.height) }
    ensures exact { MatchResult result
        (λ b. walk (shape_of levels.width levels.height) (query_of leaf threshold)
        (levels.root + 1) 0 nodes.old.items reader.old
        ≡ Ok (b, (nodes.new.items, reader.new)))
        (λ e. walk (shape_of levels.width levels.height) (query_of leaf threshold)
        (levels.root + 1) 0 nodes.old.items reader.old ≡ Err e) }
    ensures kept { length nodes.new.items ≡ length nodes.old.items }
    ensures still { (p : ℕ) → (node_at nodes.old.items p).known ≡ true
        → node_at nodes.new.items p ≡ node_at nodes.old.items p }
    ensures stops { OnErr result (Stops reader.old reader.new) }
{
    let column = leaf % levels.width as u32;
    let row = leaf / levels.width as u32;
    let mut start = nodes.len();
    let mut level = levels.root + 1;
    let mut over = 0;
    while level > 0 {
        level -= 1;
        let (from, place) = node_over(levels, level, start, column, row);
        start = from;
        let node = visit(nodes[place], over, threshold, reader)?;
        nodes[place] = node;
        if node.low >= threshold {
            return Ok(false);
        }
        over = node.low;
    }
    Ok(true)
}

impl ReadTree {
    /// A tree of `width` by `height` leaves, of which nothing is known.
    pub fn new(alloc: Global, width: u16, height: u16) -> Result<ReadTree, Fault>
        ensures blank { IfOk result (λ t. t ≡ blank_tree (shape_of width height)) }
        ensures stands { MatchResult result
            (λ t. (t.shape ≡ (shape_of width height)) × (t.failed ≡ None)
            × ((v : Values) → IsTree t.shape v → AreTold t.shape v [] t.nodes))
            (λ e. IsMemory e) }
    {
        let root = root_level(width, height);
        let nodes = blank_nodes(alloc, node_count(width, height, root))?;
        Ok(ReadTree {
            levels: Levels {
                width,
                height,
                root,
            },
            nodes,
            failed: None,
        })
    }

    /// What is known of the value of a leaf: the value itself, where an answer was that it is below
    /// the threshold, and otherwise no more than the greatest threshold asked.
    pub fn low(&self, leaf: u32) -> u16
        requires { leaf < self.now.shape.width * self.now.shape.height }
        ensures { result ≡ (node_at self.now.nodes leaf).low }
    {
        self.nodes[leaf as usize].low
    }

    /// Whether the value of a leaf is below `threshold`; the leaves are counted in raster order.
    ///
    /// The first fault of the reader fails the tree, which then answers it for ever.
    pub fn ask(
        &mut self,
        leaf: u32,
        threshold: u16,
        reader: &mut BitReader<'_>,
    ) -> Result<bool, Fault>
        requires { leaf < self.old.shape.width * self.old.shape.height }
        ensures exact { Reads (ask_at (query_of leaf threshold))
            (self.old, reader.old) (self.new, reader.new) result }
        ensures kept { self.new.shape ≡ self.old.shape }
        ensures failed { IfErr result (λ e. self.new.failed ≡ Some e) }

        // A leaf below the threshold is known with all nodes over it, and what is known stays so.
        ensures below { IfOk result (λ b. b ≡ true → IsKnown self.new.shape self.new.nodes leaf
            × ((node_at self.new.nodes leaf).low < threshold)) }
        ensures still { (j : ℕ) → IsKnown self.old.shape self.old.nodes j
            → IsKnown self.new.shape self.new.nodes j }

        // With the tree's first fault the reader fails too, some bits on. What has failed stays as
        // it is.
        ensures stops { self.old.failed ≡ None → OnErr result (Stops reader.old reader.new) }
        ensures stays { IfSome self.old.failed
            (λ e. (result ≡ Err e) × (self.new ≡ self.old) × (reader.new ≡ reader.old)) }

        // What a tree would tell is read, whatever was asked before.
        ensures only { (v : Values) (queries : List Query) (rest : List Bool)
            → self.old.failed ≡ None
            → AreTold self.old.shape v queries self.old.nodes
            → ahead reader.old ≡ told self.old.shape v queries (query_of leaf threshold) ++ rest
            → IsOkAnd result
            (IsAnswer self.old v queries (query_of leaf threshold) reader.old self.new reader.new) }

        // What is read is what each tree tells that stands afterwards, and there is such a tree.
        ensures found { (queries : List Query) → AreToldBySome self.old.shape queries self.old.nodes
            → IfOk result (λ b.
            AreToldBySome self.new.shape (queries ++ query_of leaf threshold ∷ []) self.new.nodes
            × ((v : Values)
            → AreTold self.new.shape v (queries ++ query_of leaf threshold ∷ []) self.new.nodes
            → IsAnswer self.old v queries (query_of leaf threshold) reader.old self.new reader.new b)) }
    {
        if let Some(fault) = self.failed {
            return Err(fault);
        }
        match walk(&mut self.nodes, self.levels, leaf, threshold, reader) {
            Ok(below) => Ok(below),
            Err(fault) => {
                self.failed = Some(fault);
                Err(fault)
            }
        }
    }

    /// The first leaf from `from` on, in raster order, that isn't under a node of which it is known
    /// that it isn't below this threshold, and no more; or the number of leaves. A tree that has
    /// failed passes over none.
    ///
    /// The leaves under such a node are passed over together.
    pub fn next_open(&self, from: u32, threshold: u16) -> u32
        requires { from ≤ self.now.shape.width * self.now.shape.height }
        ensures from { from ≤ result }
        ensures within { result ≤ self.now.shape.width * self.now.shape.height }
        ensures silent { (leaf : ℕ) → from ≤ leaf → leaf < result → (bits : Bits)
            → ask_at (query_of leaf threshold) (self.now, bits) ≡ Ok (false, (self.now, bits)) }
        ensures unknown { (leaf : ℕ) → from ≤ leaf → leaf < result
            → IsKnown self.now.shape self.now.nodes leaf → ⊥ }
        ensures open { self.now.failed ≡ None
            → result < self.now.shape.width * self.now.shape.height
            → (i : ℕ) → IsClosed self.now.shape self.now.nodes threshold i
            (result % self.now.shape.width) (result / self.now.shape.width) → ⊥ }
    {
        let width = self.levels.width as u32;
        let height = self.levels.height as u32;
        if self.failed.is_some() || from >= width * height {
            return from;
        }
        let mut row = from / width;
        let mut column = from % width;
        while row < height {
            let run = closed_run(&self.nodes, self.levels, column, row, threshold);
            if run.end < width {
                return row * width + run.end;
            }
            row = if column == 0 { run.below } else { row + 1 };
            column = 0;
        }
        width * height
    }
}
