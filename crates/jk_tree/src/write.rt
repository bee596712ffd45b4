//! Tag trees that are written (T.800 B.10.2).

ghost use Rattle.std.specs.Prelude.{◌≡◌, ℕ, ◌+◌, ◌*◌, ◌<◌, ◌≤◌, ◌++◌, [], ◌∷◌, false, true, List, length, replicate};
ghost use Rattle.std.specs.Prelude.{slice_index, OnErr, MatchResult};
ghost use Rattle.jk_math.specs.Memory.{IsMemory};
ghost use Rattle.jk_tree.specs.TagTree.{shape_of, query_of, column, row, Values, Query, count, top, told, rest_of_word};
ghost use Rattle.jk_tree.specs.Telling.{Fails, Grows, Lowers, Speaks, TellsQuery, with_bits, written};

use crate::levels::{Levels, node_count, node_over, root_level};
use jk_bits::BitWriter;
use jk_math::Fault;
use std::alloc::Global;
use std::marker::Model;

/// A node's value, and the greatest threshold that it was asked for.
#[derive(Clone, Copy, Drop)]
struct WriteNode {
    value: u16,
    told: u16,
}

/// A tag tree whose values are known and told query by query.
#[derive(Drop)]
pub struct WriteTree {
    levels: Levels,
    nodes: Vec<WriteNode>,
    fault: Option<Fault>,
}

impl Model for WriteTree {
    ghost use Rattle.std.specs.Prelude.{◌≡◌, ◌≤◌, length, is_some, IfSome};
    ghost use Rattle.jk_math.specs.Memory.{IsMemory};
    ghost use Rattle.jk_tree.specs.TagTree.{shape_of, count, top};
    ghost use Rattle.jk_tree.specs.Telling.{Speaker};

    ghost Value = { Speaker };

    ghost view = { λ t. record {
      shape = shape_of t.levels.width t.levels.height;
      nodes = t.nodes.items;
      failed = is_some t.fault;
    } };

    ghost invariant = { λ t. (t.levels.root ≡ top (shape_of t.levels.width t.levels.height))
        × (t.levels.root ≤ 16)
        × (length t.nodes.items ≡ count (shape_of t.levels.width t.levels.height))
        × IfSome t.fault IsMemory };
}

/// Writes so many zeros.
fn push_zeros(count: u16, writer: &mut BitWriter) -> Result<(), Fault>
    ensures { MatchResult result
        (λ _. writer.new ≡ with_bits writer.old (replicate count false))
        (λ e. IsMemory e × Fails writer.old writer.new) }
{
    for _ in 0..count {
        writer.push(false)?;
    }
    Ok(())
}

/// Tells what a node hasn't told before; `over` is the value of the node above it.
fn speak(node: WriteNode, over: u16, threshold: u16, writer: &mut BitWriter) -> Result<(), Fault>
    ensures told { MatchResult result
        (λ _. over ≤ node.value
        → writer.new ≡ with_bits writer.old (rest_of_word over node.value node.told threshold))
        (λ e. IsMemory e) }
    ensures on { MatchResult result
        (λ _. Grows writer.old writer.new) (λ _. Fails writer.old writer.new) }
{
    if node.told >= threshold || node.value < node.told {
        return Ok(());
    }
    let from = node.told.max(over.min(threshold));
    push_zeros(node.value.min(threshold).saturating_sub(from), writer)?;
    if node.value < threshold {
        writer.push(true)?;
    }
    Ok(())
}

/// Tells the nodes over a leaf, from the root down.
fn tell_way(
    nodes: &mut Vec<WriteNode>,
    levels: Levels,
    leaf: u32,
    threshold: u16,
    writer: &mut BitWriter,
) -> Result<(), Fault>
    requires leaf { leaf < levels.width * levels.height }
    requires root { levels.root ≡ top (shape_of levels.width levels.height) }
    requires small { levels.root ≤ 16 }
    requires long { length nodes.old.items ≡ count (shape_of levels.width levels.height) }
    ensures told { MatchResult result
        (λ _. TellsQuery (shape_of levels.width levels.height) (query_of leaf threshold)
        nodes.old.items nodes.new.items writer.old writer.new)
        (λ e. IsMemory e) }
    ensures kept { length nodes.new.items ≡ length nodes.old.items }
    ensures fails { OnErr result (Fails writer.old writer.new) }
{
    let column = leaf % levels.width as u32;
    let row = leaf / levels.width as u32;
    let mut start = nodes.len();
    let mut level = levels.root + 1;
    let mut over = 0;
    while level > 0 {
        level -= 1;
        let (from, place) = node_over(levels, level, start, column, row);
        start = from;
        let node = nodes[place];
        speak(node, over, threshold, writer)?;
        nodes[place] = WriteNode {
            value: node.value,
            told: node.told.max(threshold),
        };
        over = node.value;
    }
    Ok(())
}

/// Nodes that have told nothing, under which no leaf has stood yet.
fn open_nodes(alloc: Global, count: usize) -> Result<Vec<WriteNode>, Fault>
    ensures { MatchResult result
        (λ nodes. nodes.items ≡ replicate count record { value = 65535; told = 0 })
        (λ e. IsMemory e) }
{
    let mut nodes = Vec::with_capacity(alloc, count)?;
    for _ in 0..count {
        nodes.push(WriteNode {
            value: u16::MAX,
            told: 0,
        })?;
    }
    Ok(nodes)
}

/// Lowers the nodes over a leaf to its value, where they are above it.
fn lower_way(nodes: &mut Vec<WriteNode>, levels: Levels, leaf: u32, value: u16)
    requires leaf { leaf < levels.width * levels.height }
    requires root { levels.root ≡ top (shape_of levels.width levels.height) }
    requires small { levels.root ≤ 16 }
    requires long { length nodes.old.items ≡ count (shape_of levels.width levels.height) }
    ensures long { length nodes.new.items ≡ count (shape_of levels.width levels.height) }
    ensures lowered { Lowers (shape_of levels.width levels.height) leaf value
        nodes.old.items nodes.new.items }
{
    let column = leaf % levels.width as u32;
    let row = leaf / levels.width as u32;
    let mut start = nodes.len();
    let mut level = levels.root + 1;
    while level > 0 {
        level -= 1;
        let (from, place) = node_over(levels, level, start, column, row);
        start = from;
        let node = nodes[place];
        nodes[place] = WriteNode {
            value: node.value.min(value),
            told: node.told,
        };
    }
}

impl WriteTree {
    /// A tree of `width` by `height` leaves with these values, in raster order.
    pub fn new(alloc: Global, width: u16, height: u16, values: &[u16]) -> Result<WriteTree, Fault>
        requires { length values.now ≡ width * height }
        ensures made { MatchResult result
            (λ t. (t.shape ≡ shape_of width height) × (t.failed ≡ false)
            × Speaks t.shape (written t.shape values.now) [] t.nodes)
            (λ e. IsMemory e) }

        // The leaves have the values given.
        ensures leaves { (leaf : ℕ) → leaf < width * height
            → written (shape_of width height) values.now 0
            (column (shape_of width height) leaf 0) (row (shape_of width height) leaf 0)
            ≡ slice_index values.now leaf }
    {
        let root = root_level(width, height);
        let levels = Levels {
            width,
            height,
            root,
        };
        let mut nodes = open_nodes(alloc, node_count(width, height, root))?;
        for (leaf, value) in values.iter().enumerate() {
            lower_way(&mut nodes, levels, leaf as u32, *value);
        }
        Ok(WriteTree {
            levels,
            nodes,
            fault: None,
        })
    }

    /// Tells whether the value of a leaf is below `threshold`, as far as that wasn't told before.
    ///
    /// The leaves are counted in raster order. After `Memory` the tree answers `Memory` for ever.
    pub fn tell(&mut self, leaf: u32, threshold: u16, writer: &mut BitWriter) -> Result<(), Fault>
        requires { leaf < self.old.shape.width * self.old.shape.height }
        ensures told { MatchResult result
            (λ _. (self.old.failed ≡ false) × (self.new.failed ≡ false)
            × (self.new.shape ≡ self.old.shape)
            × TellsQuery self.old.shape (query_of leaf threshold)
            self.old.nodes self.new.nodes writer.old writer.new)
            (λ e. IsMemory e × (self.new.failed ≡ true) × (self.new.shape ≡ self.old.shape)) }

        // At the tree's first fault the writer fails too, some bits on. What has failed stays as it
        // is.
        ensures fails { self.old.failed ≡ false → OnErr result (Fails writer.old writer.new) }
        ensures stays { self.old.failed ≡ true → (self.new ≡ self.old) × (writer.new ≡ writer.old) }
    {
        if let Some(fault) = self.fault {
            return Err(fault);
        }
        match tell_way(&mut self.nodes, self.levels, leaf, threshold, writer) {
            Ok(()) => Ok(()),
            Err(fault) => {
                self.fault = Some(fault);
                Err(fault)
            }
        }
    }
}
