//! What is known of a node of a tag tree.

ghost use Rattle.std.specs.Prelude.{◌≡◌, false, replicate, MatchResult};
ghost use Rattle.jk_math.specs.Memory.{IsMemory};

use jk_math::Fault;
use std::alloc::Global;

/// A node's value is `low` where it is known, and at least `low` where it isn't.
#[derive(Clone, Copy, Drop)]
pub(crate) struct Node {
    pub(crate) low: u16,
    pub(crate) known: bool,
}

/// Nodes of which nothing is known.
pub(crate) fn blank_nodes(alloc: Global, count: usize) -> Result<Vec<Node>, Fault>
    ensures { MatchResult result
        (λ nodes. nodes.items ≡ replicate count record { low = 0; known = false })
        (λ e. IsMemory e) }
{
    let mut nodes = Vec::with_capacity(alloc, count)?;
    for _ in 0..count {
        nodes.push(Node {
            low: 0,
            known: false,
        })?;
    }
    Ok(nodes)
}
