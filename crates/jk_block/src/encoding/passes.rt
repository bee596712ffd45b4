//! The decisions of the coding passes, listed (T.800 D.3).

ghost use Rattle.std.specs.Prelude.{◌≡◌, ◌+◌, ◌*◌, ◌<◌, ◌≤◌, ◌++◌, IfOk, IfErr};
ghost use Rattle.jk_math.specs.Memory.{IsMemory};
ghost use Rattle.jk_scan.specs.Moments.{visits, stripes};
ghost use Rattle.jk_scan.specs.Passes.{joined, column_decisions, plane_decisions};
ghost use Rattle.jk_block.specs.Steps.{IsWordPlace, number_of};
ghost use Rattle.jk_block.specs.encoding.Viewed.{seen, IsFlagged, moment_at, word_decisions};

use super::decisions::DecisionList;
use super::flags::Flags;
use super::plane::BlockPlane;
use super::words::{write_cleanup, write_propagation, write_refinement};
use crate::word_place::{Pass, WordPlace};
use jk_math::Fault;
use jk_scan::words_across;

/// A word in a pass.
#[inline(always)]
fn write_word(
    block: &BlockPlane<'_>,
    flags: &mut Flags,
    pass: Pass,
    spot: WordPlace,
    list: &mut DecisionList,
) -> Result<(), Fault>
    requires spot { IsWordPlace block.now.shape spot }
    requires flagged { IsFlagged block.now
        (moment_at block.now.shape (number_of pass) spot.word spot.stripe 0) flags.old }
    ensures flagged { IfOk result
        (λ _. IsFlagged block.now (moment_at block.now.shape (number_of pass) spot.word spot.stripe 64) flags.new) }
    ensures listed { IfOk result
        (λ _. list.new ≡ list.old ++ word_decisions block.now.shape (seen block.now)
        (number_of pass) spot.word spot.stripe) }
    ensures memory { IfErr result IsMemory }
{
    match pass {
        Pass::Propagation => write_propagation(block, flags, spot, list),
        Pass::Refinement => write_refinement(block, flags, spot, list),
        Pass::Cleanup => write_cleanup(block, flags, spot, list),
    }
}

/// A stripe.
#[inline(never)]
fn write_stripe(
    block: &BlockPlane<'_>,
    flags: &mut Flags,
    pass: Pass,
    stripe: usize,
    list: &mut DecisionList,
) -> Result<(), Fault>
    requires stripe { stripe < stripes block.now.shape }
    requires flagged { IsFlagged block.now (moment_at block.now.shape (number_of pass) 0 stripe 0) flags.old }
    ensures flagged { IfOk result
        (λ _. IsFlagged block.now (moment_at block.now.shape (number_of pass) 0 (stripe + 1) 0) flags.new) }
    ensures listed { IfOk result (λ _. list.new ≡ list.old
        ++ joined block.now.shape.width
        (λ x. column_decisions block.now.shape (seen block.now) (number_of pass) x stripe)) }
    ensures memory { IfErr result IsMemory }
{
    for word in 0..words_across(block.shape) {
        let spot = WordPlace {
            plane: block.plane,
            word,
            stripe,
        };
        write_word(block, flags, pass, spot, list)?;
    }
    Ok(())
}

/// All decisions of a pass, stripe by stripe.
pub fn write_pass(
    block: &BlockPlane<'_>,
    flags: &mut Flags,
    pass: Pass,
    list: &mut DecisionList,
) -> Result<(), Fault>
    requires flagged { IsFlagged block.now (number_of pass * visits block.now.shape) flags.old }
    ensures flagged { IfOk result (λ _. IsFlagged block.now ((number_of pass + 1) * visits block.now.shape) flags.new) }
    ensures listed { IfOk result
        (λ _. list.new ≡ list.old ++ plane_decisions block.now.shape (seen block.now) (number_of pass)) }
    ensures memory { IfErr result IsMemory }
{
    for stripe in 0..(block.shape.height + 3) / 4 {
        write_stripe(block, flags, pass, stripe, list)?;
    }
    Ok(())
}
