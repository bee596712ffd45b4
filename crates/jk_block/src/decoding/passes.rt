//! Stripes, and whole passes.

ghost use Rattle.std.specs.Prelude.{◌≡◌, ◌<◌, ◌≤◌, length};
ghost use Rattle.jk_scan.specs.Moments.{stripes};
ghost use Rattle.jk_block.specs.Reading.{stripe_at, plane_pass_at};
ghost use Rattle.jk_block.specs.Fields.{words_of};
ghost use Rattle.jk_block.specs.Steps.{IsWordPlace, word_pass, number_of};
ghost use Rattle.jk_block.specs.decoding.BlockStates.{TakesStep, IsFresh, draft_of};

use super::block_state::BlockState;
use super::words::{read_cleanup, read_propagation, read_refinement};
use crate::word_place::{Pass, WordPlace};
use jk_math::Fault;
use jk_mqdec::PassDecoder;
use jk_scan::words_across;

/// Reads a word in a pass.
#[inline(always)]
fn read_word(
    block_state: &mut BlockState,
    decoder: &mut PassDecoder,
    refined: &[u64],
    spot: WordPlace,
    pass: Pass,
) -> Result<(), Fault>
    requires spot { IsWordPlace block_state.old.shape spot }
    requires plane { spot.plane < block_state.old.planes }
    requires room { words_of block_state.old.shape ≤ length refined.now }
    requires fresh { number_of pass ≡ 1 → IsFresh spot.plane refined.now (draft_of block_state.old) }
    ensures shape { block_state.new.shape ≡ block_state.old.shape }
    ensures planes { block_state.new.planes ≡ block_state.old.planes }
    ensures bytes { decoder.new.bytes ≡ decoder.old.bytes }
    ensures fresh { number_of pass ≡ 1 → IsFresh spot.plane refined.now (draft_of block_state.new) }
    ensures takes { TakesStep (word_pass decoder.old.bytes block_state.old.shape spot.plane
        (number_of pass) spot.word spot.stripe)
        (draft_of block_state.old) (draft_of block_state.new) decoder.old decoder.new result }
{
    match pass {
        Pass::Propagation => read_propagation(block_state, decoder, spot),
        Pass::Refinement => read_refinement(block_state, decoder, refined, spot),
        Pass::Cleanup => read_cleanup(block_state, decoder, spot),
    }
}

/// Reads a stripe in a pass.
#[inline(always)]
fn read_stripe(
    block_state: &mut BlockState,
    decoder: &mut PassDecoder,
    refined: &[u64],
    plane: u32,
    pass: Pass,
    stripe: usize,
) -> Result<(), Fault>
    requires plane { plane < block_state.old.planes }
    requires stripe { stripe < stripes block_state.old.shape }
    requires room { words_of block_state.old.shape ≤ length refined.now }
    requires fresh { number_of pass ≡ 1 → IsFresh plane refined.now (draft_of block_state.old) }
    ensures shape { block_state.new.shape ≡ block_state.old.shape }
    ensures planes { block_state.new.planes ≡ block_state.old.planes }
    ensures bytes { decoder.new.bytes ≡ decoder.old.bytes }
    ensures fresh { number_of pass ≡ 1 → IsFresh plane refined.now (draft_of block_state.new) }
    ensures takes { TakesStep (stripe_at decoder.old.bytes block_state.old.shape plane (number_of pass) stripe)
        (draft_of block_state.old) (draft_of block_state.new) decoder.old decoder.new result }
{
    for word in 0..words_across(block_state.shape) {
        let spot = WordPlace {
            plane,
            word,
            stripe,
        };
        read_word(block_state, decoder, refined, spot, pass)?;
    }
    Ok(())
}

/// Reads all places in a pass of a bit-plane.
#[inline(always)]
pub fn read_bit_plane(
    block_state: &mut BlockState,
    decoder: &mut PassDecoder,
    refined: &[u64],
    plane: u32,
    pass: Pass,
) -> Result<(), Fault>
    requires plane { plane < block_state.old.planes }
    requires room { words_of block_state.old.shape ≤ length refined.now }
    requires fresh { number_of pass ≡ 1 → IsFresh plane refined.now (draft_of block_state.old) }
    ensures shape { block_state.new.shape ≡ block_state.old.shape }
    ensures planes { block_state.new.planes ≡ block_state.old.planes }
    ensures bytes { decoder.new.bytes ≡ decoder.old.bytes }
    ensures takes { TakesStep (plane_pass_at decoder.old.bytes block_state.old.shape plane (number_of pass))
        (draft_of block_state.old) (draft_of block_state.new) decoder.old decoder.new result }
{
    for stripe in 0..(block_state.shape.height + 3) / 4 {
        read_stripe(block_state, decoder, refined, plane, pass, stripe)?;
    }
    Ok(())
}
