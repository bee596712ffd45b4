//! A block read from its segment. The MQ decoder gives decisions; a pass goes over stripes
//! (`passes`), their words of 32 places (`words`) and the places that it codes (`places`). What a
//! word becomes stands in its `sight` until the last of its places, and goes into the `block_state`
//! then: words of which places are significant, and of the bits of each plane. The sketch is the
//! block.

ghost use Rattle.std.specs.Prelude.{◌≡◌, ℕ, ℤ, List, true, ◌+◌, ◌-◌, ◌*◌, ◌%◌, ◌^◌, ◌<◌};
ghost use Rattle.std.specs.Prelude.{◌≤◌, length, All, IfOk, MatchResult, unsigned_abs};
ghost use Rattle.jk_math.specs.Answer.{Answers};
ghost use Rattle.jk_math.specs.Memory.{IsMemory};
ghost use Rattle.jk_model.specs.Decisions.{State};
ghost use Rattle.jk_model.specs.CodingPasses.{begun_by};
ghost use Rattle.jk_mqdec.specs.Standing.{Stands};
ghost use Rattle.jk_scan.specs.Flags.{IsSized};
ghost use Rattle.jk_scan.specs.Neighbours.{Field};
ghost use Rattle.jk_block.specs.Ages.{HasRoom, IsUnaged};
ghost use Rattle.jk_block.specs.Fields.{AreSameWords, words_of};
ghost use Rattle.jk_block.specs.Meaning.{IsBlockMeaning, plane_of, kind_of, value_in, values_of};
ghost use Rattle.jk_block.specs.Reading.{times, blank, begun, pass_at, block_at};
ghost use Rattle.jk_block.specs.Steps.{number_of};
ghost use Rattle.jk_block.specs.decoding.BlockStates.{TakesStep, IsFresh, draft_of, progress};
ghost use Rattle.jk_block.specs.decoding.Laid.{MarkNothing};

mod block_state;
mod coefficients;
mod passes;
mod places;
mod sight;
mod symbols;
mod words;

use crate::ages::{Ages, unmarked, words_of};
use crate::word_place::{Pass, pass_of};
use block_state::{BlockState, BlockWords, no_bits};
use coefficients::values;
use jk_math::{Fault, Orientation, Style};
use jk_model::first_steps;
use jk_mqdec::PassDecoder;
use jk_scan::{BlockShape, WORDS};
use passes::read_bit_plane;
use std::alloc::Global;
use symbols::end_pass;

/// A code-block: the coefficients of its place in a sub-band.
#[derive(Drop)]
pub struct Block {
    /// How many columns it has.
    pub width: usize,
    /// How many rows it has.
    pub height: usize,
    /// Its sub-band.
    pub orientation: Orientation,
    /// Its style.
    pub style: Style,
    /// The coefficients, row by row.
    pub values: Vec<i32>,
}

/// Begins a pass: with significance propagation a plane begins.
#[inline(always)]
fn begin(block_state: &mut BlockState, pass: Pass)
    ensures shape { block_state.new.shape ≡ block_state.old.shape }
    ensures planes { block_state.new.planes ≡ block_state.old.planes }
    ensures begun { (c : State) → progress (draft_of block_state.new) c
        ≡ begun (number_of pass) (progress (draft_of block_state.old) c) }
    ensures fresh { (plane : ℕ) (refined : List ℕ) → number_of pass ≡ 1
        → IsFresh plane refined (draft_of block_state.old) → IsFresh plane refined (draft_of block_state.new) }
{
    match pass {
        Pass::Propagation => block_state.begin(),
        _ => {}
    }
}

/// With context reset a pass begins with the first contexts.
#[inline(always)]
fn begin_contexts(decoder: &mut PassDecoder, style: Style)
    ensures bytes { decoder.new.bytes ≡ decoder.old.bytes }
    ensures stands { (c : State) → Stands decoder.old c → Stands decoder.new (begun_by style.reset c) }
{
    if style.reset {
        decoder.reset();
    }
}

/// Notes what is significant as the n-th pass begins, if with it a plane begins.
#[inline(always)]
fn note(ages: &mut Ages, block_state: &BlockState, n: usize)
    requires few { n < 100 }
    requires room { HasRoom block_state.now.shape ages.old }
    ensures refined { kind_of n ≡ 0 → ages.new.refined ≡ ages.old.older }
    ensures older { kind_of n ≡ 0
        → AreSameWords block_state.now.shape block_state.now.significant.now ages.new.older }
    ensures kept { (kind_of n ≡ 0 → ⊥) → ages.new ≡ ages.old }
    ensures room { HasRoom block_state.now.shape ages.new }
{
    match pass_of(n) {
        Pass::Propagation => ages.note(block_state.shape, &block_state.significant),
        _ => {}
    }
}

/// Reads the n-th pass of a block.
#[inline(always)]
fn read_pass(
    block_state: &mut BlockState,
    decoder: &mut PassDecoder,
    refined: &[u64],
    planes: u32,
    n: usize,
) -> Result<(), Fault>
    requires planes { planes ≡ block_state.old.planes }
    requires few { planes ≤ 23 }
    requires n { n < 3 * planes - 2 }
    requires room { words_of block_state.old.shape ≤ length refined.now }
    requires fresh { kind_of n ≡ 1 → IsFresh (plane_of planes n) refined.now (draft_of block_state.old) }
    ensures shape { block_state.new.shape ≡ block_state.old.shape }
    ensures planes { block_state.new.planes ≡ block_state.old.planes }
    ensures bytes { decoder.new.bytes ≡ decoder.old.bytes }
    ensures takes { TakesStep (pass_at decoder.old.bytes block_state.old.shape planes n)
        (draft_of block_state.old) (draft_of block_state.new) decoder.old decoder.new result }
{
    let plane = planes - 1 - (n as u32 + 2) / 3;
    let pass = pass_of(n);
    begin(block_state, pass);
    begin_contexts(decoder, block_state.shape.style);
    read_bit_plane(block_state, decoder, refined, plane, pass)?;
    end_pass(decoder, block_state.shape.style, pass)
}

/// Reads the passes of a block.
#[inline(always)]
fn read_passes(
    block_state: &mut BlockState,
    decoder: &mut PassDecoder,
    ages: &mut Ages,
    planes: u32,
    passes: usize,
) -> Result<(), Fault>
    requires planes { planes ≡ block_state.old.planes }
    requires few { planes ≤ 23 }
    requires passes { passes ≤ 3 * planes - 2 }
    requires unaged { IsUnaged block_state.old.shape ages.old }
    requires blank { progress (draft_of block_state.old) blank.coder ≡ blank }
    requires stands { Stands decoder.old blank.coder }
    ensures shape { block_state.new.shape ≡ block_state.old.shape }
    ensures planes { block_state.new.planes ≡ block_state.old.planes }
    ensures bytes { decoder.new.bytes ≡ decoder.old.bytes }
    ensures takes { TakesStep (times passes (pass_at decoder.old.bytes block_state.old.shape planes))
        (draft_of block_state.old) (draft_of block_state.new) decoder.old decoder.new result }
{
    for n in 0..passes {
        note(ages, block_state, n);
        read_pass(block_state, decoder, ages.refined(), planes, n)?;
    }
    Ok(())
}

/// Reads the coefficients of a block from its segment, in words that mark no place. The passes stand
/// here once for blocks of every size; the state lies in locals, whose slices no write can change.
#[inline(never)]
fn read_values(
    alloc: Global,
    segment: &[u8],
    shape: BlockShape,
    planes: u32,
    passes: usize,
    words: BlockWords,
) -> Result<Vec<i32>, Fault>
    requires sized { IsSized shape }
    requires few { planes ≤ 23 }
    requires passes { passes ≤ 3 * planes - 2 }
    requires unmarked { MarkNothing shape words }
    ensures exact { Answers (λ v. v.items) result (block_at shape planes passes segment.now) }
    ensures small { IfOk result (λ v. All (λ x. unsigned_abs x < 2 ^ planes) v.items) }
{
    let bits = no_bits(alloc, shape, planes)?;
    let BlockWords {
        significant,
        negative,
        visited,
        even,
        odd,
    } = words;
    let mut block_state = BlockState::new(shape, planes, bits, significant, negative, visited);
    let mut ages = Ages::new(even, odd);
    let mut contexts = first_steps();
    let mut decoder = PassDecoder::new(segment, &mut contexts);
    read_passes(&mut block_state, &mut decoder, &mut ages, planes, passes)?;
    values(alloc, &block_state)
}

/// Reads a code-block as [`decode`] does, in arrays of so many words.
#[inline(never)]
fn decode_among<const N: usize>(
    alloc: Global,
    segment: &[u8],
    shape: BlockShape,
    planes: u32,
    passes: usize,
) -> Result<Block, Fault>
    requires wide { 1 ≤ shape.width }
    requires narrow { shape.width ≤ 1024 }
    requires high { 1 ≤ shape.height }
    requires low { shape.height ≤ 1024 }
    requires area { shape.width * shape.height ≤ 4096 }
    requires planes { planes ≤ 23 }
    requires room { words_of shape ≤ N }
    requires small { N ≤ 774 }
    ensures exact { Answers (λ b. b.values.items) result (block_at shape planes passes segment.now) }
    ensures found { IfOk result
        (λ b. IsBlockMeaning shape planes passes segment.now (value_in shape b.values.items)) }
    ensures only { (q : Field ℤ) → IsBlockMeaning shape planes passes segment.now q
        → MatchResult result (λ b. b.values.items ≡ values_of shape q) IsMemory }
    ensures small { IfOk result (λ b. All (λ v. unsigned_abs v < 2 ^ planes) b.values.items) }
    ensures width { IfOk result (λ b. b.width ≡ shape.width) }
    ensures height { IfOk result (λ b. b.height ≡ shape.height) }
    ensures orientation { IfOk result (λ b. b.orientation ≡ shape.orientation) }
    ensures style { IfOk result (λ b. b.style ≡ shape.style) }
{
    if passes > (3 * planes as usize).saturating_sub(2) {
        return Err(Fault::TooManyPasses);
    }
    let mut significant = unmarked::<N>();
    let mut negative = unmarked::<N>();
    let mut visited = unmarked::<N>();
    let mut even = unmarked::<N>();
    let mut odd = unmarked::<N>();
    let words = BlockWords {
        significant: &mut significant,
        negative: &mut negative,
        visited: &mut visited,
        even: &mut even,
        odd: &mut odd,
    };
    let values = read_values(alloc, segment, shape, planes, passes, words)?;
    Ok(Block {
        width: shape.width,
        height: shape.height,
        orientation: shape.orientation,
        style: shape.style,
        values,
    })
}

/// Reads a code-block of so many bit-planes from the segment of its coding passes (T.800 Annex D),
/// or [`Fault::Memory`], [`Fault::TooManyPasses`], [`Fault::CodeOutOfInterval`], or
/// [`Fault::BadValue`] where a segmentation symbol is due and another one stands. Without a pass
/// all coefficients are 0.
pub fn decode(
    alloc: Global,
    segment: &[u8],
    shape: BlockShape,
    planes: u32,
    passes: usize,
) -> Result<Block, Fault>
    requires wide { 1 ≤ shape.width }
    requires narrow { shape.width ≤ 1024 }
    requires high { 1 ≤ shape.height }
    requires low { shape.height ≤ 1024 }
    requires area { shape.width * shape.height ≤ 4096 }
    requires planes { planes ≤ 23 }
    ensures exact { Answers (λ b. b.values.items) result (block_at shape planes passes segment.now) }
    ensures found { IfOk result
        (λ b. IsBlockMeaning shape planes passes segment.now (value_in shape b.values.items)) }
    ensures only { (q : Field ℤ) → IsBlockMeaning shape planes passes segment.now q
        → MatchResult result (λ b. b.values.items ≡ values_of shape q) IsMemory }
    ensures small { IfOk result (λ b. All (λ v. unsigned_abs v < 2 ^ planes) b.values.items) }
    ensures width { IfOk result (λ b. b.width ≡ shape.width) }
    ensures height { IfOk result (λ b. b.height ≡ shape.height) }
    ensures orientation { IfOk result (λ b. b.orientation ≡ shape.orientation) }
    ensures style { IfOk result (λ b. b.style ≡ shape.style) }
{
    // A block of 8 by 8 has 12 words with their border, one of 32 by 32 has 60, of 64 by 64 180.
    match words_of(shape) {
        0..=16 => decode_among::<16>(alloc, segment, shape, planes, passes),
        17..=64 => decode_among::<64>(alloc, segment, shape, planes, passes),
        65..=192 => decode_among::<192>(alloc, segment, shape, planes, passes),
        _ => decode_among::<WORDS>(alloc, segment, shape, planes, passes),
    }
}
