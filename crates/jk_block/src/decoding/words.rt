//! A word of 32 places in each pass: loops over the places that the pass codes, from the lowest bit
//! on. Between two of them nothing happens. What the places of the word become stands in locals,
//! and is put back into the sketch behind the last.

ghost use Rattle.std.specs.Prelude.{◌≡◌, ℕ, Bool, true, not, nat_eq, nat_lt, ◌&&◌, ◌+◌, ◌*◌, ◌/◌, ◌%◌, ◌^◌, ◌<◌, ◌≤◌};
ghost use Rattle.std.specs.Prelude.{bit_and, length};
ghost use Rattle.std.specs.Int.{bit_not, w64};
ghost use Rattle.jk_scan.specs.Bits.{on};
ghost use Rattle.jk_scan.specs.Neighbours.{Field, is_inside, seen_from};
ghost use Rattle.jk_scan.specs.Words.{of_rows, bordered, Shows};
ghost use Rattle.jk_scan.specs.WordPlaces.{column, row};
ghost use Rattle.jk_scan.specs.Surroundings.{IsAround};
ghost use Rattle.jk_scan.specs.Flags.{IsSized, flag_at};
ghost use Rattle.jk_block.specs.Reading.{is_quiet};
ghost use Rattle.jk_block.specs.Fields.{words_of};
ghost use Rattle.jk_block.specs.Steps.{IsWordPlace, word_pass};
ghost use Rattle.jk_block.specs.decoding.BlockStates.{TakesStep, IsFresh, draft_of, significant_in};

use super::block_state::BlockState;
use super::places::{read_new, read_refined, read_run};
use super::sight::{Sight, digit};
use crate::word_place::WordPlace;
use jk_math::Fault;
use jk_mqdec::PassDecoder;
use jk_scan::{
    Around, BlockShape, inside, members, quiet_behind, quiet_columns, refine_context,
    touched_places, word_place,
};

/// The later places of a word that the place at bit k touches and that aren't significant.
#[inline(always)]
fn later_touched(significant: u64, limits: u64, k: u32) -> u64
    requires { k < 64 }
    ensures is { result ≡ bit_and (bit_and (0x382 * 2 ^ k % 2 ^ 64) limits) (bit_not w64 significant) }
    ensures fits { significant < 2 ^ 64 }
{
    0x382 << k & limits & !significant
}

/// Reads a word in the significance propagation pass (T.800 D.3.1). A place that becomes
/// significant takes in the later ones of its word that it touches.
#[inline(always)]
pub fn read_propagation(
    block_state: &mut BlockState,
    decoder: &mut PassDecoder,
    spot: WordPlace,
) -> Result<(), Fault>
    requires spot { IsWordPlace block_state.old.shape spot }
    requires plane { spot.plane < block_state.old.planes }
    ensures shape { block_state.new.shape ≡ block_state.old.shape }
    ensures planes { block_state.new.planes ≡ block_state.old.planes }
    ensures bytes { decoder.new.bytes ≡ decoder.old.bytes }
    ensures takes { TakesStep (word_pass decoder.old.bytes block_state.old.shape spot.plane 0 spot.word spot.stripe)
        (draft_of block_state.old) (draft_of block_state.new) decoder.old decoder.new result }
{
    let shape = block_state.shape;
    let limits = inside(shape, spot.word, spot.stripe);
    let significant = block_state.significant_around(spot);
    let mut candidates = members(significant, limits);
    if candidates == 0 {
        return Ok(());
    }
    let negative = block_state.negative_around(spot);
    let mut sight = Sight {
        significant,
        negative,
    };
    let mut visited = candidates;
    while candidates != 0 {
        let k = candidates.trailing_zeros();
        candidates &= candidates - 1;
        let bit = read_new(&mut sight, decoder, shape.orientation, k)?;
        if bit {
            let reached = later_touched(sight.significant.centre, limits, k);
            candidates |= reached;
            visited |= reached;
        }
    }
    block_state.visit_all(spot, visited);
    block_state.light_all(spot, limits, sight);
    Ok(())
}

/// The places of a word that were significant before this plane.
#[inline(always)]
fn older(block_state: &BlockState, spot: WordPlace) -> u64
    requires { IsWordPlace block_state.now.shape spot }
    ensures { (m : ℕ) → m < 64 → on result m ≡ (of_rows (m % 8)
        && (significant_in (draft_of block_state.now) (column spot.word m) (row spot.stripe m)
        && not ((draft_of block_state.now).visited (column spot.word m) (row spot.stripe m)))) }
{
    let place = word_place(block_state.shape, spot.word + 1, spot.stripe + 1);
    let significant = &block_state.significant;
    let visited = &block_state.visited;
    significant[place] & !visited[place]
}

/// The places of a word that the words show.
#[inline(always)]
fn refined_places(refined: &[u64], shape: BlockShape, spot: WordPlace) -> u64
    requires sized { IsSized shape }
    requires room { words_of shape ≤ length refined.now }
    requires spot { IsWordPlace shape spot }
    ensures { (m : ℕ) → m < 64 → of_rows (m % 8) ≡ true
        → on result m ≡ flag_at shape refined.now (column spot.word m) (row spot.stripe m) }
{
    refined[word_place(shape, spot.word + 1, spot.stripe + 1)]
}

/// Reads a word in the magnitude refinement pass (T.800 D.3.3).
#[inline(always)]
pub fn read_refinement(
    block_state: &mut BlockState,
    decoder: &mut PassDecoder,
    refined: &[u64],
    spot: WordPlace,
) -> Result<(), Fault>
    requires spot { IsWordPlace block_state.old.shape spot }
    requires plane { spot.plane < block_state.old.planes }
    requires room { words_of block_state.old.shape ≤ length refined.now }
    requires fresh { IsFresh spot.plane refined.now (draft_of block_state.old) }
    ensures shape { block_state.new.shape ≡ block_state.old.shape }
    ensures planes { block_state.new.planes ≡ block_state.old.planes }
    ensures bytes { decoder.new.bytes ≡ decoder.old.bytes }
    ensures fresh { IsFresh spot.plane refined.now (draft_of block_state.new) }
    ensures takes { TakesStep (word_pass decoder.old.bytes block_state.old.shape spot.plane 1 spot.word spot.stripe)
        (draft_of block_state.old) (draft_of block_state.new) decoder.old decoder.new result }
{
    let shape = block_state.shape;
    let places = older(block_state, spot);
    if places == 0 {
        return Ok(());
    }
    let significant = block_state.significant_around(spot);
    let touched = touched_places(significant);
    let again = refined_places(refined, shape, spot);
    let mut candidates = places;
    let mut ones = 0;
    while candidates != 0 {
        let k = candidates.trailing_zeros();
        candidates &= candidates - 1;
        let context = refine_context(again >> k & 1 == 1, touched >> k & 1 == 1);
        let bit = read_refined(decoder, context)?;
        ones |= digit(bit) << k;
    }
    block_state.refine_all(spot, places, ones);
    Ok(())
}

/// The places of a word that no pass has coded yet.
#[inline(always)]
fn uncoded(block_state: &BlockState, spot: WordPlace, limits: u64) -> u64
    requires spot { IsWordPlace block_state.now.shape spot }
    requires limits { Shows of_rows (bordered (is_inside block_state.now.shape)) (spot.word + 1) (spot.stripe + 1) limits }
    ensures { (m : ℕ) → m < 64
        → on result m ≡ (of_rows (m % 8) && (is_inside block_state.now.shape (column spot.word m) (row spot.stripe m)
        && (not (significant_in (draft_of block_state.now) (column spot.word m) (row spot.stripe m))
        && not ((draft_of block_state.now).visited (column spot.word m) (row spot.stripe m))))) }
{
    let place = word_place(block_state.shape, spot.word + 1, spot.stripe + 1);
    let significant = &block_state.significant;
    let visited = &block_state.visited;
    limits & !(significant[place] | visited[place])
}

/// The columns of a word that are coded in run mode, by their first rows: they have four rows, with
/// nothing significant in them or around them.
#[inline(always)]
fn still_columns(shape: BlockShape, spot: WordPlace, seen: Around, limits: u64) -> u64
    requires sized { IsSized shape }
    requires spot { IsWordPlace shape spot }
    requires limits { Shows of_rows (bordered (is_inside shape)) (spot.word + 1) (spot.stripe + 1) limits }
    ensures { (f : Field Bool) → IsAround (bordered (seen_from shape spot.stripe f)) spot.word spot.stripe seen
        → (m : ℕ) → m < 64 → on result m ≡ (nat_eq (m % 8) 1 && (nat_lt (8 * spot.word + m / 8) shape.width
        && is_quiet shape f (8 * spot.word + m / 8) spot.stripe)) }
{
    if 4 * spot.stripe + 4 <= shape.height {
        quiet_columns(seen, limits)
    } else {
        0
    }
}

/// Reads a word in the cleanup pass (T.800 D.3.4): the places that are left, and columns in run
/// mode.
#[inline(always)]
pub fn read_cleanup(
    block_state: &mut BlockState,
    decoder: &mut PassDecoder,
    spot: WordPlace,
) -> Result<(), Fault>
    requires spot { IsWordPlace block_state.old.shape spot }
    requires plane { spot.plane < block_state.old.planes }
    ensures shape { block_state.new.shape ≡ block_state.old.shape }
    ensures planes { block_state.new.planes ≡ block_state.old.planes }
    ensures bytes { decoder.new.bytes ≡ decoder.old.bytes }
    ensures takes { TakesStep (word_pass decoder.old.bytes block_state.old.shape spot.plane 2 spot.word spot.stripe)
        (draft_of block_state.old) (draft_of block_state.new) decoder.old decoder.new result }
{
    let shape = block_state.shape;
    let limits = inside(shape, spot.word, spot.stripe);
    let significant = block_state.significant_around(spot);
    let mut left = uncoded(block_state, spot, limits);
    let mut still = still_columns(shape, spot, significant, limits);
    if left | still == 0 {
        return Ok(());
    }
    let negative = block_state.negative_around(spot);
    let mut sight = Sight {
        significant,
        negative,
    };
    'places: while left | still != 0 {
        let k = (left | still).trailing_zeros();
        if still >> k & 1 == 1 {
            let row = read_run(&mut sight, decoder, k)?;
            left &= 0xFFFF_FFFF_FFFF_FFFE << (k + row);
            still &= still - 1;
            if row < 4 {
                still = quiet_behind(still, k + row);
            }
        } else {
            let bit = read_new(&mut sight, decoder, shape.orientation, k)?;
            left &= left - 1;
            if bit {
                still = quiet_behind(still, k);
            }
        }
    }
    block_state.light_all(spot, limits, sight);
    Ok(())
}
