//! One place in a pass.

ghost use Rattle.std.specs.Prelude.{◌≡◌, ℕ, true, false, nat_le, ◌+◌, ◌-◌, ◌*◌, ◌/◌, ◌%◌, ◌^◌};
ghost use Rattle.std.specs.Prelude.{◌<◌, ◌≤◌, IfOk, if◌then◌else◌};
ghost use Rattle.jk_math.specs.declared.orientation.Orientation.{Orientation};
ghost use Rattle.jk_scan.specs.Contexts.{refine_context_of};
ghost use Rattle.jk_scan.specs.Neighbours.{touched_in};
ghost use Rattle.jk_scan.specs.Moments.{cleanup};
ghost use Rattle.jk_scan.specs.Passes.{flipped};
ghost use Rattle.jk_scan.specs.Words.{of_rows};
ghost use Rattle.jk_scan.specs.WordPlaces.{column, row};
ghost use Rattle.jk_block.specs.declared.word_place.WordPlace.{WordPlace};
ghost use Rattle.jk_block.specs.Reading.{read_sign, read_new, place_at, row_named, rows_at, read_run};
ghost use Rattle.jk_block.specs.Steps.{IsBitPlace};
ghost use Rattle.jk_block.specs.decoding.BlockStates.{Draft, TakesTo, TakesUpTo, significant_in, coded_in};
ghost use Rattle.jk_block.specs.decoding.Sights.{Sees, new_in, run_in};

use super::sight::Sight;
use crate::contexts::{RUN_LENGTH, UNIFORM};
use jk_math::{Fault, Orientation};
use jk_mqdec::PassDecoder;
use jk_scan::{sign_context_at, zero_context_at};

/// The other bit, if it is to be flipped.
#[tactic(auto, unfolding(jk_scan::specs::Passes::flipped))]
#[inline(always)]
fn flipped(flip: bool, bit: bool) -> bool
    ensures { result ≡ flipped flip bit }
{
    flip != bit
}

/// Reads the sign of the place at bit k, which becomes significant (T.800 D.3.2): whether it is
/// negative.
#[inline(always)]
fn read_sign(sight: Sight, decoder: &mut PassDecoder, k: u32) -> Result<bool, Fault>
    requires within { k < 64 }
    requires on_row { of_rows (k % 8) ≡ true }
    ensures bytes { decoder.new.bytes ≡ decoder.old.bytes }
    ensures takes { (at : WordPlace) (d : Draft) → Sees at d sight
        → TakesTo (read_sign decoder.old.bytes d.shape at.plane (column at.word k) (row at.stripe k))
        d (λ negative. coded_in at.plane (column at.word k) (row at.stripe k) true negative d)
        decoder.old decoder.new result }
{
    let sign = sign_context_at(sight.significant, sight.negative, k);
    let bit = decoder.decode(sign.context as usize)?;
    Ok(flipped(sign.flip, bit))
}

/// Reads the place at bit k, which isn't significant: its bit, and its sign where that is 1.
#[inline(always)]
pub fn read_new(
    sight: &mut Sight,
    decoder: &mut PassDecoder,
    orientation: Orientation,
    k: u32,
) -> Result<bool, Fault>
    requires within { k < 64 }
    requires on_row { of_rows (k % 8) ≡ true }
    ensures bytes { decoder.new.bytes ≡ decoder.old.bytes }
    ensures sees { (at : WordPlace) (d : Draft) → IsBitPlace d.shape at k → Sees at d sight.old
        → IfOk result (λ bit. Sees at (new_in at k bit sight.new d) sight.new) }
    ensures takes { (at : WordPlace) (d : Draft) → d.shape.orientation ≡ orientation → IsBitPlace d.shape at k
        → Sees at d sight.old
        → TakesTo (read_new decoder.old.bytes d.shape at.plane (column at.word k) (row at.stripe k))
        d (λ bit. new_in at k bit sight.new d) decoder.old decoder.new result }
{
    let context = zero_context_at(orientation, sight.significant, k);
    let bit = decoder.decode(context as usize)?;
    if bit {
        let negative = read_sign(*sight, decoder, k)?;
        sight.light(k, negative);
    }
    Ok(bit)
}

/// Reads the next bit of a place that was significant before this plane (T.800 D.3.3).
#[inline(always)]
pub fn read_refined(decoder: &mut PassDecoder, context: u8) -> Result<bool, Fault>
    requires { context < 19 }
    ensures bytes { decoder.new.bytes ≡ decoder.old.bytes }
    ensures takes { (at : WordPlace) (d : Draft) (x y : ℕ) → significant_in d x y ≡ true → d.visited x y ≡ false
        → context ≡ refine_context_of (nat_le 4 (d.magnitude x y / 2 ^ at.plane)) (touched_in d.shape (significant_in d) x y)
        → TakesTo (place_at decoder.old.bytes d.shape at.plane 1 x y)
        d (λ bit. coded_in at.plane x y bit (d.negative x y) d) decoder.old decoder.new result }
{
    decoder.decode(context as usize)
}

/// The row that two bits name, high bit first.
#[inline(always)]
fn row_named(high: bool, low: bool) -> u32
    ensures row { result ≡ row_named high low }
    ensures few { result < 4 }
{
    let upper = if high { 2 } else { 0 };
    let lower = if low { 1 } else { 0 };
    upper + lower
}

/// Reads a column in run mode (T.800 D.3.4), from the bit k of its first row, up to the first row
/// that becomes significant: gives that row, or 4.
#[inline(always)]
pub fn read_run(sight: &mut Sight, decoder: &mut PassDecoder, k: u32) -> Result<u32, Fault>
    requires within { k < 64 }
    requires first { k % 8 ≡ 1 }
    ensures bytes { decoder.new.bytes ≡ decoder.old.bytes }
    ensures few { IfOk result (λ f. f ≤ 4) }
    ensures sees { (at : WordPlace) (d : Draft) → IsBitPlace d.shape at k → 4 * at.stripe + 4 ≤ d.shape.height
        → Sees at d sight.old → IfOk result (λ f. Sees at (run_in at k f sight.new d) sight.new) }
    ensures takes { (at : WordPlace) (d : Draft) → IsBitPlace d.shape at k → 4 * at.stripe + 4 ≤ d.shape.height
        → Sees at d sight.old
        → TakesUpTo (read_run decoder.old.bytes d.shape at.plane (column at.word k) at.stripe)
        (λ f. rows_at decoder.old.bytes d.shape at.plane cleanup (column at.word k) at.stripe (f + 1) (3 - f))
        d (λ f. run_in at k f sight.new d) decoder.old decoder.new result }
{
    let some = decoder.decode(RUN_LENGTH as usize)?;
    if !some {
        return Ok(4);
    }
    let high = decoder.decode(UNIFORM as usize)?;
    let low = decoder.decode(UNIFORM as usize)?;
    let row = row_named(high, low);
    let negative = read_sign(*sight, decoder, k + row)?;
    sight.light(k + row, negative);
    Ok(row)
}
