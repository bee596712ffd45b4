//! The decisions of a word of 32 places in each pass: loops over the places that the pass codes,
//! from the lowest bit on. Between two of them nothing is decided.

ghost use Rattle.std.specs.Prelude.{◌≡◌, ℕ, Bool, not, nat_eq, nat_lt, ◌&&◌, ◌+◌, ◌*◌, ◌/◌, ◌%◌, ◌^◌, ◌<◌, ◌≤◌, ◌++◌, IfOk};
ghost use Rattle.std.specs.Prelude.{IfErr};
ghost use Rattle.jk_math.specs.Memory.{IsMemory};
ghost use Rattle.jk_scan.specs.Bits.{on};
ghost use Rattle.jk_scan.specs.Neighbours.{Field, is_inside, seen_from};
ghost use Rattle.jk_scan.specs.Words.{of_rows, bordered, Shows};
ghost use Rattle.jk_scan.specs.WordPlaces.{column, row};
ghost use Rattle.jk_scan.specs.Surroundings.{IsAround, Turns};
ghost use Rattle.jk_scan.specs.Flags.{IsSized};
ghost use Rattle.jk_block.specs.Reading.{is_quiet};
ghost use Rattle.jk_block.specs.Steps.{IsWordPlace};
ghost use Rattle.jk_block.specs.encoding.Viewed.{seen, significant_at, spread_at, moment_at, word_decisions};
ghost use Rattle.jk_block.specs.encoding.Viewed.{IsFlagged, HasFlagRoom};

use super::ahead::with_reached;
use super::decisions::{DecisionList, make_room};
use super::flags::Flags;
use super::plane::BlockPlane;
use crate::word_place::WordPlace;
use jk_columns::{put_columns, put_pairs, refining_rows};
use jk_math::Fault;
use jk_scan::{
    Around, BlockShape, decision_bytes, inside, members, quiet_in_turn, seen_among, touched_places,
    word_place,
};

/// A word in the significance propagation pass (T.800 D.3.1). Its places are known at once, and so
/// is what each of them has around it: of the places before it those that are significant behind
/// this pass, of the others those that are so before it.
#[inline(always)]
pub fn write_propagation(
    block: &BlockPlane<'_>,
    flags: &mut Flags,
    spot: WordPlace,
    list: &mut DecisionList,
) -> Result<(), Fault>
    requires spot { IsWordPlace block.now.shape spot }
    requires flagged { IsFlagged block.now (moment_at block.now.shape 0 spot.word spot.stripe 0) flags.old }
    ensures flagged { IfOk result
        (λ _. IsFlagged block.now (moment_at block.now.shape 0 spot.word spot.stripe 64) flags.new) }
    ensures listed { IfOk result
        (λ _. list.new ≡ list.old ++ word_decisions block.now.shape (seen block.now) 0 spot.word spot.stripe) }
    ensures memory { IfErr result IsMemory }
{
    let own = *block;
    let limits = inside(own.shape, spot.word, spot.stripe);
    let around = flags.significant_around(own.shape, spot);
    let candidates = members(around, limits);
    if candidates == 0 {
        return Ok(());
    }
    let ones = own.ones(spot);
    let all = with_reached(candidates, ones, limits & !around.centre);
    let seen = Around {
        centre: around.centre | all & ones,
        west: around.west,
        east: around.east,
    };
    let signs = seen_among(own.negative, own.shape, spot.word, spot.stripe);
    let told = decision_bytes(own.shape.orientation, seen, around.centre, signs, ones);
    flags.visit_all(own.shape, spot, all);
    flags.light_all(own.shape, spot, all & ones);
    make_room(&mut list.bytes, list.count)?;
    list.count = put_columns(&told, all, ones, 0, &mut list.bytes[..], list.count);
    Ok(())
}

/// The places of a word that were significant before this plane.
#[inline(always)]
fn older(block: &BlockPlane<'_>, flags: &Flags, spot: WordPlace) -> u64
    requires room { HasFlagRoom block.now.shape flags.now }
    requires spot { IsWordPlace block.now.shape spot }
    ensures { (t : ℕ) → IsFlagged block.now t flags.now → (m : ℕ) → m < 64 → on result m ≡ (of_rows (m % 8)
        && (significant_at block.now t (column spot.word m) (row spot.stripe m)
        && not (spread_at block.now t (column spot.word m) (row spot.stripe m)))) }
{
    let place = word_place(block.shape, spot.word + 1, spot.stripe + 1);
    let significant = &flags.significant;
    let visited = &flags.visited;
    significant[place] & !visited[place]
}

/// A word in the magnitude refinement pass (T.800 D.3.3).
#[inline(always)]
pub fn write_refinement(
    block: &BlockPlane<'_>,
    flags: &Flags,
    spot: WordPlace,
    list: &mut DecisionList,
) -> Result<(), Fault>
    requires spot { IsWordPlace block.now.shape spot }
    requires flagged { IsFlagged block.now (moment_at block.now.shape 1 spot.word spot.stripe 0) flags.now }
    ensures flagged { IfOk result
        (λ _. IsFlagged block.now (moment_at block.now.shape 1 spot.word spot.stripe 64) flags.now) }
    ensures listed { IfOk result
        (λ _. list.new ≡ list.old ++ word_decisions block.now.shape (seen block.now) 1 spot.word spot.stripe) }
    ensures memory { IfErr result IsMemory }
{
    let own = *block;
    let candidates = older(&own, flags, spot);
    if candidates == 0 {
        return Ok(());
    }
    let around = flags.significant_around(own.shape, spot);
    let touched = touched_places(around);
    let refined = own.refined_places(spot);
    let ones = own.ones(spot);
    make_room(&mut list.bytes, list.count)?;
    let rows = refining_rows(refined, touched, ones);
    list.count = put_pairs(&rows, candidates, &mut list.bytes[..], list.count);
    Ok(())
}

/// The places of a word that no pass has coded yet.
#[inline(always)]
fn uncoded(block: &BlockPlane<'_>, flags: &Flags, spot: WordPlace, limits: u64) -> u64
    requires room { HasFlagRoom block.now.shape flags.now }
    requires spot { IsWordPlace block.now.shape spot }
    requires limits { Shows of_rows (bordered (is_inside block.now.shape)) (spot.word + 1) (spot.stripe + 1) limits }
    ensures { (t : ℕ) → IsFlagged block.now t flags.now → (m : ℕ) → m < 64 → on result m ≡ (of_rows (m % 8)
        && (is_inside block.now.shape (column spot.word m) (row spot.stripe m)
        && (not (significant_at block.now t (column spot.word m) (row spot.stripe m))
        && not (spread_at block.now t (column spot.word m) (row spot.stripe m))))) }
{
    let place = word_place(block.shape, spot.word + 1, spot.stripe + 1);
    let significant = &flags.significant;
    let visited = &flags.visited;
    limits & !(significant[place] | visited[place])
}

/// The columns of a word that are coded in run mode, by their first rows, each as it is in its
/// turn: it sees the columns before it in `seen`, itself and those behind it in `old`.
#[inline(always)]
fn run_columns(shape: BlockShape, spot: WordPlace, seen: Around, old: u64, limits: u64) -> u64
    requires sized { IsSized shape }
    requires spot { IsWordPlace shape spot }
    requires limits { Shows of_rows (bordered (is_inside shape)) (spot.word + 1) (spot.stripe + 1) limits }
    ensures { (f : Field Bool) (own m : ℕ) → m < 64 → own < 2 ^ 64 → Turns own seen.centre old (8 * (m / 8))
        → IsAround (bordered (seen_from shape spot.stripe f)) spot.word spot.stripe
        (record { centre = own; west = seen.west; east = seen.east })
        → on result m ≡ (nat_eq (m % 8) 1
        && (nat_lt (8 * spot.word + m / 8) shape.width && is_quiet shape f (8 * spot.word + m / 8) spot.stripe)) }
{
    if 4 * spot.stripe + 4 <= shape.height {
        quiet_in_turn(seen, old, limits)
    } else {
        0
    }
}

/// A word in the cleanup pass (T.800 D.3.4): all places that are left, and columns in run mode.
/// What each place has around it is known at once, as in the significance propagation pass.
#[inline(always)]
pub fn write_cleanup(
    block: &BlockPlane<'_>,
    flags: &mut Flags,
    spot: WordPlace,
    list: &mut DecisionList,
) -> Result<(), Fault>
    requires spot { IsWordPlace block.now.shape spot }
    requires flagged { IsFlagged block.now (moment_at block.now.shape 2 spot.word spot.stripe 0) flags.old }
    ensures flagged { IfOk result
        (λ _. IsFlagged block.now (moment_at block.now.shape 2 spot.word spot.stripe 64) flags.new) }
    ensures listed { IfOk result
        (λ _. list.new ≡ list.old ++ word_decisions block.now.shape (seen block.now) 2 spot.word spot.stripe) }
    ensures memory { IfErr result IsMemory }
{
    let own = *block;
    let limits = inside(own.shape, spot.word, spot.stripe);
    let left = uncoded(&own, flags, spot, limits);
    if left == 0 {
        return Ok(());
    }
    let around = flags.significant_around(own.shape, spot);
    let before = around.centre;
    let ones = own.ones(spot);
    let new = left & ones;
    let seen = Around {
        centre: before | new,
        west: around.west,
        east: around.east,
    };
    let signs = seen_among(own.negative, own.shape, spot.word, spot.stripe);
    let told = decision_bytes(own.shape.orientation, seen, before, signs, ones);
    let still = run_columns(own.shape, spot, seen, before, limits);
    flags.light_all(own.shape, spot, new);
    make_room(&mut list.bytes, list.count)?;
    list.count = put_columns(&told, left, ones, still, &mut list.bytes[..], list.count);
    Ok(())
}
