//! The decisions of columns, put one behind another.

ghost use Rattle.std.specs.Prelude.{◌≡◌, ℕ, true, ◌+◌, ◌*◌, ◌/◌, ◌%◌, ◌++◌, ◌<◌, ◌≤◌, All, List, map};
ghost use Rattle.jk_scan.specs.Bits.{on};
ghost use Rattle.jk_scan.specs.Passes.{Decided, joined};
ghost use Rattle.jk_scan.specs.WordNumbers.{byte_at};
ghost use Rattle.jk_scan.specs.Words.{of_rows};
ghost use Rattle.jk_mqenc.specs.Encoded.{decision_of};
ghost use Rattle.jk_columns.specs.Columns.{IsColumn, IsIndex, column_bytes};
ghost use Rattle.jk_columns.specs.Sheets.{IsSheet, told};

use crate::tables::{bytes_told, shuffle};
use crate::turning::{column, columns};
use jk_scan::DecisionBytes;
use std::simd::prelude::*;

/// The members of each column of a word in the low half of its byte, and the rows with the bit 1 in
/// the high half.
#[inline(always)]
fn indices(members: u64, ones: u64) -> u64
    ensures low { (c r : ℕ) → c < 8 → r < 4 → on result (8 * c + r) ≡ on members (8 * c + (r + 1)) }
    ensures high { (c r : ℕ) → c < 8 → r < 4 → on result (8 * c + 4 + r) ≡ on ones (8 * c + (r + 1)) }
{
    members >> 1 & 0x0F0F_0F0F_0F0F_0F0F | ones << 3 & 0xF0F0_F0F0_F0F0_F0F0
}

/// The index of a column.
#[inline(always)]
fn index_at(indices: u64, runs: u64, c: usize) -> usize
    requires { c < 8 }
    ensures { (members ones : ℕ)
        → ((c r : ℕ) → c < 8 → r < 4 → on indices (8 * c + r) ≡ on members (8 * c + (r + 1)))
        → ((c r : ℕ) → c < 8 → r < 4 → on indices (8 * c + 4 + r) ≡ on ones (8 * c + (r + 1)))
        → IsIndex members ones runs c result }
{
    let low = indices >> (8 * c) & 0xFF;
    let run = runs >> (8 * c + 1) & 1;
    (low | run << 8) as usize
}

/// Puts what is told of a column behind the decisions that are there, and gives how many they are
/// then.
#[inline(always)]
pub fn put_column(column: u8x16, index: usize, bytes: &mut [u8], count: usize) -> usize
    requires index { index < 512 }
    requires small { All (λ byte. byte / 2 < 19) column }
    requires room { IsSheet bytes.old (count + 16) }
    ensures told { told bytes.new result
        ≡ told bytes.old count ++ map decision_of (column_bytes column index) }
    ensures few { result ≤ count + 10 }
    ensures sheet { (n : ℕ) → IsSheet bytes.old n → IsSheet bytes.new n }
{
    column
        .swizzle_dyn(shuffle(index))
        .copy_to_slice(&mut bytes[count..]);
    count + bytes_told(index)
}

/// Puts the decisions of a word behind those that are there, column by column, and gives how many
/// they are then.
#[inline(always)]
pub fn put_columns(
    rows: &DecisionBytes,
    members: u64,
    ones: u64,
    runs: u64,
    bytes: &mut [u8],
    count: usize,
) -> usize
    requires bits { (k : ℕ) → k < 64 → of_rows (k % 8) ≡ true → byte_at rows.now.bits k < 38 }
    requires signs { (k : ℕ) → k < 64 → of_rows (k % 8) ≡ true → byte_at rows.now.signs k < 38 }
    requires room { IsSheet bytes.old (count + 96) }
    ensures told { (part : ℕ → Decided)
        → ((c index : ℕ) (column : List ℕ) → c < 8 → IsColumn rows.now.bits rows.now.signs c column
        → IsIndex members ones runs c index → map decision_of (column_bytes column index) ≡ part c)
        → told bytes.new result ≡ told bytes.old count ++ joined 8 part }
    ensures few { result ≤ count + 80 }
    ensures sheet { (n : ℕ) → IsSheet bytes.old n → IsSheet bytes.new n }
{
    let columns = columns(rows);
    let indices = indices(members, ones);
    let mut count = count;
    for c in 0..8 {
        let own = column(columns[c]);
        count = put_column(own, index_at(indices, runs, c), bytes, count);
    }
    count
}
