//! Who decodes the rows of a file: this thread alone, or workers beside it.

ghost use Rattle.std.specs.Prelude.{◌≡◌, ◌+◌, ◌≤◌, ◌⊎◌, Ok, OnOk};
ghost use Rattle.std.specs.Thread.{IsSync};
ghost use Rattle.jk_math.specs.Answer.{Answers};
ghost use Rattle.jk_math.specs.Picture.{Picture};
ghost use Rattle.jk_tile.specs.decoding.TileReading.{tested};
ghost use Rattle.jk_code.specs.Meaning.{Means};
ghost use Rattle.jk_code.specs.MeaningReading.{meaning_at};
ghost use Rattle.jk_code.specs.Rows.{WereTaken, AreRefused};

use jk_code::{Rows, decode_rows, decode_rows_with, frame};
use jk_jobs::Open;
use jk_math::Fault;
use jk_tile::Workers;
use std::alloc::Global;
use std::marker::Sync;
use std::thread::Threads;

/// How many rows are decoded at a time by one thread. A row of code-blocks of each sub-band is held
/// anyway, which `jk encode` makes 64 rows high: a stripe of as many rows takes less memory than these
/// do.
pub(crate) const ROWS: u32 = 64;

/// How many rows are decoded or encoded at a time with so many workers: so many that each of them has
/// some 32 code-blocks of 64 by 64, and in which a row of code-blocks of the highest resolution ends.
pub(crate) fn rows_for(width: u32, components: u16, workers: usize) -> u32
    requires workers { workers ≤ 64 }
    ensures { 1 ≤ result }
{
    let across = (width as u64 * components as u64 / 64).max(1);
    let blocks = 32 * workers as u64;
    (blocks / (2 * across) + 1) as u32 * 128
}

/// Who decodes the rows of a file, with the clauses of `jk_code::decode_rows`.
pub(crate) trait RowDecoder {
    // What holds of one that may be called.
    ghost ready: { Self → Type 0 };

    /// Gives the rows of the image that a file means at a reduction.
    fn decode<S: Rows>(
        &self,
        alloc: Global,
        bytes: &[u8],
        reduce: u32,
        rows: &mut S,
    ) -> Result<(), Fault>
        requires ready { ready self.now }
        ensures exact { Answers (λ _. tt) result (tested (meaning_at bytes.now reduce))
            ⊎ AreRefused S.took S.refused (meaning_at bytes.now reduce) rows.old rows.new result }
        ensures taken { OnOk result ((p : Picture) × (meaning_at bytes.now reduce ≡ Ok p) × Means bytes.now reduce p
            × WereTaken S.took p p.y0 (p.y0 + p.height) rows.old rows.new) };
}

/// This thread alone.
#[derive(Clone, Copy, Debug)]
pub(crate) struct Alone;

impl RowDecoder for Alone {
    ghost ready = { λ s. Unit {0} };

    fn decode<S: Rows>(
        &self,
        alloc: Global,
        bytes: &[u8],
        reduce: u32,
        rows: &mut S,
    ) -> Result<(), Fault> {
        decode_rows(alloc, bytes, reduce, ROWS, rows)
    }
}

/// Workers decode code-blocks beside this thread.
#[derive(Drop)]
pub(crate) struct Beside<'a, R> {
    pub(crate) workers: &'a Workers<'a, R>,
}

impl<'a, R: Threads + Sync> RowDecoder for Beside<'a, R> {
    ghost ready = { λ s. IsSync R.row };

    fn decode<S: Rows>(
        &self,
        alloc: Global,
        bytes: &[u8],
        reduce: u32,
        rows: &mut S,
    ) -> Result<(), Fault> {
        let step = match frame(alloc, bytes, reduce) {
            Ok(told) => rows_for(told.width, told.components, self.workers.count),
            Err(_) => ROWS,
        };
        decode_rows_with(self.workers, alloc, &Open, bytes, reduce, step, rows)
    }
}
