//! Who codes the rows of a file: this thread alone, or workers beside it.

ghost use Rattle.std.specs.Prelude.{◌≡◌, ℕ, ◌+◌, List, Ok, OnOk};
ghost use Rattle.std.specs.Io.KnownBytes.{Appends};
ghost use Rattle.jk_math.specs.Picture.{Picture};
ghost use Rattle.jk_params.specs.PictureFrames.{IsPictureFrame};
ghost use Rattle.jk_code.specs.Meaning.{Means};
ghost use Rattle.jk_code.specs.Fronts.{HasFronts};
ghost use Rattle.jk_code.specs.Written.{written};
ghost use Rattle.jk_code.specs.RowsWritten.{WereAllGiven, IsWrittenOf};

use crate::encoding_rows::ROWS;
use crate::row_decoders::rows_for;
use jk_code::{RowSupply, Team, encode_rows, encode_rows_with};
use jk_jobs::Gate;
use jk_math::Fault;
use jk_options::PlacedFrame;
use std::alloc::Global;
use std::io::Write;
use std::marker::Sync;
use std::thread::Threads;

/// How many rows more a step of workers has than its rows of code-blocks of the highest resolution, whose
/// last coefficients depend on rows below them. So there are code-blocks to be coded behind the first step.
const ROWS_BELOW: u32 = 8;

/// Encodes the rows of an image, by this thread alone where the team has one worker; the clauses are
/// those of `jk_code::encode_rows`.
pub(crate) fn encode_rows_by<R: Threads + Sync, G: Gate + Sync, S: RowSupply, W: Write>(
    team: &Team<'_, R, G>,
    alloc: Global,
    placed: &PlacedFrame,
    supply: &mut S,
    writer: &mut W,
) -> Result<(), Fault>
    requires frame { IsPictureFrame placed.now.frame }
    requires framed { S.framed supply.old ≡ placed.now.frame }
    requires first { S.next supply.old ≡ placed.now.frame.y0 }
    ensures ok { OnOk result ((p : Picture) × WereAllGiven S.gave placed.now.frame supply.old supply.new p
        × (file : List ℕ) × (written p placed.now.parameters ≡ Ok file)
        × Appends (W.contents writer.old) (W.contents writer.new) file
        × Means file 0 p × HasFronts p placed.now.parameters file) }
    ensures part { (text : List ℕ) × Appends (W.contents writer.old) (W.contents writer.new) text
        × IsWrittenOf S.gave S.met placed.now.frame placed.now.parameters supply.old supply.new text result }
{
    let (frame, parameters) = (&placed.frame, &placed.parameters);
    let workers = team.workers.count;
    if workers == 1 {
        return encode_rows(alloc, frame, parameters, ROWS, supply, writer);
    }
    let step = rows_for(frame.width, frame.components, workers).saturating_add(ROWS_BELOW);
    encode_rows_with(team, alloc, frame, parameters, step, supply, writer)
}
