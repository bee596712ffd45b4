//! What a file is told to hold.

ghost use Rattle.std.specs.Prelude.{◌≡◌, ◌⊎◌};
ghost use Rattle.jk_math.specs.Picture.{Picture};
ghost use Rattle.jk_code.specs.Meaning.{Means};
ghost use Rattle.jk_code.specs.Frames.{frame_at};
ghost use Rattle.jk_c.specs.Codes.{done_code, memory_code};
ghost use Rattle.jk_c.specs.Telling.{TellsFrameOrMemory, IsToldOf, told};

use crate::codes::{DONE, code};
use crate::frames::CallerFrame;
use jk_code::{ImageFrame, frame};
use std::alloc::Global;

/// A frame in the caller's words.
fn told(frame: &ImageFrame) -> CallerFrame
    ensures { result ≡ told frame.now }
{
    CallerFrame {
        x0: frame.x0,
        y0: frame.y0,
        width: frame.width,
        height: frame.height,
        components: frame.components as u32,
        depth: frame.depth as u32,
        is_signed: if frame.signed { 1 } else { 0 },
        levels: frame.levels as u32,
        reserved: [0; 4],
    }
}

/// What boxes and headers of a file say of its image at a reduction, so that a list for its samples
/// can be made. The faults are those of `jk_code::frame`.
#[unsafe(no_mangle)]
pub extern "C" fn jk_info(alloc: Global, file: &[u8], reduce: u32, out: &mut CallerFrame) -> u32
    // Which frame, or which fault is the first.
    ensures exact { TellsFrameOrMemory (frame_at file.now reduce) out.old result out.new }
    // A picture that the file means has the frame.
    ensures means { (p : Picture) → Means file.now reduce p
        → ((result ≡ memory_code) × (out.new ≡ out.old)) ⊎ ((result ≡ done_code) × IsToldOf out.new p) }
{
    match frame(alloc, file, reduce) {
        Ok(found) => {
            *out = told(&found);
            DONE
        }
        Err(fault) => code(fault),
    }
}
