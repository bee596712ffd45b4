//! What an image is, as C programs tell it and are told.

ghost use Rattle.std.specs.Prelude.{◌≡◌, ◌≤◌, ◌^◌, ◌↔◌, ◌*◌, IsTrue, IfOk, IfErr};
ghost use Rattle.jk_math.specs.declared.fault.Fault.TheVariants.{BadParameters};
ghost use Rattle.jk_params.specs.PictureFrames.{IsPictureFrame};
ghost use Rattle.jk_c.specs.Frames.{IsKnownFrame, IsCountable, Fills, framed};
ghost use Rattle.jk_c.specs.Signed.{IsKnownSignedFrame};

use jk_math::Fault;
use jk_params::PictureFrame;

/// Where an image lies at a reduction, how large it is, and what its samples are.
#[repr(C)]
#[derive(Clone, Copy, Debug, PartialEq, Eq)]
pub struct CallerFrame {
    /// The column of the upper left sample on the reference grid.
    pub x0: u32,
    /// The row of the upper left sample on the reference grid.
    pub y0: u32,
    /// Samples in a row.
    pub width: u32,
    /// Rows.
    pub height: u32,
    /// 1 to 4.
    pub components: u32,
    /// Bits of a sample, the sign counted.
    pub depth: u32,
    /// 1 where samples may be negative, else 0.
    pub is_signed: u32,
    /// So often the image can be halved. It is told, and isn't read.
    pub levels: u32,
    /// Zeros.
    pub reserved: [u32; 4],
}

/// Whether a list can be counted for the samples of a frame.
fn is_countable(frame: &CallerFrame) -> bool
    ensures { IsTrue result ↔ IsCountable frame.now }
{
    1 <= frame.components
        && frame.components <= 4
        && frame.depth <= 16
        && frame.width as u64 * frame.height as u64 <= 1 << 28
        && frame.reserved == [0; 4]
}

/// Whether a frame is one of unsigned samples for which a list can be counted.
pub(crate) fn is_known(frame: &CallerFrame) -> bool
    ensures { IsTrue result ↔ IsKnownFrame frame.now }
{
    frame.is_signed == 0 && is_countable(frame)
}

/// Whether a frame is one of signed samples for which a list can be counted.
pub(crate) fn is_known_signed(frame: &CallerFrame) -> bool
    ensures { IsTrue result ↔ IsKnownSignedFrame frame.now }
{
    frame.is_signed == 1 && is_countable(frame)
}

/// Whether a list has a sample for each component of each pixel.
pub(crate) fn fills(frame: &CallerFrame, count: usize) -> bool
    requires few { frame.now.components ≤ 4 }
    requires area { frame.now.width * frame.now.height ≤ 2 ^ 28 }
    ensures { IsTrue result ↔ Fills frame.now count }
{
    frame.width as usize * frame.height as usize * frame.components as usize == count
}

/// The frame of an image whose samples are with a sign or without.
///
/// BadParameters: none of the profile has it.
pub(crate) fn picture_frame(frame: &CallerFrame, signed: bool) -> Result<PictureFrame, Fault>
    requires { IsCountable frame.now }
    ensures value { IfOk result (λ f. f ≡ framed frame.now signed) }
    ensures known { IfOk result IsPictureFrame }
    ensures err { IfErr result (λ e. (e ≡ BadParameters) × (IsPictureFrame (framed frame.now signed) → ⊥)) }
{
    let right = frame.x0 as u64 + frame.width as u64;
    let lower = frame.y0 as u64 + frame.height as u64;
    if frame.width == 0 || frame.height == 0 || right >= 1 << 31 || lower >= 1 << 31 {
        return Err(Fault::BadParameters);
    }
    if frame.depth == 0 {
        return Err(Fault::BadParameters);
    }
    Ok(PictureFrame {
        x0: frame.x0,
        y0: frame.y0,
        width: frame.width,
        height: frame.height,
        components: frame.components as u16,
        depth: frame.depth as u8,
        signed,
    })
}
