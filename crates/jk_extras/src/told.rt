//! What a file keeps.

ghost use Rattle.std.specs.Prelude.{◌≡◌, List, ℕ, IfOk};
ghost use Rattle.jk_boxes.specs.Boxes.{IsJp2};
ghost use Rattle.jk_extras.specs.Reading.{extras_at, told_of};
ghost use Rattle.jk_extras.specs.Said.{IsTold};

use crate::finding::find_header;
use crate::grids::Grid;
pub use crate::header::ToldColour;
use crate::header::{Met, read_header};
use jk_boxes::open;
use jk_math::Fault;

/// What a file keeps beside the samples, by places in it.
#[derive(Clone, Copy, Debug, PartialEq, Eq)]
pub struct Told {
    pub colour: ToldColour,
    /// The resolution at which the image was captured.
    pub capture: Option<Grid>,
    /// The resolution at which it is to be displayed.
    pub display: Option<Grid>,
    /// Where boxes of XML or under a UUID are looked for first (`other_after`); in a bare
    /// codestream the end of the file.
    pub others: usize,
}

/// What was met, told.
fn told_by(met: Met) -> Told
    ensures { result ≡ told_of met }
{
    let (capture, display) = match met.resolution {
        Some(grids) => (grids.capture, grids.display),
        None => (None, None),
    };
    Told {
        colour: met.colour,
        capture,
        display,
        others: 12,
    }
}

#[tactic(auto, unfolding(crate::specs::Reading::extras_at))]
fn tell(file: &[u8]) -> Result<Told, Fault>
    ensures { result ≡ extras_at file.now }
{
    let boxed = open(file)?;
    if !boxed.jp2 {
        return Ok(Told {
            colour: ToldColour::Nothing,
            capture: None,
            display: None,
            others: file.len(),
        });
    }
    let (start, end) = find_header(file)?;
    let met = read_header(file, start, end)?;
    Ok(told_by(met))
}

/// What a file keeps beside the samples: the first colour specification of a method that T.800 has,
/// and the first resolution box. A bare codestream keeps nothing.
///
/// The first of these from left to right: the faults of `open`; BadBox, a colour specification of
/// fewer than 3 bytes, an enumerated one of other than 7, a profile of none, a resolution of other
/// than 10; Truncated and BadBox, a box within the resolution box; BadValue, a numerator or a
/// denominator of 0.
pub fn extras_at(file: &[u8]) -> Result<Told, Fault>
    ensures exact { result ≡ extras_at file.now }
    // What is told is what the boxes of the first JP2 header box say.
    ensures found { (codestream : List ℕ) (j : IsJp2 file.now codestream)
        → IfOk result (λ t. IsTold file.now t j.header_next.1.others) }
{
    tell(file)
}
