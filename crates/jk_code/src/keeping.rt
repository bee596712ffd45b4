//! Rows that are kept: the first stripe as it is, so that nothing is copied where it is all.

ghost use Rattle.std.specs.Prelude.{◌≡◌, ℕ, ℤ, ◌++◌, List, [], length, slice_index_or, Some, None, Ok, IfOk, IfErr, OnOk};
ghost use Rattle.jk_math.specs.Answer.{Answers};
ghost use Rattle.jk_math.specs.Memory.{IsMemory};
ghost use Rattle.jk_math.specs.Picture.{Picture, IsPicture};
ghost use Rattle.jk_geom.specs.Rectangles.{IsArea};
ghost use Rattle.jk_code.specs.Kept.{IsAllKept};
ghost use Rattle.jk_code.specs.Meaning.{Means};
ghost use Rattle.jk_tile.specs.decoding.TileReading.{tested};
ghost use Rattle.jk_code.specs.MeaningReading.{picture_with, meaning_at};
ghost use Rattle.jk_code.specs.Tiles.{plane_in};

use crate::decoding::image_of;
use crate::rows::{ROWS, Rows, decode_rows};
use jk_math::{Fault, Image, Planes, Rect};
use jk_params::Codestream;
use std::alloc::Global;

/// The rows of an image that came so far: the first stripe, or a list for each component as soon as
/// there are more.
#[derive(Drop)]
pub(crate) struct StripeKeeper {
    samples: usize,
    pub(crate) first: Option<Image>,
    pub(crate) planes: Vec<Vec<i32>>,
}

/// What keeps the rows of a rectangle, of which none came.
pub(crate) fn stripe_keeper(alloc: Global, area: &Rect) -> StripeKeeper
    requires { IsArea area.now }
    ensures first { result.first ≡ None }
    ensures planes { result.planes.items ≡ [] }
{
    let samples = (area.x1 - area.x0) as usize * (area.y1 - area.y0) as usize;
    StripeKeeper {
        samples,
        first: None,
        planes: Vec::new(alloc),
    }
}

/// So many lists with room for so many samples.
fn lists(alloc: Global, count: usize, samples: usize) -> Result<Vec<Vec<i32>>, Fault>
    ensures count { IfOk result (λ v. length v.items ≡ count) }
    ensures empty { IfOk result (λ v. (c : ℕ) → plane_in v.items c ≡ []) }
    ensures memory { IfErr result IsMemory }
{
    let mut planes = Vec::new(alloc);
    for _ in 0..count {
        planes.push(Vec::with_capacity(alloc, samples)?)?;
    }
    Ok(planes)
}

/// Puts the rows of a stripe behind those of the planes.
fn append(planes: &mut Vec<Vec<i32>>, stripe: &Planes) -> Result<(), Fault>
    requires { length stripe.now ≡ length planes.old.items }
    ensures count { OnOk result (length planes.new.items ≡ length planes.old.items) }
    ensures rows { OnOk result
        ((c : ℕ) → plane_in planes.new.items c ≡ plane_in planes.old.items c ++ slice_index_or stripe.now c []) }
    ensures memory { IfErr result IsMemory }
{
    for c in 0..planes.len() {
        planes[c].extend_from_slice(stripe.plane(c))?;
    }
    Ok(())
}

/// The planes of two stripes one behind the other.
fn both(alloc: Global, samples: usize, first: &Image, rows: &Image) -> Result<Vec<Vec<i32>>, Fault>
    requires { length rows.now.planes ≡ length first.now.planes }
    ensures count { IfOk result (λ v. length v.items ≡ length first.now.planes) }
    ensures planes { IfOk result (λ v. (c : ℕ)
        → plane_in v.items c ≡ slice_index_or first.now.planes c [] ++ slice_index_or rows.now.planes c []) }
    ensures memory { IfErr result IsMemory }
{
    let mut planes = lists(alloc, first.planes().len(), samples)?;
    append(&mut planes, first.planes())?;
    append(&mut planes, rows.planes())?;
    Ok(planes)
}

impl Rows for StripeKeeper {
    ghost use Rattle.jk_code.specs.Kept.{TookStripe};

    ghost took = { TookStripe };

    ghost refused = { λ _ _ _ _. ⊥ };

    fn take(&mut self, alloc: Global, rows: Image) -> Result<(), Fault> {
        match self.first.take() {
            Some(first) => {
                // Each stripe of an image has as many planes as the image.
                if rows.planes().len() == first.planes().len() {
                    self.planes = both(alloc, self.samples, &first, &rows)?;
                }
                return Ok(());
            }
            None => {}
        }
        if self.planes.is_empty() {
            self.first = Some(rows);
            return Ok(());
        }
        if rows.planes().len() == self.planes.len() {
            append(&mut self.planes, rows.planes())?;
        }
        Ok(())
    }
}

/// The image of this rectangle all of whose rows were kept.
pub(crate) fn image_kept(
    headers: &Codestream,
    area: &Rect,
    kept: StripeKeeper,
) -> Result<Image, Fault>
    requires { (planes : List (List ℤ)) × IsPicture (picture_with headers.now.siz area.now planes)
        × IsAllKept (picture_with headers.now.siz area.now planes) kept }
    ensures { (planes : List (List ℤ)) → IsAllKept (picture_with headers.now.siz area.now planes) kept
        → result ≡ Ok (picture_with headers.now.siz area.now planes) }
{
    let StripeKeeper { first, planes, .. } = kept;
    match first {
        Some(image) => Ok(image),
        None => image_of(headers, area, planes),
    }
}

/// What drops all rows: a file is judged by it.
#[derive(Drop)]
struct Dropped;

impl Rows for Dropped {
    ghost took = { λ _ _ _. Unit {0} };

    ghost refused = { λ _ _ _ _. ⊥ };

    fn take(&mut self, _alloc: Global, _rows: Image) -> Result<(), Fault> {
        Ok(())
    }
}

/// The first fault of a file, if it has one, all of whose rows are decoded and dropped, so that it
/// takes no memory for the image.
pub fn judge_file(alloc: Global, bytes: &[u8], reduce: u32) -> Result<(), Fault>
    // Which fault is the first, or none.
    ensures exact { Answers (λ _. tt) result (tested (meaning_at bytes.now reduce)) }
    // A file without a fault means a picture.
    ensures means { OnOk result ((p : Picture) × (meaning_at bytes.now reduce ≡ Ok p) × Means bytes.now reduce p) }
    // A file that means a picture has none.
    ensures only { (p : Picture) → Means bytes.now reduce p → Answers (λ _. tt) result (tested (Ok p)) }
{
    decode_rows(alloc, bytes, reduce, ROWS, &mut Dropped)
}
