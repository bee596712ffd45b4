//! The calls that the jobs make: those of the commands, over bytes in memory.

use crate::chance::Chance;
use jk_code::decode_window;
use jk_commands::{EncodeOptions, cut_file, decode_rows_into, encode_file_into, judge};
use jk_math::{Fault, Image};
use jk_window::View;
use std::alloc::Global;

/// The options of `jk encode` where none is given.
pub(crate) fn plain(alloc: Global) -> EncodeOptions {
    EncodeOptions::new(alloc)
}

/// The options of `jk encode --windows`.
pub(crate) fn with_windows(alloc: Global) -> EncodeOptions {
    let mut options = EncodeOptions::new(alloc);
    options.windows = true;
    options
}

/// What is written of a PGM or PPM file.
pub(crate) fn encoded(
    alloc: Global,
    drawn: Vec<u8>,
    options: EncodeOptions,
) -> Result<Vec<u8>, Fault> {
    let plan = judge(alloc, &options)?;
    let mut file = Vec::new(alloc);
    encode_file_into(alloc, drawn, plan, &mut file)?;
    Ok(file)
}

/// The PGM or PPM file of a file at a reduction.
pub(crate) fn decoded(alloc: Global, file: &Vec<u8>, reduce: u32) -> Result<Vec<u8>, Fault> {
    let mut drawn = Vec::new(alloc);
    decode_rows_into(alloc, file, reduce, &mut drawn)?;
    Ok(drawn)
}

/// A window of a file, decoded.
pub(crate) fn window_of(alloc: Global, file: &[u8], view: View) -> Result<Image, Fault> {
    decode_window(alloc, file, view)
}

/// The file of a window.
pub(crate) fn cut_of(alloc: Global, file: &[u8], view: View) -> Result<Vec<u8>, Fault> {
    cut_file(alloc, file, view)
}

/// A square view somewhere in an image of a size.
pub(crate) fn view_in(
    chance: &mut Chance,
    size: (usize, usize),
    reduce: u32,
    side: u32,
    layers: Option<u32>,
) -> View {
    let halved = |length: usize| (length >> (reduce & 15)).min(1 << 24) as u32;
    View {
        reduce,
        x: chance.below(halved(size.0).saturating_sub(side)),
        y: chance.below(halved(size.1).saturating_sub(side)),
        width: side,
        height: side,
        layers,
    }
}

/// A square view of an image of a size round one of these places, or somewhere.
pub(crate) fn view_at(
    chance: &mut Chance,
    places: &[(u32, u32)],
    size: (usize, usize),
    reduce: u32,
    side: u32,
    layers: Option<u32>,
) -> View {
    let mut view = view_in(chance, size, reduce, side, layers);
    let chosen = chance.below((places.len() & 0xFF_FFFF) as u32) as usize;
    if let Some((x, y)) = places.get(chosen) {
        let right = ((size.0 >> (reduce & 15)) & 0xFF_FFFF) as u32;
        let lower = ((size.1 >> (reduce & 15)) & 0xFF_FFFF) as u32;
        let (more, down) = (chance.below(64), chance.below(64));
        let corner = |at: u32, edge: u32, by: u32| {
            (at >> (reduce & 15))
                .saturating_add(by)
                .saturating_sub(side / 2)
                .min(edge.saturating_sub(side))
        };
        view.x = corner(*x, right, more);
        view.y = corner(*y, lower, down);
    }
    view
}

/// The windows that were asked for, with the numbers of their images.
#[derive(Drop)]
pub(crate) struct Asked {
    views: Vec<(usize, View)>,
}

impl Asked {
    /// No window.
    pub(crate) fn new(alloc: Global) -> Asked {
        Asked {
            views: Vec::new(alloc),
        }
    }

    /// Whether a window is asked for the first time.
    pub(crate) fn first(&mut self, image: usize, view: View) -> Result<bool, Fault> {
        for asked in &self.views {
            if asked.0 == image && asked.1 == view {
                return Ok(false);
            }
        }
        self.views.push((image, view))?;
        Ok(true)
    }
}
