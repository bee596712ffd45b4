//! Why a JPEG 2000 file isn't read as it is asked. It is looked for where a file was rejected, to
//! explain it, and decides nothing.

use crate::faults::cause_of;
use crate::features::{codestream_start, left_out};
use crate::formats::{format_of, is_coded, is_pnm};
use crate::front::Front;
use jk_marks::{Main, read_main};
use jk_math::Fault;
use jk_window::View;
use std::alloc::{AllocError, Global};

/// What is known of a JPEG 2000 file to explain an error of it.
#[derive(Drop)]
pub struct Seen {
    front: Front,
    left_out: Option<&'static str>,
}

impl Seen {
    /// Of a file with these bytes.
    pub fn of(alloc: Global, bytes: &[u8]) -> Seen {
        Seen {
            front: Front::of(alloc, bytes),
            left_out: left_out(bytes),
        }
    }
}

/// Why an input isn't a JPEG 2000 file; None where it begins as one.
fn other_format(alloc: Global, name: &str, front: &Front) -> Result<Option<String>, AllocError> {
    let bytes = front.bytes();
    if front.size() != 0 && is_coded(bytes) {
        return Ok(None);
    }
    let words = if front.size() == 0 {
        format!(in alloc; "{name} is empty")
    } else if is_pnm(bytes) {
        format!(in alloc;
            "{name} is a PGM or PPM image, and no JPEG 2000 file; `jk encode` makes one of it"
        )
    } else {
        let format = format_of(bytes).unwrap_or("another file");
        format!(in alloc; "{name} is {format}, and no JPEG 2000 file")
    };
    Ok(Some(words?))
}

/// The size of an image at a reduction, and what else a view of it hangs on.
#[derive(Clone, Copy)]
struct Shape {
    width: u64,
    height: u64,
    levels: u32,
    layers: u16,
}

/// A coordinate at a reduction (T.800 B-14).
fn reduced(coordinate: u32, reduce: u32) -> u64 {
    (coordinate as u64).div_ceil(1 << reduce.min(32))
}

/// The least number of decomposition levels that a main header tells.
fn least_levels(main: &Main) -> u32 {
    let mut least = main.cod.style.levels;
    for own in &main.coc {
        if let Some(style) = own {
            least = least.min(style.levels);
        }
    }
    least as u32
}

/// The image of a file at a reduction, as its main header tells it, if that is among these bytes.
fn shape_of(bytes: &[u8], reduce: u32) -> Option<Shape> {
    let start = codestream_start(bytes)?;
    let (main, _size) = read_main(bytes.get(start..)?).ok()?;
    let siz = &main.siz;
    Some(Shape {
        width: reduced(siz.x1, reduce).saturating_sub(reduced(siz.x0, reduce)),
        height: reduced(siz.y1, reduce).saturating_sub(reduced(siz.y0, reduce)),
        levels: least_levels(&main),
        layers: main.cod.layers,
    })
}

/// Which number of a view an image doesn't allow, and what it allows.
fn bad_view(alloc: Global, name: &str, shape: &Shape, view: &View) -> Result<String, AllocError> {
    let Shape {
        width,
        height,
        levels,
        layers,
    } = *shape;
    let View {
        reduce,
        x,
        y,
        width: columns,
        height: rows,
        ..
    } = *view;
    if reduce > levels {
        return format!(in alloc; "--reduce is {reduce}, and {name} allows 0 to {levels}");
    }
    if view.layers == Some(0) {
        return format!(in alloc; "--layers is 0, and may be 1 or more: {name} has {layers}");
    }
    if width == 0 || height == 0 {
        return format!(in alloc; "{name} has no sample at --reduce {reduce}");
    }
    if columns == 0 || rows == 0 {
        return format!(in alloc;
            "the window has {columns} columns and {rows} rows (--w and --h), and each must be 1 at least"
        );
    }
    format!(in alloc;
        "the window begins at column {x} and row {y}, outside {name}, which has {width} columns and {height} rows at --reduce {reduce}"
    )
}

/// Why a JPEG 2000 file of a name isn't read, or not in this view, if one is asked for.
pub fn not_read(
    alloc: Global,
    fault: Fault,
    name: &str,
    seen: &Seen,
    view: Option<&View>,
) -> Result<String, AllocError> {
    if let Some(words) = other_format(alloc, name, &seen.front)? {
        return Ok(words);
    }
    if let (Fault::Unsupported, Some(feature)) = (fault, seen.left_out) {
        return format!(in alloc; "{name} has {feature}, which jk doesn't support");
    }
    if let (Fault::BadWindow, Some(view)) = (fault, view) {
        if let Some(shape) = shape_of(seen.front.bytes(), view.reduce) {
            return bad_view(alloc, name, &shape, view);
        }
    }
    let cause = cause_of(&fault);
    format!(in alloc; "{name}: {cause}")
}
