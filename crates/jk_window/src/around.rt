//! What stands in a file around its packets.

ghost use Rattle.std.specs.Prelude.{◌≡◌, ◌≤◌, ◌++◌, length, OnOk, IfErr, MatchResult};
ghost use Rattle.jk_math.specs.Memory.{IsMemory};
ghost use Rattle.jk_params.specs.Headers.{AreHeaders};
ghost use Rattle.jk_window.specs.Framing.{end_of, walked, head_alone, segments_alone, frame_at};

use jk_boxes::Form;
use jk_marks::{PartHead, copy_main, copy_part_segments};
use jk_math::Fault;
use jk_params::Codestream;
use std::alloc::Global;
use std::marker::Model;

/// What stands in a file around its packets.
#[derive(Debug, Drop)]
pub(crate) struct Around {
    /// The main header without TLM (T.800 A.7.1).
    pub(crate) main: Vec<u8>,
    /// The heads of the tile-parts in file order.
    pub(crate) heads: Vec<PartHead>,
    /// Their segments without PLT (T.800 A.7.3), one after another.
    pub(crate) segments: Vec<u8>,
    /// How the length of the codestream box is told; Open where there is none.
    pub(crate) form: Form,
    /// How many bytes the file has.
    pub(crate) size: usize,
}

impl Model for Around {
    ghost use Rattle.jk_window.specs.Framing.{Frame};

    ghost Value = { Frame };

    ghost view = { λ f. record {
      main = f.main.items;
      heads = f.heads.items;
      segments = f.segments.items;
      form = f.form;
      size = f.size;
    } };
}

/// Where a tile-part ends by the headers; 0 where they don't tell it.
fn end_of(headers: &Codestream, head: &PartHead, size: usize) -> usize
    requires { AreHeaders size headers.now }
    ensures value { result ≡ end_of headers.now head.now }
    ensures within { result ≤ size }
{
    let (tile, number) = (head.tile as usize, head.number as usize);
    if tile >= headers.tile_count() {
        return 0;
    }
    let places = headers.data_places(tile);
    if number < places.len() {
        places[number].1
    } else {
        0
    }
}

/// Appends the heads of the tile-parts from a place on, and their segments.
fn read_parts(
    headers: &Codestream,
    bytes: &[u8],
    start: usize,
    heads: &mut Vec<PartHead>,
    segments: &mut Vec<u8>,
) -> Result<(), Fault>
    requires headers { AreHeaders (length bytes.now) headers.now }
    requires start { start ≤ length bytes.now }
    ensures heads { OnOk result (heads.new.items
        ≡ heads.old.items ++ walked head_alone (length bytes.now) bytes.now headers.now start) }
    ensures segments { OnOk result (segments.new.items
        ≡ segments.old.items ++ walked segments_alone (length bytes.now) bytes.now headers.now start) }
    ensures err { IfErr result IsMemory }
{
    let mut at = start;
    // Each part has a byte or more, so this is more often than it takes.
    for _ in 0..bytes.len() {
        let Some(head) = copy_part_segments(&bytes[at..], segments)? else {
            return Ok(());
        };
        heads.push(head)?;
        at = end_of(headers, &head, bytes.len());
    }
    Ok(())
}

/// What stands around the packets of a codestream with these headers, in a file of so many bytes,
/// the length of whose codestream box is told so.
pub(crate) fn read_around(
    alloc: Global,
    headers: &Codestream,
    bytes: &[u8],
    form: Form,
    size: usize,
) -> Result<Around, Fault>
    requires headers { AreHeaders (length bytes.now) headers.now }
    requires some { 2 ≤ length bytes.now }
    ensures { MatchResult result (λ f. f ≡ frame_at bytes.now headers.now form size) IsMemory }
{
    let mut main = Vec::new(alloc);
    let start = copy_main(bytes, &mut main)?;
    let mut heads = Vec::new(alloc);
    let mut segments = Vec::new(alloc);
    read_parts(headers, bytes, start, &mut heads, &mut segments)?;
    Ok(Around {
        main,
        heads,
        segments,
        form,
        size,
    })
}
