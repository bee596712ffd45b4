//! The plan of the file of a window, made of an index alone.

ghost use Rattle.std.specs.Prelude.{◌≡◌, true, ◌+◌, ◌-◌, ◌*◌, ◌≤◌, ◌<◌, ◌^◌, ◌⊎◌, ◌++◌, ◌∷◌, ℕ, List, length, min, IfOk};
ghost use Rattle.std.specs.Prelude.{IfErr, OnOk, MatchResult, Ok, Err};
ghost use Rattle.jk_math.specs.Memory.{IsMemory};
ghost use Rattle.jk_math.specs.declared.rect.Rect.{Rect as Area};
ghost use Rattle.jk_math.specs.declared.fault.Fault.TheVariants.{BadWindow};
ghost use Rattle.jk_marks.specs.Siz.{tile_count};
ghost use Rattle.jk_marks.specs.PartHeads.{psot_for, part_head, heads_text};
ghost use Rattle.jk_boxes.specs.Boxes.{head_size};
ghost use Rattle.jk_boxes.specs.Written.{fits_form};
ghost use Rattle.jk_packet.specs.PacketText.{eph_text};
ghost use Rattle.jk_window.specs.declared.view.View.{View as Sight};
ghost use Rattle.jk_window.specs.Views.{HasWindow};
ghost use Rattle.jk_window.specs.Indexing.{IsIndexOf};
ghost use Rattle.jk_window.specs.Cutting.{cut_file};
ghost use Rattle.jk_window.specs.Emptying.{emptied_texts};
ghost use Rattle.jk_window.specs.Planning.{IsHead, ArePlansUpto, IsBehind, front_of};
ghost use Rattle.jk_window.specs.Planning.{plan_text, plan_length, part_from, part_text_from, part_size, framed_size, made_of};

use crate::emptying::emptied_size;
use crate::kept::Index;
use crate::steps::CutPlan;
use crate::tiles::{TilePlans, plan_tiles};
use crate::view::View;
use crate::window::window;
use jk_boxes::code_head;
use jk_marks::{PartHead, put_part_head};
use jk_math::{Fault, Rect};
use std::alloc::Global;

/// How many bytes the data of a part have, and 2^64 - 1 where there are more.
fn content_length(index: &Index, tiles: &[TilePlans], head: &PartHead) -> u64
    requires head { IsHead index.now.headers head.now }
    requires plans { (w : Area) × (v : Sight) × ArePlansUpto index.now w v (tile_count index.now.headers.siz) tiles.now }
    ensures { (w : Area) (v : Sight) → ArePlansUpto index.now w v (tile_count index.now.headers.siz) tiles.now
        → result ≡ min (part_size index.now w v head.now.tile head.now.number) (2 ^ 64 - 1) }
{
    let (tile, number) = (head.tile as usize, head.number as usize);
    let plans = &tiles[tile];
    let emptied = plans.is_emptied();
    if emptied {
        let parts = index.parts(tile);
        let count = parts.count(number);
        let size = emptied_size(parts.eph);
        return count as u64 * size as u64;
    }
    plans.part(number).length()
}

/// How many bytes the codestream of a window has, where its parts have these data, and 2^64 - 1
/// where there are more.
fn codestream_length(index: &Index, window: &Rect, view: View, tiles: &[TilePlans]) -> usize
    requires plans { ArePlansUpto index.now window.now view (tile_count index.now.headers.siz) tiles.now }
    ensures { result ≡ min (framed_size index.now.frame (part_size index.now window.now view)) (2 ^ 64 - 1) }
{
    let around = index.around();
    let mut length = around.main.len() as u64;
    for head in &around.heads {
        length = length.saturating_add(head.size as u64).saturating_add(14);
        length = length.saturating_add(content_length(index, tiles, head));
    }
    length.saturating_add(2) as usize
}

/// Plans what stands before the codestream: in a JP2 file the head of its box is that of a box with
/// so long a codestream.
fn plan_front(alloc: Global, index: &Index, length: usize, plan: &mut CutPlan) -> Result<(), Fault>
    requires size { plan.old.size ≡ index.now.frame.size }
    requires fits { fits_form index.now.frame.form (head_size index.now.frame.form + length) ≡ true }
    requires short { length ≤ index.now.place.end - index.now.place.start }
    ensures text { OnOk result ((file : List ℕ) → plan_text file plan.new
        ≡ plan_text file plan.old ++ front_of index.now length file) }
    ensures size { OnOk result (plan.new.size ≡ plan.old.size) }
    ensures err { IfErr result IsMemory }
{
    let place = index.place();
    let around = index.around();
    if !place.jp2 {
        return plan.copy(0, place.start);
    }
    let form = around.form;
    plan.copy(0, place.start - form.head_size())?;
    let head = code_head(alloc, form, form.head_size() + length)?;
    plan.write(&head)
}

/// Plans the head of a tile-part with so many bytes of data. The text is for its bytes.
fn plan_head(
    head: &PartHead,
    segments: &[u8],
    content: usize,
    text: &mut Vec<u8>,
    plan: &mut CutPlan,
) -> Result<(), Fault>
    requires fits { psot_for head.now content < 2 ^ 32 }
    ensures ok { OnOk result (IsBehind plan.old plan.new
        (λ _. part_head head.now segments.now content) (length (part_head head.now segments.now content))) }
    ensures err { IfErr result IsMemory }
{
    text.clear();
    put_part_head(head, segments, content, text)?;
    plan.write(text)
}

/// Plans a tile-part: its head, with these segments, and its data.
fn plan_part(
    head: &PartHead,
    segments: &[u8],
    content: &CutPlan,
    text: &mut Vec<u8>,
    plan: &mut CutPlan,
) -> Result<(), Fault>
    requires size { content.now.size ≡ plan.old.size }
    requires fits { psot_for head.now (plan_length content.now) < 2 ^ 32 }
    ensures text { OnOk result ((file : List ℕ) → plan_text file plan.new
        ≡ plan_text file plan.old
        ++ (part_head head.now segments.now (plan_length content.now) ++ plan_text file content.now)) }
    ensures size { OnOk result (plan.new.size ≡ plan.old.size) }
    ensures err { IfErr result IsMemory }
{
    plan_head(head, segments, content.length() as usize, text, plan)?;
    plan.append(content)
}

/// Plans a tile-part with so many empty packets without SOP.
fn plan_emptied(
    head: &PartHead,
    segments: &[u8],
    count: usize,
    eph: bool,
    text: &mut Vec<u8>,
    plan: &mut CutPlan,
) -> Result<(), Fault>
    requires few { count ≤ 2 ^ 24 }
    requires fits { psot_for head.now (count * length (0 ∷ eph_text eph)) < 2 ^ 32 }
    ensures text { OnOk result ((file : List ℕ) → plan_text file plan.new
        ≡ plan_text file plan.old
        ++ (part_head head.now segments.now (count * length (0 ∷ eph_text eph)) ++ emptied_texts eph count)) }
    ensures size { OnOk result (plan.new.size ≡ plan.old.size) }
    ensures err { IfErr result IsMemory }
{
    plan_head(head, segments, count * emptied_size(eph), text, plan)?;
    plan.write_emptied(count, eph)
}

/// Plans a tile-part of a window, with these segments.
fn plan_content(
    index: &Index,
    tiles: &[TilePlans],
    head: &PartHead,
    segments: &[u8],
    text: &mut Vec<u8>,
    plan: &mut CutPlan,
) -> Result<(), Fault>
    requires head { IsHead index.now.headers head.now }
    requires size { plan.old.size ≡ index.now.frame.size }
    requires fits { (w : Area) × (v : Sight) × ArePlansUpto index.now w v (tile_count index.now.headers.siz) tiles.now
        × (psot_for head.now (part_size index.now w v head.now.tile head.now.number) < 2 ^ 32) }
    ensures text { OnOk result ((w : Area) (v : Sight) (file : List ℕ)
        → ArePlansUpto index.now w v (tile_count index.now.headers.siz) tiles.now
        → IsIndexOf file index.now → plan_text file plan.new ≡ plan_text file plan.old
        ++ part_text_from file index.now w v head.now segments.now) }
    ensures size { OnOk result (plan.new.size ≡ plan.old.size) }
    ensures err { IfErr result IsMemory }
{
    let (tile, number) = (head.tile as usize, head.number as usize);
    let plans = &tiles[tile];
    let emptied = plans.is_emptied();
    if emptied {
        let parts = index.parts(tile);
        let count = parts.count(number);
        return plan_emptied(head, segments, count, parts.eph, text, plan);
    }
    plan_part(head, segments, plans.part(number), text, plan)
}

/// Plans all tile-parts.
fn plan_parts(
    alloc: Global,
    index: &Index,
    window: &Rect,
    view: View,
    tiles: &[TilePlans],
    plan: &mut CutPlan,
) -> Result<(), Fault>
    requires plans { ArePlansUpto index.now window.now view (tile_count index.now.headers.siz) tiles.now }
    requires size { plan.old.size ≡ index.now.frame.size }
    ensures text { OnOk result ((file : List ℕ) → IsIndexOf file index.now → plan_text file plan.new
        ≡ plan_text file plan.old
        ++ heads_text index.now.frame.heads index.now.frame.segments (part_from file index.now window.now view)) }
    ensures size { OnOk result (plan.new.size ≡ plan.old.size) }
    ensures err { IfErr result IsMemory }
{
    let around = index.around();
    let mut text = Vec::new(alloc);
    let mut at = 0;
    for head in &around.heads {
        let segments = &around.segments[at..at + head.size];
        plan_content(index, tiles, head, segments, &mut text, plan)?;
        at += head.size;
    }
    Ok(())
}

/// Plans the file of a window.
fn plan_file(alloc: Global, index: &Index, window: &Rect, view: View) -> Result<CutPlan, Fault>
    requires right { window.now.x1 < 2 ^ 31 }
    requires lower { window.now.y1 < 2 ^ 31 }
    requires few { view.reduce ≤ 10 }
    ensures plan { IfOk result (λ p. (file : List ℕ) → IsIndexOf file index.now
        → made_of file index.now window.now view ≡ Ok (plan_text file p)) }
    ensures size { IfOk result (λ p. p.size ≡ index.now.frame.size) }
    ensures err { IfErr result IsMemory }
{
    let tiles = plan_tiles(alloc, index, window, view)?;
    let place = index.place();
    let around = index.around();
    let mut plan = CutPlan::new(alloc, around.size);
    let length = codestream_length(index, window, view, &tiles);
    plan_front(alloc, index, length, &mut plan)?;
    plan.write(&around.main)?;
    plan_parts(alloc, index, window, view, &tiles, &mut plan)?;
    plan.write(&[0xFF, 0xD9])?;
    plan.copy(place.end, around.size)?;
    Ok(plan)
}

/// The plan of the file of a view's window (T.800 B.10.3): the stored file, in which the packets
/// that the window doesn't need, and those of later layers than the view asks for, are empty and
/// keep their SOP and EPH. TLM and PLT are left out, and Psot and the length of the codestream box
/// are as they must be; all else stays. It is made of the index alone.
///
/// BadWindow: the view asks for no layer, a tile-component has fewer decomposition levels than the
/// reduction, or the reduced image or the window has no sample.
pub fn plan(alloc: Global, index: &Index, view: View) -> Result<CutPlan, Fault>
    // Of each file that has the index it makes the file of the window.
    ensures exact { (file : List ℕ) (is : IsIndexOf file index.now) → MatchResult result
        (λ p. cut_file is view ≡ Ok (plan_text file p)) (λ e. IsMemory e ⊎ (cut_file is view ≡ Err e)) }
    ensures size { IfOk result (λ p. p.size ≡ index.now.frame.size) }
    ensures seen { OnOk result (HasWindow index.now.headers view) }
    ensures unseen { (HasWindow index.now.headers view → ⊥) → result ≡ Err Fault.BadWindow }
    ensures bad { result ≡ Err Fault.BadWindow → HasWindow index.now.headers view → ⊥ }
    ensures faults { IfErr result (λ e. IsMemory e ⊎ (e ≡ BadWindow)) }
{
    let window = window(index.headers(), view)?;
    plan_file(alloc, index, &window, view)
}
