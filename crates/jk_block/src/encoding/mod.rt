//! A block written. Its magnitudes are cut into `slices`, of which each bit-plane has its words
//! (`plane`); a pass goes over stripes (`passes`), their words (`words`) and the places that it
//! codes (`places`), and puts `decisions` into a list, of which the MQ encoder makes the bytes of
//! the pass.

ghost use Rattle.std.specs.Prelude.{◌≡◌, ℕ, Bool, true, false, List, ◌+◌, ◌-◌, ◌*◌, ◌^◌, ◌<◌, ◌≤◌, ◌++◌, ◌∷◌, []};
ghost use Rattle.std.specs.Prelude.{All, IfOk, IfErr, Ok, get_or, length, min, take, unsigned_abs};
ghost use Rattle.jk_math.specs.BitLength.{bit_length};
ghost use Rattle.jk_math.specs.Memory.{IsMemory};
ghost use Rattle.jk_model.specs.Decisions.{Decision};
ghost use Rattle.jk_mqenc.specs.Encoded.{Codes, written_by};
ghost use Rattle.jk_block.specs.Symbols.{segmentation_symbol, closing_decisions};
ghost use Rattle.jk_block.specs.Meaning.{IsBlockMeaning, truncated, value_in, whole_decisions};
ghost use Rattle.jk_block.specs.Reading.{block_at};
ghost use Rattle.jk_block.specs.BlockWritten.{greatest, coded};
ghost use Rattle.jk_block.specs.CodedBlocks.{shape_of, coefficients_of, contents, HasCodedPasses};
ghost use Rattle.jk_scan.specs.Flags.{IsSized};
ghost use Rattle.jk_scan.specs.Moments.{old, visits};
ghost use Rattle.jk_scan.specs.Neighbours.{is_inside};
ghost use Rattle.jk_block.specs.Ages.{HasRoom};
ghost use Rattle.jk_block.specs.Fields.{words_of, AreSameWords};
ghost use Rattle.jk_block.specs.Steps.{number_of};
ghost use Rattle.jk_block.specs.encoding.Slices.{slices_of};
ghost use Rattle.jk_block.specs.encoding.Viewed.{seen, HasFlagRoom, IsFlagged, IsSignificantUpto};

mod ahead;
mod decisions;
mod flags;
mod passes;
mod plane;
mod slices;
mod words;

use crate::ages::{Ages, unmarked, words_of};
use crate::contexts::UNIFORM;
use crate::decoding::Block;
use crate::word_place::{Pass, ends_with_symbol, pass_of};
use decisions::DecisionList;
use flags::Flags;
use jk_math::{Fault, Style};
use jk_mqenc::Encoder;
use jk_scan::{BlockShape, WORDS};
use passes::write_pass;
use plane::BlockPlane;
use slices::{SLICES, blank, mark_all_negative, slice_all};
use std::alloc::Global;

/// A code-block as it is written.
#[derive(Drop)]
pub struct CodedBlock {
    /// How many bit-planes its greatest magnitude has.
    pub planes: u32,
    /// How many coding passes it has: one of the highest plane, three of each lower one.
    pub passes: usize,
    /// The bytes of all passes.
    pub bytes: Vec<u8>,
    /// How many bytes were placed after each pass.
    pub marks: Vec<usize>,
}

/// How many bits the greatest magnitude has: the number of bit-planes of a block with these
/// coefficients.
pub fn top_bits(values: &[i32]) -> u32
    requires { All (λ v. unsigned_abs v < 2 ^ 23) values.now }
    ensures planes { result ≡ bit_length (greatest values.now) }
    ensures few { result ≤ 23 }
{
    let mut most = 0;
    for value in values {
        let magnitude = value.unsigned_abs();
        if magnitude > most {
            most = magnitude;
        }
    }
    32 - most.leading_zeros()
}

/// Begins a pass: with context reset the contexts take their first states again.
fn begin_pass(encoder: &mut Encoder, style: Style)
    ensures { (dss : List (List Decision))
        → Codes encoder.old style.reset dss → Codes encoder.new style.reset (dss ++ [] ∷ []) }
{
    if style.reset {
        encoder.reset();
    }
}

/// Codes a segmentation symbol (T.800 D.5).
fn write_symbol(encoder: &mut Encoder) -> Result<(), Fault>
    ensures codes { IfOk result (λ _. (reset : Bool) (before : List (List Decision)) (ds : List Decision)
        → Codes encoder.old reset (before ++ ds ∷ [])
        → Codes encoder.new reset (before ++ (ds ++ segmentation_symbol) ∷ [])) }
    ensures memory { IfErr result IsMemory }
{
    encoder.encode(UNIFORM as usize, true)?;
    encoder.encode(UNIFORM as usize, false)?;
    encoder.encode(UNIFORM as usize, true)?;
    encoder.encode(UNIFORM as usize, false)?;
    Ok(())
}

/// Codes what ends a pass.
fn end_pass(encoder: &mut Encoder, style: Style, pass: Pass) -> Result<(), Fault>
    ensures codes { IfOk result (λ _. (reset : Bool) (before : List (List Decision)) (ds : List Decision)
        → Codes encoder.old reset (before ++ ds ∷ [])
        → Codes encoder.new reset (before ++ (ds ++ closing_decisions style (number_of pass)) ∷ [])) }
    ensures memory { IfErr result IsMemory }
{
    if ends_with_symbol(style, pass) {
        return write_symbol(encoder);
    }
    Ok(())
}

/// Codes a pass, and marks how many bytes are placed then.
fn code_pass(
    block: &BlockPlane<'_>,
    flags: &mut Flags,
    pass: Pass,
    list: &mut DecisionList,
    encoder: &mut Encoder,
    marks: &mut Vec<usize>,
) -> Result<(), Fault>
    requires flagged { IsFlagged block.now (number_of pass * visits block.now.shape) flags.old }
    ensures flagged { IfOk result (λ _. IsFlagged block.now ((number_of pass + 1) * visits block.now.shape) flags.new) }
    ensures codes { IfOk result (λ _. (dss : List (List Decision)) → Codes encoder.old block.now.shape.style.reset dss
        → Codes encoder.new block.now.shape.style.reset
        (dss ++ whole_decisions block.now.shape (seen block.now) (number_of pass) ∷ [])) }
    ensures marks { IfOk result (λ _. (dss : List (List Decision)) → Codes encoder.old block.now.shape.style.reset dss
        → marks.new.items ≡ marks.old.items ++ written_by block.now.shape.style.reset
        (dss ++ whole_decisions block.now.shape (seen block.now) (number_of pass) ∷ []) ∷ []) }
    ensures memory { IfErr result IsMemory }
{
    list.clear();
    write_pass(block, flags, pass, list)?;
    begin_pass(encoder, block.shape.style);
    list.encode(encoder)?;
    end_pass(encoder, block.shape.style, pass)?;
    marks.push(encoder.written())?;
    Ok(())
}

/// Codes the passes of the plane that has so many planes above it. They stand here once for blocks
/// of every size.
#[inline(never)]
fn code_plane(
    block: &BlockPlane<'_>,
    planes: u32,
    above: u32,
    flags: &mut Flags,
    list: &mut DecisionList,
    encoder: &mut Encoder,
    marks: &mut Vec<usize>,
) -> Result<(), Fault>
    requires planes { planes ≤ 23 }
    requires above { above < planes }
    requires plane { block.now.plane ≡ planes - 1 - above }
    requires top { above ≡ 0 → (x y : ℕ) → old (seen block.now).magnitude x y ≡ false }
    requires known_significant { IsSignificantUpto block.now.shape (block.now.plane + 1)
        (value_in block.now.shape block.now.values.now) flags.old }
    requires before { HasCodedPasses block.now.shape planes (3 * above - 2)
        (value_in block.now.shape block.now.values.now)
        encoder.old marks.old.items }
    ensures known_significant { IfOk result (λ _. IsSignificantUpto block.now.shape block.now.plane
        (value_in block.now.shape block.now.values.now) flags.new) }
    ensures after { IfOk result
        (λ _. HasCodedPasses block.now.shape planes (3 * above + 1) (value_in block.now.shape block.now.values.now)
        encoder.new marks.new.items) }
    ensures memory { IfErr result IsMemory }
{
    flags.begin(block.shape);
    for n in (3 * above).saturating_sub(2)..3 * above + 1 {
        code_pass(block, flags, pass_of(n as usize), list, encoder, marks)?;
    }
    Ok(())
}

/// Notes what is significant as a plane begins.
fn note(ages: &mut Ages, shape: BlockShape, flags: &Flags)
    requires sized { IsSized shape }
    requires given { HasFlagRoom shape flags.now }
    requires room { HasRoom shape ages.old }
    ensures refined { ages.new.refined ≡ ages.old.older }
    ensures older { AreSameWords shape flags.now.significant.now ages.new.older }
    ensures room { HasRoom shape ages.new }
{
    ages.note(shape, &flags.significant);
}

/// Codes all passes of a block, with arrays of so many words and slices.
#[inline(never)]
fn code_planes<const N: usize, const S: usize>(
    shape: BlockShape,
    values: &[i32],
    planes: u32,
    list: &mut DecisionList,
    encoder: &mut Encoder,
    marks: &mut Vec<usize>,
) -> Result<(), Fault>
    requires sized { IsSized shape }
    requires room { words_of shape ≤ N }
    requires space { slices_of shape ≤ S }
    requires few { N ≤ 774 }
    requires short { S ≤ 1032 }
    requires whole { length values.now ≡ shape.width * shape.height }
    requires planes { planes ≤ 23 }
    requires small { (x y : ℕ) → is_inside shape x y ≡ true
        → unsigned_abs (value_in shape values.now x y) < 2 ^ planes }
    requires before { HasCodedPasses shape planes 0 (value_in shape values.now) encoder.old marks.old.items }
    ensures after { IfOk result (λ _. HasCodedPasses shape planes (3 * planes - 2) (value_in shape values.now)
        encoder.new marks.new.items) }
    ensures memory { IfErr result IsMemory }
{
    let mut significant = unmarked::<N>();
    let mut visited = unmarked::<N>();
    let mut flags = Flags::new(&mut significant, &mut visited);
    let mut even = unmarked::<N>();
    let mut odd = unmarked::<N>();
    let mut ages = Ages::new(&mut even, &mut odd);
    let mut slices = blank::<S>();
    slice_all(&mut slices, shape, values, 24);
    let mut negative = unmarked::<N>();
    mark_all_negative(&slices, shape, &mut negative);
    slice_all(&mut slices, shape, values, planes / 8 * 8);
    for above in 0..planes {
        let plane = planes - 1 - above;
        if plane % 8 == 7 {
            slice_all(&mut slices, shape, values, plane - 7);
        }
        note(&mut ages, shape, &flags);
        let block = BlockPlane {
            shape,
            values,
            plane,
            slices: &slices,
            refined: ages.refined(),
            negative: &negative,
        };
        code_plane(&block, planes, above, &mut flags, list, encoder, marks)?;
    }
    Ok(())
}

/// Codes all passes of a block, with arrays that are large enough for it.
fn code_all(
    shape: BlockShape,
    values: &[i32],
    planes: u32,
    list: &mut DecisionList,
    encoder: &mut Encoder,
    marks: &mut Vec<usize>,
) -> Result<(), Fault>
    requires sized { IsSized shape }
    requires whole { length values.now ≡ shape.width * shape.height }
    requires planes { planes ≤ 23 }
    requires small { (x y : ℕ) → is_inside shape x y ≡ true
        → unsigned_abs (value_in shape values.now x y) < 2 ^ planes }
    requires before { HasCodedPasses shape planes 0 (value_in shape values.now) encoder.old marks.old.items }
    ensures after { IfOk result (λ _. HasCodedPasses shape planes (3 * planes - 2) (value_in shape values.now)
        encoder.new marks.new.items) }
    ensures memory { IfErr result IsMemory }
{
    // The lengths of `decode`, with the four slices of a word.
    match words_of(shape) {
        0..=16 => code_planes::<16, 64>(shape, values, planes, list, encoder, marks),
        17..=64 => code_planes::<64, 256>(shape, values, planes, list, encoder, marks),
        65..=192 => code_planes::<192, 768>(shape, values, planes, list, encoder, marks),
        _ => code_planes::<WORDS, SLICES>(shape, values, planes, list, encoder, marks),
    }
}

/// Codes a block (T.800 Annexes C and D), or [`Fault::Memory`]. A block of zeros has no pass and no
/// bytes.
pub fn code(alloc: Global, block: &Block) -> Result<CodedBlock, Fault>
    requires narrow { block.now.width ≤ 1024 }
    requires low { block.now.height ≤ 1024 }
    requires area { block.now.width * block.now.height ≤ 4096 }
    requires whole { length block.now.values.items ≡ block.now.width * block.now.height }
    requires small { All (λ v. unsigned_abs v < 2 ^ 23) block.now.values.items }
    ensures exact { IfOk result (λ k. contents k ≡ coded (shape_of block.now) block.now.values.items) }
    ensures means { IfOk result
        (λ k. IsBlockMeaning (shape_of block.now) k.planes k.passes k.bytes.items (coefficients_of block.now)) }
    ensures back { IfOk result
        (λ k. block_at (shape_of block.now) k.planes k.passes k.bytes.items ≡ Ok block.now.values.items) }

    // The bytes up to four behind the mark of a pass mean what the passes up to it code, also
    // without a last byte FF.
    ensures prefix { IfOk result (λ k. (n z : ℕ) → 1 ≤ n → n ≤ k.passes
        → min (length k.bytes.items) (get_or k.marks.items (n - 1) 0 + 4) ≤ z
        → IsBlockMeaning (shape_of block.now) k.planes n (take z k.bytes.items)
        (truncated (shape_of block.now) k.planes n (coefficients_of block.now))) }
    ensures shorter { IfOk result (λ k. (n z : ℕ) → 1 ≤ n → n ≤ k.passes
        → min (length k.bytes.items) (get_or k.marks.items (n - 1) 0 + 4) ≤ z → get_or k.bytes.items (z - 1) 0 ≡ 255
        → IsBlockMeaning (shape_of block.now) k.planes n (take (z - 1) k.bytes.items)
        (truncated (shape_of block.now) k.planes n (coefficients_of block.now))) }
    ensures rises { IfOk result (λ k. (i j : ℕ) → i ≤ j → j < k.passes
        → get_or k.marks.items i 0 ≤ get_or k.marks.items j 0) }

    ensures planes { IfOk result (λ k. k.planes ≤ 23) }
    ensures passes { IfOk result (λ k. k.passes ≡ 3 * k.planes - 2) }
    ensures marks { IfOk result (λ k. length k.marks.items ≡ k.passes) }
    ensures short { IfOk result (λ k. length k.bytes.items < 2 ^ 25) }
    ensures memory { IfErr result IsMemory }
{
    let planes = top_bits(&block.values);
    let mut marks = Vec::new(alloc);
    if planes == 0 {
        return Ok(CodedBlock {
            planes,
            passes: 0,
            bytes: Vec::new(alloc),
            marks,
        });
    }
    let shape = BlockShape {
        width: block.width,
        height: block.height,
        orientation: block.orientation,
        style: block.style,
    };
    let mut list = DecisionList::new(alloc);
    let mut encoder = Encoder::new(alloc);
    code_all(
        shape,
        &block.values,
        planes,
        &mut list,
        &mut encoder,
        &mut marks,
    )?;
    Ok(CodedBlock {
        planes,
        passes: 3 * planes as usize - 2,
        bytes: encoder.finish()?,
        marks,
    })
}
