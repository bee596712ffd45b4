//! Writing the marker segments.

ghost use Rattle.std.specs.Prelude.{◌≡◌, ◌+◌, ◌*◌, ◌≤◌, ◌<◌, ◌^◌, ◌++◌, ◌∷◌, [], List, ℕ, length, OnOk, OnErr, IfErr};
ghost use Rattle.std.specs.Prelude.{replicate, Err, ◌⊎◌, ◌↔◌};
ghost use Rattle.std.specs.List.{concat, flat_map, AllByRecursion};
ghost use Rattle.jk_math.specs.Memory.{IsMemory};
ghost use Rattle.byteorder.specs.Endian.{big_bytes};
ghost use Rattle.jk_math.specs.Front.{IsFront};
ghost use Rattle.jk_marks.specs.Markers.{marker_text, eoc};
ghost use Rattle.jk_marks.specs.declared.siz.Siz.{Siz};
ghost use Rattle.jk_marks.specs.Siz.{siz_text, grid_text, ssiz, component_text, tile_count, IsSiz};
ghost use Rattle.jk_marks.specs.Segments.{segment_text, given_bit, scod, style_text, CodSegment, CocSegment};
ghost use Rattle.jk_marks.specs.Segments.{QcdSegment, written_steps, IsStyle, IsQuantisation};
ghost use Rattle.jk_marks.specs.Codestream.{main_text, own_style, own_steps, style_segments, step_segments, given_for};
ghost use Rattle.jk_marks.specs.Codestream.{segments_of, main_of, sot_text, part_text, only_part_of, ForGiven};
ghost use Rattle.jk_marks.specs.Codestream.{IsWritten, IsMain, IsPart};

use crate::block_style::{bit, style_byte};
use crate::main_header::Main;
use crate::marker;
use crate::segments::{Cod, CodingStyle, Quantisation};
use crate::siz::Siz;
use jk_math::Fault;

/// Two bytes.
fn put_two(out: &mut Vec<u8>, value: u16) -> Result<(), Fault>
    ensures ok { OnOk result (out.new.items ≡ out.old.items ++ big_bytes 2 value) }
    ensures err { IfErr result (λ e. IsMemory e) }
    ensures front { IsFront out.old.items out.new.items }
{
    out.extend_from_slice(&value.to_be_bytes())?;
    Ok(())
}

/// Four bytes for each of four numbers.
fn put_four(out: &mut Vec<u8>, a: u32, b: u32, c: u32, d: u32) -> Result<(), Fault>
    ensures ok { OnOk result
        (out.new.items ≡ out.old.items ++ (big_bytes 4 a ++ (big_bytes 4 b ++ (big_bytes 4 c ++ big_bytes 4 d)))) }
    ensures err { IfErr result (λ e. IsMemory e) }
    ensures front { IsFront out.old.items out.new.items }
{
    out.extend_from_slice(&a.to_be_bytes())?;
    out.extend_from_slice(&b.to_be_bytes())?;
    out.extend_from_slice(&c.to_be_bytes())?;
    out.extend_from_slice(&d.to_be_bytes())?;
    Ok(())
}

/// Ssiz: the depth less one, and the sign in the top bit.
fn depth_byte(siz: &Siz) -> u8
    requires some { 1 ≤ siz.now.depth }
    requires few { siz.now.depth ≤ 16 }
    ensures { result ≡ ssiz siz.now }
{
    siz.depth - 1 + if siz.signed { 128 } else { 0 }
}

/// Ssiz, XRsiz and YRsiz of each component.
fn put_components(out: &mut Vec<u8>, siz: &Siz) -> Result<(), Fault>
    requires some { 1 ≤ siz.now.depth }
    requires few { siz.now.depth ≤ 16 }
    ensures ok { OnOk result
        (out.new.items ≡ out.old.items ++ concat (replicate siz.now.components (component_text siz.now))) }
    ensures err { IfErr result (λ e. IsMemory e) }
    ensures front { IsFront out.old.items out.new.items }
{
    let depth = depth_byte(siz);
    for _ in 0..siz.components {
        out.extend_from_slice(&[depth, 1, 1])?;
    }
    Ok(())
}

/// Rsiz to YTOsiz.
fn put_grid(out: &mut Vec<u8>, siz: &Siz) -> Result<(), Fault>
    ensures ok { OnOk result (out.new.items ≡ out.old.items ++ grid_text siz.now) }
    ensures err { IfErr result (λ e. IsMemory e) }
    ensures front { IsFront out.old.items out.new.items }
{
    put_two(out, siz.rsiz)?;
    put_four(out, siz.x1, siz.y1, siz.x0, siz.y0)?;
    put_four(
        out,
        siz.tile_width,
        siz.tile_height,
        siz.tile_x0,
        siz.tile_y0,
    )?;
    Ok(())
}

/// The image and tile size segment, its marker first (T.800 A.5.1).
#[tactic(auto, unfolding(crate::specs::Siz::siz_text))]
fn put_siz(out: &mut Vec<u8>, siz: &Siz) -> Result<(), Fault>
    requires { IsSiz siz.now }
    ensures ok { OnOk result (out.new.items ≡ out.old.items ++ siz_text siz.now) }
    ensures err { IfErr result (λ e. IsMemory e) }
    ensures front { IsFront out.old.items out.new.items }
{
    put_two(out, marker::SIZ)?;
    put_two(out, 38 + 3 * siz.components)?;
    put_grid(out, siz)?;
    put_two(out, siz.components)?;
    put_components(out, siz)?;
    Ok(())
}

/// SPcod of a coding style, from the number of decomposition levels on.
#[tactic(auto, unfolding(crate::specs::Segments::style_text))]
fn put_style(out: &mut Vec<u8>, style: &CodingStyle) -> Result<(), Fault>
    requires { IsStyle style.now }
    ensures ok { OnOk result (out.new.items ≡ out.old.items ++ style_text style.now) }
    ensures err { IfErr result (λ e. IsMemory e) }
    ensures front { IsFront out.old.items out.new.items }
{
    out.extend_from_slice(&[
        style.levels,
        style.xcb - 2,
        style.ycb - 2,
        style_byte(style.style),
        1,
    ])?;
    style.precincts.put(out)
}

/// Whether precinct sizes are given, as a bit of Scod and Scoc.
fn given_bit(style: &CodingStyle) -> u8
    ensures { result ≡ given_bit style.now.precincts }
{
    if style.precincts.as_slice().is_empty() {
        0
    } else {
        1
    }
}

/// Scod.
fn coding_flags(cod: &Cod) -> u8
    ensures { result ≡ scod cod.now }
{
    given_bit(&cod.style) + 2 * bit(cod.sop) + 4 * bit(cod.eph)
}

/// The coding style default segment, its marker first (T.800 A.6.1).
fn put_cod(out: &mut Vec<u8>, cod: &Cod) -> Result<(), Fault>
    requires { IsStyle cod.now.style }
    ensures ok { OnOk result (out.new.items ≡ out.old.items ++ segment_text (CodSegment cod.now)) }
    ensures err { IfErr result (λ e. IsMemory e) }
    ensures front { IsFront out.old.items out.new.items }
{
    put_two(out, marker::COD)?;
    put_two(out, 12 + cod.style.precincts.as_slice().len() as u16)?;
    out.extend_from_slice(&[coding_flags(cod), cod.order.code()])?;
    put_two(out, cod.layers)?;
    out.push(bit(cod.colour))?;
    put_style(out, &cod.style)?;
    Ok(())
}

/// The quantization default segment, its marker first (T.800 A.6.4).
#[tactic(auto, unfolding(crate::specs::Segments::segment_body, crate::specs::Segments::contents))]
fn put_qcd(out: &mut Vec<u8>, qcd: &Quantisation) -> Result<(), Fault>
    requires { IsQuantisation qcd.now }
    ensures ok { OnOk result (out.new.items ≡ out.old.items ++ segment_text (QcdSegment (written_steps qcd.now))) }
    ensures err { IfErr result (λ e. IsMemory e) }
    ensures front { IsFront out.old.items out.new.items }
{
    put_two(out, marker::QCD)?;
    put_two(out, 3 + qcd.exponents.len() as u16)?;
    out.push(32 * qcd.guard)?;
    qcd.exponents.put(out)
}

/// The coding style segment of a component, its marker first (T.800 A.6.2).
fn put_coc(out: &mut Vec<u8>, component: u8, style: &CodingStyle) -> Result<(), Fault>
    requires { IsStyle style.now }
    ensures ok { OnOk result (out.new.items ≡ out.old.items ++ segment_text (CocSegment component style.now)) }
    ensures err { IfErr result (λ e. IsMemory e) }
    ensures front { IsFront out.old.items out.new.items }
{
    put_two(out, marker::COC)?;
    put_two(out, 9 + style.precincts.as_slice().len() as u16)?;
    out.extend_from_slice(&[component, given_bit(style)])?;
    put_style(out, style)?;
    Ok(())
}

/// The same of a component that has its own.
fn put_own_style(out: &mut Vec<u8>, component: u8, style: &Option<CodingStyle>) -> Result<(), Fault>
    requires { ForGiven IsStyle style.now }
    ensures ok { OnOk result (out.new.items ≡ out.old.items ++ flat_map segment_text (own_style component style.now)) }
    ensures err { IfErr result (λ e. IsMemory e) }
    ensures front { IsFront out.old.items out.new.items }
{
    match style {
        Some(style) => put_coc(out, component, style),
        None => Ok(()),
    }
}

/// The quantization segment of a component, its marker first (T.800 A.6.5), if it has its own.
#[tactic(auto, unfolding(crate::specs::Segments::segment_body, crate::specs::Segments::contents))]
fn put_own_steps(
    out: &mut Vec<u8>,
    component: u8,
    steps: &Option<Quantisation>,
) -> Result<(), Fault>
    requires { ForGiven IsQuantisation steps.now }
    ensures ok { OnOk result (out.new.items ≡ out.old.items ++ flat_map segment_text (own_steps component steps.now)) }
    ensures err { IfErr result (λ e. IsMemory e) }
    ensures front { IsFront out.old.items out.new.items }
{
    let Some(steps) = steps else {
        return Ok(());
    };
    put_two(out, marker::QCC)?;
    put_two(out, 4 + steps.exponents.len() as u16)?;
    out.extend_from_slice(&[component, 32 * steps.guard])?;
    steps.exponents.put(out)
}

/// The coding style of a component in a main header, if it has its own.
fn put_style_of(out: &mut Vec<u8>, component: u8, main: &Main) -> Result<(), Fault>
    requires component { component < 4 }
    requires styles { AllByRecursion (ForGiven IsStyle) main.now.coc }
    ensures ok { OnOk result
        (out.new.items
        ≡ out.old.items ++ flat_map segment_text (own_style component (given_for main.now.coc component))) }
    ensures err { IfErr result (λ e. IsMemory e) }
    ensures front { IsFront out.old.items out.new.items }
{
    put_own_style(out, component, &main.coc[component as usize])
}

/// The quantization of a component in a main header, if it has its own.
fn put_steps_of(out: &mut Vec<u8>, component: u8, main: &Main) -> Result<(), Fault>
    requires component { component < 4 }
    requires steps { AllByRecursion (ForGiven IsQuantisation) main.now.qcc }
    ensures ok { OnOk result
        (out.new.items
        ≡ out.old.items ++ flat_map segment_text (own_steps component (given_for main.now.qcc component))) }
    ensures err { IfErr result (λ e. IsMemory e) }
    ensures front { IsFront out.old.items out.new.items }
{
    put_own_steps(out, component, &main.qcc[component as usize])
}

/// The coding styles of the components that have their own.
fn put_own_styles(out: &mut Vec<u8>, main: &Main) -> Result<(), Fault>
    requires { AllByRecursion (ForGiven IsStyle) main.now.coc }
    ensures ok { OnOk result (out.new.items ≡ out.old.items ++ flat_map segment_text (style_segments main.now)) }
    ensures err { IfErr result (λ e. IsMemory e) }
    ensures front { IsFront out.old.items out.new.items }
{
    put_style_of(out, 0, main)?;
    put_style_of(out, 1, main)?;
    put_style_of(out, 2, main)?;
    put_style_of(out, 3, main)?;
    Ok(())
}

/// The quantizations of the components that have their own.
fn put_own_quantisations(out: &mut Vec<u8>, main: &Main) -> Result<(), Fault>
    requires { AllByRecursion (ForGiven IsQuantisation) main.now.qcc }
    ensures ok { OnOk result (out.new.items ≡ out.old.items ++ flat_map segment_text (step_segments main.now)) }
    ensures err { IfErr result (λ e. IsMemory e) }
    ensures front { IsFront out.old.items out.new.items }
{
    put_steps_of(out, 0, main)?;
    put_steps_of(out, 1, main)?;
    put_steps_of(out, 2, main)?;
    put_steps_of(out, 3, main)?;
    Ok(())
}

/// SOC and the segments of a main header.
#[tactic(auto, unfolding(crate::specs::Codestream::main_text))]
fn put_main(out: &mut Vec<u8>, main: &Main) -> Result<(), Fault>
    requires { IsWritten main.now }
    ensures ok { OnOk result (out.new.items ≡ out.old.items ++ main_text main.now.siz (segments_of main.now)) }
    ensures err { IfErr result (λ e. IsMemory e) }
    ensures front { IsFront out.old.items out.new.items }
{
    put_two(out, marker::SOC)?;
    put_siz(out, &main.siz)?;
    put_cod(out, &main.cod)?;
    put_qcd(out, &main.qcd)?;
    put_own_styles(out, main)?;
    put_own_quantisations(out, main)?;
    Ok(())
}

/// Appends a main header: SOC, SIZ, COD, QCD, and the COC and QCC that are given (T.800 A.3). After
/// Memory a part of it may stand behind what was there.
pub fn write_main(main: &Main, out: &mut Vec<u8>) -> Result<(), Fault>
    requires { IsWritten main.now }
    ensures ok { OnOk result (out.new.items ≡ out.old.items ++ main_text main.now.siz (segments_of main.now)) }
    // That is a main header, and it says what was given.
    ensures means { OnOk result
        (IsMain main.now.siz (segments_of main.now) × (main_of main.now.siz (segments_of main.now) ≡ main.now)) }
    ensures err { IfErr result (λ e. IsMemory e) }
    ensures front { IsFront out.old.items out.new.items }
{
    put_main(out, main)
}

/// SOT and its segment, of a tile's only part, closed by this length (T.800 A.4.2).
fn put_sot(out: &mut Vec<u8>, tile: u16, psot: u32) -> Result<(), Fault>
    ensures ok { OnOk result (out.new.items ≡ out.old.items ++ sot_text tile psot 0 1) }
    ensures err { IfErr result (λ e. IsMemory e) }
    ensures front { IsFront out.old.items out.new.items }
{
    put_two(out, marker::SOT)?;
    put_two(out, 10)?;
    put_two(out, tile)?;
    out.extend_from_slice(&psot.to_be_bytes())?;
    out.extend_from_slice(&[0, 1])?;
    Ok(())
}

/// Appends the head of a tile's only tile-part, which has `size` bytes of data: SOT with its
/// segment, and SOD (T.800 A.4.2, A.4.3). After Memory a part of it may stand behind what was
/// there.
///
/// Limit: the tile-part would be longer than 2^32 - 1 bytes; then nothing is appended.
#[tactic(auto, unfolding(crate::specs::Codestream::part_text))]
pub fn write_part_head(tile: u16, size: u64, out: &mut Vec<u8>) -> Result<(), Fault>
    requires { size + 14 < 2 ^ 64 }
    // With the data behind it, it is the tile-part.
    ensures ok { (content : List ℕ) → length content ≡ size
        → OnOk result (out.new.items ++ content ≡ out.old.items ++ part_text (only_part_of tile content)) }
    ensures fits { OnOk result (14 + size < 2 ^ 32) }
    ensures limit { result ≡ Err Fault.Limit ↔ (2 ^ 32 ≤ 14 + size) }
    ensures err { IfErr result (λ e. IsMemory e ⊎ (e ≡ Fault.Limit)) }
    ensures front { IsFront out.old.items out.new.items }
    ensures unmoved { result ≡ Err Fault.Limit → out.new.items ≡ out.old.items }
{
    let Ok(psot) = u32::try_from(14 + size) else {
        return Err(Fault::Limit);
    };
    put_sot(out, tile, psot)?;
    put_two(out, marker::SOD)?;
    Ok(())
}

/// Appends a tile's only tile-part with these data (T.800 A.4.2). After Memory a part of it may
/// stand behind what was there.
///
/// Limit: the tile-part would be longer than 2^32 - 1 bytes; then nothing is appended.
pub fn write_tile_part(tile: u16, content: &[u8], out: &mut Vec<u8>) -> Result<(), Fault>
    ensures ok { OnOk result (out.new.items ≡ out.old.items ++ part_text (only_part_of tile content.now)) }
    // That is a tile-part of every image that has the tile.
    ensures means { OnOk result ((siz : Siz) → tile < tile_count siz → IsPart siz (only_part_of tile content.now)) }
    ensures fits { OnOk result (14 + length content.now < 2 ^ 32) }
    ensures limit { result ≡ Err Fault.Limit ↔ (2 ^ 32 ≤ 14 + length content.now) }
    ensures err { IfErr result (λ e. IsMemory e ⊎ (e ≡ Fault.Limit)) }
    ensures front { IsFront out.old.items out.new.items }
    ensures unmoved { result ≡ Err Fault.Limit → out.new.items ≡ out.old.items }
{
    write_part_head(tile, content.len() as u64, out)?;
    out.extend_from_slice(content)?;
    Ok(())
}

/// Appends EOC.
pub fn write_end(out: &mut Vec<u8>) -> Result<(), Fault>
    ensures ok { OnOk result (out.new.items ≡ out.old.items ++ marker_text eoc) }
    ensures err { IfErr result (λ e. IsMemory e) }
    ensures front { IsFront out.old.items out.new.items }
{
    put_two(out, marker::EOC)
}
