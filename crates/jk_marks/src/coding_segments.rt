//! Reading COD and COC.

ghost use Rattle.std.specs.Prelude.{◌≡◌, ◌≤◌, ◌<◌, length, [], IfOk};
ghost use Rattle.jk_math.specs.Answer.{Reads};
ghost use Rattle.jk_marks.specs.Reading.{precinct_at, precincts_at, given_precincts_at, levels_at, block_at};
ghost use Rattle.jk_marks.specs.Reading.{block_style_at, transform_at, style_at, cod_at, component_at, coc_at};

use crate::block_style::{style_byte, style_of};
use crate::cursor::Cursor;
use crate::segments::{Cod, CodingStyle, Order, Precincts};
use jk_math::{Fault, Style};

/// One precinct size (T.800 table A.21); only the first may have an exponent 0.
#[tactic(auto, unfolding(crate::specs::Reading::precinct_at))]
fn read_precinct(cursor: &mut Cursor<'_>, first: bool) -> Result<(u8, u8), Fault>
    ensures { Reads (precinct_at first) cursor.old cursor.new result }
{
    let byte = cursor.byte()?;
    let (width, height) = (byte % 16, byte / 16);
    if !first && (width < 1 || height < 1) {
        return Err(Fault::BadValue);
    }
    Ok((width, height))
}

/// The precinct sizes of `count` resolutions.
fn read_precincts(cursor: &mut Cursor<'_>, count: u8) -> Result<Precincts, Fault>
    requires { count ≤ 11 }
    ensures { Reads (precincts_at count []) cursor.old cursor.new result }
{
    let mut precincts = Precincts::none();
    for index in 0..count {
        let (width, height) = read_precinct(cursor, index == 0)?;
        precincts.push(width, height);
    }
    Ok(precincts)
}

/// The number of decomposition levels, in a segment of `size` bytes of which all but `fixed` are
/// precinct sizes.
#[tactic(auto, unfolding(crate::specs::Reading::levels_at))]
fn read_levels(cursor: &mut Cursor<'_>, size: u16, fixed: u16, given: bool) -> Result<u8, Fault>
    requires { fixed ≤ 12 }
    ensures exact { Reads (levels_at size fixed given) cursor.old cursor.new result }
    ensures few { IfOk result (λ n. n ≤ 10) }
{
    let levels = cursor.byte()?;
    let sizes = if given { levels as u16 + 1 } else { 0 };
    if size != fixed + sizes {
        return Err(Fault::BadLength);
    }
    if levels > 32 {
        return Err(Fault::BadValue);
    }
    if levels > 10 {
        return Err(Fault::Limit);
    }
    Ok(levels)
}

/// The exponents of a code-block's width and height (T.800 table A.18).
#[tactic(auto, unfolding(crate::specs::Reading::block_at))]
fn read_block_size(cursor: &mut Cursor<'_>) -> Result<(u8, u8), Fault>
    ensures { Reads block_at cursor.old cursor.new result }
{
    let width = cursor.byte()?;
    if width > 8 {
        return Err(Fault::BadValue);
    }
    let height = cursor.byte()?;
    if height > 8 || width + height > 8 {
        return Err(Fault::BadValue);
    }
    Ok((width + 2, height + 2))
}

/// The code-block style (T.800 table A.19).
#[tactic(auto, unfolding(crate::specs::Reading::block_style_at))]
fn read_block_style(cursor: &mut Cursor<'_>) -> Result<Style, Fault>
    ensures { Reads block_style_at cursor.old cursor.new result }
{
    let byte = cursor.byte()?;
    if byte >= 128 {
        return Err(Fault::BadValue);
    }
    let style = style_of(byte as u32);
    if style_byte(style) != byte {
        return Err(Fault::Unsupported);
    }
    Ok(style)
}

/// The transform (T.800 table A.20), which is the 5-3 filter.
#[tactic(auto, unfolding(crate::specs::Reading::transform_at))]
fn pass_transform(cursor: &mut Cursor<'_>) -> Result<(), Fault>
    ensures { Reads transform_at cursor.old cursor.new result }
{
    let transform = cursor.byte()?;
    if transform > 1 {
        return Err(Fault::BadValue);
    }
    if transform < 1 {
        return Err(Fault::Unsupported);
    }
    Ok(())
}

/// The precinct sizes, where they are given.
fn read_given_precincts(cursor: &mut Cursor<'_>, given: bool, count: u8) -> Result<Precincts, Fault>
    requires { count ≤ 11 }
    ensures { Reads (given_precincts_at given count) cursor.old cursor.new result }
{
    if given {
        read_precincts(cursor, count)
    } else {
        Ok(Precincts::none())
    }
}

/// SPcod or SPcoc, from the number of decomposition levels on (T.800 table A.15).
#[tactic(auto, unfolding(crate::specs::Reading::style_at))]
fn read_style(
    cursor: &mut Cursor<'_>,
    size: u16,
    fixed: u16,
    given: bool,
) -> Result<CodingStyle, Fault>
    requires { fixed ≤ 12 }
    ensures { Reads (style_at size fixed given) cursor.old cursor.new result }
{
    let levels = read_levels(cursor, size, fixed, given)?;
    let (xcb, ycb) = read_block_size(cursor)?;
    let style = read_block_style(cursor)?;
    pass_transform(cursor)?;
    let precincts = read_given_precincts(cursor, given, levels + 1)?;
    Ok(CodingStyle {
        levels,
        xcb,
        ycb,
        style,
        precincts,
    })
}

/// COD, from its length on (T.800 A.6.1).
#[tactic(auto, unfolding(crate::specs::Reading::cod_at))]
pub(crate) fn read_cod(cursor: &mut Cursor<'_>, components: u16) -> Result<Cod, Fault>
    ensures { Reads (cod_at components) cursor.old cursor.new result }
{
    let size = cursor.enter()?;
    let flags = cursor.byte()?;
    if flags > 7 {
        return Err(Fault::BadValue);
    }
    let order = cursor.byte()?;
    if order > 4 {
        return Err(Fault::BadValue);
    }
    let layers = cursor.two_bytes()?;
    if layers == 0 {
        return Err(Fault::BadValue);
    }
    let colour = cursor.byte()?;
    if colour > 1 || (colour == 1 && components < 3) {
        return Err(Fault::BadValue);
    }
    let style = read_style(cursor, size, 12, flags % 2 == 1)?;
    Ok(Cod {
        sop: flags / 2 % 2 == 1,
        eph: flags / 4 == 1,
        order: Order::with_code(order),
        layers,
        colour: colour == 1,
        style,
    })
}

/// COC, from its length on, and its component, which has none of `others` (T.800 A.6.2).
#[tactic(auto, unfolding(crate::specs::Reading::coc_at, crate::specs::Reading::component_at))]
pub(crate) fn read_coc(
    cursor: &mut Cursor<'_>,
    others: &[Option<CodingStyle>; 4],
    components: u16,
) -> Result<(u8, CodingStyle), Fault>
    requires { components ≤ 4 }
    ensures exact { Reads (coc_at others.now components) cursor.old cursor.new result }
    ensures below { IfOk result (λ r. r.0 < components) }
{
    let size = cursor.enter()?;
    let component = cursor.byte()?;
    if component as u16 >= components {
        return Err(Fault::BadValue);
    }
    if others[component as usize].is_some() {
        return Err(Fault::BadMarker);
    }
    let flags = cursor.byte()?;
    if flags > 1 {
        return Err(Fault::BadValue);
    }
    let style = read_style(cursor, size, 9, flags == 1)?;
    Ok((component, style))
}
