//! Reading SIZ.

ghost use Rattle.std.specs.Prelude.{◌≡◌, ◌≤◌, ◌<◌, ◌^◌, ◌*◌, ◌-◌, ◌+◌, ◌/◌, nat_lt, IfOk};
ghost use Rattle.jk_math.specs.Answer.{Reads};
ghost use Rattle.jk_marks.specs.Siz.{IsSiz};
ghost use Rattle.jk_marks.specs.HeaderReading.{covers, area_at, tiles_of, tiling_at, sampling_at, component_depth_at};
ghost use Rattle.jk_marks.specs.HeaderReading.{components_at, count_at, siz_at};

use crate::cursor::Cursor;
use crate::siz::Siz;
use jk_math::Fault;

/// Rsiz, and the image on the reference grid.
#[derive(Clone, Copy, Debug, PartialEq, Eq)]
pub struct Area {
    pub rsiz: u16,
    pub x1: u32,
    pub y1: u32,
    pub x0: u32,
    pub y0: u32,
}

/// The size of a tile, and where the first one begins.
#[derive(Clone, Copy, Debug, PartialEq, Eq)]
pub struct Tiling {
    pub width: u32,
    pub height: u32,
    pub x0: u32,
    pub y0: u32,
}

/// Rsiz to YOsiz (T.800 A.5.1).
#[tactic(auto, unfolding(crate::specs::HeaderReading::area_at))]
fn read_area(cursor: &mut Cursor<'_>) -> Result<Area, Fault>
    ensures exact { Reads area_at cursor.old cursor.new result }
    ensures right { IfOk result (λ a. a.x1 < 2 ^ 31) }
    ensures lower { IfOk result (λ a. a.y1 < 2 ^ 31) }
    ensures wide { IfOk result (λ a. a.x0 < a.x1) }
    ensures high { IfOk result (λ a. a.y0 < a.y1) }
{
    let rsiz = cursor.two_bytes()?;
    if rsiz >= 16384 {
        return Err(Fault::Unsupported);
    }
    let x1 = cursor.four_bytes()?;
    if x1 >= 1 << 31 {
        return Err(Fault::Limit);
    }
    let y1 = cursor.four_bytes()?;
    if y1 >= 1 << 31 {
        return Err(Fault::Limit);
    }
    let x0 = cursor.four_bytes()?;
    if x0 >= x1 {
        return Err(Fault::BadValue);
    }
    let y0 = cursor.four_bytes()?;
    if y0 >= y1 {
        return Err(Fault::BadValue);
    }
    if (x1 - x0) as u64 * (y1 - y0) as u64 > 1 << 28 {
        return Err(Fault::Limit);
    }
    Ok(Area {
        rsiz,
        x1,
        y1,
        x0,
        y0,
    })
}

/// Whether a first tile from `tile` on of this side reaches over `start`.
fn covers(tile: u32, side: u32, start: u32) -> bool
    ensures { result ≡ covers tile side start }
{
    tile <= start && (start as u64) < tile as u64 + side as u64
}

/// How many tiles of a side there are up to `end`, the first of which begins at `start`.
fn tiles_across(start: u32, side: u32, end: u32) -> u64
    requires order { start ≤ end }
    requires small { end < 2 ^ 31 }
    requires some { 0 < side }
    ensures value { result ≡ (end - start + side - 1) / side }
    ensures below { result < 2 ^ 32 }
{
    ((end - start) as u64 + side as u64 - 1) / side as u64
}

/// Whether the image has more than 65,535 tiles.
fn are_many_tiles(area: Area, tiling: Tiling) -> bool
    requires wide { 0 < tiling.width }
    requires high { 0 < tiling.height }
    requires left { tiling.x0 ≤ area.x1 }
    requires upper { tiling.y0 ≤ area.y1 }
    requires right { area.x1 < 2 ^ 31 }
    requires lower { area.y1 < 2 ^ 31 }
    ensures { result ≡ nat_lt 65535 (tiles_of area tiling) }
{
    tiles_across(tiling.x0, tiling.width, area.x1) * tiles_across(tiling.y0, tiling.height, area.y1)
        > 65535
}

/// XTsiz to YTOsiz (T.800 A.5.1).
#[tactic(auto, unfolding(crate::specs::HeaderReading::tiling_at))]
fn read_tiling(cursor: &mut Cursor<'_>, area: Area) -> Result<Tiling, Fault>
    requires wide { area.x0 < area.x1 }
    requires high { area.y0 < area.y1 }
    requires right { area.x1 < 2 ^ 31 }
    requires lower { area.y1 < 2 ^ 31 }
    ensures { Reads (tiling_at area) cursor.old cursor.new result }
{
    let width = cursor.four_bytes()?;
    if width == 0 {
        return Err(Fault::BadValue);
    }
    let height = cursor.four_bytes()?;
    if height == 0 {
        return Err(Fault::BadValue);
    }
    let x0 = cursor.four_bytes()?;
    if !covers(x0, width, area.x0) {
        return Err(Fault::BadValue);
    }
    let y0 = cursor.four_bytes()?;
    if !covers(y0, height, area.y0) {
        return Err(Fault::BadValue);
    }
    let tiling = Tiling {
        width,
        height,
        x0,
        y0,
    };
    if are_many_tiles(area, tiling) {
        return Err(Fault::BadValue);
    }
    Ok(tiling)
}

/// XRsiz or YRsiz, which is 1.
#[tactic(auto, unfolding(crate::specs::HeaderReading::sampling_at))]
fn pass_sampling(cursor: &mut Cursor<'_>) -> Result<(), Fault>
    ensures { Reads sampling_at cursor.old cursor.new result }
{
    let step = cursor.byte()?;
    if step == 0 {
        return Err(Fault::BadValue);
    }
    if step != 1 {
        return Err(Fault::Unsupported);
    }
    Ok(())
}

/// Ssiz, XRsiz and YRsiz of a component; all components have one Ssiz.
#[tactic(auto, unfolding(crate::specs::HeaderReading::component_depth_at))]
fn pass_component(cursor: &mut Cursor<'_>, common: u8) -> Result<(), Fault>
    ensures { Reads (component_depth_at common) cursor.old cursor.new result }
{
    let depth = cursor.byte()?;
    if depth % 128 > 37 {
        return Err(Fault::BadValue);
    }
    if depth % 128 > 15 || depth != common {
        return Err(Fault::Unsupported);
    }
    pass_sampling(cursor)?;
    pass_sampling(cursor)
}

/// The same of `count` components.
fn pass_components(cursor: &mut Cursor<'_>, count: u16, common: u8) -> Result<(), Fault>
    ensures { Reads (components_at count common) cursor.old cursor.new result }
{
    for _ in 0..count {
        pass_component(cursor, common)?;
    }
    Ok(())
}

/// Csiz, in a segment of `size` bytes.
#[tactic(auto, unfolding(crate::specs::HeaderReading::count_at))]
fn read_count(cursor: &mut Cursor<'_>, size: u16) -> Result<u16, Fault>
    ensures exact { Reads (count_at size) cursor.old cursor.new result }
    ensures few { IfOk result (λ n. n ≤ 4) }
{
    let components = cursor.two_bytes()?;
    if size as u32 != 38 + 3 * components as u32 {
        return Err(Fault::BadLength);
    }
    if components == 0 || components > 16384 {
        return Err(Fault::BadValue);
    }
    if components > 4 {
        return Err(Fault::Unsupported);
    }
    Ok(components)
}

/// SIZ, from its length on (T.800 A.5.1).
#[tactic(auto, unfolding(crate::specs::HeaderReading::siz_at))]
pub(crate) fn read_siz(cursor: &mut Cursor<'_>) -> Result<Siz, Fault>
    ensures exact { Reads siz_at cursor.old cursor.new result }
    ensures few { IfOk result (λ s. s.components ≤ 4) }
{
    let size = cursor.enter()?;
    let area = read_area(cursor)?;
    let tiling = read_tiling(cursor, area)?;
    let components = read_count(cursor, size)?;
    let common = cursor.next_byte();
    pass_components(cursor, components, common)?;
    Ok(Siz {
        rsiz: area.rsiz,
        x1: area.x1,
        y1: area.y1,
        x0: area.x0,
        y0: area.y0,
        tile_width: tiling.width,
        tile_height: tiling.height,
        tile_x0: tiling.x0,
        tile_y0: tiling.y0,
        components,
        depth: common % 128 + 1,
        signed: common >= 128,
    })
}
