//! Packets that are written, against those of an independent program.

ghost use Rattle.std.specs.Prelude.{◌≡◌, ℕ, ◌+◌, ◌*◌, ◌<◌, ◌≤◌, IsTrue, IfOk, IfSome, true, length, take, drop};
ghost use Rattle.jk_packet.specs.Shapes.{bands_of};
ghost use Rattle.jk_packet.specs.Written.{AreEnds, IsTable, AreBandTables, AreTables, banded, block_count};
ghost use Rattle.vectors_packet.specs.Sums.{HasSums};

use crate::headers::shape_of;
use crate::writing_cases::{WORKED_WRITTEN, WRITTEN};
use jk_packet::{BandShape, BlockTable, LayerPart, PrecinctShape, PrecinctWriter};
use std::alloc::Global;
use std::process::Abort;
use std::test::Fail;
use vectors::{Line, bytes_of, equal, equal_at};

/// One part more of a code-block, if its bytes are fewer than 2^32.
fn push_part(
    parts: &mut Vec<LayerPart>,
    bytes: &mut Vec<u8>,
    passes: u8,
    body: &[u8],
) -> Result<(), Fail>
    requires { AreEnds 0 parts.old.items (length bytes.old.items) }
    ensures { IfOk result (λ _. AreEnds 0 parts.new.items (length bytes.new.items)) }
{
    bytes.extend_from_slice(body)?;
    let length = bytes.len();
    if length >= 1 << 32 {
        return Ok(());
    }
    let end = length as u32;
    parts.push(LayerPart { passes, end })?;
    Ok(())
}

/// The coding passes and the bytes of a part `2.a1b2`.
fn part_of(rt: &impl Abort, alloc: Global, text: &str) -> (u8, Vec<u8>) {
    let mut line = Line::new(text, '.');
    let part = (line.number(0, 255) as u8, line.bytes(alloc));
    line.end().expect(rt, "a part");
    part
}

/// The table of so many zero bit-planes, and of parts that commas part.
fn table_with(
    rt: &impl Abort,
    alloc: Global,
    planes: u8,
    layers: &str,
) -> Result<BlockTable, Fail> {
    let mut parts = Vec::new(alloc);
    let mut bytes = Vec::new(alloc);
    let mut skipped: u16 = 0;
    for part in layers.split(',') {
        let (passes, body) = part_of(rt, alloc, part);
        if passes == 0 && parts.is_empty() {
            skipped = skipped.saturating_add(1);
        } else {
            push_part(&mut parts, &mut bytes, passes, &body)?;
        }
    }
    Ok(BlockTable::new(planes, skipped, parts, bytes))
}

/// The table of a text as `3:0.,2.a1b2`: the zero bit-planes, and the passes and the bytes of each
/// layer.
fn table_of(rt: &impl Abort, alloc: Global, text: &str) -> Result<BlockTable, Fail> {
    let mut line = Line::new(text, ':');
    let (planes, layers) = (line.number(0, 255) as u8, line.rest());
    line.end().expect(rt, "a table");
    table_with(rt, alloc, planes, layers)
}

/// The tables of a text.
fn tables_of(rt: &impl Abort, alloc: Global, text: &str) -> Result<Vec<BlockTable>, Fail> {
    let mut tables = Vec::new(alloc);
    if text == "-" {
        return Ok(tables);
    }
    for table in text.split('/') {
        tables.push(table_of(rt, alloc, table)?)?;
    }
    Ok(tables)
}

/// How many coding passes and bytes a table has, if each of its parts can be told.
fn sums_of(table: &BlockTable, layers: u16) -> Option<(u32, u32)>
    requires { length table.now.parts ≡ layers }
    ensures { IfSome result (λ s. HasSums layers table.now s.0 s.1) }
{
    let mut passes: u32 = 0;
    let mut size: u32 = 0;
    for layer in 0..layers {
        let count = table.passes(layer);
        let length = table.bytes(layer).len();
        if count > 164 || (count == 0 && length > 0) {
            return None;
        }
        if length >= 1 << 25 || size + length as u32 >= 1 << 25 {
            return None;
        }
        passes += count as u32;
        size += length as u32;
    }
    Some((passes, size))
}

/// Whether a table can be written of a block of so many bit-planes.
fn is_table(table: &BlockTable, planes: u8, layers: u16) -> bool
    ensures { result ≡ true → IsTable layers planes table.now }
{
    if table.layers() != layers as usize || table.zero_planes() > planes {
        return false;
    }
    match sums_of(table, layers) {
        None => false,
        Some((passes, _)) => {
            let most = (3 * (planes - table.zero_planes()) as u32).saturating_sub(2);
            passes <= most
        }
    }
}

/// Whether tables can be written of the blocks of a sub-band.
fn are_band_tables(band: BandShape, layers: u16, tables: &[BlockTable]) -> bool
    ensures { result ≡ true → AreBandTables band layers tables.now }
{
    if tables.len() != band.across as usize * band.down as usize {
        return false;
    }
    for table in tables {
        if !is_table(table, band.planes, layers) {
            return false;
        }
    }
    true
}

/// So many tables from a place on.
fn own_tables(tables: &[BlockTable], at: usize, count: usize) -> &[BlockTable]
    requires { at + count ≤ length tables.now }
    ensures { result.now ≡ take count (drop at tables.now) }
{
    &tables[at..at + count]
}

/// How many code-blocks a sub-band has.
fn blocks_in(band: BandShape) -> usize
    ensures { result ≡ band.across * band.down }
{
    band.across as usize * band.down as usize
}

/// Whether tables can be written of the blocks of a precinct.
fn are_tables(shape: &PrecinctShape, layers: u16, tables: &[BlockTable]) -> bool
    ensures are { result ≡ true → AreTables (bands_of shape.now) layers (banded (bands_of shape.now) tables.now) }
    ensures whole { result ≡ true → length tables.now ≡ block_count (bands_of shape.now) }
{
    let shapes = shape.bands();
    let mut at = 0;
    for number in 0..shapes.len() {
        let count = blocks_in(shapes[number]);
        if count > tables.len() - at {
            return false;
        }
        if !are_band_tables(shapes[number], layers, own_tables(tables, at, count)) {
            return false;
        }
        at += count;
    }
    at == tables.len()
}

/// Writes the packets of a precinct, the first of which has a number in its tile.
fn writes(
    rt: &impl Abort,
    alloc: Global,
    shape: &PrecinctShape,
    number: u32,
    tables: &[BlockTable],
    packets: &str,
) {
    let layers = packets.split(' ').count();
    assert!(rt; layers < 65536);
    let layers = layers as u16;
    assert!(rt; are_tables(shape, layers, tables), "tables of {packets}");
    let writer = PrecinctWriter::new(alloc, shape, layers, tables);
    let mut writer = writer.expect(rt, "a writer");
    let mut layer: u16 = 0;
    for packet in packets.split(' ') {
        assert!(rt; layer < layers);
        let due = bytes_of(alloc, &[packet]).expect(rt, "a packet");
        let mut out = Vec::new(alloc);
        let number = number.saturating_add(layer as u32);
        writer.write_packet(number, &mut out).expect(rt, "a packet");
        equal_at((layer, packets), out.as_slice(), due.as_slice()).expect(rt, "a packet");
        layer += 1;
    }
}

/// Writes the precinct of a line.
fn write_line(rt: &impl Abort, alloc: Global, text: &str) -> Result<(), Fail> {
    let mut line = Line::new(text, ' ');
    let (marks, bands) = (line.word(), line.word());
    let number = line.number(0, 0xFFFF_FFFF) as u32;
    let (tables, packets) = (line.word(), line.rest());
    line.end().expect(rt, "a line");
    let shape = shape_of(rt, marks, bands);
    let tables = tables_of(rt, alloc, tables)?;
    writes(rt, alloc, &shape, number, &tables, packets);
    Ok(())
}

/// Writes the precincts of lines, and counts them.
fn write_lines(rt: &impl Abort, alloc: Global, lines: &str) -> Result<u32, Fail> {
    let mut count = 0u32;
    for line in lines.lines() {
        write_line(rt, alloc, line)?;
        count = count.saturating_add(1);
    }
    Ok(count)
}

#[test]
fn random_tables(rt: HostRuntime) -> Result<(), Fail> {
    equal(write_lines(&rt, rt.alloc(), WRITTEN)?, 96).expect(&rt, "lines");
    Ok(())
}

#[test]
fn worked_tables(rt: HostRuntime) -> Result<(), Fail> {
    equal(write_lines(&rt, rt.alloc(), WORKED_WRITTEN)?, 5).expect(&rt, "lines");
    Ok(())
}
