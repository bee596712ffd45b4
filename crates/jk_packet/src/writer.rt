//! The packets of a precinct, written layer by layer (T.800 B.9, B.10).

ghost use Rattle.std.specs.Prelude.{◌≡◌, ℕ, ◌+◌, ◌*◌, ◌%◌, ◌<◌, ◌≤◌, ◌++◌, false, true, length, take, drop, Some, IfOk};
ghost use Rattle.std.specs.Prelude.{IfErr, IsErr, OnOk, MatchResult};
ghost use Rattle.std.specs.List.{list_any, flat_map};
ghost use Rattle.jk_math.specs.Front.{IsFront};
ghost use Rattle.jk_math.specs.Memory.{IsMemory};
ghost use Rattle.jk_tree.specs.Telling.{with_bits};
ghost use Rattle.jk_packet.specs.Shapes.{bands_of};
ghost use Rattle.jk_bits.specs.Stuffing.{stuffed};
ghost use Rattle.jk_packet.specs.PacketText.{eph_text};
ghost use Rattle.jk_packet.specs.Written.{sop_text, has_passes, is_full, full_bits, bits_in, part_in};
ghost use Rattle.jk_packet.specs.Written.{header_in, packet_in};
ghost use Rattle.jk_packet.specs.Written.{block_count, banded, AreTables};
ghost use Rattle.jk_packet.specs.Writing.{BandsStand};

use crate::shape::{BandShape, PrecinctShape};
use crate::table::BlockTable;
use crate::writing::{WriteBand, write_band};
use jk_bits::BitWriter;
use jk_math::Fault;
use std::alloc::Global;
use std::marker::Model;

/// The packets of a precinct, as far as they are written.
#[derive(Drop)]
pub struct PrecinctWriter<'a> {
    alloc: Global,
    shape: PrecinctShape,
    layers: u16,
    tables: &'a [BlockTable],
    written: u16,
    bands: Vec<WriteBand>,
    fault: Option<Fault>,
}

impl<'a> Model for PrecinctWriter<'a> {
    ghost use Rattle.std.specs.Prelude.{◌≡◌, length, is_some, IfSome};
    ghost use Rattle.jk_math.specs.Memory.{IsMemory};
    ghost use Rattle.jk_packet.specs.Shapes.{bands_of};
    ghost use Rattle.jk_packet.specs.Written.{PrecinctTables, banded, block_count};
    ghost use Rattle.jk_packet.specs.Writing.{IsWriting};

    ghost Value = { PrecinctTables };

    ghost view = { λ w. record {
      shapes = bands_of w.shape;
      sop = w.shape.sop;
      eph = w.shape.eph;
      layers = w.layers;
      tables = banded (bands_of w.shape) w.tables.now;
      written = w.written;
      failed = is_some w.fault;
    } };

    ghost invariant = { λ w. IsWriting (bands_of w.shape) w.layers (banded (bands_of w.shape) w.tables.now) w.written
        (is_some w.fault) w.bands.items
        × (length w.tables.now ≡ block_count (bands_of w.shape))
        × IfSome w.fault IsMemory };
}

/// How many code-blocks a sub-band has.
fn blocks_in(band: BandShape) -> usize
    ensures { result ≡ band.across * band.down }
{
    band.across as usize * band.down as usize
}

/// So many tables from a place on.
fn tables_of(tables: &[BlockTable], at: usize, count: usize) -> &[BlockTable]
    requires { at + count ≤ length tables.now }
    ensures { result.now ≡ take count (drop at tables.now) }
{
    &tables[at..at + count]
}

/// The sub-bands of a precinct of which no packet is written.
fn open_bands(
    alloc: Global,
    shape: &PrecinctShape,
    layers: u16,
    tables: &[BlockTable],
) -> Result<Vec<WriteBand>, Fault>
    requires tables { AreTables (bands_of shape.now) layers (banded (bands_of shape.now) tables.now) }
    requires whole { length tables.now ≡ block_count (bands_of shape.now) }
    ensures { MatchResult result
        (λ v. BandsStand (bands_of shape.now) (banded (bands_of shape.now) tables.now) 0 v.items) (λ e. IsMemory e) }
{
    let shapes = shape.bands();
    let mut bands = Vec::with_capacity(alloc, shapes.len())?;
    let mut at = 0;
    for number in 0..shapes.len() {
        let band = shapes[number];
        let count = blocks_in(band);
        let own = tables_of(tables, at, count);
        bands.push(WriteBand::new(alloc, band, layers, own)?)?;
        at += count;
    }
    Ok(bands)
}

/// What a packet that isn't empty has of the sub-bands.
fn write_bands(
    bands: &mut Vec<WriteBand>,
    shape: &PrecinctShape,
    layers: u16,
    tables: &[BlockTable],
    layer: u16,
    writer: &mut BitWriter,
) -> Result<(), Fault>
    requires tables { AreTables (bands_of shape.now) layers (banded (bands_of shape.now) tables.now) }
    requires whole { length tables.now ≡ block_count (bands_of shape.now) }
    requires layer { layer < layers }
    requires full { is_full (banded (bands_of shape.now) tables.now) layer ≡ true }
    requires stand { BandsStand (bands_of shape.now) (banded (bands_of shape.now) tables.now) layer bands.old.items }
    ensures stand { IfOk result
        (λ _. BandsStand (bands_of shape.now) (banded (bands_of shape.now) tables.now) (layer + 1) bands.new.items) }
    ensures told { IfOk result (λ _. writer.new ≡ with_bits writer.old
        (full_bits (bands_of shape.now) (banded (bands_of shape.now) tables.now) layer)) }
    ensures memory { IfErr result (λ e. IsMemory e) }
{
    let shapes = shape.bands();
    let mut at = 0;
    for number in 0..shapes.len() {
        let band = shapes[number];
        let count = blocks_in(band);
        let own = tables_of(tables, at, count);
        write_band(&mut bands[number], band, own, layer, writer)?;
        at += count;
    }
    Ok(())
}

/// Whether a layer has coding passes of a block.
fn is_full(tables: &[BlockTable], layer: u16) -> bool
    ensures { result ≡ list_any (has_passes layer) tables.now }
{
    for table in tables {
        if table.passes(layer) != 0 {
            return true;
        }
    }
    false
}

/// The bits of a layer's header.
fn write_bits(
    alloc: Global,
    bands: &mut Vec<WriteBand>,
    shape: &PrecinctShape,
    layers: u16,
    tables: &[BlockTable],
    layer: u16,
) -> Result<Vec<u8>, Fault>
    requires tables { AreTables (bands_of shape.now) layers (banded (bands_of shape.now) tables.now) }
    requires whole { length tables.now ≡ block_count (bands_of shape.now) }
    requires layer { layer < layers }
    requires stand { BandsStand (bands_of shape.now) (banded (bands_of shape.now) tables.now) layer bands.old.items }
    ensures stand { IfOk result
        (λ _. BandsStand (bands_of shape.now) (banded (bands_of shape.now) tables.now) (layer + 1) bands.new.items) }
    ensures told { IfOk result
        (λ v. v.items ≡ stuffed (bits_in (bands_of shape.now) (banded (bands_of shape.now) tables.now) layer)) }
    ensures memory { IfErr result (λ e. IsMemory e) }
{
    let mut writer = BitWriter::new(alloc);
    if !is_full(tables, layer) {
        writer.push(false)?;
        let bytes = writer.finish()?;
        return Ok(bytes);
    }
    writer.push(true)?;
    write_bands(bands, shape, layers, tables, layer, &mut writer)?;
    let bytes = writer.finish()?;
    Ok(bytes)
}

/// Appends a header with these bytes and its markers; SOP counts `number`.
fn push_header(
    sop: bool,
    eph: bool,
    number: u32,
    header: &[u8],
    out: &mut Vec<u8>,
) -> Result<(), Fault>
    ensures ok { OnOk result (out.new.items
        ≡ out.old.items ++ (sop_text sop (number % 65536) ++ (header.now ++ eph_text eph))) }
    ensures front { IsFront out.old.items out.new.items }
    ensures memory { IfErr result (λ e. IsMemory e) }
{
    if sop {
        let [high, low] = ((number % 65536) as u16).to_be_bytes();
        out.extend_from_slice(&[0xFF, 0x91, 0x00, 0x04, high, low])?;
    }
    out.extend_from_slice(header)?;
    if eph {
        out.extend_from_slice(&[0xFF, 0x92])?;
    }
    Ok(())
}

/// Appends what a layer has of the blocks.
fn push_bodies(tables: &[BlockTable], layer: u16, out: &mut Vec<u8>) -> Result<(), Fault>
    ensures ok { OnOk result (out.new.items
        ≡ out.old.items ++ flat_map (λ t. (part_in t layer).1) tables.now) }
    ensures front { IsFront out.old.items out.new.items }
    ensures memory { IfErr result (λ e. IsMemory e) }
{
    for table in tables {
        out.extend_from_slice(table.bytes(layer))?;
    }
    Ok(())
}

/// A packet of a precinct: its layer, and its number in the tile.
#[derive(Clone, Copy)]
struct PacketPlace {
    layer: u16,
    number: u32,
}

/// Appends the header of a packet, with its markers.
fn push_head(
    alloc: Global,
    bands: &mut Vec<WriteBand>,
    shape: &PrecinctShape,
    layers: u16,
    tables: &[BlockTable],
    place: PacketPlace,
    out: &mut Vec<u8>,
) -> Result<(), Fault>
    requires tables { AreTables (bands_of shape.now) layers (banded (bands_of shape.now) tables.now) }
    requires whole { length tables.now ≡ block_count (bands_of shape.now) }
    requires layer { place.layer < layers }
    requires stand { BandsStand (bands_of shape.now) (banded (bands_of shape.now) tables.now) place.layer bands.old.items }
    ensures stand { IfOk result
        (λ _. BandsStand (bands_of shape.now) (banded (bands_of shape.now) tables.now) (place.layer + 1) bands.new.items) }
    ensures ok { OnOk result (out.new.items ≡ out.old.items
        ++ header_in (bands_of shape.now) shape.now.sop shape.now.eph (banded (bands_of shape.now) tables.now)
        place.layer place.number) }
    ensures front { IsFront out.old.items out.new.items }
    ensures memory { IfErr result (λ e. IsMemory e) }
{
    let header = write_bits(alloc, bands, shape, layers, tables, place.layer)?;
    push_header(shape.sop(), shape.eph(), place.number, &header, out)?;
    Ok(())
}

/// Appends a packet.
fn push_packet(
    alloc: Global,
    bands: &mut Vec<WriteBand>,
    shape: &PrecinctShape,
    layers: u16,
    tables: &[BlockTable],
    place: PacketPlace,
    out: &mut Vec<u8>,
) -> Result<(), Fault>
    requires tables { AreTables (bands_of shape.now) layers (banded (bands_of shape.now) tables.now) }
    requires whole { length tables.now ≡ block_count (bands_of shape.now) }
    requires layer { place.layer < layers }
    requires stand { BandsStand (bands_of shape.now) (banded (bands_of shape.now) tables.now) place.layer bands.old.items }
    ensures stand { IfOk result
        (λ _. BandsStand (bands_of shape.now) (banded (bands_of shape.now) tables.now) (place.layer + 1) bands.new.items) }
    ensures ok { OnOk result (out.new.items ≡ out.old.items
        ++ packet_in (bands_of shape.now) shape.now.sop shape.now.eph (banded (bands_of shape.now) tables.now)
        place.layer place.number) }
    ensures front { IsFront out.old.items out.new.items }
    ensures memory { IfErr result (λ e. IsMemory e) }
{
    push_head(alloc, bands, shape, layers, tables, place, out)?;
    push_bodies(tables, place.layer, out)?;
    Ok(())
}

/// Counts a layer that was written, or keeps the fault that it met.
fn advance(
    written: &mut u16,
    fault: &mut Option<Fault>,
    done: Result<(), Fault>,
) -> Result<(), Fault>
    requires { written.old < 65535 }
    ensures same { result ≡ done }
    ensures ok { OnOk done ((written.new ≡ written.old + 1) × (fault.new ≡ fault.old)) }
    ensures err { IfErr done (λ e. (written.new ≡ written.old) × (fault.new ≡ Some e)) }
{
    match done {
        Ok(()) => *written += 1,
        Err(e) => *fault = Some(e),
    }
    done
}

impl<'a> PrecinctWriter<'a> {
    /// A precinct of which no packet is written, in so many layers.
    ///
    /// `tables` are those of its code-blocks, sub-band behind sub-band, each in raster order.
    pub fn new(
        alloc: Global,
        shape: &PrecinctShape,
        layers: u16,
        tables: &'a [BlockTable],
    ) -> Result<PrecinctWriter<'a>, Fault>
        requires tables { AreTables (bands_of shape.now) layers (banded (bands_of shape.now) tables.now) }
        requires whole { length tables.now ≡ block_count (bands_of shape.now) }
        ensures { MatchResult result
            (λ w. w ≡ record {
              shapes = bands_of shape.now;
              sop = shape.now.sop;
              eph = shape.now.eph;
              layers = layers;
              tables = banded (bands_of shape.now) tables.now;
              written = 0;
              failed = false;
            }) (λ e. IsMemory e) }
    {
        let bands = open_bands(alloc, shape, layers, tables)?;
        Ok(PrecinctWriter {
            alloc,
            shape: *shape,
            layers,
            tables,
            written: 0,
            bands,
            fault: None,
        })
    }

    /// Appends the packet of the next layer, which is packet `number` of its tile, counted from 0.
    ///
    /// SOP and EPH stand as the precinct's shape tells; SOP has the number's lowest 16 bits (T.800
    /// A.8.1). A layer without a coding pass of any block gives an empty packet (B.10.3). After
    /// [`Fault::Memory`] some of its bytes may stand, and each later call answers `Memory` and
    /// appends nothing.
    pub fn write_packet(&mut self, number: u32, out: &mut Vec<u8>) -> Result<(), Fault>
        requires { self.old.written < self.old.layers }
        ensures ok { OnOk result (out.new.items ≡ out.old.items
            ++ packet_in self.old.shapes self.old.sop self.old.eph self.old.tables self.old.written number) }
        ensures written { OnOk result (self.new ≡ record self.old { written = self.old.written + 1 }) }
        ensures err { IfErr result (λ e. IsMemory e × (self.new ≡ record self.old { failed = true })) }
        ensures front { IsFront out.old.items out.new.items }
        // What has failed fails again, and appends nothing.
        ensures stays { self.old.failed ≡ true → IsErr result × (out.new.items ≡ out.old.items) }
    {
        if let Some(fault) = self.fault {
            return Err(fault);
        }
        let place = PacketPlace {
            layer: self.written,
            number,
        };
        let (bands, shape, tables) = (&mut self.bands, &self.shape, self.tables);
        let done = push_packet(self.alloc, bands, shape, self.layers, tables, place, out);
        advance(&mut self.written, &mut self.fault, done)
    }

    /// Appends the header of the packet of the next layer, with its markers, as
    /// [`PrecinctWriter::write_packet`] does: what follows are the bytes that the tables have of the
    /// layer, one after another.
    pub fn write_head(&mut self, number: u32, out: &mut Vec<u8>) -> Result<(), Fault>
        requires { self.old.written < self.old.layers }
        ensures ok { OnOk result (out.new.items ≡ out.old.items
            ++ header_in self.old.shapes self.old.sop self.old.eph self.old.tables self.old.written number) }
        ensures written { OnOk result (self.new ≡ record self.old { written = self.old.written + 1 }) }
        ensures err { IfErr result (λ e. IsMemory e × (self.new ≡ record self.old { failed = true })) }
        ensures front { IsFront out.old.items out.new.items }
        // What has failed fails again, and appends nothing.
        ensures stays { self.old.failed ≡ true → IsErr result × (out.new.items ≡ out.old.items) }
    {
        if let Some(fault) = self.fault {
            return Err(fault);
        }
        let place = PacketPlace {
            layer: self.written,
            number,
        };
        let (bands, shape, tables) = (&mut self.bands, &self.shape, self.tables);
        let done = push_head(self.alloc, bands, shape, self.layers, tables, place, out);
        advance(&mut self.written, &mut self.fault, done)
    }
}
