//! A precinct, and the headers of its packets (T.800 B.9, B.10).

ghost use Rattle.std.specs.Prelude.{◌≡◌, ℕ, ◌+◌, ◌<◌, ◌≤◌, Bool, List, [], ◌++◌, length, drop, is_ok, if◌then◌else◌};
ghost use Rattle.std.specs.Prelude.{IfOk, Some, Err, IfErr, IfSome, OnOk, MatchResult};
ghost use Rattle.jk_math.specs.Answer.{Answers, ReadsBy};
ghost use Rattle.jk_math.specs.Memory.{IsMemory};
ghost use Rattle.jk_packet.specs.Reading.{blank_precinct, bands_seen, packet_at, bits_at, text_of, text_at, header_at};
ghost use Rattle.jk_packet.specs.Shapes.{bands_of};
ghost use Rattle.jk_packet.specs.declared.shape.BandShape.{BandShape};
ghost use Rattle.jk_packet.specs.PacketText.{Layer, Trees, header_bits, IsLayer, IsHeaderText};
ghost use Rattle.jk_packet.specs.Standing.{AreTrees, PrecinctStands, PrecinctReached, ReadsLayer, IsRead};

use crate::band::Band;
use crate::header::{BlockContribution, Header, Parts};
use crate::markers::{eph_length, sop_length};
use crate::shape::PrecinctShape;
use jk_bits::BitReader;
use jk_math::Fault;
use std::alloc::Global;
use std::marker::Model;

/// What the packet headers of a precinct have told so far.
#[derive(Drop)]
pub struct Precinct {
    alloc: Global,
    shape: PrecinctShape,
    bands: Vec<Band>,
    layers: u32,
    failed: Option<Fault>,
}

impl Model for Precinct {
    ghost use Rattle.std.specs.Prelude.{◌≤◌, length};
    ghost use Rattle.jk_packet.specs.Reading.{PrecinctState, bands_seen};
    ghost use Rattle.jk_packet.specs.Shapes.{bands_of};

    ghost Value = { PrecinctState };

    ghost view = { λ p. record {
      bands = bands_seen (bands_of p.shape) p.bands.items;
      sop = p.shape.sop;
      eph = p.shape.eph;
      layers = p.layers;
      failed = p.failed;
    } };

    ghost invariant = { λ p. length p.bands.items ≤ 3 };
}

/// Makes the sub-bands, if they aren't made yet.
fn make_bands(alloc: Global, shape: PrecinctShape, bands: &mut Vec<Band>) -> Result<(), Fault>
    requires { length bands.old.items ≤ 3 }
    ensures made { MatchResult result
        (λ _. bands.new.items ≡ bands_seen (bands_of shape) bands.old.items) (λ e. IsMemory e) }
    ensures some { OnOk result (0 < length bands.new.items) }
    ensures few { length bands.new.items ≤ 3 }
{
    if !bands.is_empty() {
        return Ok(());
    }
    let mut made = Vec::with_capacity(alloc, 3)?;
    for band in shape.bands() {
        made.push(Band::new(alloc, *band)?)?;
    }
    *bands = made;
    Ok(())
}

/// What a packet that isn't empty has of the sub-bands.
fn read_bands(
    bands: &mut Vec<Band>,
    layer: u16,
    reader: &mut BitReader<'_>,
    parts: &mut Vec<BlockContribution>,
) -> Result<(), Fault>
    requires layer { layer < 65535 }
    requires few { length bands.old.items ≤ 3 }
    ensures exact { Answers
        (λ _. record { bands = bands.new.items; bits = reader.new; parts = parts.new.items }) result
        (packet_at layer record { bands = bands.old.items; bits = reader.old; parts = parts.old.items }) }
    ensures kept { length bands.new.items ≡ length bands.old.items }
{
    for number in 0..bands.len() {
        let band = &mut bands[number];
        band.read(number as u8, layer, reader, parts)?;
    }
    Ok(())
}

/// The bits of a header: a 0 for an empty packet, and a 1 before what it has of the sub-bands
/// (T.800 B.10.3).
fn read_bits(
    alloc: Global,
    shape: PrecinctShape,
    bands: &mut Vec<Band>,
    layer: u16,
    reader: &mut BitReader<'_>,
    parts: &mut Vec<BlockContribution>,
) -> Result<(), Fault>
    requires layer { layer < 65535 }
    requires few { length bands.old.items ≤ 3 }
    requires none { parts.old.items ≡ [] }
    ensures exact { Answers
        (λ _. record {
          bands = bands_seen (bands_of shape) bands.new.items;
          bits = reader.new;
          parts = parts.new.items;
        }) result
        (bits_at layer (bands_seen (bands_of shape) bands.old.items) reader.old) }
    ensures few { length bands.new.items ≤ 3 }
{
    let full = reader.bit()?;
    if !full {
        return Ok(());
    }
    make_bands(alloc, shape, bands)?;
    read_bands(bands, layer, reader, parts)?;
    Ok(())
}

/// The bytes from a place on.
#[tactic(auto, using(std::proofs::lemmas::List::take_rest))]
fn bytes_from(bytes: &[u8], place: usize) -> &[u8]
    requires { place ≤ length bytes.now }
    ensures { result.now ≡ drop place bytes.now }
{
    &bytes[place..]
}

/// A packet header with its markers.
fn read_text(
    alloc: Global,
    shape: PrecinctShape,
    bands: &mut Vec<Band>,
    layer: u16,
    bytes: &[u8],
) -> Result<Header, Fault>
    requires layer { layer < 65535 }
    requires few { length bands.old.items ≤ 3 }
    ensures exact { Answers
        (λ h. (text_of h, bands_seen (bands_of shape) bands.new.items)) result
        (text_at shape.sop shape.eph layer bytes.now (bands_seen (bands_of shape) bands.old.items)) }
    ensures few { length bands.new.items ≤ 3 }
{
    let sop = sop_length(shape.sop(), bytes)?;
    let mut reader = BitReader::new(bytes_from(bytes, sop));
    let mut parts = Vec::new(alloc);
    read_bits(alloc, shape, bands, layer, &mut reader, &mut parts)?;
    let size = reader.finish()?;
    let end = sop + size;
    let eph = eph_length(shape.eph(), bytes_from(bytes, end))?;
    Ok(Header {
        length: end + eph,
        parts: Parts::new(parts),
    })
}

impl Precinct {
    /// A precinct of which no packet was read.
    ///
    /// What a packet header tells of code-blocks takes memory at the precinct's first packet that
    /// isn't empty.
    pub fn new(alloc: Global, shape: &PrecinctShape) -> Result<Precinct, Fault>
        ensures blank { MatchResult result
            (λ p. p ≡ blank_precinct (bands_of shape.now) shape.now.sop shape.now.eph) (λ e. IsMemory e) }
        ensures stands { IfOk result (λ p. (trees : Trees) → AreTrees (bands_of shape.now) trees
            → PrecinctStands (bands_of shape.now) trees [] p) }
        ensures reached { IfOk result (λ p. PrecinctReached (bands_of shape.now) [] [] p) }
    {
        Ok(Precinct {
            alloc,
            shape: *shape,
            bands: Vec::new(alloc),
            layers: 0,
            failed: None,
        })
    }

    /// The header of the packet of `layer`, which is the next layer, at the front of `bytes`.
    ///
    /// The faults, in the order of the bytes: `Truncated` where they end, `BadLength` for an SOP
    /// marker segment whose length isn't 4, `PacketHeader` for a stuffed bit that is 1, more zero
    /// bit-planes than the sub-band has, a length field wider than 32 bits, and other bytes where
    /// EPH must stand, and `TooManyPasses` for more coding passes of a code-block than its
    /// bit-planes have. The first fault is the answer to each later call.
    pub fn read_header(&mut self, bytes: &[u8], layer: u16) -> Result<Header, Fault>
        requires next { layer ≡ self.old.layers }
        requires layer { layer < 65535 }
        ensures exact { ReadsBy text_of (header_at layer bytes.now) self.old self.new result }
        ensures failed { IfErr result (λ e. self.new.failed ≡ Some e) }
        ensures stays { IfSome self.old.failed (λ e. (result ≡ Err e) × (self.new ≡ self.old)) }
        ensures kept { (self.new.sop ≡ self.old.sop) × (self.new.eph ≡ self.old.eph) }
        ensures counted { self.new.layers ≡ (if is_ok result then self.old.layers + 1 else self.old.layers) }

        // What trees would tell of one more layer is read, whatever they told before.
        ensures only { (shapes : List BandShape) (trees : Trees) (layers : List Layer) (said : Layer)
            (text rest : List ℕ)
            → PrecinctStands shapes trees layers self.old
            → IsLayer shapes trees layers said
            → IsHeaderText self.old.sop self.old.eph (header_bits shapes trees layers said) text
            → bytes.now ≡ text ++ rest
            → MatchResult result (λ h. IsRead shapes trees layers said text self.new (text_of h)) (λ e. IsMemory e) }

        // What is read is a layer behind those read before, and there are trees that tell them all.
        ensures found { (shapes : List BandShape) (layers : List Layer) (bits : List (List Bool))
            → PrecinctReached shapes layers bits self.old
            → IfOk result (λ h. ReadsLayer shapes layers bits self.old self.new bytes.now (text_of h)) }
    {
        if let Some(fault) = self.failed {
            return Err(fault);
        }
        match read_text(self.alloc, self.shape, &mut self.bands, layer, bytes) {
            Ok(header) => {
                self.layers += 1;
                Ok(header)
            }
            Err(fault) => {
                self.failed = Some(fault);
                Err(fault)
            }
        }
    }
}
