//! What is kept of a file.

ghost use Rattle.std.specs.Prelude.{◌≡◌, ◌+◌, ◌-◌, ◌≤◌, ◌<◌, ◌^◌, ℕ, List, length, IfOk, IfErr, MatchResult, Ok};
ghost use Rattle.jk_math.specs.Answer.{Answers};
ghost use Rattle.jk_math.specs.Memory.{IsMemory};
ghost use Rattle.jk_math.specs.declared.fault.Fault.TheVariants.{BadWindow};
ghost use Rattle.jk_marks.specs.Siz.{tile_count};
ghost use Rattle.jk_params.specs.Headers.{AreHeaders, tile_in, packets_of};
ghost use Rattle.jk_order.specs.PacketOrder.{packet_count};
ghost use Rattle.jk_walk.specs.TilePackets.{shape_in};
ghost use Rattle.jk_walk.specs.Entries.{AreEntries};
ghost use Rattle.jk_math.specs.declared.rect.Rect.{Rect as Area};
ghost use Rattle.jk_window.specs.declared.view.View.{View as Sight};
ghost use Rattle.jk_window.specs.Views.{HasWindow};
ghost use Rattle.jk_window.specs.Planning.{IsSound, Fits};
ghost use Rattle.jk_window.specs.PartEnds.{IsPartEnds, HavePartEnds};
ghost use Rattle.jk_window.specs.Indexing.{IndexFields, IsIndex, entries_of};
ghost use Rattle.jk_params.specs.Levels.{least_levels};

use crate::around::Around;
use crate::packed::PackedEntries;
use crate::parts::PartEnds;
use crate::view::View;
use crate::window::sees;
use jk_boxes::Boxed;
use jk_marks::Order;
use jk_math::Fault;
use jk_params::Codestream;
use std::marker::Model;

/// What is kept of a file: where its codestream stands, what its headers say, where each of its
/// packets stands, and what stands around them.
///
/// A packet takes 5.5 bytes: of 64 packets that touch, as those of one tile-part do, and have no SOP
/// or are counted (T.800 A.8.1), 5 bytes each and 29 for all. Where 64 packets don't touch, as at the
/// end of a tile-part, or one of them has a header of more than 255 bytes, each takes 12 bytes; where
/// they are otherwise counted, or go on for 4 GiB, or have a header of 2^16 bytes, 32. A tile takes
/// some 200 bytes more, and a tile-part 24: 8 of where its packets end, and 16 of what stands around
/// them, with the bytes of the headers.
#[derive(Debug, Drop)]
pub struct Index {
    place: Boxed,
    layers: u16,
    order: Order,
    headers: Codestream,
    packets: Vec<PackedEntries>,
    around: Around,
    parts: Vec<PartEnds>,
}

impl Model for Index {
    ghost use Rattle.jk_window.specs.Indexing.{IndexFields, IsIndex};

    ghost Value = { IndexFields };

    ghost view = { λ i. record {
      place = i.place;
      layers = i.layers;
      order = i.order;
      headers = i.headers;
      packets = i.packets.items;
      frame = i.around;
    } };

    ghost use Rattle.jk_window.specs.PartEnds.{HavePartEnds};

    // There is a file whose index it is.
    ghost invariant = { λ i. IsIndex record {
      place = i.place;
      layers = i.layers;
      order = i.order;
      headers = i.headers;
      packets = i.packets.items;
      frame = i.around;
    } × HavePartEnds i.headers i.packets.items i.parts.items };
}

impl Index {
    ghost use Rattle.std.specs.Prelude.{◌≡◌, ◌-◌, MatchResult};

    /// An index of these fields.
    pub(crate) fn new(
        place: Boxed,
        layers: u16,
        order: Order,
        headers: Codestream,
        packets: Vec<PackedEntries>,
        around: Around,
        parts: Vec<PartEnds>,
    ) -> Index
        requires parts { HavePartEnds headers packets.items parts.items }
        requires index { IsIndex record {
          place = place;
          layers = layers;
          order = order;
          headers = headers;
          packets = packets.items;
          frame = around;
        } }
        ensures { result ≡ record {
          place = place;
          layers = layers;
          order = order;
          headers = headers;
          packets = packets.items;
          frame = around;
        } }
    {
        Index {
            place,
            layers,
            order,
            headers,
            packets,
            around,
            parts,
        }
    }

    /// What stands around the packets.
    pub(crate) fn around(&self) -> &Around
        ensures value { result.now ≡ self.now.frame }
        ensures sound { IsSound self.now }
        ensures fits { (w : Area) (v : Sight) → Fits self.now w v }
    {
        &self.around
    }

    /// Where the codestream stands in the file.
    pub(crate) fn place(&self) -> Boxed
        ensures { result ≡ self.now.place }
    {
        self.place
    }

    /// What the headers say.
    pub(crate) fn headers(&self) -> &Codestream
        ensures value { result.now ≡ self.now.headers }
        ensures sound { AreHeaders (self.now.place.end - self.now.place.start) result.now }
    {
        &self.headers
    }

    /// Where the packets of a tile stand in the codestream.
    pub(crate) fn entries(&self, tile: usize) -> &PackedEntries
        requires { tile < tile_count self.now.headers.siz }
        ensures value { result.now ≡ entries_of self.now.packets tile }
        ensures within { AreEntries (self.now.place.end - self.now.place.start)
            (shape_in self.now.headers.siz (tile_in self.now.headers.tiles tile) tile) result.now }
    {
        &self.packets[tile]
    }

    /// Which packets of a tile stand in which of its parts.
    pub(crate) fn parts(&self, tile: usize) -> &PartEnds
        requires { tile < tile_count self.now.headers.siz }
        ensures ends { IsPartEnds (entries_of self.now.packets tile) (tile_in self.now.headers.tiles tile) result.now }
        ensures all { length (entries_of self.now.packets tile)
            ≡ packet_count (shape_in self.now.headers.siz (tile_in self.now.headers.tiles tile) tile) }
        ensures few { length (entries_of self.now.packets tile) ≤ 2 ^ 24 }
    {
        &self.parts[tile]
    }

    /// How many samples the image has side by side.
    pub fn width(&self) -> u32
        ensures { result ≡ self.now.headers.siz.x1 - self.now.headers.siz.x0 }
    {
        let siz = self.headers.siz();
        siz.x1 - siz.x0
    }

    /// How many samples it has one above the other.
    pub fn height(&self) -> u32
        ensures { result ≡ self.now.headers.siz.y1 - self.now.headers.siz.y0 }
    {
        let siz = self.headers.siz();
        siz.y1 - siz.y0
    }

    /// How many components the image has.
    pub fn components(&self) -> u16
        ensures { result ≡ self.now.headers.siz.components }
    {
        self.headers.siz().components
    }

    /// How many bits a sample has.
    pub fn depth(&self) -> u8
        ensures { result ≡ self.now.headers.siz.depth }
    {
        self.headers.siz().depth
    }

    /// The least number of decomposition levels of a component of a tile: so often the image can be
    /// halved.
    pub fn levels(&self) -> u8
        ensures { result ≡ least_levels self.now.headers.tiles (tile_count self.now.headers.siz) }
    {
        self.headers.least_levels()
    }

    /// How many layers there are, by the main header.
    pub fn layers(&self) -> u16
        ensures { result ≡ self.now.layers }
    {
        self.layers
    }

    /// The order of the packets, by the main header.
    pub fn order(&self) -> Order
        ensures { result ≡ self.now.order }
    {
        self.order
    }

    /// How many tiles there are.
    pub fn tiles(&self) -> usize
        ensures { result ≡ tile_count self.now.headers.siz }
    {
        self.headers.tile_count()
    }

    /// How many packets there are.
    pub fn packets(&self) -> u64
        ensures { result ≡ packets_of self.now.headers.siz self.now.headers.tiles }
    {
        self.headers.packet_count()
    }

    /// Whether a view has a window.
    ///
    /// BadWindow: the view asks for no layer, a tile-component has fewer decomposition levels than
    /// the reduction, or the reduced image or the window has no sample.
    pub fn sees(&self, view: View) -> Result<(), Fault>
        ensures { MatchResult result
            (λ _. HasWindow self.now.headers view) (λ e. (e ≡ BadWindow) × (HasWindow self.now.headers view → ⊥)) }
    {
        sees(&self.headers, view)
    }
}
