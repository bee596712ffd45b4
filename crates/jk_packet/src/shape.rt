//! What a packet header's form depends on: the code-blocks of a precinct, and the markers round it.

ghost use Rattle.std.specs.Prelude.{◌≡◌, ◌≤◌, [], ◌∷◌};

/// The part of a sub-band that lies in a precinct.
#[derive(Clone, Copy, Debug, PartialEq, Eq)]
pub struct BandShape {
    /// How many code-blocks lie side by side.
    pub across: u16,
    /// How many code-blocks lie one below another.
    pub down: u16,
    /// The number of magnitude bit-planes, Mb (T.800 E.1).
    pub planes: u8,
}

/// A precinct: its sub-bands in the order of the packet, and the markers of its packets.
#[derive(Clone, Copy, Debug)]
pub struct PrecinctShape {
    bands: [BandShape; 3],
    count: u8,
    sop: bool,
    eph: bool,
    ghost some: { 1 ≤ count },
    ghost few: { count ≤ 3 },
}

impl PrecinctShape {
    ghost use Rattle.std.specs.Prelude.{◌≡◌, [], ◌∷◌};
    ghost use Rattle.jk_packet.specs.Shapes.{bands_of};

    /// A precinct of the lowest resolution, which has the sub-band LL alone.
    ///
    /// `sop` tells whether an SOP marker segment may stand before a packet (T.800 A.8.1), and `eph`
    /// whether an EPH marker must stand behind a header (A.8.2).
    pub fn lowest(band: BandShape, sop: bool, eph: bool) -> PrecinctShape
        ensures bands { bands_of result ≡ band ∷ [] }
        ensures sop { result.sop ≡ sop }
        ensures eph { result.eph ≡ eph }
    {
        PrecinctShape {
            bands: [band; 3],
            count: 1,
            sop,
            eph,
        }
    }

    /// A precinct of another resolution, with the sub-bands HL, LH and HH in this order.
    pub fn higher(bands: [BandShape; 3], sop: bool, eph: bool) -> PrecinctShape
        ensures bands { bands_of result ≡ bands }
        ensures sop { result.sop ≡ sop }
        ensures eph { result.eph ≡ eph }
    {
        PrecinctShape {
            bands,
            count: 3,
            sop,
            eph,
        }
    }

    /// The sub-bands.
    pub fn bands(&self) -> &[BandShape]
        ensures { result.now ≡ bands_of self.now }
    {
        &self.bands[..self.count as usize]
    }

    /// Whether an SOP marker segment may stand before a packet.
    pub fn sop(&self) -> bool
        ensures { result ≡ self.now.sop }
    {
        self.sop
    }

    /// Whether an EPH marker must stand behind a packet header.
    pub fn eph(&self) -> bool
        ensures { result ≡ self.now.eph }
    {
        self.eph
    }
}
