//! The markers at packets.

/// Which markers stand at the packets of a tile (T.800 A.8).
#[derive(Clone, Copy, Debug)]
pub struct PacketMarkers {
    /// An SOP marker segment stands before each packet that is written, and may stand before one
    /// that is read (T.800 A.8.1).
    pub sop: bool,
    /// An EPH marker stands behind the header of each packet (T.800 A.8.2).
    pub eph: bool,
}
