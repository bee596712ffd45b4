//! The markers (T.800 table A.2).

ghost use Rattle.std.specs.Prelude.{◌≡◌};
ghost use Rattle.jk_marks.specs.Markers.{is_left_out, is_listed, is_alone};

/// Start of codestream.
pub const SOC: u16 = 0xFF4F;
/// Image and tile size.
pub const SIZ: u16 = 0xFF51;
/// Coding style default.
pub const COD: u16 = 0xFF52;
/// Coding style component.
pub const COC: u16 = 0xFF53;
/// Tile-part lengths.
pub const TLM: u16 = 0xFF55;
/// Packet length, main header.
pub const PLM: u16 = 0xFF57;
/// Packet length, tile-part header.
pub const PLT: u16 = 0xFF58;
/// Quantization default.
pub const QCD: u16 = 0xFF5C;
/// Quantization component.
pub const QCC: u16 = 0xFF5D;
/// Region of interest.
pub const RGN: u16 = 0xFF5E;
/// Progression order change.
pub const POC: u16 = 0xFF5F;
/// Packed packet headers, main header.
pub const PPM: u16 = 0xFF60;
/// Packed packet headers, tile-part header.
pub const PPT: u16 = 0xFF61;
/// Component registration.
pub const CRG: u16 = 0xFF63;
/// Comment.
pub const COM: u16 = 0xFF64;
/// Start of tile-part.
pub const SOT: u16 = 0xFF90;
/// Start of packet.
pub const SOP: u16 = 0xFF91;
/// End of packet header.
pub const EPH: u16 = 0xFF92;
/// Start of data.
pub const SOD: u16 = 0xFF93;
/// End of codestream.
pub const EOC: u16 = 0xFFD9;

/// Whether the meaning of this marker is left out.
pub(crate) fn is_left_out(marker: u16) -> bool
    ensures { result ≡ is_left_out marker }
{
    matches!(marker, PLM | RGN | POC | PPM | PPT)
}

/// Whether this marker is one of the table's; all others belong to other standards.
pub(crate) fn is_listed(marker: u16) -> bool
    ensures { result ≡ is_listed marker }
{
    matches!(
        marker,
        SOC | SIZ
            | COD
            | COC
            | TLM
            | PLM
            | PLT
            | QCD
            | QCC
            | RGN
            | POC
            | PPM
            | PPT
            | CRG
            | COM
            | SOT
            | SOP
            | EPH
            | SOD
            | EOC
    )
}

/// Whether this marker stands alone, without a length (T.800 A.1.1).
pub(crate) fn is_alone(marker: u16) -> bool
    ensures { result ≡ is_alone marker }
{
    (0xFF30..=0xFF3F).contains(&marker)
}
