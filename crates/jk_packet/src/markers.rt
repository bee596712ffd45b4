//! The markers round a packet header (T.800 A.8).

ghost use Rattle.std.specs.Prelude.{◌≡◌, ◌≤◌, length, IfOk};
ghost use Rattle.jk_packet.specs.Reading.{sop_at, eph_at};

use jk_math::Fault;

/// How many bytes an SOP marker segment takes at the front, where one is allowed (T.800 A.8.1).
///
/// `Truncated` where it isn't whole, and `BadLength` where its length isn't 4. Its counter isn't
/// looked at.
#[tactic(auto, unfolding(crate::specs::Reading::sop_at))]
pub(crate) fn sop_length(allowed: bool, bytes: &[u8]) -> Result<usize, Fault>
    ensures exact { result ≡ sop_at allowed bytes.now }
    ensures within { IfOk result (λ n. n ≤ length bytes.now) }
{
    if !allowed || bytes.len() < 2 || bytes[0] != 0xFF || bytes[1] != 0x91 {
        return Ok(0);
    }
    if bytes.len() < 4 {
        return Err(Fault::Truncated);
    }
    if bytes[2] != 0x00 || bytes[3] != 0x04 {
        return Err(Fault::BadLength);
    }
    if bytes.len() < 6 {
        return Err(Fault::Truncated);
    }
    Ok(6)
}

/// How many bytes the EPH marker takes, where one is due (T.800 A.8.2).
///
/// `Truncated` where fewer than two bytes are left, and `PacketHeader` where they are others.
#[tactic(auto, unfolding(crate::specs::Reading::eph_at))]
pub(crate) fn eph_length(due: bool, bytes: &[u8]) -> Result<usize, Fault>
    ensures exact { result ≡ eph_at due bytes.now }
    ensures within { IfOk result (λ n. n ≤ length bytes.now) }
{
    if !due {
        return Ok(0);
    }
    if bytes.len() < 2 {
        return Err(Fault::Truncated);
    }
    if bytes[0] != 0xFF || bytes[1] != 0x92 {
        return Err(Fault::PacketHeader);
    }
    Ok(2)
}
