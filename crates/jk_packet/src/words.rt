//! The words of a code-block's piece (T.800 B.10.6, B.10.7).

ghost use Rattle.std.specs.Prelude.{◌≡◌, ℕ, ◌+◌, ◌-◌, ◌*◌, ◌^◌, ◌<◌, ◌≤◌, IfOk};
ghost use Rattle.jk_math.specs.Answer.{Reads};
ghost use Rattle.jk_packet.specs.Words.{floor_log2, most_passes};
ghost use Rattle.jk_packet.specs.Reading.{digit, number_at, passes_at, growth_at, piece_at};

use jk_bits::BitReader;
use jk_math::Fault;

/// What a packet adds to a code-block.
#[derive(Clone, Copy, Drop)]
pub(crate) struct Addition {
    pub(crate) passes: u8,
    pub(crate) growth: u8,
    pub(crate) length: u32,
}

/// How many bits a length field may have.
const WIDEST: u32 = 32;

/// A bit as a number.
fn digit(bit: bool) -> u32
    ensures { result ≡ digit bit }
{
    bit as u32
}

/// A number of `count` bits, the highest first.
fn read_number(reader: &mut BitReader<'_>, count: u32) -> Result<u32, Fault>
    requires { count ≤ 32 }
    ensures exact { Reads (number_at count 0) reader.old reader.new result }
    ensures fits { IfOk result (λ value. value < 2 ^ count) }
{
    let mut value: u32 = 0;
    for _ in 0..count {
        let bit = reader.bit()?;
        value = value * 2 + digit(bit);
    }
    Ok(value)
}

/// The number of coding passes, from 1 to 164 (Table B.4).
#[tactic(auto, unfolding(crate::specs::Reading::passes_at))]
fn read_pass_count(reader: &mut BitReader<'_>) -> Result<u8, Fault>
    ensures exact { Reads passes_at reader.old reader.new result }
    ensures some { IfOk result (λ passes. 1 ≤ passes) }
    ensures few { IfOk result (λ passes. passes ≤ 164) }
{
    let many = reader.bit()?;
    if !many {
        return Ok(1);
    }
    let more = reader.bit()?;
    if !more {
        return Ok(2);
    }
    let two_bits = read_number(reader, 2)?;
    if two_bits < 3 {
        return Ok(3 + two_bits as u8);
    }
    let five_bits = read_number(reader, 5)?;
    if five_bits < 31 {
        return Ok(6 + five_bits as u8);
    }
    let seven_bits = read_number(reader, 7)?;
    Ok(37 + seven_bits as u8)
}

/// By how much Lblock grows; it has `room` to grow by less.
///
/// `PacketHeader` where the length field would be wider than 32 bits, which is tested before each
/// bit.
fn read_growth(reader: &mut BitReader<'_>, room: u32) -> Result<u8, Fault>
    requires { room ≤ 33 }
    ensures exact { Reads (growth_at room 0) reader.old reader.new result }
    ensures within { IfOk result (λ growth. growth < room) }
{
    let mut growth: u8 = 0;
    while (growth as u32) < room {
        let grows = reader.bit()?;
        if !grows {
            return Ok(growth);
        }
        growth += 1;
    }
    Err(Fault::PacketHeader)
}

/// The logarithm of a number of passes, rounded down.
pub(crate) fn floor_log2(passes: u8) -> u32
    requires { 1 ≤ passes }
    ensures exact { result ≡ floor_log2 passes }
    ensures small { result < 32 }
{
    (passes as u32).ilog2()
}

/// The words of a piece, for a block of `planes` magnitude bit-planes, of which `zero_planes` are
/// zero, with `before` passes and an Lblock of `length_bits` from earlier packets.
#[tactic(auto, unfolding(crate::specs::Reading::piece_at))]
pub(crate) fn read_piece(
    reader: &mut BitReader<'_>,
    planes: u8,
    zero_planes: u8,
    before: u16,
    length_bits: u8,
) -> Result<Addition, Fault>
    ensures exact { Reads (piece_at (most_passes planes zero_planes) before length_bits) reader.old reader.new result }
    ensures passes { IfOk result (λ p. before + p.passes ≤ most_passes planes zero_planes) }
    ensures growth { IfOk result (λ p. length_bits + p.growth ≤ 32) }
{
    let passes = read_pass_count(reader)?;
    let most = (3 * planes.saturating_sub(zero_planes) as u32).saturating_sub(2);
    if before as u32 + passes as u32 > most {
        return Err(Fault::TooManyPasses);
    }
    let more = floor_log2(passes);
    let room = (WIDEST + 1).saturating_sub(length_bits as u32 + more);
    let growth = read_growth(reader, room)?;
    let length = read_number(reader, length_bits as u32 + growth as u32 + more)?;
    Ok(Addition {
        passes,
        growth,
        length,
    })
}
