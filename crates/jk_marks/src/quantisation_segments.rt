//! Reading QCD and QCC.

ghost use Rattle.std.specs.Prelude.{◌≡◌, ◌≤◌, ◌<◌, IfOk};
ghost use Rattle.jk_math.specs.Answer.{Reads};
ghost use Rattle.jk_marks.specs.Reading.{component_at, steps_at, qcd_at, qcc_at};

use crate::cursor::Cursor;
use crate::segments::{Exponents, Quantisation};
use jk_math::Fault;

/// The style, which is no quantization, the guard bits and the exponents of `count` sub-bands
/// (T.800 tables A.27 to A.29).
#[tactic(auto, unfolding(crate::specs::Reading::steps_at))]
fn read_steps(cursor: &mut Cursor<'_>, count: u16) -> Result<Quantisation, Fault>
    ensures { Reads (steps_at count) cursor.old cursor.new result }
{
    let style = cursor.byte()?;
    if style % 32 == 1 || style % 32 == 2 {
        return Err(Fault::Unsupported);
    }
    if style % 32 > 2 {
        return Err(Fault::BadValue);
    }
    let bytes = cursor.pass(count as usize)?;
    Ok(Quantisation {
        guard: style / 32,
        exponents: Exponents::of_bytes(bytes),
    })
}

/// QCD, from its length on (T.800 A.6.4).
#[tactic(auto, unfolding(crate::specs::Reading::qcd_at))]
pub(crate) fn read_qcd(cursor: &mut Cursor<'_>) -> Result<Quantisation, Fault>
    ensures { Reads qcd_at cursor.old cursor.new result }
{
    let size = cursor.enter()?;
    if size < 4 {
        return Err(Fault::BadLength);
    }
    read_steps(cursor, size - 3)
}

/// QCC, from its length on, and its component, which has none of `others` (T.800 A.6.5).
#[tactic(auto, unfolding(crate::specs::Reading::qcc_at, crate::specs::Reading::component_at))]
pub(crate) fn read_qcc(
    cursor: &mut Cursor<'_>,
    others: &[Option<Quantisation>; 4],
    components: u16,
) -> Result<(u8, Quantisation), Fault>
    requires { components ≤ 4 }
    ensures exact { Reads (qcc_at others.now components) cursor.old cursor.new result }
    ensures below { IfOk result (λ r. r.0 < components) }
{
    let size = cursor.enter()?;
    if size < 5 {
        return Err(Fault::BadLength);
    }
    let component = cursor.byte()?;
    if component as u16 >= components {
        return Err(Fault::BadValue);
    }
    if others[component as usize].is_some() {
        return Err(Fault::BadMarker);
    }
    let steps = read_steps(cursor, size - 4)?;
    Ok((component, steps))
}
