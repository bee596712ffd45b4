//! The main header.

ghost use Rattle.std.specs.Prelude.{◌≡◌, ◌≤◌, List, length, IfOk, Ok};
ghost use Rattle.jk_marks.specs.Codestream.{main_of, main_with, main_text, IsMain, BeginsMain};
ghost use Rattle.jk_marks.specs.Segments.{Segment};
ghost use Rattle.jk_marks.specs.declared.siz.Siz.{Siz};
ghost use Rattle.jk_marks.specs.Siz.{IsSiz};
ghost use Rattle.jk_marks.specs.HeaderReading.{main_at, main_from};

use crate::cursor::Cursor;
use crate::head::{Heading, TileHead, read_segments};
use crate::marker;
use crate::segments::{Cod, CodingStyle, Quantisation};
use crate::siz::Siz;
use crate::siz_segment::read_siz;
use jk_math::Fault;

/// The main header of a codestream (T.800 A.3).
#[derive(Debug, Drop)]
pub struct Main {
    pub siz: Siz,
    pub cod: Cod,
    pub qcd: Quantisation,
    /// The coding style of the components that have their own.
    pub coc: [Option<CodingStyle>; 4],
    /// The quantization of the components that have their own.
    pub qcc: [Option<Quantisation>; 4],
}

/// The main header of what SIZ and the other segments say; COD and QCD must be among them.
#[tactic(auto, unfolding(crate::specs::HeaderReading::main_from))]
fn main_from(siz: Siz, head: TileHead) -> Result<Main, Fault>
    ensures { result ≡ main_from siz head }
{
    let TileHead { cod, qcd, coc, qcc } = head;
    let Some(cod) = cod else {
        return Err(Fault::BadMarker);
    };
    let Some(qcd) = qcd else {
        return Err(Fault::BadMarker);
    };
    Ok(Main {
        siz,
        cod,
        qcd,
        coc,
        qcc,
    })
}

/// The main header that begins a codestream, and its length (T.800 A.3). SOT follows it.
///
/// Truncated: the bytes end before SOT. BadMarker: a marker that may not stand here or stands here
/// twice, or no COD or QCD. BadLength: a segment's length that its fields contradict. BadValue: a
/// field's value that T.800 doesn't allow. Unsupported: what T.800 allows and is left out here.
/// Limit: more samples, larger coordinates or more decomposition levels than are read.
pub fn read_main(bytes: &[u8]) -> Result<(Main, usize), Fault>
    ensures exact { result ≡ main_at bytes.now }
    // What is read is spelled so.
    ensures found { IfOk result
        (λ m. (siz : Siz) × (segments : List Segment) × IsMain siz segments × BeginsMain bytes.now siz segments
        × (m.0 ≡ main_of siz segments) × (m.1 ≡ length (main_text siz segments))) }
    // What is spelled so is read.
    ensures only { (siz : Siz) (segments : List Segment) → IsMain siz segments → BeginsMain bytes.now siz segments
        → result ≡ Ok (main_of siz segments, length (main_text siz segments)) }
    ensures within { IfOk result (λ m. m.1 ≤ length bytes.now) }
    ensures siz { IfOk result (λ m. IsSiz m.0.siz) }
{
    main_header(bytes)
}

#[tactic(auto, unfolding(crate::specs::HeaderReading::main_at))]
fn main_header(bytes: &[u8]) -> Result<(Main, usize), Fault>
    ensures { result ≡ main_at bytes.now }
{
    let mut cursor = Cursor::new(bytes, 0);
    if cursor.two_bytes()? != marker::SOC {
        return Err(Fault::BadMarker);
    }
    if cursor.two_bytes()? != marker::SIZ {
        return Err(Fault::BadMarker);
    }
    let siz = read_siz(&mut cursor)?;
    let head = read_segments(
        &mut cursor,
        Heading::MainHeader,
        siz.components,
        marker::SOT,
    )?;
    let main = main_from(siz, head)?;
    Ok((main, cursor.at() - 2))
}
