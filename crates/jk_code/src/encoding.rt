//! The main header of an image that is written.

ghost use Rattle.std.specs.Prelude.{◌≡◌};
ghost use Rattle.jk_math.specs.Picture.{Picture};
ghost use Rattle.jk_marks.specs.Codestream.{IsWritten};
ghost use Rattle.jk_code.specs.Written.{main_for};
ghost use Rattle.jk_code.specs.Contents.{HasPicture};

use crate::contents::WrittenFrame;
use jk_marks::{Main, Quantisation};
use jk_params::{cod_of, siz_for};

/// The main header of an image.
pub(crate) fn main_header(source: &WrittenFrame<'_>) -> Main
    requires some { (p : Picture) × HasPicture source.now p }
    ensures value { (p : Picture) → HasPicture source.now p → result ≡ main_for p source.now.parameters.now }
    ensures written { IsWritten result }
{
    Main {
        siz: siz_for(&source.frame, source.parameters),
        cod: cod_of(source.parameters),
        qcd: Quantisation {
            guard: 2,
            exponents: source.exponents.copy(),
        },
        coc: [None, None, None, None],
        qcc: [None, None, None, None],
    }
}
