//! What follows from the definitions alone.

ghost use Rattle.jk_extras.specs.Given.{IsKeptByCuts, IsToldAgain, OthersAreRead, WrittenIsRead};
ghost use Rattle.jk_extras.specs.Taken.{TextIsRead};

/// What is told of a file with extras is what was given, and where nothing was, what the file told
/// before.
pub fn what_is_written_is_read()
    ensures { WrittenIsRead }
{}

/// A file that was told without a fault is told so with extras.
pub fn is_told_again()
    ensures { IsToldAgain }
{}

/// Boxes of XML and under UUIDs that were given to a file are told of it, in their order.
pub fn others_are_read()
    ensures { OthersAreRead }
{}

/// What `extras_text` spells of a JP2 file `read_extras` reads: the colour and the resolutions that
/// are told of the file, and its boxes of XML and under UUIDs in their order. Where it tells another
/// enumerated colour than sRGB and greyscale, that is BadParameters.
pub fn a_text_is_read()
    ensures { TextIsRead }
{}

/// A file whose codestream is replaced, as by a cut, is told as before.
pub fn a_cut_keeps_extras()
    ensures { IsKeptByCuts }
{}
