//! Laws of the transform's formulas. Each is the contract of a function that does nothing.

ghost use Rattle.jk_lift.specs.Laws.{UndoesLine, UndoesPlane, UndoesLineOfSamples, UndoesRows, IsLocalLine};
ghost use Rattle.jk_lift.specs.Laws.{IsLocalPlane, GrowsLine, GrowsPlane, BoundsPlane, BoundsTenLevels};
ghost use Rattle.jk_lift.specs.Pieces.{IsPieceOfLine, IsPieceOfPlane};

/// Inverse lifting undoes forward lifting at each place of a line.
pub fn line_undone()
    ensures { UndoesLine }
{}

/// One level backwards undoes one level forwards at each place of a plane.
pub fn plane_undone()
    ensures { UndoesPlane }
{}

/// What [`synthesise_line`](crate::synthesise_line) makes of the parts that
/// [`analyse_line`](crate::analyse_line) gave is the line.
pub fn samples_undone()
    ensures { UndoesLineOfSamples }
{}

/// What [`synthesise_rows`](crate::synthesise_rows) makes of what
/// [`analyse_rows`](crate::analyse_rows) left is the rows.
pub fn rows_undone()
    ensures { UndoesRows }
{}

/// A sample of a line depends on the coefficients at most two places away.
pub fn line_local()
    ensures { IsLocalLine }
{}

/// A sample of a plane depends on the coefficients at most two places away in each direction.
pub fn plane_local()
    ensures { IsLocalPlane }
{}

/// How much one line adds, forwards.
pub fn line_growth()
    ensures { GrowsLine }
{}

/// How much one level adds, forwards.
pub fn plane_growth()
    ensures { GrowsPlane }
{}

/// How much one level adds, backwards.
pub fn plane_bound()
    ensures { BoundsPlane }
{}

/// Ten levels backwards stay within the condition of the calls on lines and rows.
pub fn ten_levels_bound()
    ensures { BoundsTenLevels }
{}

/// A piece of a line that is lifted by itself has the line's samples but at its ends.
pub fn line_piece()
    ensures { IsPieceOfLine }
{}

/// What is near a rectangle of a plane, lifted by itself, has the plane's samples in the rectangle.
pub fn plane_piece()
    ensures { IsPieceOfPlane }
{}
