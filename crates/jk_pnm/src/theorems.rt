//! Laws.

ghost use Rattle.std.specs.Prelude.{◌≡◌, ◌-◌, ◌*◌, ◌≤◌, ◌++◌, List, ℕ, Ok, Err, take, drop};
ghost use Rattle.jk_math.specs.declared.fault.Fault.{Fault};
ghost use Rattle.jk_math.specs.Picture.{Picture};
ghost use Rattle.jk_pnm.specs.declared.header.Header.{Header};
ghost use Rattle.jk_pnm.specs.Heads.{row_bytes, with_rows};
ghost use Rattle.jk_pnm.specs.Pnm.{IsPnm};
ghost use Rattle.jk_pnm.specs.RasterRows.{Drawing, drawn, picture_told, rows_moved, rows_told};
ghost use Rattle.jk_pnm.specs.Reading.{header_at, picture_at};

/// A file has at most one picture.
pub fn one_picture()
    ensures { (bytes : List ℕ) (p q : Picture) → IsPnm bytes p → IsPnm bytes q → p ≡ q }
{}

/// A head that is whole in the beginning of a file is that of the file.
pub fn heads_are_read_forward()
    ensures { (front more : List ℕ) (x : Header × List ℕ) → header_at front ≡ Ok x
        → header_at (front ++ more) ≡ Ok (x.0, x.1 ++ more) }
{}

/// Rows of a raster are what their own bytes say.
pub fn rows_have_their_bytes()
    ensures bytes { (d : Drawing) (y z : ℕ) → y ≤ z → z ≤ d.header.height
        → picture_at (with_rows d.header (z - y))
        (take ((z - y) * row_bytes d.header) (drop (y * row_bytes d.header) d.raster)) ≡ rows_told d y z }
    ensures rows { (d : Drawing) (y z : ℕ) (p : Picture) → rows_told d y z ≡ Ok p → p ≡ rows_moved (drawn d) y z }
    // Where they are refused, what is drawn has a sample above maxval.
    ensures refused { (d : Drawing) (y z : ℕ) (e : Fault) → rows_told d y z ≡ Err e → picture_told d ≡ Err e }
{}
