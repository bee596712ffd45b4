//! Laws of the definitions. None of these functions does anything at run time.

ghost use Rattle.std.specs.Prelude.{◌≡◌, ℕ, Bool, not, nat_eq};
ghost use Rattle.jk_math.specs.declared.orientation.Orientation.{Orientation as Band};
ghost use Rattle.jk_scan.specs.Neighbours.{Field, touched, zero_at};

/// The context of a place that isn't significant is 0 exactly where none of its eight neighbours is
/// significant (T.800 D.3.1 and D.3.4 ask by the context).
pub fn untouched_context()
    ensures { (orientation : Band) (f : Field Bool) (x y : ℕ)
        → nat_eq (zero_at orientation f x y) 0 ≡ not (touched f x y) }
{}
