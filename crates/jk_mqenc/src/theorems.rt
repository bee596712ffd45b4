//! What holds of the definitions. This function does nothing at run time.

ghost use Rattle.std.specs.Prelude.{◌≤◌, Bool, List, ◌++◌};
ghost use Rattle.jk_model.specs.Decisions.{Decision};
ghost use Rattle.jk_mqenc.specs.Encoded.{written_by};

/// What is placed stays placed.
pub fn written_grows()
    ensures { (reset : Bool) (dss rest : List (List Decision))
        → written_by reset dss ≤ written_by reset (dss ++ rest) }
{}
