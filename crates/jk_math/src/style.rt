//! Styles of code-blocks.

ghost use Rattle.std.specs.Prelude.{◌≡◌};
ghost use Rattle.jk_math.specs.Styles.{plain_style};

/// What is coded otherwise in the code-blocks of a tile-component (T.800 table A.19).
#[derive(Clone, Copy, Debug, PartialEq, Eq)]
pub struct Style {
    /// Whether the contexts take their first states again before each coding pass.
    pub reset: bool,
    /// Whether a stripe is coded as if nothing below it were significant (T.800 D.7).
    pub causal: bool,
    /// Whether four known symbols end each cleanup pass (T.800 D.5).
    pub segments: bool,
}

impl Style {
    /// Nothing is coded otherwise.
    pub fn plain() -> Style
        ensures { result ≡ plain_style }
    {
        Style {
            reset: false,
            causal: false,
            segments: false,
        }
    }
}
