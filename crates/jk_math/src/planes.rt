//! The planes of an image.

ghost use Rattle.std.specs.Prelude.{◌≡◌, ◌<◌, [], length, slice_index_or, IsTrue, ◌↔◌};
ghost use Rattle.jk_math.specs.Lists.{lists_of};

use std::marker::Model;

/// A list of planes, each a list of samples row by row.
#[derive(Debug, Drop)]
pub struct Planes {
    planes: Vec<Vec<i32>>,
}

impl Model for Planes {
    ghost use Rattle.std.specs.Prelude.{List, ℤ};
    ghost use Rattle.jk_math.specs.Lists.{lists_of};

    ghost Value = { List (List ℤ) };

    ghost view = { λ p. lists_of p.planes.items };
}

impl Planes {
    /// These planes.
    pub fn new(planes: Vec<Vec<i32>>) -> Planes
        ensures { result ≡ lists_of planes.items }
    {
        Planes { planes }
    }

    /// How many planes there are.
    pub fn len(&self) -> usize
        ensures { result ≡ length self.now }
    {
        self.planes.len()
    }

    /// Whether there is no plane.
    pub fn is_empty(&self) -> bool
        ensures { IsTrue result ↔ (self.now ≡ []) }
    {
        self.planes.is_empty()
    }

    /// The samples of one plane, row by row.
    pub fn plane(&self, component: usize) -> &[i32]
        requires { component < length self.now }
        ensures { result.now ≡ slice_index_or self.now component [] }
    {
        &self.planes[component]
    }
}
