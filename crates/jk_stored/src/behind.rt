//! A file from a place on.

use crate::stored::Stored;
use jk_math::Fault;

/// A stored file from a place on.
#[derive(Drop)]
pub(crate) struct Behind<S> {
    pub(crate) stored: S,
    pub(crate) start: usize,
}

impl<S: Stored> Stored for Behind<S> {
    ghost use Rattle.std.specs.Prelude.{◌≡◌, ℕ, List, drop};

    ghost keeps = { λ b c. (f : List ℕ) × S.keeps b.stored f × (c ≡ drop b.start f) };

    fn read_at(&self, start: usize, room: &mut [u8]) -> Result<usize, Fault> {
        let Some(place) = self.start.checked_add(start) else {
            return Err(Fault::Shelf);
        };
        let count = self.stored.read_at(place, room)?;
        Ok(count)
    }
}
