//! A file that is read by places.

ghost use Rattle.std.specs.Prelude.{◌≡◌, ◌≤◌, ℕ, List, length, take, drop, IfOk};

use jk_math::Fault;

/// A file that is read by places.
pub trait Stored {
    /// Its bytes are these, and stay so.
    ghost keeps: { Self → List ℕ → Type 0 };

    /// Fills room with bytes from a place on, as far as the file has them, and answers how many
    /// these are.
    ///
    /// Shelf: they can't be read.
    fn read_at(&self, start: usize, room: &mut [u8]) -> Result<usize, Fault>
        ensures most { IfOk result (λ n. n ≤ length room.old) }
        ensures same { (f : List ℕ) → keeps self.now f
            → IfOk result (λ n. take n room.new ≡ take n (drop start f)) };
}
