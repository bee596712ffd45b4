//! Laws of the definitions. None of these functions does anything at run time.

ghost use Rattle.std.specs.Prelude.{◌≡◌, ℕ, ℤ, List, Ok, true};
ghost use Rattle.jk_scan.specs.declared.shape.BlockShape.{BlockShape as Shape};
ghost use Rattle.jk_scan.specs.Neighbours.{Field, is_inside};
ghost use Rattle.jk_block.specs.Meaning.{IsBlockMeaning, values_of, value_in};
ghost use Rattle.jk_block.specs.Reading.{block_at};

/// What is read of a segment is what it means, and what it means is read.
pub fn read_is_meant()
    ensures found { (s : Shape) (planes passes : ℕ) (segment : List ℕ) (values : List ℤ)
        → block_at s planes passes segment ≡ Ok values → IsBlockMeaning s planes passes segment (value_in s values) }
    ensures only { (s : Shape) (planes passes : ℕ) (segment : List ℕ) (q : Field ℤ)
        → IsBlockMeaning s planes passes segment q → block_at s planes passes segment ≡ Ok (values_of s q) }
{}

/// A segment means at most one block.
pub fn one_meaning()
    ensures { (s : Shape) (planes passes : ℕ) (segment : List ℕ) (q r : Field ℤ)
        → IsBlockMeaning s planes passes segment q → IsBlockMeaning s planes passes segment r
        → (x y : ℕ) → is_inside s x y ≡ true → q x y ≡ r x y }
{}
