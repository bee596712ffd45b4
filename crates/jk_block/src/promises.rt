//! What holds of blocks as they are written. None of these functions does anything at run time.

ghost use Rattle.std.specs.Prelude.{◌≡◌, ℕ, ℤ, List, Ok, ◌+◌, ◌-◌, ◌*◌, ◌≤◌, ◌<◌, length, take, unsigned_abs};
ghost use Rattle.std.specs.Int.{is_negative};
ghost use Rattle.jk_scan.specs.declared.shape.BlockShape.{BlockShape as Shape};
ghost use Rattle.jk_block.specs.Meaning.{IsBlockMeaning, truncated, with_sign, above, value_in};
ghost use Rattle.jk_block.specs.Reading.{block_at};
ghost use Rattle.jk_block.specs.BlockWritten.{coded, pass_count};
ghost use Rattle.jk_block.specs.Layers.{passes_upto, bytes_upto};

/// What is written of a block means the block, and is read as it.
pub fn written_is_read()
    ensures means { (s : Shape) (values : List ℤ)
        → IsBlockMeaning s (coded s values).planes (coded s values).passes (coded s values).bytes (value_in s values) }
    ensures read { (s : Shape) (values : List ℤ) → length values ≡ s.width * s.height
        → block_at s (coded s values).planes (coded s values).passes (coded s values).bytes ≡ Ok values }
{}

/// The passes up to a layer: no fewer than up to the layer before, and all up to the last layer.
pub fn layers_have_passes()
    ensures rises { (layers planes l m : ℕ) → l ≤ m → passes_upto layers planes l ≤ passes_upto layers planes m }
    ensures few { (layers planes l : ℕ) → passes_upto layers planes l ≤ pass_count planes }
    ensures whole { (layers planes : ℕ) → passes_upto layers planes (layers - 1) ≡ pass_count planes }
{}

/// The bytes up to a layer mean what the passes up to it code of the block, which are the bits in
/// the planes from `layers - 1 - l` on. They are no fewer than up to the layer before, and all up
/// to the last layer.
pub fn layers_have_bytes()
    ensures means { (s : Shape) (values : List ℤ) (layers l : ℕ) → l < layers
        → IsBlockMeaning s (coded s values).planes (passes_upto layers (coded s values).planes l)
        (take (bytes_upto layers (coded s values) l) (coded s values).bytes)
        (truncated s (coded s values).planes (passes_upto layers (coded s values).planes l) (value_in s values)) }
    ensures lower { (s : Shape) (values : List ℤ) (layers l x y : ℕ)
        → truncated s (coded s values).planes (passes_upto layers (coded s values).planes l) (value_in s values) x y
        ≡ with_sign (is_negative (value_in s values x y))
        (above (layers - 1 - l) (unsigned_abs (value_in s values x y))) }
    ensures rises { (s : Shape) (values : List ℤ) (layers l m : ℕ) → l ≤ m → m < layers
        → bytes_upto layers (coded s values) l ≤ bytes_upto layers (coded s values) m }
    ensures whole { (s : Shape) (values : List ℤ) (layers : ℕ) → 1 ≤ layers
        → bytes_upto layers (coded s values) (layers - 1) ≡ length (coded s values).bytes }
{}
