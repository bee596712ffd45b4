//! Where the data of tile-parts stand.

ghost use Rattle.std.specs.Prelude.{◌≡◌, ◌+◌, ◌<◌, ◌∷◌, ◌++◌, ℕ, List, length, Some, slice_get};
ghost use Rattle.std.specs.List.{flat_map};
ghost use Rattle.jk_marks.specs.Siz.{tile_count};
ghost use Rattle.jk_marks.specs.Codestream.{CodestreamPart, Tree, AreParts, main_text, part_text, data_start, part_length};
ghost use Rattle.jk_params.specs.Headers.{tile_in, headers_of};

/// The headers say where the data of a tile-part stand, by its tile and its number.
pub fn parts_are_placed()
    ensures { (tree : Tree) (at : ℕ) (front : List CodestreamPart) (p : CodestreamPart) (back : List CodestreamPart) → AreParts tree.siz tree.parts
        → tree.parts ≡ front ++ p ∷ back → p.tile < tile_count tree.siz
        → at ≡ length (main_text tree.siz tree.segments) + length (flat_map part_text front)
        → slice_get (tile_in (headers_of tree).tiles p.tile).data_places p.number
        ≡ Some (at + data_start p, at + part_length p) }
{}
