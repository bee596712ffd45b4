//! Laws of windows: the contract of an empty function is the law.

ghost use Rattle.std.specs.Prelude.{◌≡◌, ◌+◌, ◌/◌, ◌%◌, ℕ, Bool, List, map};
ghost use Rattle.jk_math.specs.declared.rect.Rect.{Rect};
ghost use Rattle.jk_math.specs.declared.orientation.Orientation.{Orientation};
ghost use Rattle.jk_geom.specs.declared.shape.TileShape.{TileShape};
ghost use Rattle.jk_geom.specs.Rectangles.{IsWithin, across_offset, down_offset};
ghost use Rattle.jk_walk.specs.TilePackets.{Packet, IsTile};
ghost use Rattle.jk_window.specs.Needs.{IsNear, stretch, part_of_band};
ghost use Rattle.jk_window.specs.Emptied.{emptied_run, run_text, of_fronts};
ghost use Rattle.jk_window.specs.Indexing.{HaveIndexes};
ghost use Rattle.jk_window.specs.Again.{IsCodestreamAgain, IsCutAgain};

/// Within two places of a stretch, a place that is even both ways goes to a place of the stretch
/// below, and any other to a place of the part of its sub-band: so a stretch depends on nothing
/// else.
pub fn stretches_hold_what_is_near()
    ensures even { (u : Rect) (n x y : ℕ) → IsNear (stretch u n) x y → x % 2 ≡ 0 → y % 2 ≡ 0
        → IsWithin (stretch u (n + 1)) (x / 2) (y / 2) }
    ensures part { (u : Rect) (o : Orientation) (x y : ℕ) → IsNear u x y → x % 2 ≡ across_offset o
        → y % 2 ≡ down_offset o
        → IsWithin (part_of_band u o) (x / 2) (y / 2) }
{}

/// The packets of a tile are packets of the tile again, in the same runs, where each precinct keeps
/// those of its first layers and all others are emptied. The fronts say how many layers these are,
/// by component, resolution and number.
pub fn emptied_tiles_are_tiles()
    ensures { (s : TileShape) (sop eph : Bool) (packets : List Packet) (parts : List (List ℕ))
        (fronts : ℕ → ℕ → ℕ → ℕ) (tile : IsTile s sop eph packets parts)
        → IsTile s sop eph (emptied_run (of_fronts fronts) sop eph packets)
        (map (λ run. run_text (emptied_run (of_fronts fronts) sop eph run)) tile.runs) }
{}

/// A codestream in which each precinct keeps its first layers, and all other packets are empty, is
/// a codestream again: its headers say what they said, but for the places of the data, and its
/// tiles have their packets, of which those are empty. So it is with that of a window, which keeps
/// all layers of the precincts that it needs.
pub fn emptied_codestreams_are_codestreams()
    ensures fronts { IsCodestreamAgain }
    ensures window { IsCutAgain }
{}

/// A file whose codestream has headers, and packets for each tile, has an index: so what is said of
/// a file with its index is said of every such file.
pub fn what_can_be_read_has_an_index()
    ensures { HaveIndexes }
{}
