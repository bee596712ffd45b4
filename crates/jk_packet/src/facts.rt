//! Laws of packet headers: the contract of an empty function is the law.

ghost use Rattle.std.specs.Prelude.{◌≡◌, ℕ, ◌*◌, ◌<◌, Bool, List, length, map};
ghost use Rattle.std.specs.List.{AllByRecursion, flat_map, range_with_len};
ghost use Rattle.jk_packet.specs.declared.shape.BandShape.{BandShape};
ghost use Rattle.jk_packet.specs.PacketText.{Layer, Trees, band_shape, header_bits, IsLayer, IsHeaderText, parts_of};
ghost use Rattle.jk_packet.specs.Standing.{AreTrees, TellsLayers};
ghost use Rattle.jk_packet.specs.Gathering.{Gathers, IsOfBlock};
ghost use Rattle.jk_packet.specs.Written.{Table, band_tables, table_at, layer_in, layers_before, trees_in, bits_in};
ghost use Rattle.jk_packet.specs.Written.{header_in, bodies_text, bodies_in, bodies_of, HasBlock, AreTables};

/// The parts of a code-block over the layers that trees tell are its contributions, which repeat
/// the number of zero bit-planes and have no more coding passes than the block; and all parts are
/// of blocks that there are.
pub fn parts_are_contributions()
    ensures gathered { (shapes : List BandShape) (trees : Trees) (layers : List Layer) (bits : List (List Bool))
        → TellsLayers shapes trees layers bits → (i j : ℕ) → i < length shapes
        → j < (band_shape shapes i).across * (band_shape shapes i).down → Gathers shapes layers i j }
    ensures within { (shapes : List BandShape) (trees : Trees) (layers : List Layer) (said : Layer)
        → IsLayer shapes trees layers said → AllByRecursion (IsOfBlock shapes) (parts_of said) }
{}

/// A packet header takes a byte.
pub fn headers_have_a_byte()
    ensures { (sop eph : Bool) (shapes : List BandShape) (trees : Trees) (layers : List Layer) (said : Layer)
        (text : List ℕ)
        → IsHeaderText sop eph (header_bits shapes trees layers said) text → 0 < length text }
{}

/// The packets of tables: the trees that the tables give tell their layers by the headers' bits,
/// each header is a text of its bits, the bodies are those of the layers' parts, and what the
/// packets have of a code-block is all of its table.
pub fn tables_are_told()
    ensures told { (shapes : List BandShape) (layers : ℕ) (tables : List (List Table)) → AreTables shapes layers tables
        → AreTrees shapes (trees_in shapes tables)
        × TellsLayers shapes (trees_in shapes tables) (layers_before tables layers)
        (map (bits_in shapes tables) (range_with_len 0 layers)) }
    ensures headers { (shapes : List BandShape) (sop eph : Bool) (tables : List (List Table)) (layer number : ℕ)
        → IsHeaderText sop eph (bits_in shapes tables layer) (header_in shapes sop eph tables layer number) }
    ensures parts { (tables : List (List Table)) (layer : ℕ)
        → map (λ b. b.0) (bodies_in tables layer) ≡ parts_of (layer_in tables layer) }
    ensures lengths { (tables : List (List Table)) (layer : ℕ)
        → AllByRecursion (λ b. length b.1 ≡ b.0.length) (bodies_in tables layer) }
    ensures bodies { (shapes : List BandShape) (layers : ℕ) (tables : List (List Table)) (layer : ℕ)
        → AreTables shapes layers tables → layer < layers
        → flat_map (λ b. b.1) (bodies_in tables layer) ≡ bodies_text tables layer }
    ensures blocks { (shapes : List BandShape) (layers : ℕ) (tables : List (List Table)) (i j : ℕ)
        → AreTables shapes layers tables → i < length shapes
        → j < (band_shape shapes i).across * (band_shape shapes i).down
        → HasBlock (table_at (band_tables tables i) j)
        (bodies_of i j (flat_map (bodies_in tables) (range_with_len 0 layers))) }
{}
