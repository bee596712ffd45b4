//! Laws of the order of packets: the contract of an empty function is the law.

ghost use Rattle.std.specs.Prelude.{◌≡◌, ℕ, ◌+◌, ◌^◌, ◌<◌, ◌≤◌, true, false, List, Some, filter, length, slice_get};
ghost use Rattle.jk_geom.specs.declared.shape.TileShape.{TileShape};
ghost use Rattle.jk_geom.specs.declared.shape.PacketName.{PacketName};
ghost use Rattle.jk_geom.specs.Precincts.{precinct_number};
ghost use Rattle.jk_geom.specs.TileShapes.{IsTileShape, coding_of};
ghost use Rattle.jk_order.specs.PacketOrder.{IsName, IsPacketOrder, IsPrecinct, is_of, layer_names};
ghost use Rattle.jk_order.specs.PacketOrder.{order, packet_count};
ghost use Rattle.jk_order.specs.Streams.{is_inside};

/// `order` is a list of all packets of a tile in their order.
pub fn packet_order()
    ensures { (s : TileShape) → IsPacketOrder s (order s) }
{}

/// There is one such list.
#[tactic(auto, using(crate::proofs::OrderLaws::order_one))]
pub fn one_packet_order()
    ensures { (s : TileShape) (xs ys : List PacketName) → IsPacketOrder s xs → IsPacketOrder s ys → xs ≡ ys }
{}

/// The packets of a precinct come layer by layer, from layer 0 on.
pub fn layers_in_turn()
    ensures { (s : TileShape) (names : List PacketName) (c r k : ℕ) → IsPacketOrder s names → IsPrecinct s c r k
        → filter (is_of c r k) names ≡ layer_names c r k s.layers }
{}

/// A tile has as many packets as the formula says.
pub fn packets_are_counted()
    ensures { (s : TileShape) (names : List PacketName) → IsPacketOrder s names → length names ≡ packet_count s }
{}

/// Where the layers come inside, those of a precinct stand one after another.
pub fn layers_stand_together()
    ensures { (s : TileShape) (n : PacketName) (i m : ℕ) → IsTileShape s → packet_count s ≤ 2 ^ 24
        → is_inside s.order ≡ true → IsName s n → n.layer + m < s.layers → slice_get (order s) i ≡ Some n
        → slice_get (order s) (i + m) ≡ Some (record n { layer = n.layer + m }) }
{}

/// Where the layers come outside, the precincts of a layer of a resolution of a component stand one
/// after another.
pub fn precincts_stand_together()
    ensures { (s : TileShape) (n : PacketName) (i m : ℕ) → IsTileShape s → packet_count s ≤ 2 ^ 24
        → is_inside s.order ≡ false → IsName s n
        → n.precinct + m < precinct_number s.rect (coding_of s.codings n.component) n.resolution
        → slice_get (order s) i ≡ Some n
        → slice_get (order s) (i + m) ≡ Some (record n { precinct = n.precinct + m }) }
{}
