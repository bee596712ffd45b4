//! The order of the packets of a tile (T.800 B.12).
#![tactic(auto)]

mod count;
mod names;
mod number;
mod opening;
mod packets;
mod stream;
mod theorems;

pub use count::packet_count;
pub use jk_geom::PacketName;
pub use names::packet_names;
pub use number::Numbers;
pub use packets::Packets;
pub use theorems::{
    layers_in_turn, layers_stand_together, one_packet_order, packet_order, packets_are_counted,
    precincts_stand_together,
};
