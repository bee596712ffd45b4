//! The numbers of packets, against their places in the list of all of them.

ghost use Rattle.jk_geom.specs.TileShapes.{IsTileShape};

use crate::order::random::{Random, any_tile};
use jk_geom::TileShape;
use jk_order::{Numbers, packet_count, packet_names};
use std::alloc::Global;
use std::test::Fail;

/// The seed of the tiles.
const SEED: u64 = 20_261_127;

/// How many packets of a tile have their place for a number, and how many there are.
fn numbered(alloc: Global, shape: &TileShape) -> Result<(usize, usize), Fail>
    requires { IsTileShape shape.now }
{
    if packet_count(shape) > 1 << 24 {
        return Err("too many packets".into());
    }
    let names = packet_names(alloc, shape)?;
    let numbers = Numbers::new(shape);
    let mut right: usize = 0;
    let mut place: usize = 0;
    for name in &names {
        if numbers.number_of(*name) as usize == place {
            right = right.wrapping_add(1);
        }
        place = place.wrapping_add(1);
    }
    Ok((right, names.len()))
}

#[test]
fn numbers_of_random_tiles(rt: HostRuntime) -> Result<(), Fail> {
    let mut random = Random::new(SEED);
    let mut packets: usize = 0;
    for _tile in 0..500 {
        let shape = any_tile(&mut random);
        let (right, all) = numbered(rt.alloc(), &shape)?;
        assert_eq!(rt; right, all, "{shape:?}");
        packets = packets.wrapping_add(all);
    }
    assert!(rt; packets > 50_000);
    Ok(())
}
