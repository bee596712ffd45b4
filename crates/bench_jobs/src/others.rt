//! Files as other encoders write them, with one layer or many and precincts of 128 by 128: windows
//! of them planned and cut, and the files read at a reduction.

use crate::calls::{Asked, decoded, encoded, plain, view_in, window_of};
use crate::chance::Chance;
use crate::digest::Digest;
use crate::drawing::{Size, grey, photograph};
use crate::scale::Scale;
use jk_commands::EncodeOptions;
use jk_marks::Order;
use jk_math::Fault;
use jk_window::{Index, View, cut, index, plan};
use std::alloc::Global;

/// One layer in an order, in precincts of 128 by 128 at each resolution.
fn in_order(alloc: Global, order: Order) -> Result<EncodeOptions, Fault> {
    let mut options = plain(alloc);
    options.layers = Some(1);
    options.order = Some(order);
    options.precincts = String::from_str(alloc, "777777777777")?;
    Ok(options)
}

/// One layer in tiles of 256 by 256.
fn in_tiles(alloc: Global) -> Result<EncodeOptions, Fault> {
    let mut options = in_order(alloc, Order::Rpcl)?;
    options.tile_width = Some(256);
    options.tile_height = Some(256);
    Ok(options)
}

/// So many layers, one after another.
fn in_layers(alloc: Global, layers: u32) -> Result<EncodeOptions, Fault> {
    let mut options = in_order(alloc, Order::Lrcp)?;
    options.layers = Some(layers);
    Ok(options)
}

/// A window is planned; it is cut too, and decoded out of what was cut, where that is asked for.
fn window(
    alloc: Global,
    digest: &mut Digest,
    index: &Index,
    file: &[u8],
    view: View,
    is_cut: bool,
) -> Result<(), Fault> {
    let planned = plan(alloc, index, view)?;
    digest.take(planned.written());
    digest.take(&planned.length().to_be_bytes());
    if is_cut {
        let window = cut(alloc, index, file, view)?;
        digest.take(&window);
        digest.take_image(&window_of(alloc, &window, view)?);
    }
    Ok(())
}

/// A file is written and indexed. Windows of it are planned, and one in two hundred of them is cut, if
/// it wasn't before. At last the whole is decoded at a reduction.
fn turn(
    alloc: Global,
    digest: &mut Digest,
    drawn: Vec<u8>,
    options: EncodeOptions,
    (size, windows): (Size, u32),
    mut chance: Chance,
) -> Result<(), Fault> {
    let file = encoded(alloc, drawn, options)?;
    digest.take(&file);
    let index = index(alloc, &file)?;
    let mut asked = Asked::new(alloc);
    for number in 0..windows {
        let side = 32 << (number & 3);
        let view = view_in(&mut chance, size, number % 4, side, None);
        let is_cut = number % 200 == 0 && asked.first(0, view)?;
        window(alloc, digest, &index, &file, view, is_cut)?;
    }
    digest.take(&decoded(alloc, &file, 2)?);
    Ok(())
}

/// Photographs in colour in three orders and in tiles, and one in shades of grey in twenty layers.
pub(crate) fn others(alloc: Global, seed: u64, scale: Scale) -> Result<Digest, Fault> {
    let mut digest = Digest::new();
    let size = scale.size(1024, 1024);
    let asked = (size, scale.count(4000));
    let drawn = photograph(alloc, seed, size)?;
    let orders = [Order::Rpcl, Order::Pcrl, Order::Lrcp];
    for (number, order) in orders.iter().enumerate() {
        let chance = Chance::new(seed, number as u64 | 32);
        let options = in_order(alloc, *order)?;
        turn(alloc, &mut digest, drawn.clone()?, options, asked, chance)?;
    }
    let chance = Chance::new(seed, 36);
    turn(alloc, &mut digest, drawn, in_tiles(alloc)?, asked, chance)?;
    let chance = Chance::new(seed, 37);
    turn(
        alloc,
        &mut digest,
        grey(alloc, seed, size)?,
        in_layers(alloc, 20)?,
        (size, scale.count(1000)),
        chance,
    )?;
    Ok(digest)
}
