//! The samples of a tile from its packets, and its packets from the samples: code-blocks,
//! sub-bands, the wavelet, the colour transform and the level shift (T.800 Annexes D to G). Each
//! direction is a wing, `decoding` and `encoding`; beside them stands what both need.
#![tactic(auto)]

mod bands;
mod decoding;
mod encoding;
mod samples;
mod workers;

pub use decoding::{
    BlockRow, BlockSegment, CodedComponent, CodedTile, DecodedBlocks, PacketChains, add_row_blocks,
    add_tile_blocks, block_exponent, decode_part_of, decode_segments, decode_segments_beside,
    decode_tile, decode_tile_of, judge_tile, packets_by_precinct, put, read_strip, strip_area,
    uncolour,
};
pub use encoding::{
    CodedBlocks, FallenComponent, FallenTile, FallingComponent, FallingTile, GivenRows, TextSink,
    TextWriter, TileOutline, UncodedBlocks, When, WrittenComponent, code_blocks,
    code_blocks_beside, exponents_with, packets_of, packets_size, pass_tile, put_values,
    raise_needs,
};
pub use samples::{all_to_samples, level_shift};
pub use workers::Workers;
