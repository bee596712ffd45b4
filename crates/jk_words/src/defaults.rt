//! The defaults of the options, as text.

use jk_options::{EncodeOptions, order_name};
use std::alloc::{AllocError, Global};

/// The options of an encoding that stand where none is given, as text.
#[derive(Drop)]
pub struct Defaults {
    pub(crate) levels: String,
    pub(crate) layers: String,
    pub(crate) order: &'static str,
    pub(crate) block_x: String,
    pub(crate) block_y: String,
    pub(crate) x0: String,
    pub(crate) y0: String,
}

impl Defaults {
    /// The defaults.
    pub fn new(alloc: Global) -> Result<Defaults, AllocError> {
        let options = EncodeOptions::new(alloc);
        Ok(Defaults {
            levels: options.levels.to_string(alloc)?,
            layers: options.layers().to_string(alloc)?,
            order: order_name(options.order()),
            block_x: options.block_x.to_string(alloc)?,
            block_y: options.block_y.to_string(alloc)?,
            x0: options.x0.to_string(alloc)?,
            y0: options.y0.to_string(alloc)?,
        })
    }
}
