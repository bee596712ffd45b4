//! A port on which connections come: each with limits in time and a log of its requests, as a
//! source from which a server takes them.
#![tactic(auto)]

mod hosts;
mod lingering;
mod link;
mod log;
mod pace;
mod port;
mod record;
mod refused_row;

pub use hosts::{HostGate, HostNames};
pub use log::{Kept, Log};
pub use pace::Pace;
pub use port::{Arriving, Port, bind};
pub use record::Record;
