//! Files whose images are encoded by threads, to be added to an archive one after another.

use crate::adding::encoded;
use jk_beside::Extras;
use jk_commands::{Plan, read_image};
use jk_math::Fault;
use jk_store::Encoded;
use std::alloc::Global;
use std::sync::Arc;
use std::thread;
use std::thread::{JoinHandle, Threads};

/// A PGM or PPM file, and how its image is added.
#[derive(Drop)]
pub(crate) struct Scan {
    /// The name of the image.
    pub(crate) name: String,
    pub(crate) bytes: Vec<u8>,
    pub(crate) plan: Plan,
    /// What its file is to keep, if anything.
    pub(crate) kept: Option<Arc<Extras>>,
}

/// What a file is to keep, if anything.
fn kept_of(kept: &Option<Arc<Extras>>) -> Option<&Extras> {
    match kept {
        Some(extras) => Some(&**extras),
        None => None,
    }
}

impl Scan {
    /// Its image, encoded. What it is refused for is told when it is stored.
    fn encode(self, alloc: Global) -> Result<Encoded, Fault> {
        let Scan {
            name,
            bytes,
            plan,
            kept,
        } = self;
        match read_image(alloc, bytes) {
            Ok(image) => encoded(alloc, name.as_str(), image, plan, kept_of(&kept)),
            Err(fault) => Encoded::refused(alloc, name.as_str(), fault),
        }
    }
}

/// An image that is to be stored: encoded by a thread, or at hand.
#[derive(Drop)]
pub(crate) enum Coming {
    Later(JoinHandle<Result<Encoded, Fault>>),
    Now(Result<Encoded, Fault>),
}

impl Coming {
    /// Begins to encode in a thread, or encodes at once where none can be started.
    pub(crate) fn begin<R: Threads>(rt: &R, alloc: Global, scan: Scan) -> Coming {
        match thread::spawn(rt, move || scan.encode(alloc)) {
            Ok(handle) => Coming::Later(handle),
            Err(refused) => {
                let encode = refused.value;
                Coming::Now(encode())
            }
        }
    }

    /// Waits until it is at hand.
    pub(crate) fn get<R: Threads>(self, rt: &R) -> Result<Encoded, Fault> {
        match self {
            Coming::Later(handle) => handle.join(rt),
            Coming::Now(encoded) => encoded,
        }
    }
}
