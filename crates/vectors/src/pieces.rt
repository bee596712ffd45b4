//! A reader that counts its reads.

use std::io;
use std::io::{ErrorKind, Read};

/// Gives bytes, at most so many a read. Behind the last one a read fails, or tells the end.
#[derive(Drop)]
pub struct Pieces {
    bytes: Vec<u8>,
    at: usize,
    most: usize,
    fails: bool,
    reads: u64,
}

impl Pieces {
    /// These bytes.
    pub fn new(bytes: Vec<u8>, most: usize, fails: bool) -> Pieces {
        Pieces {
            bytes,
            at: 0,
            most,
            fails,
            reads: 0,
        }
    }

    /// How many reads were made.
    pub fn reads(&self) -> u64 {
        self.reads
    }
}

impl Read for Pieces {
    fn read(&mut self, buf: &mut [u8]) -> io::Result<usize> {
        self.reads = self.reads.saturating_add(1);
        let left = self.bytes.len().saturating_sub(self.at);
        if left == 0 && self.fails {
            return Err(io::Error::from(ErrorKind::ConnectionReset));
        }
        let count = left.min(self.most).min(buf.len());
        for i in 0..count {
            if self.at < self.bytes.len() && i < buf.len() {
                buf[i] = self.bytes[self.at];
                self.at = self.at.saturating_add(1);
            }
        }
        Ok(count)
    }
}
