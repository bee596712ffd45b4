//! A connection of very many requests.

use crate::asserts::{equal, equal_at};
use crate::serving::Echo;
use jk_web::{End, serve_connection};
use std::io;
use std::io::{Read, Write};
use vectors::kilobytes;

/// A request of 100 bytes.
static REQUEST: &[u8] =
    b"GET /a HTTP/1.1\r\nAccept: x0123456789012345678901234567890123456789012345678901234567890123456789\r\n\r\n";

/// Gives requests, as many bytes at a time as there is room for, and then the end.
#[derive(Drop)]
struct Asking {
    left: usize,
    at: usize,
    reads: u64,
}

impl Read for Asking {
    fn read(&mut self, buf: &mut [u8]) -> io::Result<usize> {
        self.reads = self.reads.saturating_add(1);
        let count = buf.len().min(4000).min(self.left);
        for i in 0..count {
            if i < buf.len() {
                buf[i] = REQUEST.get(self.at).copied().unwrap_or(0);
            }
            self.at = if self.at < 99 { self.at + 1 } else { 0 };
        }
        self.left = self.left.saturating_sub(count);
        Ok(count)
    }
}

/// Counts bytes, and keeps none.
#[derive(Drop)]
struct Counting {
    bytes: u64,
}

impl Write for Counting {
    fn write(&mut self, buf: &[u8]) -> io::Result<usize> {
        self.bytes = self.bytes.saturating_add(buf.len() as u64);
        Ok(buf.len())
    }

    fn flush(&mut self) -> io::Result<()> {
        Ok(())
    }
}

/// Nothing of the 50,000 requests, 5,000,000 bytes, is kept behind its reply, and as much is read at
/// a time as comes.
#[test]
fn little_is_kept(rt: HostRuntime) {
    let before = kilobytes(&rt, rt.alloc(), "VmSize:").expect(&rt, "before");
    let mut reader = Asking {
        left: 5_000_000,
        at: 0,
        reads: 0,
    };
    let mut writer = Counting { bytes: 0 };
    let end = serve_connection(
        rt.alloc(),
        &mut reader,
        &mut writer,
        &mut Echo {},
        1_000_000,
    );
    let after = kilobytes(&rt, rt.alloc(), "VmPeak:").expect(&rt, "after");
    equal(&rt, "an end", end, Ok(End::Closed));
    equal(&rt, "bytes", (REQUEST.len(), writer.bytes), (100, 350_000));
    let little = after < before.saturating_add(1024);
    equal_at(&rt, "kilobytes", (before, after), little, true);
    let few = reader.reads <= 5_000_000 / 1000;
    equal_at(&rt, "reads", reader.reads, few, true);
}
