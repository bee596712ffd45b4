//! What follows the last reply of a connection.

use std::io::{self, ErrorKind, Read};
use std::net::{Shutdown, TcpStream};
use std::time::{Clock, Duration, Instant};

/// How long what follows the last reply is read, in milliseconds.
const LAST_WAIT: u64 = 1000;

/// How many reads are made of it at most.
const LAST_READS: u64 = 1 << 16;

/// Reads what follows the last reply, up to the client's end, for so long. A connection that is
/// closed with bytes unread is reset, and the client might lose the reply. An interrupted read is made
/// again.
pub(crate) fn read_out<R: Clock>(rt: &R, stream: &TcpStream) -> io::Result<()> {
    let mut rest = [0u8; 4096];
    let start = Instant::now(rt)?;
    let whole = Duration::from_millis(LAST_WAIT);
    stream.shutdown(Shutdown::Write)?;
    for _read in 0..LAST_READS {
        let left = whole.saturating_sub(start.elapsed(rt)?);
        if left.is_zero() {
            break;
        }
        stream.set_read_timeout(Some(left))?;
        match (&*stream).read(&mut rest) {
            Ok(0) => break,
            Ok(_) => {}
            Err(said) if said.kind() == ErrorKind::Interrupted => {}
            Err(said) => return Err(said),
        }
    }
    Ok(())
}
