//! How long a connection may take.

ghost use Rattle.std.specs.Prelude.{◌≡◌, ◌<◌, ◌+◌, ◌-◌, ◌*◌, ◌/◌, ◌^◌, min, false};

/// How often the longest wait goes into the time that a request may take to come whole, and a reply
/// to be sent.
const WAITS: u64 = 6;

/// For so many bytes of a reply that were sent, it may take a millisecond longer.
const BYTES: u64 = 16;

/// How long reads and writes on a connection may wait. Times are in milliseconds, and the time is
/// counted from the taking of the connection.
#[derive(Clone, Copy, Debug)]
pub struct Pace {
    // How long one read or write may wait.
    wait: u64,
    // When the request that is being read, or the reply that is being sent, takes too long.
    until: u64,
    // Whether a reply is being sent.
    is_sending: bool,
    ghost short: { wait < 2 ^ 32 },
}

impl Pace {
    /// That of a connection whose first request is due.
    pub fn new(wait: u64) -> Pace
        requires { wait < 2 ^ 32 }
        ensures wait { result.wait ≡ wait }
        ensures until { result.until ≡ 6 * wait }
        ensures reading { result.is_sending ≡ false }
    {
        Pace {
            wait,
            until: wait * WAITS,
            is_sending: false,
        }
    }

    /// How long a read or a write may wait that begins now; 0 where the request or the reply takes
    /// too long. The first read behind a reply begins a request, the first write behind that a
    /// reply.
    pub fn wait_for(&mut self, now: u64, is_write: bool) -> u64
        ensures same { is_write ≡ self.old.is_sending → self.new.until ≡ self.old.until }
        ensures next { (is_write ≡ self.old.is_sending → ⊥)
            → self.new.until ≡ min (now + 6 * self.old.wait) (2 ^ 64 - 1) }
        ensures due { result ≡ min self.old.wait (self.new.until - now) }
        ensures sending { self.new.is_sending ≡ is_write }
        ensures wait { self.new.wait ≡ self.old.wait }
    {
        if is_write != self.is_sending {
            self.until = now.saturating_add(self.wait * WAITS);
            self.is_sending = is_write;
        }
        self.wait.min(self.until.saturating_sub(now))
    }

    /// So many bytes of a reply were sent: it may take longer.
    pub fn sent(&mut self, count: u64)
        ensures until { self.new.until ≡ min (self.old.until + count / 16) (2 ^ 64 - 1) }
        ensures sending { self.new.is_sending ≡ self.old.is_sending }
        ensures wait { self.new.wait ≡ self.old.wait }
    {
        self.until = self.until.saturating_add(count / BYTES);
    }
}
