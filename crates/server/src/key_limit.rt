//! The limit on replies to wrong keys, so that nobody finds a key by trying.
//!
//! After 20 wrong keys without a minute between two of them, replies to further ones are sent at most ten times a
//! second in all. Clients of a proxy have one address, so wrong keys of all clients are counted together. Right keys
//! are not limited.

ghost use Rattle.std.specs.Prelude.{◌≡◌};
ghost use Rattle.http_head.specs.Request.{ParseState as SeenIn, Sees};
ghost use Rattle.http_bodies.specs.internal.Reply.{status_in};
ghost use Rattle.server.specs.internal.KeyLimit.{count_at, is_wrong_key, limit_after, reply_at};

use http_bodies::status_of;
use http_head::{ParseState, read_request};

// The number of wrong keys to which replies are sent at once.
const FREE_KEYS: u64 = 20;

// The time without a wrong key after which they are counted anew, in milliseconds.
const QUIET_MILLISECONDS: u64 = 60_000;

// The time between two replies that wait, in milliseconds.
const INTERVAL_MILLISECONDS: u64 = 100;

/// The wrong keys that were counted, and the time of the next reply. Times are in milliseconds.
#[derive(Clone, Copy, Debug, PartialEq, Eq)]
pub(crate) struct KeyLimit {
    // The number of wrong keys since a minute without one.
    count: u64,
    // The time of the last one.
    last: u64,
    // The earliest time of the next reply that waits.
    next: u64,
}

/// When the reply to a wrong key may be sent.
#[derive(Clone, Copy, Debug, PartialEq, Eq)]
pub(crate) struct KeyReply {
    /// The time, in milliseconds.
    pub(crate) time: u64,
    /// Whether this is the first reply that is limited since a minute without a wrong key.
    pub(crate) is_first: bool,
}

impl KeyLimit {
    /// No wrong keys.
    pub(crate) fn new() -> KeyLimit {
        KeyLimit {
            count: 0,
            last: 0,
            next: 0,
        }
    }

    // The number of wrong keys with one more at a time.
    fn count_at(&self, now: u64) -> u64
        ensures { result ≡ count_at self.now now }
    {
        if now < self.last.saturating_add(QUIET_MILLISECONDS) {
            self.count.saturating_add(1)
        } else {
            1
        }
    }

    /// Counts a wrong key at a time; when the reply to it may be sent.
    ///
    /// # Guarantees
    ///
    /// `reply`, `state`: the first 20 replies are sent at once; between any two of the others there is a tenth of a
    /// second.
    pub(crate) fn count_wrong_key(&mut self, now: u64) -> KeyReply
        ensures reply { result ≡ reply_at self.old now }
        ensures state { self.new ≡ limit_after self.old now }
    {
        self.count = self.count_at(now);
        self.last = now;
        if self.count <= FREE_KEYS {
            return KeyReply {
                time: now,
                is_first: false,
            };
        }
        let time = if now < self.next { self.next } else { now };
        self.next = time.saturating_add(INTERVAL_MILLISECONDS);
        KeyReply {
            time,
            is_first: self.count == FREE_KEYS + 1,
        }
    }
}

/// Whether a reply refuses the one key that a request has.
pub(crate) fn is_wrong_key(bytes: &[u8], reply: &[u8]) -> bool
    ensures { (seen : SeenIn) × Sees bytes.now seen × (result ≡ is_wrong_key (status_in reply.now) seen) }
{
    match read_request(bytes).seen {
        ParseState::Whole(request) => {
            if request.key.is_none() {
                return false;
            }
            status_of(reply) == Some(401)
        }
        ParseState::Unfinished | ParseState::Refused(_) => false,
    }
}
