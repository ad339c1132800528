//! Lingering close: clients that have their reply and may still send.
//!
//! A socket that is closed with unread input is reset, and the client may lose the reply. So the input is drained
//! first (RFC 9112, section 9.6).

use crate::client::watch;
use mio::{Interest, Poll, Token};
use std::alloc::{AllocError, Global};
use std::io::{ErrorKind, Read};
use std::net::TcpStream;
use std::time::Duration;

// The most clients kept; a new one replaces the oldest.
const MOST_LEAVING: usize = 64;

// The most bytes drained from one client.
const MOST_BYTES: usize = 4 << 20;

// The bytes drained by one call.
const PIECE_BYTES: usize = 16_384;

// The one poll token of all of them.
const LEAVING: Token = Token(usize::MAX);

/// The longest time that a client is kept, in seconds.
pub(crate) const LEAVING_SECONDS: u64 = 2;

/// A client that has its reply.
#[derive(Drop)]
struct LingeringClient {
    stream: TcpStream,
    // The value of `PollClock::polled` at which its time is over.
    until: Duration,
    // The most bytes still to drain.
    left: usize,
}

impl LingeringClient {
    // Drains the available input; whether more may follow.
    fn read_off(&mut self) -> bool {
        let mut piece = [0_u8; PIECE_BYTES];
        for _ in 0..u64::MAX {
            match (&self.stream).read(&mut piece) {
                Ok(n) => {
                    if n == 0 || n >= self.left {
                        return false;
                    }
                    self.left -= n;
                }
                Err(error) => match error.kind() {
                    ErrorKind::WouldBlock => return true,
                    ErrorKind::Interrupted => {}
                    _ => return false,
                },
            }
        }
        false
    }

    // Whether any byte was drained.
    fn has_sent(&self) -> bool {
        self.left < MOST_BYTES
    }
}

/// The clients that have their reply and may still send, oldest first.
#[derive(Drop)]
pub(crate) struct LingeringClose {
    leavers: Vec<LingeringClient>,
}

// Drains the client at an index; whether it must be closed.
fn drain_at(leavers: &mut Vec<LingeringClient>, at: usize, moment: Duration) -> bool {
    match leavers.get_mut(at) {
        Some(leaver) => !leaver.read_off() || leaver.until <= moment,
        None => false,
    }
}

impl LingeringClose {
    /// An empty list.
    ///
    /// # Errors
    ///
    /// `AllocError` if out of memory.
    pub(crate) fn new(alloc: Global) -> Result<LingeringClose, AllocError> {
        Ok(LingeringClose {
            leavers: Vec::with_capacity(alloc, MOST_LEAVING)?,
        })
    }

    /// Whether no client is kept.
    pub(crate) fn is_empty(&self) -> bool {
        self.leavers.is_empty()
    }

    /// The number of clients.
    pub(crate) fn count(&self) -> usize {
        self.leavers.len()
    }

    /// Closes the oldest client, if its time is over at `moment`; whether there was one.
    pub(crate) fn drop_first(&mut self, moment: Duration) -> bool {
        match self.first_until() {
            Some(until) if until <= moment && !self.leavers.is_empty() => {
                let _first = self.leavers.remove(0);
                true
            }
            _ => false,
        }
    }

    /// The value of `PollClock::polled` at which the oldest client's time is over.
    pub(crate) fn first_until(&self) -> Option<Duration> {
        self.leavers.first().map(|leaver| leaver.until)
    }

    /// Closes a non-blocking socket: at once if its input is drained and no more is expected, otherwise by
    /// `read_off`.
    pub(crate) fn add(&mut self, poll: &Poll, stream: TcpStream, until: Duration, is_early: bool) {
        let mut leaver = LingeringClient {
            stream,
            until,
            left: MOST_BYTES,
        };
        if !leaver.read_off() {
            return;
        }
        if !is_early && !leaver.has_sent() {
            return;
        }
        if self.leavers.len() >= MOST_LEAVING {
            let _first = self.leavers.remove(0);
        }
        let _listened = watch(poll, &leaver.stream, LEAVING, Interest::READABLE);
        let _kept = self.leavers.push(leaver);
    }

    /// Drains all clients, and closes those that have ended or whose time is over.
    pub(crate) fn read_off(&mut self, moment: Duration) {
        let mut at = 0;
        for _ in 0..MOST_LEAVING {
            if drain_at(&mut self.leavers, at, moment) {
                if at < self.leavers.len() {
                    let _gone = self.leavers.remove(at);
                }
            } else {
                at = at.saturating_add(1);
            }
        }
    }
}
