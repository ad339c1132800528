//! The clients that have not received their whole reply yet.

use crate::client::watch;
use crate::client_queues::MOST_CLIENTS;
use crate::outgoing::{OutgoingReply, SendProgress};
use mio::{Events, Interest, Poll, Token};
use std::alloc::{AllocError, Global};
use std::net::TcpStream;
use std::time::Duration;

/// The time without progress after which a connection is dropped, by the poll clock.
pub(crate) const STALLED_SECONDS: u64 = 10;

/// The time after which a connection is dropped in any case, by the poll clock.
pub(crate) const SENDING_SECONDS: u64 = 60;

/// The most replies that wait to be sent; further ones are not sent.
pub(crate) const MOST_WAITING: usize = 64;

// The most bytes that these replies take in all. For a new one the connections that made no progress for the longest
// time are dropped. A single reply may be larger.
const MOST_BYTES: usize = 64 << 20;

/// A client with the rest of its reply.
#[derive(Drop)]
pub(crate) struct SendingClient {
    pub(crate) reply: OutgoingReply<TcpStream>,
    /// Its token in the poll registry.
    pub(crate) token: usize,
    /// The value of `PollClock::polled` before which nothing is sent.
    pub(crate) start: Duration,
    /// The value of `PollClock::polled` at which it is dropped without progress.
    pub(crate) until: Duration,
    /// The value of `PollClock::polled` at which it is dropped in any case.
    pub(crate) end: Duration,
    /// Whether the poll reported it writable since the last write.
    pub(crate) is_writable: bool,
    /// Whether the request was rejected before the client may have sent all of it.
    pub(crate) has_unread_input: bool,
}

impl SendingClient {
    /// Writes what the socket takes now. With progress the client is kept until `until`, but not after its end.
    pub(crate) fn send(&mut self, until: Duration) -> SendProgress {
        let before = self.reply.sent();
        self.is_writable = false;
        let progress = self.reply.send();
        if self.reply.sent() > before {
            self.until = until.min(self.end);
        }
        progress
    }
}

/// The clients that have not received their whole reply yet.
#[derive(Drop)]
pub(crate) struct SendingClients {
    clients: Vec<SendingClient>,
}

impl SendingClients {
    /// No clients.
    ///
    /// # Errors
    ///
    /// `AllocError` if out of memory.
    pub(crate) fn new(alloc: Global) -> Result<SendingClients, AllocError> {
        Ok(SendingClients {
            clients: Vec::with_capacity(alloc, MOST_CLIENTS)?,
        })
    }

    /// Whether there is no client.
    pub(crate) fn is_empty(&self) -> bool {
        self.clients.is_empty()
    }

    /// The number of clients.
    pub(crate) fn count(&self) -> usize {
        self.clients.len()
    }

    // The size of all replies in bytes.
    fn size(&self) -> usize {
        let mut size: usize = 0;
        for client in self.clients.iter() {
            size = size.saturating_add(client.reply.size());
        }
        size
    }

    // The index of the next client to drop.
    fn first(&self) -> Option<usize> {
        let mut first = None;
        let mut least = Duration::MAX;
        for (at, client) in self.clients.iter().enumerate() {
            if client.until < least {
                first = Some(at);
                least = client.until;
            }
        }
        first
    }

    /// The number of clients whose reply waits at `moment`.
    pub(crate) fn waiting_count(&self, moment: Duration) -> usize {
        let mut count: usize = 0;
        for client in self.clients.iter() {
            if client.start > moment {
                count = count.saturating_add(1);
            }
        }
        count
    }

    /// The value of `PollClock::polled` at which the first of the replies that wait at `moment` may be sent.
    pub(crate) fn first_start(&self, moment: Duration) -> Option<Duration> {
        let mut first = None;
        let mut least = Duration::MAX;
        for client in self.clients.iter() {
            if client.start > moment && client.start < least {
                first = Some(client.start);
                least = client.start;
            }
        }
        first
    }

    /// The value of `PollClock::polled` at which the next client is dropped.
    pub(crate) fn first_until(&self) -> Option<Duration> {
        let client = self.clients.get(self.first()?)?;
        Some(client.until)
    }

    /// Drops the next client, if its time is over at `moment`; whether there was one.
    pub(crate) fn drop_first(&mut self, moment: Duration) -> bool {
        let Some(until) = self.first_until() else {
            return false;
        };
        let Some(at) = self.first() else {
            return false;
        };
        until <= moment && self.take(at).is_some()
    }

    /// Adds a client whose socket takes no more now. If the socket cannot be registered with the poll, it is closed.
    pub(crate) fn push(&mut self, poll: &Poll, client: SendingClient) {
        let token = Token(client.token);
        if watch(poll, client.reply.stream(), token, Interest::WRITABLE).is_err() {
            return;
        }
        for _ in 0..MOST_CLIENTS {
            let size = self.size().saturating_add(client.reply.size());
            if size <= MOST_BYTES || !self.drop_first(Duration::MAX) {
                break;
            }
        }
        let _kept = self.clients.push(client);
    }

    /// Removes and returns the client at an index.
    pub(crate) fn take(&mut self, at: usize) -> Option<SendingClient> {
        if at < self.clients.len() {
            Some(self.clients.remove(at))
        } else {
            None
        }
    }

    /// Marks the clients that the poll reports.
    pub(crate) fn mark_writable(&mut self, events: &Events<Global>) {
        for event in events.iter() {
            let token = event.token().0;
            for client in self.clients.iter_mut() {
                if client.token == token {
                    client.is_writable = true;
                }
            }
        }
    }

    /// Sends to the client at an index, if it is writable and its reply does not wait at `moment`; with progress it is
    /// kept until `until`.
    pub(crate) fn send_at(&mut self, at: usize, moment: Duration, until: Duration) -> SendProgress {
        match self.clients.get_mut(at) {
            Some(client) => {
                if client.is_writable && client.start <= moment {
                    client.send(until)
                } else {
                    SendProgress::Blocked
                }
            }
            None => SendProgress::Blocked,
        }
    }
}
