//! The connected clients: those with an incomplete request, and those that wait to be served.

use crate::client::{TcpClient, longest_idle, receive_at, take_out};
use crate::listener::LISTENER_TOKEN;
use crate::request_buffer::ReadProgress;
use mio::Events;
use std::alloc::{AllocError, Global};
use std::time::Duration;

/// The most clients connected at once, from `accept` to the end of the lingering close; others stay in the listen
/// backlog. At 80 KiB for a request their buffers take 42 MB at most.
pub(crate) const MOST_CLIENTS: usize = 512;

/// The connected clients, by the progress of their requests.
#[derive(Drop)]
pub(crate) struct ClientQueues {
    // The last token used.
    token: usize,
    // Clients with an incomplete request, oldest first.
    receiving: Vec<TcpClient>,
    // Clients with a complete or rejected request, in order of completion.
    ready: Vec<TcpClient>,
}

impl ClientQueues {
    /// No clients.
    ///
    /// # Errors
    ///
    /// `AllocError` if out of memory.
    pub(crate) fn new(alloc: Global) -> Result<ClientQueues, AllocError> {
        Ok(ClientQueues {
            token: LISTENER_TOKEN,
            receiving: Vec::with_capacity(alloc, MOST_CLIENTS)?,
            ready: Vec::with_capacity(alloc, MOST_CLIENTS)?,
        })
    }

    /// A poll token for one more client.
    pub(crate) fn next_token(&mut self) -> usize {
        self.token = self.token.saturating_add(1);
        self.token
    }

    /// Whether no client is connected.
    pub(crate) fn is_empty(&self) -> bool {
        self.receiving.is_empty() && self.ready.is_empty()
    }

    /// The number of clients.
    pub(crate) fn count(&self) -> usize {
        self.receiving.len().saturating_add(self.ready.len())
    }

    /// The number of clients with an incomplete request.
    pub(crate) fn receiving_count(&self) -> usize {
        self.receiving.len()
    }

    /// The number of clients that wait to be served.
    pub(crate) fn ready_count(&self) -> usize {
        self.ready.len()
    }

    /// Marks the clients that the poll reports readable; whether the listener is readable, too.
    pub(crate) fn mark_readable(&mut self, events: &Events<Global>) -> bool {
        let mut has_come = false;
        for event in events.iter() {
            let token = event.token().0;
            if token == LISTENER_TOKEN {
                has_come = true;
            }
            for client in self.receiving.iter_mut() {
                if client.token == token {
                    client.is_readable = true;
                }
            }
        }
        has_come
    }

    /// Reads from the client with an incomplete request at an index, if it is readable.
    pub(crate) fn receive_at(&mut self, at: usize, hosts: &[String]) -> ReadProgress {
        receive_at(&mut self.receiving, at, hosts)
    }

    /// Removes and returns the client with an incomplete request at an index.
    pub(crate) fn take_receiving(&mut self, at: usize) -> Option<TcpClient> {
        take_out(&mut self.receiving, at)
    }

    /// Removes and returns the next client to serve.
    pub(crate) fn take_ready(&mut self) -> Option<TcpClient> {
        take_out(&mut self.ready, 0)
    }

    /// Adds a client with an incomplete request.
    pub(crate) fn push_receiving(&mut self, client: TcpClient) {
        let _kept = self.receiving.push(client);
    }

    /// Adds a client that waits to be served.
    pub(crate) fn push_ready(&mut self, client: TcpClient) {
        let _kept = self.ready.push(client);
    }

    /// The deadline of the oldest client with an incomplete request.
    pub(crate) fn first_until(&self) -> Option<Duration> {
        self.receiving.first().map(|client| client.until)
    }

    /// The index of the client to drop at `moment`, if the clock shows `polled`: one whose time is over; or, if
    /// `moment` is later than `polled`, the oldest that has sent nothing, otherwise the oldest.
    pub(crate) fn next_to_drop(&self, polled: Duration, moment: Duration) -> Option<usize> {
        let first = self.receiving.first()?;
        if first.until > moment {
            return None;
        }
        if first.until > polled {
            return longest_idle(&self.receiving, moment).or(Some(0));
        }
        Some(0)
    }
}
