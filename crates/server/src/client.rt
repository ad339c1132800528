//! A client: its socket, and the part of its request that was received.

ghost use Rattle.std.specs.Prelude.{◌≢◌};
ghost use Rattle.control_socket.specs.internal.Received.{HasReceived};
ghost use Rattle.server.specs.declared.request_buffer.ReadProgress.TheVariants as progress_is;

use crate::request_buffer::{ReadProgress, RequestBuffer};
use mio::unix::SourceFd;
use mio::{Interest, Poll, Token};
use std::io;
use std::io::{ErrorKind, Read};
use std::net::TcpStream;
use std::os::fd::AsRawFd;
use std::time::Duration;

/// Registers a socket with a poll, or changes its token and interest there. An event that is due is reported.
///
/// # Errors
///
/// An `io::Error` if the poll refuses the socket.
pub(crate) fn watch(
    poll: &Poll,
    stream: &TcpStream,
    token: Token,
    interest: Interest,
) -> io::Result<()> {
    let descriptor = stream.as_raw_fd();
    let mut source = SourceFd(&descriptor);
    match poll.registry().reregister(&mut source, token, interest) {
        Err(error) if error.kind() == ErrorKind::NotFound => {
            poll.registry().register(&mut source, token, interest)
        }
        watched => watched,
    }
}

/// A client over a stream of any type, and the bytes that were received from it.
#[derive(Drop)]
pub(crate) struct Client<T> {
    pub(crate) stream: T,
    pub(crate) heard: RequestBuffer,
    /// Its token in the poll registry.
    pub(crate) token: usize,
    /// The value of `PollClock::polled` at which its time is over.
    pub(crate) until: Duration,
    /// Whether the poll reported it readable since the last read.
    pub(crate) is_readable: bool,
    /// Whether the request was rejected before the client may have sent all of it.
    pub(crate) has_unread_input: bool,
}

/// A client on the HTTP port.
pub(crate) type TcpClient = Client<TcpStream>;

impl<T: Read> Client<T> {
    /// Reads the available bytes, for a server that answers for these hosts.
    ///
    /// # Guarantees
    ///
    /// What is added to the received bytes is what was read, in order.
    pub(crate) fn receive(&mut self, hosts: &[String]) -> ReadProgress
        ensures { HasReceived (result ≢ progress_is.Failed) self.old.heard.bytes.items self.new.heard.bytes.items
            (T.remaining self.old.stream) (T.remaining self.new.stream) }
    {
        self.is_readable = false;
        let come = self.heard.take(&mut self.stream, hosts);
        self.has_unread_input = come == ReadProgress::Rejected;
        come
    }
}

/// Removes and returns the client at an index, if there is one.
pub(crate) fn take_out(callers: &mut Vec<TcpClient>, at: usize) -> Option<TcpClient> {
    if at < callers.len() {
        Some(callers.remove(at))
    } else {
        None
    }
}

/// Reads from the client at an index, if it is readable.
pub(crate) fn receive_at(
    callers: &mut Vec<TcpClient>,
    at: usize,
    hosts: &[String],
) -> ReadProgress {
    match callers.get_mut(at) {
        Some(caller) => {
            if caller.is_readable {
                caller.receive(hosts)
            } else {
                ReadProgress::Partial
            }
        }
        None => ReadProgress::Partial,
    }
}

/// The index of the oldest client that has sent nothing and whose time is over at `moment`.
pub(crate) fn longest_idle(callers: &[TcpClient], moment: Duration) -> Option<usize> {
    callers
        .iter()
        .position(|caller| caller.heard.is_empty() && caller.until <= moment)
}
