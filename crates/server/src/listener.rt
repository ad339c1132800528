//! The listener: accepts connections from this machine, over IPv4 and IPv6, and counts those that may still come.

use mio::unix::SourceFd;
use mio::{Interest, Poll, Token};
use std::io;
use std::io::ErrorKind;
use std::net::{
    Ipv4Addr, Ipv6Addr, SocketAddr, SocketAddrV4, SocketAddrV6, TcpListener, TcpStream,
};
use std::os::fd::AsRawFd;

// The OS errors for "out of file descriptors", of the system or of the process (Linux: ENFILE, EMFILE).
const TOO_MANY_FILES: [i32; 2] = [23, 24];

// The OS errors of a machine or a process without IPv6 (Linux: EAFNOSUPPORT, EADDRNOTAVAIL).
const NO_IPV6: [i32; 2] = [97, 99];

/// The poll token of the listener's sockets; clients have greater ones.
pub(crate) const LISTENER_TOKEN: usize = 0;

/// The result of one `accept`.
#[derive(Drop)]
pub(crate) enum Accepted {
    /// A new connection.
    Connection(TcpStream),
    /// No connection: the backlog is empty, or the call was interrupted.
    Nothing,
    /// Out of file descriptors; the connection stays in the backlog.
    TooManyFiles,
    /// The connection was lost.
    Lost,
}

// A listening socket.
#[derive(Drop)]
struct ListeningSocket {
    socket: TcpListener,
    // Whether its listen backlog may hold a client.
    may_come: bool,
}

/// A listener on a port of 127.0.0.1 and, if this machine has IPv6, of `[::1]`, so that both addresses of `localhost`
/// are this server's.
#[derive(Drop)]
pub(crate) struct Listener {
    // The socket from which the next client is accepted is the first one that may have a client.
    sockets: Vec<ListeningSocket>,
    // The number of connections still to accept.
    left: u64,
}

fn is_out_of_descriptors(error: &io::Error) -> bool {
    error
        .raw_os_error()
        .is_some_and(|number| TOO_MANY_FILES.contains(&number))
}

// Whether the machine has no IPv6, or none that this process may use.
fn is_without_ipv6(error: &io::Error) -> bool {
    error
        .raw_os_error()
        .is_some_and(|number| NO_IPV6.contains(&number))
}

// Listens on an address, registered with a poll.
fn listen_on(rt: &HostRuntime, address: SocketAddr, poll: &Poll) -> io::Result<ListeningSocket> {
    let socket = TcpListener::bind(rt, address)?;
    socket.set_nonblocking(true)?;
    let descriptor = socket.as_raw_fd();
    poll.registry().register(
        &mut SourceFd(&descriptor),
        Token(LISTENER_TOKEN),
        Interest::READABLE,
    )?;
    Ok(ListeningSocket {
        socket,
        may_come: true,
    })
}

impl Listener {
    /// Listens on a port of 127.0.0.1 and of `[::1]`, registered with a poll, for `count` connections. For port 0 both
    /// have the port that the first is given.
    ///
    /// # Errors
    ///
    /// An `io::Error` if the port is in use or not permitted at one of the addresses, or if another socket or poll call
    /// fails. A machine without IPv6 is no error.
    pub(crate) fn bind(
        rt: &HostRuntime,
        port: u16,
        poll: &Poll,
        count: u64,
    ) -> io::Result<Listener> {
        let address = SocketAddr::V4(SocketAddrV4::new(Ipv4Addr::LOCALHOST, port));
        let first = listen_on(rt, address, poll)?;
        let port = first.socket.local_addr()?.port();
        let mut sockets = Vec::with_capacity(rt.alloc(), 2)?;
        sockets.push(first)?;
        let address = SocketAddr::V6(SocketAddrV6::new(Ipv6Addr::LOCALHOST, port, 0, 0));
        match listen_on(rt, address, poll) {
            Ok(second) => sockets.push(second)?,
            Err(error) if is_without_ipv6(&error) => {}
            Err(error) => return Err(error),
        }
        Ok(Listener {
            sockets,
            left: count,
        })
    }

    /// Whether all connections were accepted.
    pub(crate) fn is_finished(&self) -> bool {
        self.left == 0
    }

    /// Whether a client that may be accepted may be in the backlog.
    pub(crate) fn has_backlog(&self) -> bool {
        self.left != 0 && self.sockets.iter().any(|it| it.may_come)
    }

    /// Notes that the poll reported the listener readable.
    pub(crate) fn mark_readable(&mut self) {
        for it in self.sockets.iter_mut() {
            it.may_come = true;
        }
    }

    // Puts the socket from which a client was accepted behind the other, so that neither waits for the other.
    fn take_turns(&mut self, at: usize) {
        if at == 0 && self.sockets.len() == 2 {
            self.sockets.swap(0, 1);
        }
    }

    /// Accepts a connection from the backlog. A failed `accept` counts as a lost connection, unless the process is out
    /// of file descriptors.
    pub(crate) fn accept(&mut self) -> Accepted {
        let Some(at) = self.sockets.iter().position(|it| it.may_come) else {
            return Accepted::Nothing;
        };
        let Some(listening) = self.sockets.get_mut(at) else {
            return Accepted::Nothing;
        };
        match listening.socket.accept() {
            Ok((stream, _)) => {
                self.take_turns(at);
                self.left = self.left.saturating_sub(1);
                Accepted::Connection(stream)
            }
            Err(error) => match error.kind() {
                ErrorKind::WouldBlock => {
                    listening.may_come = false;
                    Accepted::Nothing
                }
                ErrorKind::Interrupted => Accepted::Nothing,
                _ => self.count_failure(&error),
            },
        }
    }

    fn count_failure(&mut self, error: &io::Error) -> Accepted {
        if is_out_of_descriptors(error) {
            return Accepted::TooManyFiles;
        }
        self.left = self.left.saturating_sub(1);
        Accepted::Lost
    }
}
