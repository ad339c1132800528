//! Standard error, written without blocking.

use mio::unix::SourceFd;
use mio::{Events, Interest, Poll, Token};
use std::alloc::Global;
use std::io;
use std::io::{ErrorKind, Write};
use std::os::fd::AsRawFd;
use std::time::Duration;

// The most bytes that a pipe takes atomically (POSIX `PIPE_BUF`; 4096 on Linux).
const AT_ONCE: usize = 4096;

// The poll token of standard error.
const ERRORS: Token = Token(0);

/// How to learn whether a write would block.
#[derive(Drop)]
enum Watch {
    /// Writes never block: standard error is a file.
    Needless,
    /// Poll it.
    By(Poll, Events<Global>),
    /// Unknown, so nothing is written.
    Unknown,
}

/// Writes to standard error what it takes at once; otherwise fails with `WouldBlock`.
#[derive(Drop)]
pub(crate) struct NonBlockingStderr<'a> {
    rt: &'a HostRuntime,
    watch: Watch,
}

// Whether standard error is writable now.
fn is_ready(rt: &HostRuntime, poll: &mut Poll, events: &mut Events<Global>) -> bool {
    let descriptor = rt.stderr().as_raw_fd();
    let renewed = poll
        .registry()
        .reregister(&mut SourceFd(&descriptor), ERRORS, Interest::WRITABLE);
    if renewed.is_err() || poll.poll(events, Some(Duration::ZERO)).is_err() {
        return false;
    }
    events.iter().any(|event| event.is_writable())
}

impl<'a> NonBlockingStderr<'a> {
    /// A writer to standard error of this process.
    ///
    /// # Errors
    ///
    /// An `io::Error` if the poll cannot be made, or if out of memory.
    pub(crate) fn new(rt: &'a HostRuntime) -> io::Result<NonBlockingStderr<'a>> {
        let poll = Poll::new(rt)?;
        let events = Events::with_capacity(rt.alloc(), 1)?;
        let descriptor = rt.stderr().as_raw_fd();
        let registered = poll
            .registry()
            .register(&mut SourceFd(&descriptor), ERRORS, Interest::WRITABLE);
        let watch = match registered {
            Ok(()) => Watch::By(poll, events),
            // epoll refuses regular files.
            Err(error) if error.kind() == ErrorKind::PermissionDenied => Watch::Needless,
            Err(_) => Watch::Unknown,
        };
        Ok(NonBlockingStderr { rt, watch })
    }

    // Whether a write of `count` bytes would not block.
    fn would_accept(&mut self, count: usize) -> bool {
        match &mut self.watch {
            Watch::Needless => true,
            Watch::By(poll, events) => count <= AT_ONCE && is_ready(self.rt, poll, events),
            Watch::Unknown => false,
        }
    }
}

impl Write for NonBlockingStderr<'_> {
    fn write(&mut self, buf: &[u8]) -> io::Result<usize> {
        if self.would_accept(buf.len()) {
            self.rt.stderr().write(buf)
        } else {
            Err(io::Error::from(ErrorKind::WouldBlock))
        }
    }

    fn flush(&mut self) -> io::Result<()> {
        Ok(())
    }
}
