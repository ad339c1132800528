//! Streams with one deadline over all their calls, in place of a timeout for each.

use std::io;
use std::io::{ErrorKind, Read, Write};
use std::net::TcpStream;
use std::os::unix::net::UnixStream;
use std::time::{Duration, Instant};

/// The time left for the calls of a stream; over a socket it also sets the timeout of the next call.
pub trait Countdown {
    /// Permits one more call.
    ///
    /// # Errors
    ///
    /// An `io::Error` once the time is over, or if a clock or socket call fails.
    fn allow(&mut self) -> io::Result<()>;
}

/// A stream that makes no call once its time is over, however slowly its bytes arrive.
#[derive(Drop)]
pub struct Deadline<T, C> {
    stream: T,
    countdown: C,
}

impl<T, C> Deadline<T, C> {
    /// A stream that is limited by a countdown.
    pub fn new(stream: T, countdown: C) -> Deadline<T, C> {
        Deadline { stream, countdown }
    }
}

impl<T: Read, C: Countdown> Read for Deadline<T, C> {
    ghost remaining = { λ d. T.remaining d.stream };

    fn read(&mut self, buf: &mut [u8]) -> io::Result<usize> {
        self.countdown.allow()?;
        self.stream.read(buf)
    }
}

impl<T: Write, C: Countdown> Write for Deadline<T, C> {
    ghost contents = { λ d. T.contents d.stream };

    fn write(&mut self, buf: &[u8]) -> io::Result<usize> {
        self.countdown.allow()?;
        self.stream.write(buf)
    }

    fn flush(&mut self) -> io::Result<()> {
        self.countdown.allow()?;
        self.stream.flush()
    }
}

/// A socket whose calls can be limited.
pub trait LimitedSocket {
    /// Sets the timeout of the next calls.
    ///
    /// # Errors
    ///
    /// An `io::Error` if the socket refuses it.
    fn set_timeout(&self, left: Duration) -> io::Result<()>;
}

impl LimitedSocket for TcpStream {
    fn set_timeout(&self, left: Duration) -> io::Result<()> {
        self.set_read_timeout(Some(left))
    }
}

impl LimitedSocket for UnixStream {
    fn set_timeout(&self, left: Duration) -> io::Result<()> {
        self.set_write_timeout(Some(left))?;
        self.set_read_timeout(Some(left))
    }
}

/// The time left for the calls of a socket; it runs from the first call.
#[derive(Drop)]
pub struct Timer<'a, S> {
    rt: &'a HostRuntime,
    socket: &'a S,
    begin: Option<Instant>,
    limit: Duration,
}

impl<S> Timer<'_, S> {
    // The time of the first call: now, if there was none.
    fn begin(&mut self) -> io::Result<Instant> {
        if let Some(begin) = self.begin {
            return Ok(begin);
        }
        let now = Instant::now(self.rt)?;
        self.begin = Some(now);
        Ok(now)
    }
}

impl<S: LimitedSocket> Countdown for Timer<'_, S> {
    fn allow(&mut self) -> io::Result<()> {
        let spent = self.begin()?.elapsed(self.rt)?;
        let left = match self.limit.checked_sub(spent) {
            Some(left) => left,
            None => return Err(io::Error::from(ErrorKind::TimedOut)),
        };
        if left.is_zero() {
            return Err(io::Error::from(ErrorKind::TimedOut));
        }
        self.socket.set_timeout(left)
    }
}

/// A socket with one deadline over all its calls. TCP sockets have it over reads alone.
pub fn with_deadline<'c, S>(
    rt: &'c HostRuntime,
    socket: &'c S,
    limit: Duration,
) -> Deadline<&'c S, Timer<'c, S>> {
    let timer = Timer {
        rt,
        socket,
        begin: None,
        limit,
    };
    Deadline::new(socket, timer)
}
