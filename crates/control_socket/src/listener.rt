//! The control socket: orders for the server, and leases of the database file.
//!
//! A lease lasts until its holder disconnects.

ghost use Rattle.std.specs.Prelude.{◌≡◌, ◌≢◌, ◌++◌, None, IfOk, codes, string_bytes, true};
ghost use Rattle.control_socket.specs.internal.Received.{HasReceived};
ghost use Rattle.control_socket.specs.internal.Wishes.{IsHeard};
ghost use Rattle.control_socket.specs.declared.control_requests.ControlRequest.TheVariants as wish_is;

use crate::control_requests::{ControlRequest, parse_request};
use crate::frames::{FILE, MOST_SAID};
use crate::orders::Operation;
use crate::peers::connect;
use crate::places::{FilePlace, socket_permissions};
use clocks::Moment;
use mio::unix::SourceFd;
use mio::{Interest, Poll, Token};
use std::alloc::{AllocError, Global};
use std::fs::{DirBuilder, metadata};
use std::io::{ErrorKind, Read, Write};
use std::os::fd::AsRawFd;
use std::os::unix::fs::{DirBuilderExt, FileTypeExt, MetadataExt, chown};
use std::os::unix::net::{UnixListener, UnixStream};
use std::time::Duration;
use std::{fs, io};

// The longest wait for a lease.
const ASKING_SECONDS: u64 = 5;

// The bytes read by one call.
const PIECE_BYTES: usize = 4096;

// The message that grants a lease.
const GRANTED: [u8; 1] = [b'1'];

/// The poll token of the control socket and of its connections.
pub const CONTROL_TOKEN: Token = Token(usize::MAX - 1);

// The poll token of the holder of the lease.
const LEASE_TOKEN: Token = Token(usize::MAX - 2);

/// The path of the control socket of a file.
///
/// # Errors
///
/// `AllocError` if out of memory.
pub(crate) fn socket_path(alloc: Global, file: &str) -> Result<String, AllocError>
    ensures { IfOk result (λ path. string_bytes path ≡ file.now ++ codes "-desk") }
{
    format!(in alloc; "{file}-desk")
}

// The path of a folder beside a file, for a socket without its permissions. A socket in it has a path as long as the
// control socket's, since the system limits that length.
fn private_folder(alloc: Global, file: &str) -> Result<String, AllocError>
    ensures { IfOk result (λ path. string_bytes path ≡ file.now ++ codes "-sk") }
{
    format!(in alloc; "{file}-sk")
}

/// A lease of a file that a server has released; it ends when dropped.
#[derive(Drop)]
pub struct FileLease {
    _guest: UnixStream,
}

// Requests a lease, and waits until the server grants it or closes the connection.
fn hear_answer(guest: &UnixStream) -> io::Result<()> {
    let mut answer = [0_u8; 1];
    guest.set_read_timeout(Some(Duration::from_secs(ASKING_SECONDS)))?;
    (&mut &*guest).write_all(&FILE)?;
    let _heard = (&mut &*guest).read(&mut answer)?;
    Ok(())
}

/// Leases a file from the server that holds it; `None` if no server does. After at most five seconds it returns
/// `Some` also without a grant.
pub fn request_lease(rt: &HostRuntime, file: &str) -> Option<FileLease> {
    let guest = connect(rt, file)?;
    let _answered = hear_answer(&guest);
    Some(FileLease { _guest: guest })
}

// A connection with an incomplete message, over a stream of any type: its code cannot make bytes of its own.
#[derive(Drop)]
struct PendingPeer<T> {
    stream: T,
    said: Vec<u8>,
}

impl<T: Read> PendingPeer<T> {
    // Reads the available bytes; `false` at the end of input, at a fault or if the message is too long.
    fn hear(&mut self) -> bool
        ensures { HasReceived (result ≡ true) self.old.said.items self.new.said.items
            (T.remaining self.old.stream) (T.remaining self.new.stream) }
    {
        let mut piece = [0_u8; PIECE_BYTES];
        for _ in 0..u64::MAX {
            match self.stream.read(&mut piece) {
                Ok(n) => {
                    if n == 0 || self.said.len() > MOST_SAID {
                        return false;
                    }
                    if self.said.extend_from_slice(&piece[..n]).is_err() {
                        return false;
                    }
                }
                Err(error) => match error.kind() {
                    ErrorKind::WouldBlock => return true,
                    ErrorKind::Interrupted => {}
                    _ => return false,
                },
            }
        }
        false
    }

    // Reads and parses the message; `Nothing` if reading ends or out of memory.
    fn wish(&mut self, alloc: Global) -> ControlRequest
        ensures heard { IsHeard self.new.said.items result }
        ensures received { HasReceived (result ≢ wish_is.Nothing) self.old.said.items self.new.said.items
            (T.remaining self.old.stream) (T.remaining self.new.stream) }
    {
        if !self.hear() {
            return ControlRequest::Nothing;
        }
        match parse_request(alloc, &self.said) {
            Ok(wish) => wish,
            Err(_) => ControlRequest::Nothing,
        }
    }
}

/// An order that waits for the server.
#[derive(Drop)]
pub struct PendingOrder {
    /// The connection for the answer.
    pub stream: UnixStream,
    /// The operation.
    pub errand: Operation,
    /// The timestamp at which to execute it.
    pub moment: Moment,
}

/// The control socket of a server.
#[derive(Drop)]
pub struct ControlListener<'a> {
    rt: &'a HostRuntime,
    // What the path goes through.
    _place: FilePlace,
    path: String,
    // The inode of the socket file, to notice a replacement.
    number: Option<u64>,
    listener: UnixListener,
    // Whether a connection could not be accepted, as the process was out of file descriptors.
    has_backlog: bool,
    // Connections with an incomplete message.
    hearing: Vec<PendingPeer<UnixStream>>,
    // Orders, and connections that wait for a lease; oldest first.
    orders: Vec<PendingOrder>,
    asking: Vec<UnixStream>,
    // The holder of the lease.
    lease_holder: Option<UnixStream>,
}

// Makes a folder that only its owner can enter, in place of one that a server which was killed left with its socket.
fn make_private(rt: &HostRuntime, folder: &str, socket: &str) -> io::Result<()> {
    let mut builder = DirBuilder::new();
    builder.mode(0o700);
    match builder.create(rt, folder) {
        Err(error) if error.kind() == ErrorKind::AlreadyExists => {
            let _cleared = fs::remove_file(rt, socket);
            fs::remove_dir(rt, folder)?;
            builder.create(rt, folder)
        }
        made => made,
    }
}

// Gives a socket the group of a file, where this process may, and the permissions that follow from the file's mode.
fn share_with_group(rt: &HostRuntime, file: &str, socket: &str) -> io::Result<()> {
    let found = metadata(rt, file)?;
    let _denied = chown(rt, socket, None, Some(found.gid()));
    let is_groups = metadata(rt, socket)?.gid() == found.gid();
    let mode = if is_groups { found.mode() } else { 0 };
    fs::set_permissions(rt, socket, socket_permissions(mode))
}

// Listens at a path, and gives the socket its permissions and then a second path.
fn listen_at(rt: &HostRuntime, file: &str, socket: &str, path: &str) -> io::Result<UnixListener> {
    let listener = UnixListener::bind(rt, socket)?;
    share_with_group(rt, file, socket)?;
    listener.set_nonblocking(true)?;
    fs::hard_link(rt, socket, path)?;
    Ok(listener)
}

// Creates the control socket of a file at a free path. Nobody can connect before the socket has its permissions: it is
// made in a folder that only its owner can enter.
fn listen_alone(rt: &HostRuntime, file: &str, path: &str) -> io::Result<UnixListener> {
    let folder = private_folder(rt.alloc(), file)?;
    let socket = format!(in rt.alloc(); "{folder}/s")?;
    make_private(rt, folder.as_str(), socket.as_str())?;
    let listener = listen_at(rt, file, socket.as_str(), path);
    let _cleared = fs::remove_file(rt, socket.as_str());
    let _cleared = fs::remove_dir(rt, folder.as_str());
    listener
}

// Makes way for a new socket at a path: the socket of a server that has ended is removed.
fn remove_stale(rt: &HostRuntime, path: &str) -> io::Result<()> {
    match UnixStream::connect(rt, path) {
        Ok(_) => Err(io::Error::from(ErrorKind::AddrInUse)),
        Err(error) if error.kind() == ErrorKind::NotFound => Ok(()),
        Err(error) if error.kind() == ErrorKind::ConnectionRefused => match socket_at(rt, path) {
            Some(_) => fs::remove_file(rt, path),
            None => Ok(()),
        },
        Err(error) => Err(error),
    }
}

// The inode of the socket at a path, if one exists.
fn socket_at(rt: &HostRuntime, path: &str) -> Option<u64> {
    let found = metadata(rt, path).ok()?;
    if found.file_type().is_socket() {
        Some(found.ino())
    } else {
        None
    }
}

impl<'a> ControlListener<'a> {
    /// Opens the control socket beside a file. A stale socket is replaced; another kind of file stays.
    ///
    /// # Errors
    ///
    /// - `AddrInUse` if another server listens on it.
    /// - An `io::Error` if an existing socket at this path cannot be tested, if the socket cannot be created or
    ///   registered, or if out of memory.
    pub fn open(rt: &'a HostRuntime, file: &str, poll: &Poll) -> io::Result<ControlListener<'a>> {
        let place = FilePlace::find(rt, file)?;
        let path = socket_path(rt.alloc(), place.file())?;
        remove_stale(rt, path.as_str())?;
        let listener = listen_alone(rt, place.file(), path.as_str())?;
        let number = socket_at(rt, path.as_str());
        let door = ControlListener {
            rt,
            _place: place,
            path,
            number,
            listener,
            has_backlog: false,
            hearing: Vec::new(rt.alloc()),
            orders: Vec::new(rt.alloc()),
            asking: Vec::new(rt.alloc()),
            lease_holder: None,
        };
        door.register(poll)?;
        Ok(door)
    }

    // Registers the socket with the poll.
    fn register(&self, poll: &Poll) -> io::Result<()> {
        let descriptor = self.listener.as_raw_fd();
        poll.registry().register(
            &mut SourceFd(&descriptor),
            CONTROL_TOKEN,
            Interest::READABLE,
        )
    }

    /// Accepts connections, and reads from all with an incomplete message.
    pub fn hear(&mut self, poll: &Poll) {
        self.has_backlog = false;
        for _ in 0..u64::MAX {
            match self.listener.accept() {
                Ok((stream, _)) => self.greet(poll, stream),
                Err(error) => match error.kind() {
                    ErrorKind::Interrupted => {}
                    ErrorKind::WouldBlock => break,
                    _ => {
                        self.has_backlog = true;
                        break;
                    }
                },
            }
        }
        self.hear_all();
    }

    /// Whether the last `hear` left a connection that could not be accepted. The poll does not report it again: call
    /// `hear` once a file descriptor is free.
    pub fn has_backlog(&self) -> bool {
        self.has_backlog
    }

    fn hear_all(&mut self) {
        let mut at = 0;
        for _ in 0..u64::MAX {
            if at >= self.hearing.len() {
                return;
            }
            at = self.hear_at(at);
        }
    }

    // Registers a new connection.
    fn greet(&mut self, poll: &Poll, stream: UnixStream) {
        let descriptor = stream.as_raw_fd();
        let listened = poll.registry().register(
            &mut SourceFd(&descriptor),
            CONTROL_TOKEN,
            Interest::READABLE,
        );
        if stream.set_nonblocking(true).is_ok() && listened.is_ok() {
            let _kept = self.hearing.push(PendingPeer {
                stream,
                said: Vec::new(self.rt.alloc()),
            });
        }
    }

    // Reads from the connection at an index, and moves it if its message is complete. Returns the next index.
    fn hear_at(&mut self, at: usize) -> usize {
        let wish = match self.hearing.get_mut(at) {
            Some(asker) => asker.wish(self.rt.alloc()),
            None => ControlRequest::Part,
        };
        if matches!(wish, ControlRequest::Part) {
            return at.saturating_add(1);
        }
        if at < self.hearing.len() {
            let asker = self.hearing.remove(at);
            self.place(asker, wish);
        }
        at
    }

    // Queues a connection by its message, or closes it.
    fn place(&mut self, asker: PendingPeer<UnixStream>, wish: ControlRequest) {
        let PendingPeer { stream, .. } = asker;
        match wish {
            ControlRequest::File => {
                let _kept = self.asking.push(stream);
            }
            ControlRequest::Order(errand, moment) => {
                let _kept = self.orders.push(PendingOrder {
                    stream,
                    errand,
                    moment,
                });
            }
            ControlRequest::Part | ControlRequest::Nothing => {}
        }
    }

    /// Whether an order is ready.
    pub fn has_order(&self) -> bool {
        !self.orders.is_empty()
    }

    /// The oldest order whose sender is still connected; the others execute their orders themselves.
    pub fn next_order(&mut self) -> Option<PendingOrder> {
        for _ in 0..u64::MAX {
            if self.orders.is_empty() {
                return None;
            }
            let ordered = self.orders.remove(0);
            if is_there(&ordered.stream) {
                return Some(ordered);
            }
        }
        None
    }

    /// Whether a connection waits for a lease.
    pub fn has_lease_request(&self) -> bool {
        !self.asking.is_empty()
    }

    /// Grants a lease to the oldest connection that waits; the file must be released before.
    pub fn let_in(&mut self, poll: &Poll) {
        if self.asking.is_empty() {
            return;
        }
        let mut guest = self.asking.remove(0);
        if guest.set_nonblocking(true).is_err() || guest.write(&GRANTED).is_err() {
            return;
        }
        let descriptor = guest.as_raw_fd();
        let listened = poll.registry().reregister(
            &mut SourceFd(&descriptor),
            LEASE_TOKEN,
            Interest::READABLE,
        );
        if listened.is_ok() {
            self.lease_holder = Some(guest);
        }
    }

    /// Whether a lease is held, and its holder is still connected.
    pub fn has_guest(&self) -> bool {
        match &self.lease_holder {
            Some(guest) => is_there(guest),
            None => false,
        }
    }

    /// Ends the lease, if there is one.
    pub fn end_lease(&mut self)
        ensures { self.new.lease_holder ≡ None }
    {
        self.lease_holder = None;
    }

    /// Whether the socket file still exists and is this one.
    pub fn is_current(&self) -> bool {
        self.number.is_some() && socket_at(self.rt, self.path.as_str()) == self.number
    }

    /// Removes the socket file, unless it was replaced.
    pub fn close(&self) {
        if self.is_current() {
            let _cleared = fs::remove_file(self.rt, self.path.as_str());
        }
    }
}

// Whether a client that has sent its message is still connected.
fn is_there(guest: &UnixStream) -> bool {
    let mut said = [0_u8; 1];
    match (&mut &*guest).read(&mut said) {
        Ok(n) => n != 0,
        Err(error) => matches!(error.kind(), ErrorKind::WouldBlock | ErrorKind::Interrupted),
    }
}
