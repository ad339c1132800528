//! The HTTP server: its poll loop over the listener, the clients and the control socket.
//!
//! Nothing is assumed of what sockets and clocks return.

ghost use Rattle.http_desk.specs.declared.faults.ClubFault.{ClubFault};
ghost use Rattle.server.specs.Visits.{IsServedBy, IsShutServed};

use crate::access_log::LogEntry;
use crate::client::TcpClient;
use crate::client_queues::MOST_CLIENTS;
use crate::clients::{Clients, REQUEST_SECONDS};
use crate::connections::{Connections, Served};
use crate::file_hold::{FileHold, LEASE_SECONDS, answer_order};
use crate::listener::{Accepted, Listener};
use crate::responder::ServerOptions;
use control_socket::PendingOrder;
use http_desk::{ClubFault, ClubService, UnavailableClub};
use mio::{Events, Poll};
use std::alloc::Global;
use std::io;
use std::thread::sleep;
use std::time::Duration;

// The pause after a failed `poll` or `accept`, and before the control socket's `accept` is tried again.
const PAUSE_MILLISECONDS: u64 = 10;

// The idle time after which a session without a control socket, or without a club, ends.
const IDLE_SECONDS: u64 = 1;

// The next item to serve.
#[derive(Drop)]
enum Work {
    // A client on the HTTP port.
    Call(TcpClient),
    // An order on the control socket.
    Order(PendingOrder),
    Nobody,
}

/// An HTTP server on a loopback port.
#[derive(Drop)]
pub struct Server<'a> {
    rt: &'a HostRuntime,
    // Reports new clients, and input of the present ones.
    poll: Poll,
    events: Events<Global>,
    listener: Listener,
    clients: Clients<'a>,
    hold: FileHold<'a>,
}

impl<'a> Server<'a> {
    /// Listens on a port of 127.0.0.1 and, if this machine has IPv6, of `[::1]`; other machines cannot connect.
    ///
    /// # Errors
    ///
    /// An `io::Error` if the port is in use or not permitted, if another socket or poll call fails, or if out of
    /// memory.
    pub fn listen(rt: &'a HostRuntime, port: u16, terms: ServerOptions) -> io::Result<Server<'a>> {
        let poll = Poll::new(rt)?;
        let listener = Listener::bind(rt, port, &poll, terms.count)?;
        let clients = Clients::new(rt, terms)?;
        let events = Events::with_capacity(rt.alloc(), MOST_CLIENTS + 1)?;
        Ok(Server {
            rt,
            poll,
            events,
            listener,
            clients,
            hold: FileHold::new(rt),
        })
    }

    /// Receives until a request or an order is ready; leases the file meanwhile. `false` if no more connections will
    /// follow.
    pub fn wait_for_request(&mut self) -> bool {
        self.clients.clock.restart();
        for _ in 0..u64::MAX {
            if self.has_work() {
                return true;
            }
            if self.is_done() {
                return false;
            }
            self.poll_once(Duration::from_secs(REQUEST_SECONDS));
            let _lent = self.release_file();
        }
        false
    }

    /// Opens the control socket beside a file. If that fails, the server releases the file every two seconds.
    pub fn open_door(&mut self, file: &str) {
        self.hold.open_control(file, &self.poll);
    }

    /// Whether the control socket is open.
    pub fn has_door(&self) -> bool {
        self.hold.has_control()
    }

    /// Closes the control socket and removes its file.
    pub fn close_door(&mut self) {
        self.hold.close_control();
    }

    /// Leases the released file to the first process that waits for it; `false` if none waits. Until the lease ends,
    /// for at most fifteen seconds, requests that need the club are told when to try again.
    pub fn release_file(&mut self) -> bool {
        if !self.hold.has_lease_request() {
            return false;
        }
        self.hold.grant_lease(&self.poll);
        self.receive_during_lease();
        self.hold.end_lease();
        true
    }

    // Answers the requests that are ready during a lease.
    fn answer_leased(&mut self) {
        let mut club = UnavailableClub {
            fault: ClubFault::Leased,
        };
        for _ in 0..MOST_CLIENTS {
            match self.clients.queues.take_ready() {
                Some(client) => {
                    let _served = self
                        .clients
                        .serve(self.rt.alloc(), &self.poll, client, &mut club);
                }
                None => return,
            }
        }
    }

    // Receives clients during a lease.
    fn receive_during_lease(&mut self) {
        let mut left = Duration::from_secs(LEASE_SECONDS);
        self.clients.clock.restart();
        for _ in 0..u64::MAX {
            if left.is_zero() || self.is_stopped() || !self.hold.has_lease_holder() {
                return;
            }
            self.answer_leased();
            let passed = self.poll_once(left);
            left = left.saturating_sub(passed);
        }
    }

    /// Receives clients for `time` without the club; `false` if no more connections will follow.
    pub fn receive_for(&mut self, time: Duration) -> bool {
        self.receive_until(time, false)
    }

    /// Receives clients until a request or an order is ready, for at most `time`; `false` if no more connections will
    /// follow.
    pub fn await_for(&mut self, time: Duration) -> bool {
        self.receive_until(time, true)
    }

    // Receives clients for `time`; if `ends_early`, only until a request or an order is ready.
    fn receive_until(&mut self, time: Duration, ends_early: bool) -> bool {
        self.clients.clock.restart();
        let mut left = time;
        for _ in 0..u64::MAX {
            if self.is_done() {
                return false;
            }
            if left.is_zero() || self.is_stopped() || (ends_early && self.has_work()) {
                return true;
            }
            let passed = self.poll_once(left);
            left = left.saturating_sub(passed);
        }
        false
    }

    // Whether the clock is stopped, since the system clock failed.
    fn is_stopped(&self) -> bool {
        self.clients.clock.last_poll().is_none()
    }

    /// Whether a request or an order is ready.
    pub fn has_work(&self) -> bool {
        self.clients.queues.ready_count() != 0 || self.hold.has_order()
    }

    /// Starts a serving session. Its time limit begins with the first `serve_next`.
    pub fn begin(&mut self) {
        self.begin_for(Duration::from_secs(IDLE_SECONDS), true);
    }

    /// Starts a session that reports a fault to each request and ends after an idle second.
    pub fn begin_unavailable(&mut self) {
        self.begin_for(Duration::from_secs(IDLE_SECONDS), false);
    }

    /// Starts a serving session that serves ready requests only and does not wait for others.
    pub fn serve_queued_only(&mut self) {
        self.begin_for(Duration::ZERO, false);
    }

    // Starts a serving session that ends after `idle` without a request, or holds the club once it is open.
    fn begin_for(&mut self, idle: Duration, holds_club: bool) {
        self.clients.clock.stop();
        self.hold.begin(idle, holds_club);
    }

    // Whether no more connections follow and none is open.
    fn is_done(&self) -> bool {
        self.listener.is_finished() && self.clients.is_empty()
    }

    // Polls once for at most `limit`, reads and accepts clients, and drops those whose time is over. Returns the time
    // passed.
    fn poll_once(&mut self, limit: Duration) -> Duration {
        let limit = limit.min(self.poll_timeout());
        if self.poll.poll(&mut self.events, Some(limit)).is_err() {
            self.pause();
        }
        if self.clients.mark_ready(&self.events) {
            self.listener.mark_readable();
        }
        self.receive_orders();
        let passed = self.clients.clock.update();
        self.clients.send_all(&self.poll);
        self.clients.receive_all();
        self.accept_pending();
        let has_backlog = self.listener.has_backlog();
        self.clients.drop_overdue(has_backlog);
        passed
    }

    // The time until something must be done without input.
    fn poll_timeout(&self) -> Duration {
        let timeout = self.clients.poll_timeout(self.listener.has_backlog());
        if self.hold.has_backlog() {
            timeout.min(Duration::from_millis(PAUSE_MILLISECONDS))
        } else {
            timeout
        }
    }

    // Receives from the control socket. If the process is out of file descriptors, a client makes room.
    fn receive_orders(&mut self) {
        self.hold.receive(&self.poll, &self.events);
        if self.hold.has_backlog() {
            let _made = self.clients.make_room();
        }
    }

    fn pause(&self) {
        sleep(self.rt, Duration::from_millis(PAUSE_MILLISECONDS));
    }

    // Accepts clients from the backlog. If the process is out of file descriptors, a client makes room.
    fn accept_pending(&mut self) {
        for _ in 0..MOST_CLIENTS {
            if !self.listener.has_backlog() || self.clients.is_full() {
                return;
            }
            match self.listener.accept() {
                Accepted::Connection(stream) => self.clients.add(&self.poll, stream),
                Accepted::Nothing => {}
                Accepted::TooManyFiles => {
                    if !self.clients.make_room() {
                        self.pause();
                    }
                    return;
                }
                Accepted::Lost => {
                    self.pause();
                    return;
                }
            }
        }
    }

    // Reads what has arrived before the session serves its next item.
    fn prepare_session(&mut self) {
        self.clients.clock.update();
        self.hold.end_opening(self.clients.queues.ready_count());
        if self.has_work() {
            self.poll_once(Duration::ZERO);
        }
    }

    // The next item to serve: an order before a client. `Nobody` if the session ends.
    fn next_work(&mut self) -> Work {
        self.prepare_session();
        let mut idle = self.hold.idle();
        for _ in 0..u64::MAX {
            let left = self.hold.time_left(self.clients.clock.last_poll());
            if left.is_zero() || self.hold.must_release(self.clients.queues.ready_count()) {
                return Work::Nobody;
            }
            if let Some(ordered) = self.hold.take_order() {
                return Work::Order(ordered);
            }
            if let Some(client) = self.clients.queues.take_ready() {
                self.hold.count_served();
                return Work::Call(client);
            }
            if idle.is_zero() || self.is_done() {
                return Work::Nobody;
            }
            let passed = self.poll_once(left.min(idle));
            idle = idle.saturating_sub(passed);
        }
        Work::Nobody
    }

    // Executes an order and logs it.
    fn serve_ordered<C: ClubService>(
        &mut self,
        alloc: Global,
        ordered: PendingOrder,
        club: &mut C,
    ) -> Served
        ensures clean { C.IsClean club.new → C.IsClean club.old }
        ensures acts { C.IsClean club.new → (s : C.State) → C.Stands club.old s →
            IsServedBy C.club (C.Stands club.new) (C.Leaves club.new) s result }
        ensures unavailable { (fault : ClubFault) → C.IsShut club.old fault →
            C.IsShut club.new fault × IsShutServed fault result }
    {
        let _within = ordered.moment.seconds();
        let done = answer_order(alloc, &ordered, club);
        self.clients.responder.log(
            alloc,
            ordered.moment,
            LogEntry::Order(&ordered.errand, done),
        );
        let PendingOrder { errand, moment, .. } = ordered;
        Served::Order(moment, errand, done)
    }
}

impl Connections for Server<'_> {
    ghost use Rattle.server.specs.declared.connections.Served.{Served};

    ghost HasServed = { λ server items. Unit {0} };

    fn serve_next<C: ClubService>(&mut self, alloc: Global, club: &mut C) -> Option<Served> {
        match self.next_work() {
            Work::Call(client) => {
                let served = self.clients.serve(alloc, &self.poll, client, club);
                Some(served)
            }
            Work::Order(ordered) => {
                let served = self.serve_ordered(alloc, ordered, club);
                Some(served)
            }
            Work::Nobody => None,
        }
    }
}
