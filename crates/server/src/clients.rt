//! The clients of a server: reading their requests, time limits, replies and lingering close.

ghost use Rattle.std.specs.Prelude.{◌≡◌, ◌++◌, ℕ, List, IfOk};
ghost use Rattle.http_desk.specs.declared.faults.ClubFault.{ClubFault};
ghost use Rattle.server.specs.Visits.{HasActedOn, HasShutReply, IsAnswered, IsServedBy, IsShutServed};
ghost use Rattle.server.specs.Visits.{IsForeign, IsRejection};

use crate::access_log::{EndReason, LogEntry};
use crate::client::{Client, TcpClient, watch};
use crate::client_queues::{ClientQueues, MOST_CLIENTS};
use crate::connections::Served;
use crate::key_limit::{KeyLimit, is_wrong_key};
use crate::lingering_close::{LEAVING_SECONDS, LingeringClose};
use crate::open_files::most_connections;
use crate::outgoing::{OutgoingReply, SendProgress};
use crate::poll_clock::PollClock;
use crate::request_buffer::{ReadProgress, RequestBuffer};
use crate::responder::{Responder, ServerOptions};
use crate::sending::{
    MOST_WAITING, SENDING_SECONDS, STALLED_SECONDS, SendingClient, SendingClients,
};
use crate::serve::{Connection, Exchange};
use crate::times::first_timestamp;
use clocks::Moment;
use control_socket::with_deadline;
use http_desk::{ClubFault, ClubService, DeskFault, UnavailableClub};
use mio::{Events, Interest, Poll, Token};
use std::alloc::Global;
use std::io;
use std::net::{Shutdown, TcpStream};
use std::time::Duration;

/// The time within which a client must send its request, by the poll clock.
pub(crate) const REQUEST_SECONDS: u64 = 10;

// The time limit for reading the end of a request, of a client that closed its side.
const ENDING_SECONDS: u64 = 1;

// The least time that a client is kept if the server is full and others wait.
const CROWDED_MILLISECONDS: u64 = 10;

/// The clients of a server, from `accept` to the end of the lingering close.
#[derive(Drop)]
pub(crate) struct Clients<'a> {
    rt: &'a HostRuntime,
    // The most clients connected at once.
    most: usize,
    pub(crate) queues: ClientQueues,
    pub(crate) clock: PollClock<'a>,
    pub(crate) responder: Responder<'a>,
    // The wrong keys that were counted.
    keys: KeyLimit,
    // Clients that have not received their whole reply.
    sending: SendingClients,
    // Clients that have their reply and may still send.
    leaving: LingeringClose,
}

impl<'a> Clients<'a> {
    /// No clients.
    ///
    /// # Errors
    ///
    /// An `io::Error` if the poll of standard error cannot be made, or if out of memory.
    pub(crate) fn new(rt: &'a HostRuntime, options: ServerOptions) -> io::Result<Clients<'a>> {
        let responder = Responder::new(rt, options)?;
        Ok(Clients {
            rt,
            most: most_connections(rt),
            queues: ClientQueues::new(rt.alloc())?,
            clock: PollClock::new(rt),
            responder,
            keys: KeyLimit::new(),
            sending: SendingClients::new(rt.alloc())?,
            leaving: LingeringClose::new(rt.alloc())?,
        })
    }

    /// Whether no client is connected.
    pub(crate) fn is_empty(&self) -> bool {
        self.queues.is_empty() && self.sending.is_empty() && self.leaving.is_empty()
    }

    /// Whether the number of clients is at its limit.
    pub(crate) fn is_full(&self) -> bool {
        let queued = self.queues.count().saturating_add(self.sending.count());
        queued.saturating_add(self.leaving.count()) >= self.most
    }

    // The value of `PollClock::polled` to compare with the `until` of a client that is kept for so many seconds; it is
    // further on while the server is full and others wait.
    fn time_over(&self, has_backlog: bool, seconds: u64) -> Duration {
        if has_backlog && self.is_full() {
            let kept = Duration::from_secs(seconds).saturating_sub(Duration::from_millis(
                CROWDED_MILLISECONDS,
            ));
            self.clock.polled().saturating_add(kept)
        } else {
            self.clock.polled()
        }
    }

    // The time until a client that is kept for so many seconds must be dropped; the longest timeout if there is none.
    fn time_left(&self, until: Option<Duration>, has_backlog: bool, seconds: u64) -> Duration {
        match until {
            Some(until) => until.saturating_sub(self.time_over(has_backlog, seconds)),
            None => Duration::from_secs(REQUEST_SECONDS),
        }
    }

    /// The poll timeout: the time until something must be done without input.
    pub(crate) fn poll_timeout(&self, has_backlog: bool) -> Duration {
        if has_backlog && !self.is_full() {
            return Duration::ZERO;
        }
        let receiving = self.time_left(self.queues.first_until(), has_backlog, REQUEST_SECONDS);
        let sending = self.time_left(self.sending.first_until(), has_backlog, STALLED_SECONDS);
        let leaving = self.time_left(self.leaving.first_until(), has_backlog, LEAVING_SECONDS);
        let polled = self.clock.polled();
        let waiting = match self.sending.first_start(polled) {
            Some(start) => start.saturating_sub(polled),
            None => receiving,
        };
        receiving.min(sending).min(leaving).min(waiting)
    }

    /// Marks the clients that the poll reports; whether the listener is readable, too.
    pub(crate) fn mark_ready(&mut self, events: &Events<Global>) -> bool {
        self.sending.mark_writable(events);
        self.queues.mark_readable(events)
    }

    /// Reads from all readable clients.
    pub(crate) fn receive_all(&mut self) {
        let mut at = 0;
        for _ in 0..MOST_CLIENTS {
            if at >= self.queues.receiving_count() {
                return;
            }
            let hosts = self.responder.hosts();
            match self.queues.receive_at(at, hosts) {
                ReadProgress::Partial => at = at.saturating_add(1),
                progress => {
                    if let Some(client) = self.queues.take_receiving(at) {
                        self.place(client, progress);
                    }
                }
            }
        }
    }

    // Puts a client into the queue that its progress calls for, or closes it.
    fn place(&mut self, client: TcpClient, progress: ReadProgress) {
        match progress {
            ReadProgress::Partial => self.queues.push_receiving(client),
            ReadProgress::Complete | ReadProgress::Rejected => self.queues.push_ready(client),
            ReadProgress::Eof => self.close_unanswered(&client, EndReason::Closed),
            ReadProgress::Failed => self.close_unanswered(&client, EndReason::Failed),
        }
    }

    /// Reads from a new client, and registers it with the poll if its request is incomplete.
    pub(crate) fn add(&mut self, poll: &Poll, stream: TcpStream) {
        if stream.set_nonblocking(true).is_err() {
            return;
        }
        let mut client = Client {
            stream,
            heard: RequestBuffer::new(self.rt.alloc()),
            token: self.queues.next_token(),
            until: self.clock.deadline(REQUEST_SECONDS),
            is_readable: false,
            has_unread_input: false,
        };
        let progress = client.receive(self.responder.hosts());
        if matches!(progress, ReadProgress::Partial) {
            let token = Token(client.token);
            if watch(poll, &client.stream, token, Interest::READABLE).is_err() {
                return;
            }
        }
        self.place(client, progress);
    }

    // Drops the client at an index, whose request is incomplete.
    fn drop_client(&mut self, at: usize) {
        if let Some(client) = self.queues.take_receiving(at) {
            let is_over = client.until <= self.clock.polled();
            let reason = if is_over {
                EndReason::Timeout
            } else {
                EndReason::Crowded
            };
            self.close_unanswered(&client, reason);
        }
    }

    // Drops a client whose time is over; whether there was one. While the server is full and others wait, that is one
    // whose request is incomplete, otherwise one that does not read its reply, otherwise one that has its reply.
    fn drop_next(&mut self, has_backlog: bool) -> bool {
        let moment = self.time_over(has_backlog, REQUEST_SECONDS);
        if let Some(at) = self.queues.next_to_drop(self.clock.polled(), moment) {
            self.drop_client(at);
            return true;
        }
        let stalled = self.time_over(has_backlog, STALLED_SECONDS);
        if self.sending.drop_first(stalled) {
            return true;
        }
        let served = self.time_over(has_backlog, LEAVING_SECONDS);
        self.leaving.drop_first(served)
    }

    /// Drops the clients whose time is over, and ends the lingering close of others.
    pub(crate) fn drop_overdue(&mut self, has_backlog: bool) {
        for _ in 0..MOST_CLIENTS {
            if !self.drop_next(has_backlog) {
                break;
            }
        }
        self.leaving.read_off(self.clock.polled());
    }

    /// Drops a client so that its file descriptor is free; whether there was one: the oldest whose request is
    /// incomplete, otherwise one that does not read its reply, otherwise one that has its reply.
    pub(crate) fn make_room(&mut self) -> bool {
        if self.queues.receiving_count() != 0 {
            self.drop_client(0);
            return true;
        }
        self.sending.drop_first(Duration::MAX) || self.leaving.drop_first(Duration::MAX)
    }

    // Logs the end of a client with an incomplete request, which gets no reply.
    fn close_unanswered(&mut self, client: &TcpClient, reason: EndReason) {
        let moment = self.log_timestamp();
        let entry = LogEntry::Ended(client.heard.as_bytes(), reason);
        self.responder.log(self.rt.alloc(), moment, entry);
    }

    // The timestamp for a line of the log: the present one, or the first one if there is none.
    fn log_timestamp(&self) -> Moment {
        self.responder.timestamp().unwrap_or(first_timestamp())
    }

    /// Sends to all clients that are writable, and closes those that have their whole reply.
    pub(crate) fn send_all(&mut self, poll: &Poll) {
        let moment = self.clock.polled();
        let until = self.clock.deadline(STALLED_SECONDS);
        let mut at = 0;
        for _ in 0..MOST_CLIENTS {
            if at >= self.sending.count() {
                return;
            }
            match self.sending.send_at(at, moment, until) {
                SendProgress::Blocked => at = at.saturating_add(1),
                progress => {
                    if let Some(client) = self.sending.take(at) {
                        self.finish(poll, client, progress);
                    }
                }
            }
        }
    }

    // Sends a reply as far as the socket takes it now; the rest is sent once the socket is writable. A reply that waits
    // is kept; if too many wait, it is not sent.
    fn send(&mut self, poll: &Poll, client: SendingClient) {
        let mut client = client;
        let polled = self.clock.polled();
        if client.start > polled {
            let most = MOST_WAITING.min(self.most / 2);
            if self.sending.waiting_count(polled) < most {
                self.sending.push(poll, client);
            }
            return;
        }
        let progress = client.send(self.clock.deadline(STALLED_SECONDS));
        self.finish(poll, client, progress);
    }

    // Keeps a client for the rest of its reply, or ends it.
    fn finish(&mut self, poll: &Poll, client: SendingClient, progress: SendProgress) {
        match progress {
            SendProgress::Blocked => self.sending.push(poll, client),
            SendProgress::Complete => {
                let is_early = client.has_unread_input;
                self.close_lingering(poll, client.reply.into_stream(), is_early);
            }
            SendProgress::Partial | SendProgress::Failed => {}
        }
    }

    /// Serves a client at the present timestamp. A request for another host is refused, and so is one that needs the
    /// club if there is no timestamp; the club does not see these.
    ///
    /// # Guarantees
    ///
    /// `foreign`: a request whose received bytes are for another host is not served.
    pub(crate) fn serve<C: ClubService>(
        &mut self,
        alloc: Global,
        poll: &Poll,
        client: TcpClient,
        club: &mut C,
    ) -> Served
        ensures clean { C.IsClean club.new → C.IsClean club.old }
        ensures acts { C.IsClean club.new → (s : C.State) → C.Stands club.old s →
            IsServedBy C.club (C.Stands club.new) (C.Leaves club.new) s result }
        ensures unavailable { (fault : ClubFault) → C.IsShut club.old fault →
            C.IsShut club.new fault × IsShutServed fault result }
    {
        if self.responder.is_foreign(client.heard.as_bytes()) {
            let done = self.refuse_host(alloc, poll, client);
            return Served::Rejected(done);
        }
        let Some(moment) = self.responder.timestamp() else {
            let done = self.serve_untimed(alloc, poll, client);
            return Served::Rejected(done);
        };
        let _within = moment.seconds();
        let limit = Duration::from_secs(ENDING_SECONDS);
        let done = self.serve_within(alloc, poll, client, limit, club, moment);
        Served::Request(moment, done)
    }

    // Replies to a client whose request is for another host.
    fn refuse_host(
        &mut self,
        alloc: Global,
        poll: &Poll,
        client: TcpClient,
    ) -> Result<Exchange, DeskFault>
        requires { IsForeign client.heard.bytes.items }
        ensures { IsRejection result }
    {
        let Client {
            stream,
            heard,
            token,
            has_unread_input,
            ..
        } = client;
        let mut writer = Vec::new(alloc);
        let done = self
            .responder
            .refuse_host(alloc, heard.into_bytes(), &mut writer);
        let moment = self.log_timestamp();
        self.responder.log(alloc, moment, LogEntry::Call(&done));
        if done.is_ok() {
            let start = self.clock.polled();
            let reply = OutgoingReply::new(stream, writer);
            self.send_reply(poll, reply, token, start, has_unread_input);
        }
        done
    }

    // Serves a client without a timestamp: a reply that needs the club reports that there is none.
    fn serve_untimed(
        &mut self,
        alloc: Global,
        poll: &Poll,
        client: TcpClient,
    ) -> Result<Exchange, DeskFault>
        ensures { IsRejection result }
    {
        let mut club = UnavailableClub {
            fault: ClubFault::Clock,
        };
        let limit = Duration::from_secs(ENDING_SECONDS);
        let moment = first_timestamp();
        let done = self.serve_within(alloc, poll, client, limit, &mut club, moment);
        done
    }

    // Sends a reply, not before `start`.
    fn send_reply(
        &mut self,
        poll: &Poll,
        reply: OutgoingReply<TcpStream>,
        token: usize,
        start: Duration,
        has_unread_input: bool,
    ) {
        let client = SendingClient {
            reply,
            token,
            start,
            until: start.saturating_add(Duration::from_secs(STALLED_SECONDS)),
            end: start.saturating_add(Duration::from_secs(SENDING_SECONDS)),
            is_writable: false,
            has_unread_input,
        };
        self.send(poll, client);
    }

    // The value of `PollClock::polled` at which the reply of an exchange may be sent: now, unless it is to a wrong key.
    fn start_of(&mut self, alloc: Global, moment: Moment, done: &Exchange) -> Duration {
        let polled = self.clock.polled();
        if !is_wrong_key(&done.bytes, &done.reply) {
            return polled;
        }
        let now = u64::try_from(polled.as_millis()).unwrap_or(u64::MAX);
        let reply = self.keys.count_wrong_key(now);
        if reply.is_first {
            self.responder.log(alloc, moment, LogEntry::WrongKeys);
        }
        Duration::from_millis(reply.time).max(polled)
    }

    // Serves a client, whose input is read for at most `limit`, logs the request, and sends the reply. A client without
    // a reply is closed.
    fn serve_within<C: ClubService>(
        &mut self,
        alloc: Global,
        poll: &Poll,
        client: TcpClient,
        limit: Duration,
        club: &mut C,
        moment: Moment,
    ) -> Result<Exchange, DeskFault>
        ensures clean { C.IsClean club.new → C.IsClean club.old }
        ensures acts { C.IsClean club.new → (s : C.State) → C.Stands club.old s →
            HasActedOn C.club (C.Stands club.new) (C.Leaves club.new) s moment client.heard.bytes.items }
        ensures answers { C.IsClean club.new → (s : C.State) → C.Stands club.old s →
            IsAnswered C.club (C.Stands club.new) (C.Leaves club.new) s moment result }
        ensures unavailable { (fault : ClubFault) → C.IsShut club.old fault →
            C.IsShut club.new fault × HasShutReply fault result }
        ensures begins { IfOk result (λ done.
            (further : List ℕ) × (done.bytes.items ≡ client.heard.bytes.items ++ further)) }
    {
        let Client {
            stream,
            heard,
            token,
            has_unread_input,
            ..
        } = client;
        let mut connection = Connection {
            reader: with_deadline(self.rt, &stream, limit),
            writer: Vec::new(alloc),
        };
        let done = self
            .responder
            .reply(alloc, heard.into_bytes(), &mut connection, club, moment);
        self.responder.log(alloc, moment, LogEntry::Call(&done));
        let Connection { writer: bytes, .. } = connection;
        if let Ok(exchange) = &done {
            let start = self.start_of(alloc, moment, exchange);
            let reply = OutgoingReply::new(stream, bytes);
            self.send_reply(poll, reply, token, start, has_unread_input);
        }
        done
    }

    // Shuts down our side of a connection; the socket is closed after the client's input is drained.
    fn close_lingering(&mut self, poll: &Poll, stream: TcpStream, is_early: bool) {
        let _ended = stream.shutdown(Shutdown::Write);
        let until = self.clock.deadline(LEAVING_SECONDS);
        self.leaving.add(poll, stream, until, is_early);
    }
}
