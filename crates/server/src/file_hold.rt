//! How long the server holds the file: leases to other processes, orders of the control socket, and the time limits of
//! a serving session.

ghost use Rattle.std.specs.Prelude.{◌≡◌, Err};
ghost use Rattle.http_desk.specs.declared.faults.ClubFault.{ClubFault};
ghost use Rattle.control_socket.specs.declared.orders.OrderFault.TheVariants.{NotDone};
ghost use Rattle.server.specs.Visits.{IsOrderAnswered};

use control_socket::{
    CONTROL_TOKEN, ControlListener, OrderFault, PendingOrder, serve_order, should_release,
};
use http_desk::ClubService;
use mio::{Events, Poll};
use std::alloc::Global;
use std::time::{Duration, Instant};

// The time limit for writing the answer to an order while the club is held.
const WRITE_SECONDS: u64 = 1;

// The longest serving session under load without a control socket. With one, the interval at which the server checks
// that its socket file still exists.
const HELD_SECONDS: u64 = 2;

/// The longest lease of the file, in seconds. A command over a large club takes less.
pub(crate) const LEASE_SECONDS: u64 = 15;

/// The hold of a server on its file, and the control socket by which others request the file or send orders.
#[derive(Drop)]
pub(crate) struct FileHold<'a> {
    rt: &'a HostRuntime,
    control: Option<ControlListener<'a>>,
    // The start of the present interval of holding the file.
    held_since: Option<Instant>,
    // The idle time after which the serving session ends.
    idle: Duration,
    // Whether an open club is held until a process asks for the file.
    holds_club: bool,
    // Whether the club is not open yet.
    is_opening: bool,
    // The number of requests that were queued while the club was opened and are not served yet.
    queued_while_opening: usize,
}

/// Executes an order and sends its answer. If the order is not accepted, the command line executes it itself.
pub(crate) fn answer_order<C: ClubService>(
    alloc: Global,
    ordered: &PendingOrder,
    club: &mut C,
) -> Result<bool, OrderFault>
    ensures clean { C.IsClean club.new → C.IsClean club.old }
    ensures answers { C.IsClean club.new → (s : C.State) → C.Stands club.old s →
        IsOrderAnswered C.club (C.Stands club.new) (C.Leaves club.new) s ordered.now.moment ordered.now.errand result }
    ensures unavailable { (fault : ClubFault) → C.IsShut club.old fault →
        C.IsShut club.new fault × (result ≡ Err NotDone) }
{
    let limit = Some(Duration::from_secs(WRITE_SECONDS));
    let stream = &ordered.stream;
    let _waits = stream.set_nonblocking(false).is_ok() && stream.set_write_timeout(limit).is_ok();
    let mut writer = stream;
    serve_order(alloc, &mut writer, club, &ordered.errand, ordered.moment)
}

impl<'a> FileHold<'a> {
    /// No hold, and no control socket.
    pub(crate) fn new(rt: &'a HostRuntime) -> FileHold<'a> {
        FileHold {
            rt,
            control: None,
            held_since: None,
            idle: Duration::ZERO,
            holds_club: false,
            is_opening: false,
            queued_while_opening: 0,
        }
    }

    /// Opens the control socket beside a file.
    pub(crate) fn open_control(&mut self, file: &str, poll: &Poll) {
        self.control = ControlListener::open(self.rt, file, poll).ok();
    }

    /// Whether the control socket is open.
    pub(crate) fn has_control(&self) -> bool {
        self.control.is_some()
    }

    /// Closes the control socket and removes its file.
    pub(crate) fn close_control(&mut self) {
        if let Some(control) = &self.control {
            control.close();
        }
        self.control = None;
    }

    /// Whether a connection waits at the control socket that could not be accepted.
    pub(crate) fn has_backlog(&self) -> bool {
        self.control
            .as_ref()
            .is_some_and(|control| control.has_backlog())
    }

    /// Reads from the control socket, if it is readable or a connection could not be accepted before.
    pub(crate) fn receive(&mut self, poll: &Poll, events: &Events<Global>) {
        let has_come = events.iter().any(|event| event.token() == CONTROL_TOKEN);
        if let Some(control) = &mut self.control {
            if has_come || control.has_backlog() {
                control.hear(poll);
            }
        }
    }

    // Whether the control socket still works; if its file was removed, it is closed so that another can be opened.
    fn is_reachable(&mut self) -> bool {
        let is_current = self
            .control
            .as_ref()
            .is_some_and(|control| control.is_current());
        if !is_current {
            self.control = None;
        }
        is_current
    }

    /// Whether an order is ready.
    pub(crate) fn has_order(&self) -> bool {
        self.control
            .as_ref()
            .is_some_and(|control| control.has_order())
    }

    /// The oldest order whose sender is still connected.
    pub(crate) fn take_order(&mut self) -> Option<PendingOrder> {
        match &mut self.control {
            Some(control) => control.next_order(),
            None => None,
        }
    }

    /// Whether a process waits for the file.
    pub(crate) fn has_lease_request(&self) -> bool {
        self.control
            .as_ref()
            .is_some_and(|control| control.has_lease_request())
    }

    /// Leases the released file to the first process that waits for it.
    pub(crate) fn grant_lease(&mut self, poll: &Poll) {
        if let Some(control) = &mut self.control {
            control.let_in(poll);
        }
    }

    /// Whether a lease is held, and its holder is still connected.
    pub(crate) fn has_lease_holder(&self) -> bool {
        self.control
            .as_ref()
            .is_some_and(|control| control.has_guest())
    }

    /// Ends the lease.
    pub(crate) fn end_lease(&mut self) {
        if let Some(control) = &mut self.control {
            control.end_lease();
        }
    }

    /// Starts a serving session that ends after `idle` without a request, or holds the club once it is open.
    pub(crate) fn begin(&mut self, idle: Duration, holds_club: bool) {
        self.held_since = None;
        self.queued_while_opening = 0;
        self.is_opening = true;
        self.idle = idle;
        self.holds_club = holds_club;
    }

    /// The club is open. With a control socket the file is held until a process asks for it, so that no request waits
    /// for an opening. Requests that were queued meanwhile are served before the file is released again.
    pub(crate) fn end_opening(&mut self, ready: usize) {
        if !self.is_opening {
            return;
        }
        self.is_opening = false;
        self.queued_while_opening = ready;
        if self.has_control() && self.holds_club {
            self.idle = Duration::MAX;
        }
    }

    /// The idle time after which the serving session ends.
    pub(crate) fn idle(&self) -> Duration {
        self.idle
    }

    /// Counts a client that is taken out of the queue.
    pub(crate) fn count_served(&mut self) {
        self.queued_while_opening = self.queued_while_opening.saturating_sub(1);
    }

    /// Whether the file must be released to a waiting process after the present request.
    pub(crate) fn must_release(&self, ready: usize) -> bool {
        should_release(self.has_lease_request(), self.queued_while_opening, ready)
    }

    /// The time left of the serving session. With a control socket the session continues as long as the socket file
    /// exists.
    pub(crate) fn time_left(&mut self, now: Option<Instant>) -> Duration {
        let Some(now) = now else {
            return Duration::ZERO;
        };
        let held = match self.held_since {
            Some(since) => now.duration_since(since),
            None => Duration::ZERO,
        };
        let left = Duration::from_secs(HELD_SECONDS).saturating_sub(held);
        if self.held_since.is_none() || (left.is_zero() && self.is_reachable()) {
            self.held_since = Some(now);
            return Duration::from_secs(HELD_SECONDS);
        }
        left
    }
}
