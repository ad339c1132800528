//! The clock of the poll loop. It is stopped between two serving sessions, while the file is opened or closed.

use std::time::{Duration, Instant};

/// Counts the time for the time limits of clients.
#[derive(Drop)]
pub(crate) struct PollClock<'a> {
    rt: &'a HostRuntime,
    // The time for which the clock has run, and the time of the last poll.
    polled: Duration,
    last_poll: Option<Instant>,
}

impl<'a> PollClock<'a> {
    /// A stopped clock at zero.
    pub(crate) fn new(rt: &'a HostRuntime) -> PollClock<'a> {
        PollClock {
            rt,
            polled: Duration::ZERO,
            last_poll: None,
        }
    }

    /// The time for which the clock has run; a client's `until` is compared with it.
    pub(crate) fn polled(&self) -> Duration {
        self.polled
    }

    /// The value of `polled` after so many more seconds.
    pub(crate) fn deadline(&self, seconds: u64) -> Duration {
        self.polled.saturating_add(Duration::from_secs(seconds))
    }

    /// The time of the last poll; `None` if the clock is stopped.
    pub(crate) fn last_poll(&self) -> Option<Instant> {
        self.last_poll
    }

    /// Stops the clock.
    pub(crate) fn stop(&mut self) {
        self.last_poll = None;
    }

    /// Starts the clock now.
    pub(crate) fn restart(&mut self) {
        self.last_poll = None;
        self.update();
    }

    /// Adds the time since the last call, and returns it; starts a stopped clock. If the system clock fails, the clock
    /// stops.
    pub(crate) fn update(&mut self) -> Duration {
        let Ok(now) = Instant::now(self.rt) else {
            self.last_poll = None;
            return Duration::ZERO;
        };
        let passed = match self.last_poll {
            Some(last) => now.duration_since(last),
            None => Duration::ZERO,
        };
        self.last_poll = Some(now);
        self.polled = self.polled.saturating_add(passed);
        passed
    }
}
