//! A player's clock: the time control of a correspondence game.

ghost use Rattle.std.specs.Prelude.{◌≡◌, ◌+◌, ◌^◌, ◌<◌, ◌↔◌, IsOk, IfOk};

use crate::moment::Moment;
use std::fmt;

/// A player's clock, in seconds: the time left, and the increment that each move in time adds.
#[derive(Clone, Copy, Debug, PartialEq, Eq, Hash)]
pub struct Clock {
    pub left: u64,
    pub increment: u64,
}

/// The error of a move that took more seconds than were left.
#[derive(Clone, Copy, Debug, PartialEq, Eq)]
pub struct OutOfTime;

impl fmt::Display for OutOfTime {
    fn fmt<W: fmt::Write>(&self, f: &mut fmt::Formatter<W>) -> fmt::Result {
        f.write_str("the move took more seconds than were left")
    }
}

impl std::error::Error for OutOfTime {}

impl Clock {
    ghost use Rattle.clocks.specs.Clock.{after_move};
    ghost use Rattle.clocks.specs.internal.Clock.{IsInTime};

    /// The clock after a move that took `elapsed` seconds.
    ///
    /// A move is in time if `elapsed` is at most the time left. The clock then loses `elapsed` and gains the increment.
    ///
    /// # Errors
    ///
    /// `OutOfTime` if `elapsed` is greater than the time left.
    pub fn spend(self, elapsed: u64) -> Result<Clock, OutOfTime>
        requires { self.left + self.increment < 2 ^ 64 }
        ensures in_time { IsOk result ↔ IsInTime self elapsed }
        ensures after { IfOk result (λ clock. clock ≡ after_move self elapsed) }
    {
        if self.left < elapsed {
            return Err(OutOfTime);
        }
        Ok(Clock {
            left: self.left - elapsed + self.increment,
            increment: self.increment,
        })
    }

    /// The last Unix second in which a move is in time if the clock runs since `since`.
    ///
    /// It may be greater than `Moment::LAST`.
    pub fn deadline(self, since: Moment) -> u64
        requires { since + self.left < 2 ^ 64 }
        ensures { result ≡ since + self.left }
    {
        since.seconds() + self.left
    }
}
