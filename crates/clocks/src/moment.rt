//! Timestamps, in Unix seconds.

ghost use Rattle.std.specs.Prelude.{◌≡◌, ◌↔◌, ◌≤◌, IsSome, IfSome, max};

use std::marker::Model;

/// A timestamp in Unix seconds, from 0 to 253,402,300,799 (9999-12-31 at 23:59:59 UTC).
#[derive(Clone, Copy, Debug, PartialEq, Eq, PartialOrd, Ord, Hash)]
pub struct Moment {
    seconds: u64,
}

impl Model for Moment {
    ghost use Rattle.std.specs.Prelude.{ℕ, ◌≤◌};

    ghost Value = { ℕ };

    ghost view = { λ m. m.seconds };

    ghost invariant = { λ m. m.seconds ≤ 253_402_300_799 };

    ghost inverse = { λ n. record { seconds = n } };
}

impl Moment {
    /// The last timestamp, in Unix seconds.
    pub const LAST: u64 = 253_402_300_799;

    /// The timestamp of a number of Unix seconds, or `None` if it is greater than `Moment::LAST`.
    pub fn new(seconds: u64) -> Option<Moment>
        ensures some { IsSome result ↔ (seconds ≤ 253_402_300_799) }
        ensures value { IfSome result (λ m. m ≡ seconds) }
    {
        if seconds <= Moment::LAST {
            Some(Moment { seconds })
        } else {
            None
        }
    }

    /// The Unix seconds of the timestamp.
    pub fn seconds(self) -> u64
        ensures value { result ≡ self }
        ensures range { result ≤ 253_402_300_799 }
    {
        self.seconds
    }

    /// The later of two timestamps.
    pub fn later(self, other: Moment) -> Moment
        ensures { result ≡ max self other }
    {
        if self.seconds < other.seconds {
            other
        } else {
            self
        }
    }
}
