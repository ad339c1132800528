//! Timestamps, players' clocks and calendar dates.
//!
//! # Guarantees
//!
//! - `Clock::spend` (`in_time`, `after`), `Clock::deadline`: one step of a clock, and the last second in which a move
//!   is in time.
//! - `civil`: the UTC date and time of a timestamp.
#![tactic(auto)]

pub mod clock;
pub mod dates;
pub mod moment;

pub use clock::{Clock, OutOfTime};
pub use dates::{CivilTime, civil};
pub use moment::Moment;
