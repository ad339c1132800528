//! The system clock, and the timestamp in its place if it fails.

use clocks::Moment;
use std::time::{SystemTime, UNIX_EPOCH};

/// The timestamp of the system clock; `None` if the clock fails or is out of the range of `Moment`.
pub fn clock(rt: &HostRuntime) -> Option<Moment> {
    let now = match SystemTime::now(rt) {
        Ok(now) => now,
        Err(_) => return None,
    };
    match now.duration_since(UNIX_EPOCH) {
        Ok(since) => Moment::new(since.as_secs()),
        Err(_) => None,
    }
}

/// The first timestamp, in place of the system clock's if that fails or is out of range.
pub(crate) fn first_timestamp() -> Moment {
    match Moment::new(0) {
        Some(moment) => moment,
        None => unreachable!(),
    }
}
