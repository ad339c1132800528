//! Checks the rows of closed events.

ghost use Rattle.std.specs.Prelude.{◌≡◌, ℕ, List, length, pos, true, false, None, IfSome};
ghost use Rattle.club_core.specs.Events.{Event};
ghost use Rattle.club_core.specs.LegalState.{Each};
ghost use Rattle.club_audit.specs.internal.Audit.{AreEvents};
ghost use Rattle.club_audit.specs.internal.ClosingAudit.{AreClosingsAfter, AreClosingsOf, IsClosedBy, IsClosingAfter};

use clocks::Moment;
use club_rows::numbers::to_moment;
use store_tables::{ClosingRow, EventRow};

// The event of the row, if its timestamp is valid and it may come after a row of the event before. `count` events
// exist.
fn event_after(before: usize, row: &ClosingRow, count: usize) -> Option<usize>
    ensures some { IfSome result (λ event. IsClosingAfter count before event row.now) }
    ensures none { result ≡ None → (event : ℕ) → ¬ IsClosingAfter count before event row.now }
{
    match to_moment(row.moment) {
        Some(_) => {}
        None => return None,
    }
    let event = match usize::try_from(row.event) {
        Ok(event) => event,
        Err(_) => return None,
    };
    if before < event && event <= count {
        Some(event)
    } else {
        None
    }
}

/// Whether the rows are those of closed events, each once, of `count` events.
pub fn are_closings(closings: &[ClosingRow], count: usize) -> bool
    ensures sound { result ≡ true → AreClosingsAfter count 0 closings.now }
    ensures complete { AreClosingsAfter count 0 closings.now → result ≡ true }
{
    let mut before = 0;
    for row in closings {
        match event_after(before, row, count) {
            Some(event) => before = event,
            None => return false,
        }
    }
    true
}

// Whether the timestamp of the row is valid and not after `last`.
fn is_closed_by(row: &ClosingRow, last: Moment) -> bool
    ensures sound { result ≡ true → IsClosedBy last row.now }
    ensures complete { IsClosedBy last row.now → result ≡ true }
{
    match to_moment(row.moment) {
        Some(moment) => moment <= last,
        None => false,
    }
}

/// Whether the timestamps of the rows are valid and none is after `last`.
pub fn are_closed_by(closings: &[ClosingRow], last: Moment) -> bool
    ensures sound { result ≡ true → Each (IsClosedBy last) closings.now }
    ensures complete { Each (IsClosedBy last) closings.now → result ≡ true }
{
    for row in closings {
        if !is_closed_by(row, last) {
            return false;
        }
    }
    true
}
