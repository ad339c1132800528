//! Rows of a game that starts in an event.

ghost use Rattle.std.specs.Prelude.{◌≡◌, ◌<◌, [], ◌∷◌, Some, None, IfOk, IsErrOf};
ghost use Rattle.std.specs.Option.{option_map};
ghost use Rattle.club_core.specs.internal.Answer.{event_of, events_of};
ghost use Rattle.club_core.specs.State.{place};
ghost use Rattle.club_core.specs.LegalState.{Each, IsLegalEvent};
ghost use Rattle.club_rows.specs.internal.Replay.{terms_given};
ghost use Rattle.club_changes.specs.internal.Steps.{started, started_seen, started_scores};
ghost use Rattle.club_changes.specs.internal.Steps.{Puts, no_rows};

use crate::fault::ChangeFault;
use crate::kinds::seat_in;
use clocks::Moment;
use club_core::{Event, KeyedGame};
use club_rows::Terms;
use std::alloc::Global;
use store_tables::Changes;

/// The event with this id (from 1).
///
/// # Errors
///
/// `InconsistentRows` if there is none.
pub fn event_at(events: &[Event], event: u32) -> Result<&Event, ChangeFault>
    ensures at { IfOk result (λ e. place (events_of events.now) event ≡ Some (event_of e.now)) }
    ensures unfit { IsErrOf result ChangeFault.InconsistentRows → place (events_of events.now) event ≡ None }
{
    if event == 0 {
        return Err(ChangeFault::InconsistentRows);
    }
    match events.get(event as usize - 1) {
        Some(event) => Ok(event),
        None => Err(ChangeFault::InconsistentRows),
    }
}

/// The terms of an event: budget, increment and whether declarations are allowed.
pub fn terms_of(event: &Event) -> Terms
    ensures { terms_given result ≡ (event_of event.now).terms }
{
    Terms {
        budget: event.budget,
        increment: event.increment,
        declares: event.declares,
    }
}

/// Returns the rows to upsert for a game that starts, with or without a key.
///
/// # Errors
///
/// - `InconsistentRows` if the event does not exist.
/// - `Memory` if out of memory.
pub fn seated_rows(
    alloc: Global,
    events: &[Event],
    new: KeyedGame,
    key: Option<&str>,
    moment: Moment,
) -> Result<Changes, ChangeFault>
    ensures puts { IfOk result (λ changes. Each IsLegalEvent (events_of events.now) →
        Puts changes moment
        (record
        no_rows {
          games = started (events_of events.now) new.game (option_map (λ k. k.now) key.entry)
              new.pairing moment ∷ [];
          seen =
              started_seen (events_of events.now) new.game (option_map (λ k. k.now) key.entry) new.pairing
              moment;
        })) }
    ensures running { IfOk result (λ changes.
        started_scores (events_of events.now) (option_map (λ k. k.now) key.entry) new.pairing moment
        ≡ []) }
    ensures unfit { IsErrOf result ChangeFault.InconsistentRows →
        place (events_of events.now) new.pairing.event ≡ None }
{
    let event = event_at(events, new.pairing.event)?;
    let changes = seat_in(alloc, event.game, terms_of(event), new, key, moment)?;
    Ok(changes)
}
