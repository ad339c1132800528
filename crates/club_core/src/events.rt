//! Adding an event, and closing one to challenges.

ghost use Rattle.std.specs.Prelude.{◌≡◌, ◌≤◌, ◌<◌, ℕ, length, Option, Some, None, IfNone, string_bytes};
ghost use Rattle.std.specs.List.{list_any};
ghost use Rattle.club_requests.specs.Limits.{most_events};
ghost use Rattle.club_core.specs.Members.{find_id};
ghost use Rattle.club_core.specs.Events.{has_event_name, is_event, same_game, has_good_values, event_refusal};
ghost use Rattle.club_core.specs.Events.{event_declares, event_step, is_closed};
ghost use Rattle.club_core.specs.Closings.{close_step};
ghost use Rattle.club_requests.specs.Outcome.{by_officer};
ghost use Rattle.club_core.specs.Answer.{added_event, outcome_of, answered};
ghost use Rattle.club_core.specs.internal.Answer.{event_of, events_of};

use crate::ids::id_at;
use clocks::Moment;
use club_requests::values::{MOST_EVENTS, is_budget, is_increment, is_name};
use club_requests::{AddEvent, Answer, Caller, CloseEvent, Outcome, Refusal};
use club_rules::GameKind;

/// An event: games of one kind. The budget (initial time per player) and the increment (per move) are in seconds.
#[derive(Debug, Drop)]
pub struct Event {
    pub name: String,
    pub game: GameKind,
    pub budget: u64,
    pub increment: u64,
    /// Whether players may declare a win.
    pub declares: bool,
    /// The timestamp at which the event was closed to challenges, if it was.
    pub closed: Option<Moment>,
}

fn is_same_game(a: GameKind, b: GameKind) -> bool
    ensures { result ≡ same_game a b }
{
    a == b
}

impl Event {
    fn is(&self, command: &AddEvent) -> bool
        ensures { result ≡ is_event (added_event command.now) (event_of self.now) }
    {
        self.name.as_str() == command.name.as_str()
            && is_same_game(self.game, command.game)
            && self.budget == command.budget
            && self.increment == command.increment
    }
}

/// The id of the event that equals the command in all values.
fn find_event(events: &[Event], command: &AddEvent) -> Option<u32>
    requires { length events.now ≤ most_events }
    ensures { result ≡ find_id (is_event (added_event command.now)) (events_of events.now) }
{
    id_at(events.iter().position(|e| e.is(command)))
}

fn has_good_values(command: &AddEvent) -> bool
    ensures { result ≡ has_good_values (added_event command.now) }
{
    is_name(command.name.as_str()) && is_budget(command.budget) && is_increment(command.increment)
}

fn is_taken(events: &[Event], name: &str) -> bool
    ensures { result ≡ list_any (has_event_name name.now) (events_of events.now) }
{
    events.iter().any(|e| e.name.as_str() == name)
}

/// Whether the event of this name exists and allows players to declare a win.
pub fn event_declares(events: &[Event], name: &str) -> bool
    ensures { result ≡ event_declares (events_of events.now) name.now }
{
    events.iter().any(|e| e.name.as_str() == name && e.declares)
}

/// Whether the event with this id exists and is closed to challenges.
pub(crate) fn is_closed(events: &[Event], id: u32) -> bool
    ensures { result ≡ is_closed (events_of events.now) id }
{
    if id == 0 {
        return false;
    }
    match events.get(id as usize - 1) {
        Some(event) => event.closed.is_some(),
        None => false,
    }
}

/// The refusal of a new event, if any.
fn refusal_of_event(events: &[Event], command: &AddEvent) -> Option<Refusal>
    ensures value { result ≡ event_refusal (events_of events.now) (added_event command.now) }
    ensures room { IfNone result (length events.now < most_events) }
{
    if is_taken(events, command.name.as_str()) {
        return Some(Refusal::NameTaken);
    }
    if !has_good_values(command) {
        return Some(Refusal::BadValue);
    }
    if events.len() >= MOST_EVENTS {
        return Some(Refusal::Full);
    }
    None
}

/// Adds an event; only the officer may. `events` is in the order of ids, and the new event gets the next id.
///
/// Adding an event with the same values again is a repeat.
pub fn add_event(events: &[Event], caller: Caller, command: &AddEvent) -> Outcome
    requires { length events.now ≤ most_events }
    ensures { outcome_of result
        ≡ answered (by_officer caller (event_step (events_of events.now) (added_event command.now))) }
{
    if caller != Caller::Officer {
        return Outcome::Refused(Refusal::NotAllowed);
    }
    match find_event(events, command) {
        Some(id) => return Outcome::Repeated(Answer::Event(id)),
        None => {}
    }
    match refusal_of_event(events, command) {
        Some(refusal) => Outcome::Refused(refusal),
        None => Outcome::Accepted(Answer::Event(events.len() as u32 + 1)),
    }
}

/// Closes an event to challenges; only the officer may. `events` is in the order of ids.
///
/// Closing a closed event is a repeat. An event is never opened again.
pub fn close_event(events: &[Event], caller: Caller, command: &CloseEvent) -> Outcome
    requires { length events.now ≤ most_events }
    ensures { (moment : ℕ) → outcome_of result ≡ answered (by_officer caller
        (close_step (events_of events.now) (string_bytes command.now.event) moment)) }
{
    if caller != Caller::Officer {
        return Outcome::Refused(Refusal::NotAllowed);
    }
    let name = command.event.as_str();
    let event = match events.iter().find(|event| event.name.as_str() == name) {
        Some(event) => event,
        None => return Outcome::Refused(Refusal::UnknownEvent),
    };
    if event.closed.is_some() {
        Outcome::Repeated(Answer::EventClosed)
    } else {
        Outcome::Accepted(Answer::EventClosed)
    }
}
