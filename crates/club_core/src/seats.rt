//! Starting a game between two members.

ghost use Rattle.std.specs.Prelude.{◌≡◌, ◌≤◌, ◌<◌, ◌+◌, length, ℕ, Option, Some, None, IfOk, IfNone};
ghost use Rattle.std.specs.Prelude.{string_bytes, Bool};
ghost use Rattle.std.specs.Option.{option_map};
ghost use Rattle.club_requests.specs.Limits.{most_members, most_events, most_games};
ghost use Rattle.club_core.specs.Members.{find_id};
ghost use Rattle.club_core.specs.Events.{has_event_name};
ghost use Rattle.club_core.specs.Seats.{has_member_name, same_seats, seat_refusal, seat_step, seat_found, is_id};
ghost use Rattle.club_core.specs.Seats.{are_distinct};
ghost use Rattle.club_requests.specs.Outcome.{by_officer, game_seated};
ghost use Rattle.club_core.specs.State.{seated};
ghost use Rattle.club_core.specs.internal.Answer.{members_of, events_of, seating_of};
ghost use Rattle.club_core.specs.View.{IsRowOf};

use crate::events::Event;
use crate::ids::id_at;
use crate::members::Member;
use crate::rows::GameRow;
use clocks::Moment;
use club_requests::values::{MOST_GAMES, is_name};
use club_requests::{Caller, Refusal, Seat};
use club_rules::{Memory, Rules};
use std::alloc::Global;

/// An event and the two players of a game, by id.
#[derive(Clone, Copy, Debug, PartialEq, Eq)]
pub struct Pairing {
    pub event: u32,
    pub first: u32,
    pub second: u32,
}

/// The game that is stored under a key, with its id.
#[derive(Clone, Copy, Debug, PartialEq, Eq)]
pub struct KeyedGame {
    pub game: u32,
    pub pairing: Pairing,
}

/// An event and two players as a command names them; a player is `None` if no member has the name.
#[derive(Clone, Copy, Debug, PartialEq, Eq)]
pub struct NamedPairing {
    pub event: u32,
    pub first: Option<u32>,
    pub second: Option<u32>,
}

/// The facts about stored games on which a new game with a key depends.
#[derive(Clone, Copy, Debug, PartialEq, Eq)]
pub struct StoredGames {
    /// The game that already has the key.
    pub under_key: Option<KeyedGame>,
    /// The number of games.
    pub count: u32,
}

/// The outcome of a `seat` command: a new game with this id, a repeat of the command that started it, or a refusal.
#[derive(Clone, Copy, Debug, PartialEq, Eq)]
pub enum SeatDecision {
    Starts(KeyedGame),
    Repeated(u32),
    Refused(Refusal),
}

/// The id of the event with this name.
pub fn find_event(events: &[Event], name: &str) -> Option<u32>
    requires { length events.now ≤ most_events }
    ensures { result ≡ find_id (has_event_name name.now) (events_of events.now) }
{
    id_at(events.iter().position(|e| e.name.as_str() == name))
}

/// The id of the member with this name.
pub fn find_member(members: &[Member], name: &str) -> Option<u32>
    requires { length members.now ≤ most_members }
    ensures { result ≡ find_id (has_member_name name.now) (members_of members.now) }
{
    id_at(members.iter().position(|m| m.name.as_str() == name))
}

/// Whether an id was found and equals `id`.
pub fn is_id(found: Option<u32>, id: u32) -> bool
    ensures { result ≡ is_id found id }
{
    match found {
        Some(other) => other == id,
        None => false,
    }
}

/// Whether both ids were found and differ.
pub fn are_distinct(first: Option<u32>, second: Option<u32>) -> bool
    ensures { result ≡ are_distinct first second }
{
    match first {
        Some(one) => match second {
            Some(other) => one != other,
            None => false,
        },
        None => false,
    }
}

/// The id of the game under the key, if it has the same event and the same players on the same sides.
pub fn repeated_seat(named: NamedPairing, under_key: Option<KeyedGame>) -> Option<u32>
    ensures { option_map game_seated result ≡ same_seats named.event named.first named.second under_key }
{
    let old = match under_key {
        Some(old) => old,
        None => return None,
    };
    let same = named.event == old.pairing.event
        && is_id(named.first, old.pairing.first)
        && is_id(named.second, old.pairing.second);
    if same { Some(old.game) } else { None }
}

/// The refusal of a new game, if any.
fn refusal_of_seat(named: NamedPairing, stored: StoredGames, key: &str) -> Option<Refusal>
    ensures value { result ≡ seat_refusal stored.under_key stored.count key.now named.first named.second }
    ensures room { IfNone result (stored.count < most_games) }
{
    if stored.under_key.is_some() {
        return Some(Refusal::Conflict);
    }
    if !is_name(key) || !are_distinct(named.first, named.second) {
        return Some(Refusal::BadValue);
    }
    if stored.count >= MOST_GAMES {
        return Some(Refusal::Full);
    }
    None
}

/// Seats two players after the names are looked up.
fn seat_found(named: NamedPairing, stored: StoredGames, key: &str) -> SeatDecision
    ensures { seating_of result ≡ seat_found (Some named.event) named.first named.second stored.under_key
        stored.count key.now }
{
    match repeated_seat(named, stored.under_key) {
        Some(game) => return SeatDecision::Repeated(game),
        None => {}
    }
    match refusal_of_seat(named, stored, key) {
        Some(refusal) => return SeatDecision::Refused(refusal),
        None => {}
    }
    let first = match named.first {
        Some(first) => first,
        None => return SeatDecision::Refused(Refusal::BadValue),
    };
    let second = match named.second {
        Some(second) => second,
        None => return SeatDecision::Refused(Refusal::BadValue),
    };
    SeatDecision::Starts(KeyedGame {
        game: stored.count + 1,
        pairing: Pairing {
            event: named.event,
            first,
            second,
        },
    })
}

/// Starts a game between two members; only the officer may.
///
/// `members` and `events` are in the order of ids. The new game gets the next id.
pub fn seat(
    members: &[Member],
    events: &[Event],
    stored: StoredGames,
    caller: Caller,
    command: &Seat,
) -> SeatDecision
    requires members { length members.now ≤ most_members }
    requires events { length events.now ≤ most_events }
    ensures { seating_of result ≡ by_officer caller (seat_step (members_of members.now) (events_of events.now)
        stored.under_key stored.count (string_bytes command.now.key)
        (string_bytes command.now.event) (string_bytes command.now.first) (string_bytes command.now.second)) }
{
    if caller != Caller::Officer {
        return SeatDecision::Refused(Refusal::NotAllowed);
    }
    let event = match find_event(events, command.event.as_str()) {
        Some(event) => event,
        None => return SeatDecision::Refused(Refusal::UnknownEvent),
    };
    let named = NamedPairing {
        event,
        first: find_member(members, command.first.as_str()),
        second: find_member(members, command.second.as_str()),
    };
    seat_found(named, stored, command.key.as_str())
}

/// The row of a new game with a key, each player having the budget (in seconds).
///
/// # Errors
///
/// `Memory` if out of memory.
pub fn seated_row<R: Rules>(
    alloc: Global,
    key: &str,
    pairing: Pairing,
    budget: u64,
    start: Moment,
) -> Result<GameRow<R::End>, Memory>
    ensures { IfOk result (λ row. (increment : ℕ) (declares : Bool) →
        IsRowOf R.rules (record { budget = budget; increment = increment; declares = declares })
        (seated (Some key.now) pairing start) row) }
{
    let key = String::from_str(alloc, key)?;
    started_row::<R>(alloc, Some(key), pairing, budget, start)
}

/// The row of a new game without a key, as started by a challenge. The budget is in seconds.
///
/// # Errors
///
/// `Memory` if out of memory.
pub fn keyless_row<R: Rules>(
    alloc: Global,
    pairing: Pairing,
    budget: u64,
    start: Moment,
) -> Result<GameRow<R::End>, Memory>
    ensures { IfOk result (λ row. (increment : ℕ) (declares : Bool) →
        IsRowOf R.rules (record { budget = budget; increment = increment; declares = declares })
        (seated None pairing start) row) }
{
    started_row::<R>(alloc, None, pairing, budget, start)
}

/// The row of a new game. No rule ends a game before its first move.
fn started_row<R: Rules>(
    alloc: Global,
    key: Option<String>,
    pairing: Pairing,
    budget: u64,
    start: Moment,
) -> Result<GameRow<R::End>, Memory>
    ensures { IfOk result (λ row. (increment : ℕ) (declares : Bool) →
        IsRowOf R.rules (record { budget = budget; increment = increment; declares = declares })
        (seated (option_map (λ k. string_bytes k) key) pairing start) row) }
{
    let position = R::start();
    let track = R::track_start(&position);
    let text = R::write_position(alloc, &position)?;
    Ok(GameRow {
        key,
        event: pairing.event,
        first: pairing.first,
        second: pairing.second,
        start,
        since: start,
        plies: 0,
        left_first: budget,
        left_second: budget,
        track: R::track_numbers(&track),
        offer: None,
        outside: None,
        end: None,
        result: None,
        position: text,
    })
}
