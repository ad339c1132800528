//! The lists of a club as lines of text.

ghost use Rattle.std.specs.Prelude.{◌≡◌, ◌==◌, IfOk, length, not, ◌&&◌, string_bytes};
ghost use Rattle.std.specs.Option.{option_map};
ghost use Rattle.club_core.specs.internal.Answer.{event_of, events_of, member_of, members_of};
ghost use Rattle.club_core.specs.State.{kind_at, place};
ghost use Rattle.club_lists.specs.Dates.{IsUntil};
ghost use Rattle.club_lists.specs.Lines.{member_lines, game_name, games_of, running_of, event_tail, event_text};
ghost use Rattle.club_lists.specs.Lines.{closed_tail, key_tail, kind_name, member_line};
ghost use Rattle.club_lists.specs.Lines.{event_line, game_tail};
ghost use Rattle.club_lists.specs.Lines.{event_lines, key_text, player_name, game_line, IsGameState, IsGameLine};
ghost use Rattle.club_lists.specs.Lines.{AreGameLines};
ghost use Rattle.club_lists.specs.Listing.{listed_games};
ghost use Rattle.club_lists.specs.GameSummary.{deadline, is_over};
ghost use Rattle.club_lists.specs.internal.SummaryViews.{summary_of, summaries_of};

use crate::dates::date_text;
use crate::game_entry::GameEntry;
use crate::listing::{event_name, is_listed, member_name};
use clocks::Moment;
use club_core::{Event, Member};
use club_requests::Listing;
use club_rules::GameKind;
use squares::Side;
use std::alloc::{AllocError, Global};

// How many keys the member was given later, which is the number of the present key.
fn key_number(member: &Member) -> usize
    ensures { result ≡ length (member_of member.now).later }
{
    member.later.as_slice().len()
}

// The number of a key, after the name of its member; nothing for the first key.
fn key_tail(alloc: Global, number: usize) -> Result<String, AllocError>
    ensures { IfOk result (λ tail. string_bytes tail ≡ key_tail number) }
{
    match number {
        0 => Ok(String::new(alloc)),
        _ => format!(in alloc; " key {number}"),
    }
}

fn member_line(alloc: Global, id: usize, member: &Member) -> Result<String, AllocError>
    ensures { IfOk result (λ line. string_bytes line ≡ member_line id (member_of member.now)) }
{
    let name = member.name.as_str();
    let tail = key_tail(alloc, key_number(member))?;
    format!(in alloc; "member {id} {name}{tail}\n")
}

/// The members, one per line, with the number of the present key if it is not the first one. No key is written.
///
/// # Errors
///
/// `AllocError` if out of memory.
pub fn members_text(alloc: Global, members: &[Member]) -> Result<String, AllocError>
    ensures { IfOk result (λ text. string_bytes text ≡ member_lines (members_of members.now)) }
{
    let mut text = String::new(alloc);
    let mut id: usize = 0;
    for member in members {
        id += 1;
        let line = member_line(alloc, id, member)?;
        text.push_str(line.as_str())?;
    }
    Ok(text)
}

/// The name of a game: `draughts` or `shogi`.
pub(crate) fn game_name(game: GameKind) -> &'static str
    ensures { result.now ≡ game_name game }
{
    match game {
        GameKind::Draughts => "draughts",
        GameKind::Shogi => "shogi",
    }
}

// The game that is played in the event with this id; `Draughts` if there is no such event.
fn kind_of(events: &[Event], id: u32) -> GameKind
    ensures { result ≡ kind_at (place (events_of events.now) id) }
{
    if id == 0 {
        return GameKind::Draughts;
    }
    match events.get(id as usize - 1) {
        Some(event) => event.game,
        None => GameKind::Draughts,
    }
}

/// The name of the game that is played in the event of this game.
pub(crate) fn kind_name(events: &[Event], game: &GameEntry) -> &'static str
    ensures { result.now ≡ kind_name (events_of events.now) (summary_of game.now) }
{
    game_name(kind_of(events, game.event))
}

/// The number of games of an event.
pub(crate) fn games_of(games: &[GameEntry], event: usize) -> usize
    ensures { result ≡ games_of event (summaries_of games.now) }
{
    games
        .iter()
        .filter(|game| game.event as usize == event)
        .count()
}

fn is_running_in(game: &GameEntry, event: usize) -> bool
    ensures { result ≡ ((summary_of game.now).event == event && not (is_over (summary_of game.now))) }
{
    if game.event as usize != event {
        return false;
    }
    !game.is_over()
}

/// The number of running games of an event.
pub(crate) fn running_of(games: &[GameEntry], event: usize) -> usize
    ensures { result ≡ running_of event (summaries_of games.now) }
{
    games
        .iter()
        .filter(|game| is_running_in(game, event))
        .count()
}

// The word after an event that is closed to challenges.
fn closed_tail(event: &Event) -> &'static str
    ensures { result.now ≡ closed_tail (event_of event.now).closed }
{
    match event.closed {
        Some(_) => " closed",
        None => "",
    }
}

// The end of an event's line: its game, budget, increment and numbers of games, and whether it is closed.
fn event_tail(
    alloc: Global,
    event: &Event,
    games: usize,
    running: usize,
) -> Result<String, AllocError>
    ensures { IfOk result (λ tail. string_bytes tail ≡ event_tail (event_of event.now) games running) }
{
    let game = game_name(event.game);
    let budget = event.budget;
    let increment = event.increment;
    let closed = closed_tail(event);
    format!(in alloc; "{game} {budget} {increment} {games} {running}{closed}\n")
}

// An event's line, given its numbers of games.
fn event_text(
    alloc: Global,
    id: usize,
    event: &Event,
    games: usize,
    running: usize,
) -> Result<String, AllocError>
    ensures { IfOk result (λ line. string_bytes line ≡ event_text id (event_of event.now) games running) }
{
    let name = event.name.as_str();
    let tail = event_tail(alloc, event, games, running)?;
    format!(in alloc; "event {id} {name} {tail}")
}

fn event_line(
    alloc: Global,
    games: &[GameEntry],
    id: usize,
    event: &Event,
) -> Result<String, AllocError>
    ensures { IfOk result (λ line. string_bytes line ≡ event_line (summaries_of games.now) id (event_of event.now)) }
{
    let running = running_of(games, id);
    event_text(alloc, id, event, games_of(games, id), running)
}

/// The events, one per line, with the numbers of all and of running games, and `closed` if they take no challenges.
///
/// # Errors
///
/// `AllocError` if out of memory.
pub fn events_text(
    alloc: Global,
    events: &[Event],
    games: &[GameEntry],
) -> Result<String, AllocError>
    ensures { IfOk result (λ text. string_bytes text ≡ event_lines (summaries_of games.now) (events_of events.now)) }
{
    let mut text = String::new(alloc);
    let mut id: usize = 0;
    for event in events {
        id += 1;
        let line = event_line(alloc, games, id, event)?;
        text.push_str(line.as_str())?;
    }
    Ok(text)
}

// The date and time of the deadline, or `never`.
fn until_text(alloc: Global, game: &GameEntry) -> Result<String, AllocError>
    ensures { IfOk result (λ text. IsUntil (deadline (summary_of game.now)) (string_bytes text)) }
{
    match game.deadline() {
        Some(moment) => date_text(alloc, moment),
        None => String::from_str(alloc, "never"),
    }
}

/// The name of the player to move.
pub(crate) fn turn_name<'a>(members: &'a [Member], game: &GameEntry) -> &'a str
    ensures { result.now ≡ player_name (members_of members.now) game.now.turn (summary_of game.now) }
{
    match game.turn {
        Side::First => member_name(members, game.first),
        Side::Second => member_name(members, game.second),
    }
}

// The state of a game: its end, or the player to move and the deadline.
fn stands_as(alloc: Global, members: &[Member], game: &GameEntry) -> Result<String, AllocError>
    ensures { IfOk result (λ text.
        IsGameState (members_of members.now) (summary_of game.now) (summary_of game.now).over (string_bytes text)) }
{
    match &game.over {
        Some(over) => {
            let end = over.text(alloc)?;
            format!(in alloc; "end {end}")
        }
        None => {
            let name = turn_name(members, game);
            let until = until_text(alloc, game)?;
            format!(in alloc; "turn {name} until {until}")
        }
    }
}

// The key, or `=` if the game has none.
fn key_text(key: &Option<String>) -> &str
    ensures { result.now ≡ key_text (option_map (λ k. string_bytes k) key.now) }
{
    match key {
        Some(key) => key.as_str(),
        None => "=",
    }
}

// The end of a game's line, given its state.
fn game_tail(
    alloc: Global,
    members: &[Member],
    game: &GameEntry,
    stands: &str,
) -> Result<String, AllocError>
    ensures { IfOk result (λ tail. string_bytes tail ≡
        game_tail (members_of members.now) (summary_of game.now) stands.now) }
{
    let second = member_name(members, game.second);
    let key = key_text(&game.key);
    let plies = game.plies;
    format!(in alloc; "{second} {key} ply {plies} {stands}\n")
}

// A game's line, given its state.
fn game_text(
    alloc: Global,
    members: &[Member],
    events: &[Event],
    game: &GameEntry,
    stands: &str,
) -> Result<String, AllocError>
    ensures { IfOk result (λ line. string_bytes line ≡
        game_line (members_of members.now) (events_of events.now) (summary_of game.now) stands.now) }
{
    let id = game.id;
    let event = event_name(events, game.event);
    let first = member_name(members, game.first);
    let tail = game_tail(alloc, members, game, stands)?;
    format!(in alloc; "game {id} {event} {first} {tail}")
}

fn game_line(
    alloc: Global,
    members: &[Member],
    events: &[Event],
    game: &GameEntry,
) -> Result<String, AllocError>
    ensures { IfOk result (λ line.
        IsGameLine (members_of members.now) (events_of events.now) (summary_of game.now) (string_bytes line)) }
{
    let stands = stands_as(alloc, members, game)?;
    game_text(alloc, members, events, game, stands.as_str())
}

/// The games that pass the filter at this timestamp, one per line.
///
/// # Errors
///
/// `AllocError` if out of memory.
pub fn games_text(
    alloc: Global,
    listing: &Listing,
    members: &[Member],
    events: &[Event],
    games: &[GameEntry],
    moment: Moment,
) -> Result<String, AllocError>
    ensures { IfOk result (λ text. AreGameLines (members_of members.now) (events_of events.now)
        (listed_games (members_of members.now) (events_of events.now) listing.now moment (summaries_of games.now))
        (string_bytes text)) }
{
    let mut text = String::new(alloc);
    for game in games {
        if !is_listed(listing, members, events, game, moment) {
            continue;
        }
        let row = game_line(alloc, members, events, game)?;
        text.push_str(row.as_str())?;
    }
    Ok(text)
}
