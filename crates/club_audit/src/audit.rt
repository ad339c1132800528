//! Checks the rows of a club as a whole, and all rows of each game.

ghost use Rattle.std.specs.Prelude.{◌≡◌, ◌≢◌, ◌<◌, ◌≤◌, ℕ, Bool, pos, true, false, None, IfOk, IfSome};
ghost use Rattle.std.specs.Prelude.{string_bytes, Some};
ghost use Rattle.std.specs.Option.{option_map};
ghost use Rattle.club_core.specs.LegalState.{HaveUniqueKeysIfAny};
ghost use Rattle.club_audit.specs.internal.Audit.{AreApartGames, HasPeople, HaveRegister, IsRightInRegister};
ghost use Rattle.club_audit.specs.internal.Audit.{NamesEvent};
ghost use Rattle.club_audit.specs.internal.Audit.{NamesPlayers, NamesRule};
ghost use Rattle.club_audit.specs.internal.FirstWrong.{IsFirstWrong};
ghost use Rattle.club_audit.specs.internal.GameAudit.{IsRightAt, StandsAt};
ghost use Rattle.club_rows.specs.Club.{ClubState};

use crate::challenges::are_challenges;
use crate::closings::{are_closed_by, are_closings};
use crate::game_audit::{GameRows, wrong_in_event};
use crate::keys::are_keys;
use crate::people::{are_events, are_members, are_rules, is_place};
use clocks::Moment;
use club_requests::values::MOST_GAMES;
use club_rows::numbers::{declares_of, to_moment};
use club_rules::Memory;
use std::alloc::Global;
use std::collections::HashSet;
use store_tables::{EventRow, GameTableRow, Rows, Table};

// Whether the id is in 1..=count.
fn is_among(id: i64, count: usize) -> bool
    ensures sound { result ≡ true → (n : ℕ) × (id ≡ pos n) × (0 < n) × (n ≤ count) }
    ensures complete { (n : ℕ) → id ≡ pos n → 0 < n → n ≤ count → result ≡ true }
{
    match usize::try_from(id) {
        Ok(id) => 0 < id && id <= count,
        Err(_) => false,
    }
}

// The row of the game's event, if its id is valid.
fn event_of<'a>(rows: &'a Rows, game: &GameTableRow) -> Option<&'a EventRow>
    ensures some { IfSome result (λ e. (event : ℕ) × NamesEvent rows.now game.now event e.now) }
    ensures none { result ≡ None → (event : ℕ) (e : EventRow) → ¬ NamesEvent rows.now game.now event e }
{
    match usize::try_from(game.event) {
        Ok(0) => None,
        Ok(event) => rows.events.as_slice().get(event - 1),
        Err(_) => None,
    }
}

// Whether the rules of the game's event allow declarations. None if there is no valid row.
fn declares_in(rows: &Rows, game: &GameTableRow) -> Option<bool>
    ensures some { IfSome result (λ declares. (event : ℕ) × NamesRule rows.now game.now event declares) }
    ensures none { result ≡ None → (event : ℕ) (declares : Bool) → ¬ NamesRule rows.now game.now event declares }
{
    let event = match usize::try_from(game.event) {
        Ok(0) => return None,
        Ok(event) => event,
        Err(_) => return None,
    };
    match rows.event_rules.as_slice().get(event - 1) {
        Some(rule) => declares_of(rule.declares),
        None => None,
    }
}

// Whether both players are members.
fn has_players(rows: &Rows, game: &GameTableRow) -> bool
    ensures sound { result ≡ true → (first second : ℕ) × NamesPlayers rows.now game.now first second }
    ensures complete { (first second : ℕ) → NamesPlayers rows.now game.now first second → result ≡ true }
{
    if !is_among(game.first, rows.members.as_slice().len()) {
        return false;
    }
    is_among(game.second, rows.members.as_slice().len())
}

// Whether the game's id fits its place (from 0), the place is within the limit, and its players are members.
fn stands_at(rows: &Rows, place: usize, game: &GameTableRow) -> bool
    ensures sound { result ≡ true → StandsAt rows.now place game.now }
    ensures complete { StandsAt rows.now place game.now → result ≡ true }
{
    if place >= MOST_GAMES as usize {
        return false;
    }
    if !is_place(game.id, place) {
        return false;
    }
    has_players(rows, game)
}

// Combines the first wrong table by the game's own rows with the check of its place: moves and rulings come before
// games.
fn with_place(wrong: Option<Table>, stands: bool) -> Option<Table>
    ensures stands { stands ≡ true → result ≡ wrong }
    ensures moves { wrong ≡ Some Table.Moves → result ≡ Some Table.Moves }
    ensures rulings { wrong ≡ Some Table.Rulings → result ≡ Some Table.Rulings }
    ensures games { stands ≡ false → wrong ≢ Some Table.Moves → wrong ≢ Some Table.Rulings →
        result ≡ Some Table.Games }
{
    match wrong {
        Some(Table::Moves) => Some(Table::Moves),
        Some(Table::Rulings) => Some(Table::Rulings),
        _ => { if stands { wrong } else { Some(Table::Games) } }
    }
}

/// Returns the first wrong table by all rows of the game at this place (from 0); None if they are those of a legal game
/// of this club. `last` is the latest timestamp allowed, if given.
///
/// # Errors
///
/// `Memory` if out of memory.
///
/// # Guarantees
///
/// The result is right if the members, events and event rules in `rows` are those of a legal club.
pub fn wrong_game(
    alloc: Global,
    rows: &Rows,
    place: usize,
    own: &GameRows<'_>,
    last: Option<Moment>,
) -> Result<Option<Table>, Memory>
    ensures { IfOk result (λ wrong. (s : ClubState) → HasPeople s rows.now →
        IsFirstWrong (IsRightAt s rows.now place own.now.game.now own.now.moves.now own.now.rulings.now
        own.now.seen.now last) wrong) }
{
    let event = match event_of(rows, own.game) {
        Some(event) => event,
        None => return Ok(Some(Table::Games)),
    };
    // In a register that passed its check each event has its rules.
    let declares = match declares_in(rows, own.game) {
        Some(declares) => declares,
        None => return Ok(Some(Table::EventRules)),
    };
    let wrong = wrong_in_event(alloc, event, declares, own, last)?;
    Ok(with_place(wrong, stands_at(rows, place, own.game)))
}

/// Returns the first wrong table by all rows except moves, positions and scores; None if there is none. Of the games
/// only count and keys are checked.
///
/// # Errors
///
/// `Memory` if out of memory.
///
/// # Guarantees
///
/// - `sound`, `complete`: None is returned exactly for the register of a legal club.
/// - `first`: all tables before the returned one are right.
pub fn wrong_register(alloc: Global, rows: &Rows) -> Result<Option<Table>, Memory>
    ensures sound { IfOk result (λ wrong. wrong ≡ None → HaveRegister rows.now) }
    ensures complete { IfOk result (λ wrong. HaveRegister rows.now → wrong ≡ None) }
    ensures first { IfOk result (IsFirstWrong (IsRightInRegister rows.now)) }
{
    if !are_members(&rows.members) {
        return Ok(Some(Table::Members));
    }
    let keyed = are_keys(alloc, &rows.keys, &rows.members)?;
    if !keyed {
        return Ok(Some(Table::Keys));
    }
    if !are_events(&rows.events) {
        return Ok(Some(Table::Events));
    }
    if !are_rules(&rows.event_rules, rows.events.as_slice().len()) {
        return Ok(Some(Table::EventRules));
    }
    if !are_closings(&rows.closings, rows.events.as_slice().len()) {
        return Ok(Some(Table::Closings));
    }
    if !are_challenges(alloc, rows)? {
        return Ok(Some(Table::Challenges));
    }
    if !are_apart(alloc, &rows.games)? {
        return Ok(Some(Table::Games));
    }
    match to_moment(rows.meta.last) {
        Some(last) => {
            if are_closed_by(&rows.closings, last) {
                Ok(None)
            } else {
                Ok(Some(Table::Meta))
            }
        }
        None => Ok(Some(Table::Meta)),
    }
}

/// Whether there are no more games than the limit, and no two have the same key.
///
/// # Errors
///
/// `Memory` if out of memory.
pub fn are_apart(alloc: Global, games: &[GameTableRow]) -> Result<bool, Memory>
    ensures sound { IfOk result (λ are. are ≡ true → AreApartGames games.now) }
    ensures complete { IfOk result (λ are. AreApartGames games.now → are ≡ true) }
{
    if games.len() > MOST_GAMES as usize {
        return Ok(false);
    }
    let shared = share_key(alloc, games)?;
    Ok(!shared)
}

// Whether two games have the same key.
fn share_key(alloc: Global, games: &[GameTableRow]) -> Result<bool, Memory>
    ensures apart { IfOk result (λ shared. shared ≡ false →
        HaveUniqueKeysIfAny (λ r. option_map (λ s. string_bytes s) r.key) games.now) }
    ensures shared { IfOk result (λ shared. shared ≡ true →
        ¬ HaveUniqueKeysIfAny (λ r. option_map (λ s. string_bytes s) r.key) games.now) }
{
    let mut keys = HashSet::new(alloc);
    for game in games {
        match &game.key {
            Some(key) => {
                if !keys.insert(key.as_str())? {
                    return Ok(true);
                }
            }
            None => {}
        }
    }
    Ok(false)
}
