//! Checks the rows of challenges.

ghost use Rattle.std.specs.Prelude.{◌≡◌, ◌<◌, ◌≤◌, List, length, pos, true, false, IfOk};
ghost use Rattle.club_core.specs.declared.challenges.Challenge as core;
ghost use Rattle.club_core.specs.LegalState.{Each, HaveUniqueKeys};
ghost use Rattle.club_requests.specs.Limits.{most_members, most_events};
ghost use Rattle.club_audit.specs.internal.ChallengeAudit.{AreChallenges, HasItsGame, IsChallengeAmong, IsChallengeOf};
ghost use Rattle.club_audit.specs.internal.ChallengeAudit.{IsGameAmong, IsRowOfPairing};
ghost use Rattle.club_audit.specs.internal.ChallengeKeys.{key_in};

use club_core::{Challenge, ChallengeState, Pairing};
use club_requests::is_challenge_number;
use club_rows::challenge_of;
use club_rules::Memory;
use std::alloc::Global;
use std::collections::HashSet;
use store_tables::{ChallengeRow, GameTableRow, Rows};

// The key of a row: the challenger and the challenger's number for it.
#[derive(Clone, Copy, PartialEq, Eq, Hash)]
struct ChallengeKey {
    member: i64,
    number: i64,
}

fn key_in(row: &ChallengeRow) -> ChallengeKey
    ensures { result ≡ key_in row.now }
{
    ChallengeKey {
        member: row.member,
        number: row.number,
    }
}

// Whether the id is in 1..=count.
fn is_id(id: u32, count: usize) -> bool
    ensures sound { result ≡ true → (0 < id) × (id ≤ count) }
    ensures complete { 0 < id → id ≤ count → result ≡ true }
{
    0 < id && id as usize <= count
}

// Whether the game has this event and these players on these sides.
fn is_row_of_pairing(game: &GameTableRow, pairing: Pairing) -> bool
    ensures sound { result ≡ true → IsRowOfPairing game.now pairing }
    ensures complete { IsRowOfPairing game.now pairing → result ≡ true }
{
    game.event == i64::from(pairing.event)
        && game.first == i64::from(pairing.first)
        && game.second == i64::from(pairing.second)
}

// Whether the game has this id and this pairing.
fn is_game_of(row: &GameTableRow, id: u32, pairing: Pairing) -> bool
    ensures sound { result ≡ true → (row.now.id ≡ pos id) × IsRowOfPairing row.now pairing }
    ensures complete { row.now.id ≡ pos id → IsRowOfPairing row.now pairing → result ≡ true }
{
    if row.id != i64::from(id) {
        return false;
    }
    is_row_of_pairing(row, pairing)
}

fn is_game_among(games: &[GameTableRow], id: u32, pairing: Pairing) -> bool
    ensures sound { result ≡ true → IsGameAmong games.now id pairing }
    ensures complete { IsGameAmong games.now id pairing → result ≡ true }
{
    for row in games {
        if is_game_of(row, id, pairing) {
            return true;
        }
    }
    false
}

// Whether an accepted challenge refers to a game of its event between its two members, on the right sides.
fn has_its_game(games: &[GameTableRow], challenge: &Challenge) -> bool
    ensures sound { result ≡ true → HasItsGame games.now challenge.now }
    ensures complete { HasItsGame games.now challenge.now → result ≡ true }
{
    match challenge.standing {
        ChallengeState::Accepted { game } => is_game_among(games, game, challenge.pairing()),
        _ => true,
    }
}

// Whether the challenge is possible with these members, events and games.
fn is_challenge(rows: &Rows, challenge: &Challenge) -> bool
    ensures sound { result ≡ true → IsChallengeAmong rows.now challenge.now }
    ensures complete { IsChallengeAmong rows.now challenge.now → result ≡ true }
{
    if !is_challenge_number(u64::from(challenge.number)) {
        return false;
    }
    if challenge.member == challenge.other {
        return false;
    }
    if !is_id(challenge.member, rows.members.as_slice().len()) {
        return false;
    }
    if !is_id(challenge.other, rows.members.as_slice().len()) {
        return false;
    }
    if !is_id(challenge.event, rows.events.as_slice().len()) {
        return false;
    }
    has_its_game(rows.games.as_slice(), challenge)
}

fn is_challenge_row(rows: &Rows, row: &ChallengeRow) -> bool
    ensures sound { result ≡ true → IsChallengeOf rows.now row.now }
    ensures complete { IsChallengeOf rows.now row.now → result ≡ true }
{
    match challenge_of(row) {
        Some(challenge) => is_challenge(rows, &challenge),
        None => false,
    }
}

fn are_each_challenges(rows: &Rows, challenges: &[ChallengeRow]) -> bool
    ensures sound { result ≡ true → Each (IsChallengeOf rows.now) challenges.now }
    ensures complete { Each (IsChallengeOf rows.now) challenges.now → result ≡ true }
{
    for row in challenges {
        if !is_challenge_row(rows, row) {
            return false;
        }
    }
    true
}

// Whether two challenges of one member have the same number.
fn share_number(alloc: Global, challenges: &[ChallengeRow]) -> Result<bool, Memory>
    ensures apart { IfOk result (λ shared. shared ≡ false → HaveUniqueKeys key_in challenges.now) }
    ensures shared { IfOk result (λ shared. shared ≡ true → ¬ HaveUniqueKeys key_in challenges.now) }
{
    let mut keys = HashSet::new(alloc);
    for row in challenges {
        if !keys.insert(key_in(row))? {
            return Ok(true);
        }
    }
    Ok(false)
}

/// Whether the rows of challenges are possible with the members, events and games of `rows`.
///
/// # Errors
///
/// `Memory` if out of memory.
pub fn are_challenges(alloc: Global, rows: &Rows) -> Result<bool, Memory>
    ensures sound { IfOk result (λ are. are ≡ true → (cs : List core.Challenge) × AreChallenges cs rows.now) }
    ensures complete { IfOk result (λ are.
        length rows.now.members.items ≤ most_members → length rows.now.events.items ≤ most_events →
        (cs : List core.Challenge) → AreChallenges cs rows.now → are ≡ true) }
{
    if !are_each_challenges(rows, &rows.challenges) {
        return Ok(false);
    }
    let shared = share_number(alloc, &rows.challenges)?;
    Ok(!shared)
}
