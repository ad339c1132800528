//! Converts challenges to the rows of their table and back.

ghost use Rattle.std.specs.Prelude.{◌≡◌, ◌≢◌, Bool, pos, None, Some, IfSome, Option};
ghost use Rattle.std.specs.Option.{option_map};
ghost use Rattle.club_core.specs.declared.challenges.Challenge as core;
ghost use Rattle.club_core.specs.declared.challenges.ChallengeState as stands;
ghost use Rattle.store_tables.specs.internal.Cells.{challenge_cells};
ghost use Rattle.club_rows.specs.internal.ChallengeRows.{HasShortGame, HasShortNumbers, StandsAs};
ghost use Rattle.club_rows.specs.Tables.{challenge_row, first_number, game_started, standing_number};

use crate::numbers::id;
use club_core::{Challenge, ChallengeState};
use store_tables::ChallengeRow;

// The number in column `state`.
fn standing_number(standing: ChallengeState) -> i64
    ensures { result ≡ pos (standing_number standing) }
{
    match standing {
        ChallengeState::Open => 0,
        ChallengeState::Withdrawn => 1,
        ChallengeState::Refused => 2,
        ChallengeState::Accepted { game: _ } => 3,
    }
}

// The id of the game that an accepted challenge started.
fn game_started(standing: ChallengeState) -> Option<i64>
    ensures { result ≡ option_map pos (game_started standing) }
{
    match standing {
        ChallengeState::Accepted { game } => Some(i64::from(game)),
        _ => None,
    }
}

/// Converts a challenge to its row.
pub fn challenge_row(challenge: &Challenge) -> ChallengeRow
    ensures { challenge_cells result ≡ challenge_row challenge.now }
{
    ChallengeRow {
        member: i64::from(challenge.member),
        number: i64::from(challenge.number),
        event: i64::from(challenge.event),
        other: i64::from(challenge.other),
        first: i64::from(challenge.first),
        state: standing_number(challenge.standing),
        game: game_started(challenge.standing),
    }
}

// Parses column `first`: whether the challenger plays First.
fn first_of(number: i64) -> Option<bool>
    ensures some { IfSome result (λ first. number ≡ pos (first_number first)) }
    ensures none { result ≡ None → (first : Bool) → number ≢ pos (first_number first) }
{
    match number {
        0 => Some(false),
        1 => Some(true),
        _ => None,
    }
}

// Parses column `state` of a challenge that started no game.
fn standing_alone(state: i64) -> Option<ChallengeState>
    ensures some { IfSome result (λ s. state ≡ pos (standing_number s)) }
    ensures alone { IfSome result (λ s. game_started s ≡ None) }
    ensures none { result ≡ None → (s : stands.ChallengeState) → game_started s ≡ None →
        state ≢ pos (standing_number s) }
{
    match state {
        0 => Some(ChallengeState::Open),
        1 => Some(ChallengeState::Withdrawn),
        2 => Some(ChallengeState::Refused),
        _ => None,
    }
}

// Parses columns `state` and `game` together.
fn standing_of(state: i64, game: Option<i64>) -> Option<ChallengeState>
    ensures some { IfSome result (λ s. StandsAs state game s) }
    ensures range { IfSome result (λ s. HasShortGame s) }
    ensures none { result ≡ None → (s : stands.ChallengeState) → HasShortGame s → ¬ StandsAs state game s }
{
    let game = match game {
        Some(game) => game,
        None => return standing_alone(state),
    };
    match id(game) {
        Some(game) => {
            if state == 3 {
                Some(ChallengeState::Accepted { game })
            } else {
                None
            }
        }
        None => None,
    }
}

/// Converts a row to its challenge. None if a value is out of range.
pub fn challenge_of(row: &ChallengeRow) -> Option<Challenge>
    ensures some { IfSome result (λ c. challenge_cells row.now ≡ challenge_row c) }
    ensures range { IfSome result HasShortNumbers }
    ensures read { (c : core.Challenge) → HasShortNumbers c → challenge_cells row.now ≡ challenge_row c →
        result ≡ Some c }
{
    let member = match id(row.member) {
        Some(member) => member,
        None => return None,
    };
    let number = match id(row.number) {
        Some(number) => number,
        None => return None,
    };
    let event = match id(row.event) {
        Some(event) => event,
        None => return None,
    };
    let other = match id(row.other) {
        Some(other) => other,
        None => return None,
    };
    let first = match first_of(row.first) {
        Some(first) => first,
        None => return None,
    };
    match standing_of(row.state, row.game) {
        Some(standing) => Some(Challenge {
            member,
            number,
            event,
            other,
            first,
            standing,
        }),
        None => None,
    }
}
