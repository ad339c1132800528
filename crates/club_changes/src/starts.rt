//! Rows of a game that starts, for any rules.

ghost use Rattle.std.specs.Prelude.{◌≡◌, ◌<◌, ℕ, Bool, [], ◌∷◌, Some, None, IfOk, IsTrue};
ghost use Rattle.std.specs.Option.{option_map};
ghost use Rattle.club_rows.specs.Scores.{meetings_of};
ghost use Rattle.club_requests.specs.Limits.{is_budget};
ghost use Rattle.club_core.specs.State.{seated};
ghost use Rattle.club_core.specs.View.{IsRowOf};
ghost use Rattle.club_rows.specs.internal.Replay.{terms_given};
ghost use Rattle.club_rows.specs.Tables.{game_row};
ghost use Rattle.club_rows.specs.Seen.{seen_rows};
ghost use Rattle.club_changes.specs.internal.Steps.{Puts, no_rows};

use crate::decided::changes_at;
use clocks::Moment;
use club_core::{GameRow, KeyedGame, Pairing, keyless_row, seated_row};
use club_rows::{Terms, first_seen, record_of};
use club_rules::{Memory, Rules};
use std::alloc::Global;
use store_tables::Changes;

// The row of the game logic for a game that starts, with or without a key.
fn first_row<R: Rules>(
    alloc: Global,
    key: Option<&str>,
    pairing: Pairing,
    budget: u64,
    moment: Moment,
) -> Result<GameRow<R::End>, Memory>
    ensures { IfOk result (λ row. (increment : ℕ) (declares : Bool) →
        IsRowOf R.rules (record { budget = budget; increment = increment; declares = declares })
        (seated (option_map (λ k. k.now) key.entry) pairing moment) row) }
{
    match key {
        Some(key) => seated_row::<R>(alloc, key, pairing, budget, moment),
        None => keyless_row::<R>(alloc, pairing, budget, moment),
    }
}

pub(crate) fn start<R: Rules>(
    alloc: Global,
    terms: Terms,
    new: KeyedGame,
    key: Option<&str>,
    moment: Moment,
) -> Result<Changes, Memory>
    ensures puts { IfOk result (λ changes. IsTrue (is_budget terms.budget) →
        Puts changes moment
        (record
        no_rows {
          games = game_row R.rules (terms_given terms) new.game
              (seated (option_map (λ k. k.now) key.entry) new.pairing moment) ∷ [];
          seen =
              seen_rows R.rules new.game (seated (option_map (λ k. k.now) key.entry) new.pairing moment);
        })) }
    ensures running { IfOk result (λ changes.
        meetings_of R.rules (seated (option_map (λ k. k.now) key.entry) new.pairing moment) ≡ []) }
{
    let row = first_row::<R>(alloc, key, new.pairing, terms.budget, moment)?;
    let mut changes = changes_at(alloc, moment);
    changes.games.push(record_of::<R>(alloc, new.game, &row)?)?;
    changes.seen.push(first_seen::<R>(alloc, new.game)?)?;
    Ok(changes)
}
