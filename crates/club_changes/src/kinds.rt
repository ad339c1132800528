//! Starts a game by the rules of its kind.

ghost use Rattle.std.specs.Prelude.{◌≡◌, [], ◌∷◌, IfOk, IsTrue};
ghost use Rattle.std.specs.Option.{option_map};
ghost use Rattle.club_requests.specs.Limits.{is_budget};
ghost use Rattle.club_rows.specs.internal.Replay.{terms_given};
ghost use Rattle.club_changes.specs.internal.Steps.{first_row, first_seen_rows, first_meetings, Puts, no_rows};

use crate::starts::start;
use clocks::Moment;
use club_core::KeyedGame;
use club_games::by_kind;
use club_rows::Terms;
use club_rules::{GameKind, Memory};
use std::alloc::Global;
use store_tables::Changes;

pub(crate) fn seat_in(
    alloc: Global,
    kind: GameKind,
    terms: Terms,
    new: KeyedGame,
    key: Option<&str>,
    moment: Moment,
) -> Result<Changes, Memory>
    ensures puts { IfOk result (λ changes. IsTrue (is_budget terms.budget) →
        Puts changes moment
        (record
        no_rows {
          games = first_row kind (terms_given terms) new.game (option_map (λ k. k.now) key.entry)
              new.pairing moment ∷ [];
          seen =
              first_seen_rows kind new.game (option_map (λ k. k.now) key.entry) new.pairing moment;
        })) }
    ensures running { IfOk result (λ changes.
        first_meetings kind (option_map (λ k. k.now) key.entry) new.pairing moment ≡ []) }
{
    by_kind!(kind, start::<_>(alloc, terms, new, key, moment))
}
