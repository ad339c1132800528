//! The checks on the tables that are read whole: challenges, games and `meta`.

ghost use Rattle.std.specs.Prelude.{◌≡◌, ◌≢◌, ◌≤◌, ℕ, pos, None, Some, IfErr, IfOk, OnOk, List};
ghost use Rattle.club_audit.specs.internal.Audit.{AreApartGames, HasPeople};
ghost use Rattle.club_audit.specs.internal.ChallengeAudit.{AreChallenges};
ghost use Rattle.club_audit.specs.internal.ClosingAudit.{IsClosedBy};
ghost use Rattle.club_core.specs.LegalState.{Each};
ghost use Rattle.club_core.specs.declared.challenges.Challenge.{Challenge};
ghost use Rattle.club_rows.specs.Club.{ClubState};
ghost use Rattle.club_check.specs.internal.Places.{BlamesRows, IsNoRegister, last_moment};
ghost use Rattle.club_check.specs.internal.Examined.{IsAfter};
ghost use Rattle.club_check.specs.internal.RightTables.{IsLater, NamesChallenges};

use crate::fault::OpenFault;
use club_audit::{are_apart, are_challenges, are_closed_by};
use club_rows::numbers::to_moment;
use std::alloc::Global;
use store_tables::{Rows, Table};

/// Checks that the challenges fit these members, events and games, that there are not too many games and no two with
/// one key, and that `meta` has a valid last timestamp, which no closing is after.
/// Wrong challenges are an error at once. The first of the other wrong tables is returned: wrong moves or positions,
/// checked later, are reported before it.
pub(crate) fn audit(alloc: Global, rows: &Rows) -> Result<Option<Table>, OpenFault>
    ensures challenges { OnOk result ((cs : List Challenge) × AreChallenges cs rows.now) }
    ensures apart { IfOk result (λ wrong. IsAfter Table.Games wrong → AreApartGames rows.now.games.items) }
    ensures moment { IfOk result (λ wrong. wrong ≡ None →
        (n : ℕ) × (rows.now.meta.last ≡ pos n) × (n ≤ last_moment) × Each (IsClosedBy n) rows.now.closings.items) }
    ensures remembered { IfOk result (λ wrong. (t : Table) → wrong ≡ Some t → IsNoRegister rows.now) }
    ensures fault { IfErr result (BlamesRows rows.now) }
    ensures later { IfOk result IsLater }
    ensures other { IfOk result (λ wrong. wrong ≢ Some Table.Moves) }
    ensures unruled { IfOk result (λ wrong. wrong ≢ Some Table.Rulings) }
    ensures unseen { IfOk result (λ wrong. wrong ≢ Some Table.Seen) }
    ensures games { IfOk result (λ wrong. wrong ≡ Some Table.Games → ¬ AreApartGames rows.now.games.items) }
    ensures challenged { IfErr result (λ e. (s : ClubState) → HasPeople s rows.now → NamesChallenges rows.now e) }
{
    match are_challenges(alloc, rows) {
        Ok(true) => {}
        Ok(false) => return Err(OpenFault::Damaged(Table::Challenges)),
        Err(_) => return Err(OpenFault::Memory),
    }
    match are_apart(alloc, &rows.games) {
        Ok(true) => {}
        Ok(false) => return Ok(Some(Table::Games)),
        Err(_) => return Err(OpenFault::Memory),
    }
    match to_moment(rows.meta.last) {
        Some(last) => {
            if are_closed_by(&rows.closings, last) {
                Ok(None)
            } else {
                Ok(Some(Table::Meta))
            }
        }
        None => Ok(Some(Table::Meta)),
    }
}
