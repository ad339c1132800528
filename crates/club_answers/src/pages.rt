//! The clock of a game, and the game with its clock and its legal moves in one text.

ghost use Rattle.std.specs.Prelude.{◌≡◌, ℕ, IfOk, is_ok, Some, string_bytes};
ghost use Rattle.serde_json.specs.Written.{compact_text};
ghost use Rattle.sqlite.specs.State.{HasCleanDisk};
ghost use Rattle.sqlite.specs.Held.{state};
ghost use Rattle.store_tables.specs.Reading.{Reads};
ghost use Rattle.club_core.specs.State.{place};
ghost use Rattle.club_rows.specs.Club.{ClubGame, ClubState, IsClub, StoresClub};
ghost use Rattle.club_rows.specs.Tables.{version_of};
ghost use Rattle.club_changes.specs.internal.Stored.{IsStoredGame};
ghost use Rattle.club_answers.specs.AnswerTexts.{IsClockText, IsNoGame};
ghost use Rattle.club_answers.specs.internal.Found.{IsFoundAs};
ghost use Rattle.club_answers.specs.Pages.{clock_of, IsPageOf, IsPageText};
ghost use Rattle.club_answers.specs.internal.Pages.{IsGamePage};

use crate::bodies::game_shown;
use crate::found::Shown;
use crate::games::entry_of;
use crate::kinds::legal_in;
use crate::reading::viewed;
use clocks::Moment;
use club_changes::StoredGame;
use club_lists::{GamePage, clock_text, page_text};
use club_reads::{LookupFault, all_members, last_moment, stored_game};
use club_requests::Refusal;
use sqlite::{Alter, Connection};
use std::alloc::Global;
use store_tables::Version;

// The clock of a stored game.
fn clock_in<S: Alter>(
    alloc: Global,
    version: Version,
    conn: &mut Connection<S>,
    stored: &StoredGame,
    moment: Moment,
) -> Result<String, LookupFault>
    ensures reads { Reads (is_ok result) (state S.Store conn.old) (state S.Store conn.new) }
    ensures clock { HasCleanDisk (state S.Store conn.new) → IfOk result (λ text. (s : ClubState) (id : ℕ)
        (game : ClubGame) → IsClub s → place s.games id ≡ Some game → IsStoredGame s id game stored.now →
        version ≡ version_of s → StoresClub s (state S.Store conn.old) →
        string_bytes text ≡ compact_text (clock_of s moment id game)) }
{
    let last = last_moment(alloc, conn)?;
    let members = all_members(alloc, version, conn)?;
    let told = entry_of(alloc, &stored.row)?;
    let text = clock_text(alloc, &members, &told, moment.later(last))?;
    Ok(text)
}

/// The clock of a game.
pub(crate) fn clock<S: Alter>(
    alloc: Global,
    version: Version,
    conn: &mut Connection<S>,
    game: u64,
    moment: Moment,
) -> Result<Shown, LookupFault>
    ensures reads { Reads (is_ok result) (state S.Store conn.old) (state S.Store conn.new) }
    ensures found { HasCleanDisk (state S.Store conn.new) → IfOk result (λ found. (s : ClubState) → IsClub s →
        version ≡ version_of s → StoresClub s (state S.Store conn.old) →
        IsFoundAs (IsClockText s moment game) (IsNoGame s game) found) }
{
    let found = stored_game(alloc, conn, game)?;
    match found {
        Some(stored) => {
            let text = clock_in(alloc, version, conn, &stored, moment)?;
            Ok(Shown::Text(text))
        }
        None => Ok(Shown::Refused(Refusal::UnknownGame)),
    }
}

// All that the page of a stored game shows, beside the members.
fn game_page<S: Alter>(
    alloc: Global,
    conn: &mut Connection<S>,
    stored: &StoredGame,
) -> Result<GamePage, LookupFault>
    ensures reads { Reads (is_ok result) (state S.Store conn.old) (state S.Store conn.new) }
    ensures page { HasCleanDisk (state S.Store conn.new) → IfOk result (λ page. (s : ClubState) (id : ℕ)
        (game : ClubGame) → IsClub s → place s.games id ≡ Some game → IsStoredGame s id game stored.now →
        StoresClub s (state S.Store conn.old) → IsGamePage s id game page) }
{
    let viewed = viewed(alloc, conn, stored)?;
    let legal = legal_in(alloc, conn, stored)?;
    let summary = entry_of(alloc, &stored.row)?;
    let shown = game_shown(alloc, viewed)?;
    Ok(GamePage {
        summary,
        kind: stored.kind,
        shown,
        legal,
    })
}

// The page of a stored game.
fn page_in<S: Alter>(
    alloc: Global,
    version: Version,
    conn: &mut Connection<S>,
    stored: &StoredGame,
    moment: Moment,
) -> Result<String, LookupFault>
    ensures reads { Reads (is_ok result) (state S.Store conn.old) (state S.Store conn.new) }
    ensures page { HasCleanDisk (state S.Store conn.new) → IfOk result (λ text. (s : ClubState) (id : ℕ)
        (game : ClubGame) → IsClub s → place s.games id ≡ Some game → IsStoredGame s id game stored.now →
        version ≡ version_of s → StoresClub s (state S.Store conn.old) →
        IsPageOf s moment id game (string_bytes text)) }
{
    let last = last_moment(alloc, conn)?;
    let members = all_members(alloc, version, conn)?;
    let page = game_page(alloc, conn, stored)?;
    let text = page_text(alloc, &members, page, moment.later(last))?;
    Ok(text)
}

/// A game, its clock and its legal moves.
pub(crate) fn page<S: Alter>(
    alloc: Global,
    version: Version,
    conn: &mut Connection<S>,
    game: u64,
    moment: Moment,
) -> Result<Shown, LookupFault>
    ensures reads { Reads (is_ok result) (state S.Store conn.old) (state S.Store conn.new) }
    ensures found { HasCleanDisk (state S.Store conn.new) → IfOk result (λ found. (s : ClubState) → IsClub s →
        version ≡ version_of s → StoresClub s (state S.Store conn.old) →
        IsFoundAs (IsPageText s moment game) (IsNoGame s game) found) }
{
    match stored_game(alloc, conn, game)? {
        Some(stored) => {
            let text = page_in(alloc, version, conn, &stored, moment)?;
            Ok(Shown::Text(text))
        }
        None => Ok(Shown::Refused(Refusal::UnknownGame)),
    }
}
