//! The standings of an event, from its rows of scores, the members and the games.

ghost use Rattle.std.specs.Prelude.{◌≡◌, ℕ, IfOk, Some, is_ok, string_bytes};
ghost use Rattle.sqlite.specs.State.{HasCleanDisk};
ghost use Rattle.sqlite.specs.Held.{state};
ghost use Rattle.club_core.specs.Events.{has_event_name};
ghost use Rattle.club_core.specs.Members.{find_id};
ghost use Rattle.club_rows.specs.Club.{ClubState, IsClub, StoresClub};
ghost use Rattle.club_rows.specs.Tables.{version_of};
ghost use Rattle.store_tables.specs.Reading.{Reads};
ghost use Rattle.club_answers.specs.CrossTable.{AreScoresIn};
ghost use Rattle.club_answers.specs.EventStandings.{AreStandings, IsStandingsText};
ghost use Rattle.club_answers.specs.AnswerTexts.{IsNoEvent};
ghost use Rattle.club_answers.specs.internal.Found.{IsFoundAs, IsReadOf};

use crate::cross_table::{event_named, scores_in};
use crate::found::Shown;
use crate::read::{ClubRead, read_club};
use clocks::Moment;
use club_lists::{games_in_event, standings_json};
use club_reads::LookupFault;
use club_requests::Refusal;
use cross_tables::{FieldLine, OpponentScore, field_lines};
use sqlite::{Alter, Connection};
use std::alloc::Global;
use store_tables::Version;

// The lines of the standings of the event with this id.
fn lines_in(
    alloc: Global,
    club: &ClubRead,
    event: u32,
    scores: &[OpponentScore],
) -> Result<Vec<FieldLine>, LookupFault>
    ensures { IfOk result (λ lines. (s : ClubState) (moment : ℕ) → IsReadOf s moment club.now →
        AreScoresIn s event scores.now → AreStandings s event lines.items) }
{
    let Ok(last) = u32::try_from(club.members.len()) else {
        return Err(LookupFault::Store);
    };
    let games = games_in_event(alloc, event, &club.games)?;
    let lines = field_lines(alloc, last, scores, &games)?;
    Ok(lines)
}

// The text of the standings of the event with this id and name.
fn standings_text(
    alloc: Global,
    club: &ClubRead,
    event: u32,
    name: &str,
    scores: &[OpponentScore],
) -> Result<String, LookupFault>
    ensures { IfOk result (λ text. (s : ClubState) (moment : ℕ) → IsReadOf s moment club.now →
        AreScoresIn s event scores.now → find_id (has_event_name name.now) s.events ≡ Some event →
        IsStandingsText s name.now (string_bytes text)) }
{
    let lines = lines_in(alloc, club, event, scores)?;
    let text = standings_json(alloc, &club.members, &club.events, name, &lines)?;
    Ok(text)
}

/// Finds the standings of the event with this name.
pub(crate) fn standings<S: Alter>(
    alloc: Global,
    version: Version,
    conn: &mut Connection<S>,
    name: &str,
    moment: Moment,
) -> Result<Shown, LookupFault>
    ensures reads { Reads (is_ok result) (state S.Store conn.old) (state S.Store conn.new) }
    ensures found { HasCleanDisk (state S.Store conn.new) → IfOk result (λ found. (s : ClubState) → IsClub s →
        version ≡ version_of s → StoresClub s (state S.Store conn.old) →
        IsFoundAs (IsStandingsText s name.now) (IsNoEvent s name.now) found) }
{
    match event_named(alloc, conn, name)? {
        Some(event) => {
            let scores = scores_in(alloc, conn, event)?;
            let club = read_club(alloc, version, conn, moment)?;
            let text = standings_text(alloc, &club, event, name, &scores)?;
            Ok(Shown::Text(text))
        }
        None => Ok(Shown::Refused(Refusal::UnknownEvent)),
    }
}
