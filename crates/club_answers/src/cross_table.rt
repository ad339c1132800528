//! The cross table of an event, from its rows of scores and the members.

ghost use Rattle.std.specs.Prelude.{◌≡◌, ◌==◌, ◌∷◌, ℕ, map, filter, IfOk, is_ok, string_bytes};
ghost use Rattle.std.specs.Option.{option_map};
ghost use Rattle.sqlite.specs.State.{HasCleanDisk};
ghost use Rattle.sqlite.specs.Held.{state};
ghost use Rattle.club_core.specs.internal.Answer.{members_of};
ghost use Rattle.club_core.specs.Events as core;
ghost use Rattle.club_core.specs.Events.{has_event_name};
ghost use Rattle.club_core.specs.Members.{find_id};
ghost use Rattle.club_core.specs.State.{place};
ghost use Rattle.club_rows.specs.Club.{ClubState, IsClub, StoresClub, tables};
ghost use Rattle.club_rows.specs.Tables.{event_row, version_of};
ghost use Rattle.cross_tables.specs.Lines.{header_text};
ghost use Rattle.store_tables.specs.Cells.{event_cells};
ghost use Rattle.store_tables.specs.internal.Over.{HasRows};
ghost use Rattle.store_tables.specs.Reading.{Reads};
ghost use Rattle.club_answers.specs.CrossTable.{name_in, standing_line, lines_from, AreScoresIn, AreTableRows};
ghost use Rattle.club_answers.specs.CrossTable.{IsCrossTable, has_counted};

use crate::scored::scored_rows;
use club_core::Member;
use club_reads::{LookupFault, all_members, first};
use club_rows::numbers::id;
use cross_tables::{OpponentScore, Standing, Standings, cells_of, header, line};
use sqlite::{Alter, Connection};
use std::alloc::Global;
use store_sql::{EventName, find, find_by_first};
use store_tables::{EventRow, ScoreRow, Version};

// The id of the event in this row.
fn event_in(row: &EventRow) -> Result<u32, LookupFault>
    ensures { IfOk result (λ n. (id : ℕ) (event : core.Event) → event_cells row.now ≡ event_row id event → n ≡ id) }
{
    match id(row.id) {
        Some(id) => Ok(id),
        None => Err(LookupFault::Store),
    }
}

/// The id of the event with this name, if any.
pub(crate) fn event_named<S: Alter>(
    alloc: Global,
    conn: &mut Connection<S>,
    name: &str,
) -> Result<Option<u32>, LookupFault>
    ensures reads { Reads (is_ok result) (state S.Store conn.old) (state S.Store conn.new) }
    ensures found { HasCleanDisk (state S.Store conn.new) → IfOk result (λ event. (s : ClubState) → IsClub s →
        HasRows (tables s) (state S.Store conn.old) → event ≡ find_id (has_event_name name.now) s.events) }
{
    match first(find(alloc, conn, &EventName { name })?) {
        Some(row) => Ok(Some(event_in(&row)?)),
        None => Ok(None),
    }
}

// The scores of pairs with a game that counts: it has ended, and is not void.
fn counted(alloc: Global, scores: &[OpponentScore]) -> Result<Vec<OpponentScore>, LookupFault>
    ensures { IfOk result (λ counted. counted.items ≡ filter has_counted scores.now) }
{
    Ok(
        scores
            .iter()
            .filter(|row| row.sums.games() > 0)
            .copied()
            .collect(alloc)?,
    )
}

/// The scores between the members of this event, by the games that count.
pub(crate) fn scores_in<S: Alter>(
    alloc: Global,
    conn: &mut Connection<S>,
    event: u32,
) -> Result<Vec<OpponentScore>, LookupFault>
    ensures reads { Reads (is_ok result) (state S.Store conn.old) (state S.Store conn.new) }
    ensures scores { HasCleanDisk (state S.Store conn.new) → IfOk result (λ scores. (s : ClubState) →
        HasRows (tables s) (state S.Store conn.old) → AreScoresIn s event scores.items) }
{
    let number = i64::from(event);
    let rows = find_by_first::<ScoreRow, S>(alloc, conn, &number)?;
    let scores = scored_rows(alloc, &rows, event)?;
    counted(alloc, &scores)
}

/// The name of the member with this id.
pub(crate) fn name_of(members: &[Member], id: u32) -> Result<&str, LookupFault>
    ensures { IfOk result (λ name. name.now ≡ name_in (place (members_of members.now) id)) }
{
    if id == 0 {
        return Err(LookupFault::Store);
    }
    match members.get(id as usize - 1) {
        Some(member) => Ok(member.name.as_str()),
        None => Err(LookupFault::Store),
    }
}

// The scores of one member.
fn own_scores(
    alloc: Global,
    member: u32,
    scores: &[OpponentScore],
) -> Result<Vec<OpponentScore>, LookupFault>
    ensures { IfOk result (λ own. own.items ≡ filter (λ row. row.member == member) scores.now) }
{
    Ok(
        scores
            .iter()
            .filter(|row| row.member == member)
            .copied()
            .collect(alloc)?,
    )
}

// The line of a standing at this place, from 1.
fn line_at(
    alloc: Global,
    members: &[Member],
    scores: &[OpponentScore],
    standings: &Standings,
    place: u64,
    standing: &Standing,
) -> Result<String, LookupFault>
    ensures { IfOk result (λ text. string_bytes text ≡
        standing_line (members_of members.now) scores.now standings.now place standing.now) }
{
    let name = name_of(members, standing.member)?;
    let own = own_scores(alloc, standing.member, scores)?;
    let cells = cells_of(alloc, standing.member, standings, &own)?;
    let text = line(alloc, place, name, &standing.sums, &cells)?;
    Ok(text)
}

// The lines of the cross table of the event with this name: the header and one for each standing.
fn lines_of(
    alloc: Global,
    name: &str,
    members: &[Member],
    scores: &[OpponentScore],
    standings: &Standings,
) -> Result<Vec<String>, LookupFault>
    ensures { IfOk result (λ lines. map (λ t. string_bytes t) lines.items ≡ header_text name.now
        ∷ lines_from (members_of members.now) scores.now standings.now 1 standings.now) }
{
    let mut lines = Vec::new(alloc);
    lines.push(header(alloc, name)?)?;
    for standing in standings.as_slice() {
        let place = lines.len() as u64;
        lines.push(line_at(alloc, members, scores, standings, place, standing)?)?;
    }
    Ok(lines)
}

// The lines of the cross table of the event with this id and name.
fn event_table<S: Alter>(
    alloc: Global,
    version: Version,
    conn: &mut Connection<S>,
    event: u32,
    name: &str,
) -> Result<Vec<String>, LookupFault>
    ensures reads { Reads (is_ok result) (state S.Store conn.old) (state S.Store conn.new) }
    ensures table { HasCleanDisk (state S.Store conn.new) → IfOk result (λ lines. (s : ClubState) → IsClub s →
        version ≡ version_of s → StoresClub s (state S.Store conn.old) →
        IsCrossTable s event name.now (map (λ t. string_bytes t) lines.items)) }
{
    let scores = scores_in(alloc, conn, event)?;
    let members = all_members(alloc, version, conn)?;
    let standings = Standings::of_rows(alloc, &scores)?;
    lines_of(alloc, name, &members, &scores, &standings)
}

/// The lines of the cross table of the event with this name, in a club of this version; `None` if there is no such
/// event.
///
/// # Errors
///
/// - `LookupFault::Store`: a call of the database failed, or its rows are not a club's.
/// - `LookupFault::Memory`: out of memory.
pub fn cross_table_lines<S: Alter>(
    alloc: Global,
    version: Version,
    conn: &mut Connection<S>,
    name: &str,
) -> Result<Option<Vec<String>>, LookupFault>
    ensures reads { Reads (is_ok result) (state S.Store conn.old) (state S.Store conn.new) }
    ensures rows { HasCleanDisk (state S.Store conn.new) → IfOk result (λ found. (s : ClubState) → IsClub s →
        version ≡ version_of s → StoresClub s (state S.Store conn.old) →
        AreTableRows s name.now (option_map (λ lines. map (λ t. string_bytes t) lines.items) found)) }
{
    match event_named(alloc, conn, name)? {
        Some(event) => {
            let lines = event_table(alloc, version, conn, event, name)?;
            Ok(Some(lines))
        }
        None => Ok(None),
    }
}
