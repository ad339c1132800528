//! Reads all that a list needs: timestamp, members, events and games.

ghost use Rattle.std.specs.Prelude.{◌≡◌, ◌≤◌, IfOk, is_ok, length};
ghost use Rattle.sqlite.specs.State.{HasCleanDisk};
ghost use Rattle.sqlite.specs.Held.{state};
ghost use Rattle.store_tables.specs.internal.Over.{HasRows};
ghost use Rattle.store_tables.specs.Reading.{Reads};
ghost use Rattle.club_requests.specs.Limits.{most_members};
ghost use Rattle.club_rows.specs.Club.{ClubState, IsClub, StoresClub, tables};
ghost use Rattle.club_rows.specs.Tables.{version_of};
ghost use Rattle.club_lists.specs.internal.SummaryViews.{summaries_of};
ghost use Rattle.club_answers.specs.internal.Found.{IsReadOf};
ghost use Rattle.club_answers.specs.Games.{game_summaries};

use crate::games::entries_of;
use clocks::Moment;
use club_core::{Event, Member};
use club_lists::GameEntry;
use club_reads::{LookupFault, all_events, all_members, last_moment};
use sqlite::{Alter, Connection};
use std::alloc::Global;
use store_sql::list;
use store_tables::{GameTableRow, Version};

/// A club at a timestamp, without the moves of its games.
#[derive(Drop)]
pub(crate) struct ClubRead {
    /// The effective timestamp: the later of the query's and that of the last accepted command.
    pub moment: Moment,
    pub members: Vec<Member>,
    pub events: Vec<Event>,
    pub games: Vec<GameEntry>,
}

// The entries of all games.
fn games_of<S: Alter>(
    alloc: Global,
    conn: &mut Connection<S>,
) -> Result<Vec<GameEntry>, LookupFault>
    ensures reads { Reads (is_ok result) (state S.Store conn.old) (state S.Store conn.new) }
    ensures told { HasCleanDisk (state S.Store conn.new) → IfOk result (λ games. (s : ClubState) → IsClub s →
        HasRows (tables s) (state S.Store conn.old) → summaries_of games.items ≡ game_summaries s) }
{
    let rows = list::<GameTableRow, S>(alloc, conn)?;
    entries_of(alloc, &rows)
}

/// Reads a club of this version for a query at this timestamp.
pub(crate) fn read_club<S: Alter>(
    alloc: Global,
    version: Version,
    conn: &mut Connection<S>,
    moment: Moment,
) -> Result<ClubRead, LookupFault>
    ensures reads { Reads (is_ok result) (state S.Store conn.old) (state S.Store conn.new) }
    ensures room { IfOk result (λ club. length club.members.items ≤ most_members) }
    ensures read { HasCleanDisk (state S.Store conn.new) → IfOk result (λ club. (s : ClubState) → IsClub s →
        version ≡ version_of s → StoresClub s (state S.Store conn.old) → IsReadOf s moment club) }
{
    let last = last_moment(alloc, conn)?;
    let members = all_members(alloc, version, conn)?;
    let events = all_events(alloc, version, conn)?;
    let games = games_of(alloc, conn)?;
    Ok(ClubRead {
        moment: moment.later(last),
        members,
        events,
        games,
    })
}
