//! A member's own games and challenges, as JSON.

ghost use Rattle.std.specs.Prelude.{◌≡◌, IfOk, is_ok};
ghost use Rattle.sqlite.specs.State.{HasCleanDisk};
ghost use Rattle.sqlite.specs.Held.{state};
ghost use Rattle.store_tables.specs.Reading.{Reads};
ghost use Rattle.club_rows.specs.Club.{ClubState, IsClub, StoresClub};
ghost use Rattle.club_rows.specs.Tables.{version_of};
ghost use Rattle.club_answers.specs.internal.Found.{IsFoundAs};
ghost use Rattle.club_answers.specs.AnswerTexts.{IsMyGamesText, IsNoKey};

use crate::challenges::challenges_of_member;
use crate::found::Shown;
use crate::read::read_club;
use crate::running::all_running;
use clocks::Moment;
use club_lists::listing::member_name;
use club_lists::{MemberGames, member_id_by_key, my_games_json, own_game_ids};
use club_reads::LookupFault;
use club_requests::Refusal;
use sqlite::{Alter, Connection};
use std::alloc::Global;
use store_tables::Version;

/// The games and challenges of the member with this key.
pub(crate) fn mine<S: Alter>(
    alloc: Global,
    version: Version,
    conn: &mut Connection<S>,
    key: &str,
    moment: Moment,
) -> Result<Shown, LookupFault>
    ensures reads { Reads (is_ok result) (state S.Store conn.old) (state S.Store conn.new) }
    ensures found { HasCleanDisk (state S.Store conn.new) → IfOk result (λ found. (s : ClubState) → IsClub s →
        version ≡ version_of s → StoresClub s (state S.Store conn.old) →
        IsFoundAs (IsMyGamesText s moment key.now) (IsNoKey s key.now) found) }
{
    let club = read_club(alloc, version, conn, moment)?;
    let Some(id) = member_id_by_key(&club.members, key) else {
        return Ok(Shown::Refused(Refusal::UnknownKey));
    };
    let name = member_name(&club.members, id);
    let challenges = challenges_of_member(alloc, conn, id)?;
    let ids = own_game_ids(alloc, &club.members, name, &club.games)?;
    let running = all_running(alloc, conn, &ids)?;
    let own = MemberGames {
        challenges,
        running,
    };
    let text = my_games_json(alloc, &club.members, &club.events, name, club.moment, &own)?;
    Ok(Shown::Text(text))
}
