//! Reads challenges.

ghost use Rattle.std.specs.Prelude.{◌≡◌, ◌<◌, pos, Some, IfOk, is_ok, IfSome};
ghost use Rattle.std.specs.Prelude.{IfNone};
ghost use Rattle.sqlite.specs.State.{HasCleanDisk};
ghost use Rattle.sqlite.specs.Held.{state};
ghost use Rattle.club_core.specs.Challenges.{challenge_by};
ghost use Rattle.club_rows.specs.Club.{ClubState, IsClub, tables};
ghost use Rattle.club_rows.specs.Tables.{challenge_row};
ghost use Rattle.store_tables.specs.internal.Cells.{challenge_cells};
ghost use Rattle.store_tables.specs.internal.Over.{HasRows};
ghost use Rattle.store_tables.specs.Reading.{Reads};

use crate::fault::LookupFault;
use crate::found::first;
use club_core::Challenge;
use club_rows::challenge_of;
use sqlite::{Alter, Connection};
use std::alloc::Global;
use store_sql::{ChallengeNumber, find};
use store_tables::ChallengeRow;

// Converts a row; `Store` if it is invalid.
fn challenge_in(row: &ChallengeRow) -> Result<Challenge, LookupFault>
    ensures { IfOk result (λ c. challenge_cells row.now ≡ challenge_row c) }
{
    match challenge_of(row) {
        Some(challenge) => Ok(challenge),
        None => Err(LookupFault::Store),
    }
}

// The query for a member's challenge. None if the number does not fit in a column.
fn question_of(member: u32, number: u64) -> Option<ChallengeNumber>
    ensures member { IfSome result (λ q. q.member ≡ pos member) }
    ensures number { IfSome result (λ q. q.number ≡ pos number) }
    ensures none { IfNone result (9999 < number) }
{
    let Ok(number) = i64::try_from(number) else {
        return None;
    };
    Some(ChallengeNumber {
        member: i64::from(member),
        number,
    })
}

/// Returns the member's challenge with this number, if there is one; None without a member.
///
/// # Errors
///
/// - `Store` if a call of the database fails, or a row is invalid.
/// - `Memory` if out of memory.
pub fn challenge_by<S: Alter>(
    alloc: Global,
    conn: &mut Connection<S>,
    member: Option<u32>,
    number: u64,
) -> Result<Option<Challenge>, LookupFault>
    ensures reads { Reads (is_ok result) (state S.Store conn.old) (state S.Store conn.new) }
    ensures found { HasCleanDisk (state S.Store conn.new) → IfOk result (λ c. (s : ClubState) → IsClub s →
        HasRows (tables s) (state S.Store conn.old) → c ≡ challenge_by s.challenges member number) }
{
    let Some(member) = member else {
        return Ok(None);
    };
    let Some(question) = question_of(member, number) else {
        return Ok(None);
    };
    match first(find(alloc, conn, &question)?) {
        Some(row) => Ok(Some(challenge_in(&row)?)),
        None => Ok(None),
    }
}
