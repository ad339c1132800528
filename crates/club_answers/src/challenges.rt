//! Reads the challenges of the club and of a member.

ghost use Rattle.std.specs.Prelude.{◌≡◌, ◌++◌, true, pos, map, IfOk, is_ok};
ghost use Rattle.std.specs.List.{AllByRecursion};
ghost use Rattle.std.specs.List.Sorted.{IsPermutation};
ghost use Rattle.sqlite_trees.specs.Tree.{IsAscending};
ghost use Rattle.sqlite.specs.State.{HasCleanDisk};
ghost use Rattle.sqlite.specs.Held.{state};
ghost use Rattle.store_tables.specs.internal.Over.{HasRows};
ghost use Rattle.store_tables.specs.Reading.{Reads};
ghost use Rattle.club_rows.specs.Club.{ClubState, tables};
ghost use Rattle.club_rows.specs.Tables.{challenge_row};
ghost use Rattle.store_tables.specs.internal.Cells.{challenge_cells};
ghost use Rattle.club_answers.specs.Challenges.{AreChallengesOf, ComesBefore};
ghost use Rattle.club_answers.specs.internal.Challenges.{AreChallengesWith};

use club_core::Challenge;
use club_reads::LookupFault;
use club_rows::challenge_of;
use sqlite::{Alter, Connection};
use std::alloc::{AllocError, Global};
use store_sql::{ChallengesTo, find_by_column, find_by_first, list};
use store_tables::ChallengeRow;

// Order by challenger, then by number.
fn comes_before(one: &Challenge, other: &Challenge) -> bool
    ensures { result ≡ true → ComesBefore one.now other.now }
{
    if one.member == other.member {
        return one.number < other.number;
    }
    one.member < other.member
}

// Whether `next` comes after all of `challenges`, which are sorted.
fn comes_last(challenges: &[Challenge], next: &Challenge) -> bool
    ensures { result ≡ true → IsAscending ComesBefore challenges.now →
        AllByRecursion (λ c. ComesBefore c next.now) challenges.now }
{
    match challenges.last() {
        Some(last) => comes_before(last, next),
        None => true,
    }
}

// The challenge in this row.
fn challenge_in(row: &ChallengeRow) -> Result<Challenge, LookupFault>
    ensures { IfOk result (λ c. challenge_cells row.now ≡ challenge_row c) }
{
    match challenge_of(row) {
        Some(challenge) => Ok(challenge),
        None => Err(LookupFault::Store),
    }
}

// The challenges of these rows, which must be sorted.
fn challenges_in(alloc: Global, rows: &[ChallengeRow]) -> Result<Vec<Challenge>, LookupFault>
    ensures rows { IfOk result (λ found. map challenge_cells rows.now ≡ map challenge_row found.items) }
    ensures order { IfOk result (λ found. IsAscending ComesBefore found.items) }
{
    let mut challenges = Vec::new(alloc);
    for row in rows {
        let challenge = challenge_in(row)?;
        if !comes_last(&challenges, &challenge) {
            return Err(LookupFault::Store);
        }
        challenges.push(challenge)?;
    }
    Ok(challenges)
}

// The query for the challenges to a member.
fn question_of(member: u32) -> ChallengesTo
    ensures { result.member ≡ pos member }
{
    ChallengesTo {
        member: i64::from(member),
    }
}

// The rows of both lists, sorted by challenger, then by number.
fn merge(
    own: Vec<ChallengeRow>,
    received: Vec<ChallengeRow>,
) -> Result<Vec<ChallengeRow>, AllocError>
    ensures { IfOk result (λ rows. IsPermutation (own.items ++ received.items) rows.items) }
{
    let mut rows = own;
    let mut received = received;
    rows.append(&mut received)?;
    rows.sort_unstable_by_key(|row| (row.member, row.number));
    Ok(rows)
}

/// All challenges of the club, sorted by challenger, then by number.
pub(crate) fn all_challenges<S: Alter>(
    alloc: Global,
    conn: &mut Connection<S>,
) -> Result<Vec<Challenge>, LookupFault>
    ensures reads { Reads (is_ok result) (state S.Store conn.old) (state S.Store conn.new) }
    ensures found { HasCleanDisk (state S.Store conn.new) → IfOk result (λ found. (s : ClubState) →
        HasRows (tables s) (state S.Store conn.old) → AreChallengesOf s found.items) }
{
    let rows = list::<ChallengeRow, S>(alloc, conn)?;
    challenges_in(alloc, &rows)
}

/// The challenges by and to the member with this id, sorted by challenger, then by number.
pub(crate) fn challenges_of_member<S: Alter>(
    alloc: Global,
    conn: &mut Connection<S>,
    member: u32,
) -> Result<Vec<Challenge>, LookupFault>
    ensures reads { Reads (is_ok result) (state S.Store conn.old) (state S.Store conn.new) }
    ensures found { HasCleanDisk (state S.Store conn.new) → IfOk result (λ found. (s : ClubState) →
        HasRows (tables s) (state S.Store conn.old) → AreChallengesWith s member found.items) }
{
    let id = i64::from(member);
    let own = find_by_first::<ChallengeRow, S>(alloc, conn, &id)?;
    let received = find_by_column(alloc, conn, &question_of(member))?;
    let rows = merge(own, received)?;
    challenges_in(alloc, &rows)
}
