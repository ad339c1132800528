//! Queries that list all challenges.

ghost use Rattle.std.specs.Prelude.{◌≡◌, IfOk, is_ok};
ghost use Rattle.sqlite.specs.State.{HasCleanDisk};
ghost use Rattle.sqlite.specs.Held.{state};
ghost use Rattle.store_tables.specs.Reading.{Reads};
ghost use Rattle.club_rows.specs.Club.{ClubState, IsClub, StoresClub};
ghost use Rattle.club_rows.specs.Tables.{version_of};
ghost use Rattle.club_answers.specs.AnswerTexts.{IsChallengesJson, IsChallengesText};
ghost use Rattle.club_answers.specs.internal.Challenges.{AreChallengesRead};
ghost use Rattle.club_answers.specs.internal.Found.{IsFoundAs};

use crate::challenges::all_challenges;
use crate::found::Shown;
use club_core::{Challenge, Event, Member};
use club_lists::{challenges_json, challenges_text};
use club_reads::{LookupFault, all_events, all_members};
use sqlite::{Alter, Connection};
use std::alloc::Global;
use store_tables::Version;

/// The members, the events and all challenges of a club.
#[derive(Drop)]
pub(crate) struct ChallengesRead {
    pub members: Vec<Member>,
    pub events: Vec<Event>,
    /// Sorted by challenger, then by number.
    pub challenges: Vec<Challenge>,
}

fn read_challenges<S: Alter>(
    alloc: Global,
    version: Version,
    conn: &mut Connection<S>,
) -> Result<ChallengesRead, LookupFault>
    ensures reads { Reads (is_ok result) (state S.Store conn.old) (state S.Store conn.new) }
    ensures read { HasCleanDisk (state S.Store conn.new) → IfOk result (λ read. (s : ClubState) → IsClub s →
        version ≡ version_of s → StoresClub s (state S.Store conn.old) → AreChallengesRead s read) }
{
    let members = all_members(alloc, version, conn)?;
    let events = all_events(alloc, version, conn)?;
    let challenges = all_challenges(alloc, conn)?;
    Ok(ChallengesRead {
        members,
        events,
        challenges,
    })
}

/// All challenges, one per line.
pub(crate) fn challenge_lines<S: Alter>(
    alloc: Global,
    version: Version,
    conn: &mut Connection<S>,
) -> Result<Shown, LookupFault>
    ensures reads { Reads (is_ok result) (state S.Store conn.old) (state S.Store conn.new) }
    ensures found { HasCleanDisk (state S.Store conn.new) → IfOk result (λ found. (s : ClubState) → IsClub s →
        version ≡ version_of s → StoresClub s (state S.Store conn.old) →
        IsFoundAs (IsChallengesText s) (λ refusal. ⊥) found) }
{
    let read = read_challenges(alloc, version, conn)?;
    let text = challenges_text(alloc, &read.members, &read.events, &read.challenges)?;
    Ok(Shown::Text(text))
}

/// All challenges, as JSON.
pub(crate) fn challenge_objects<S: Alter>(
    alloc: Global,
    version: Version,
    conn: &mut Connection<S>,
) -> Result<Shown, LookupFault>
    ensures reads { Reads (is_ok result) (state S.Store conn.old) (state S.Store conn.new) }
    ensures found { HasCleanDisk (state S.Store conn.new) → IfOk result (λ found. (s : ClubState) → IsClub s →
        version ≡ version_of s → StoresClub s (state S.Store conn.old) →
        IsFoundAs (IsChallengesJson s) (λ refusal. ⊥) found) }
{
    let read = read_challenges(alloc, version, conn)?;
    let text = challenges_json(alloc, &read.members, &read.events, &read.challenges)?;
    Ok(Shown::Text(text))
}
