//! Execution of the commands about challenges: open, withdraw and answer.

ghost use Rattle.std.specs.Prelude.{◌≡◌, ◌≤◌, ◌<◌, ℕ, length, Some, IfOk, is_ok};
ghost use Rattle.std.specs.Prelude.{string_bytes};
ghost use Rattle.sqlite.specs.State.{HasCleanDisk};
ghost use Rattle.sqlite.specs.Held.{state};
ghost use Rattle.club_core.specs.internal.Answer.{members_of, events_of, challenge_outcome_of};
ghost use Rattle.club_core.specs.Challenges.{challenge_by, answer_step};
ghost use Rattle.club_core.specs.Members.{find_id};
ghost use Rattle.club_requests.specs.Outcome.{by_member};
ghost use Rattle.club_core.specs.Seats.{has_member_name};
ghost use Rattle.club_core.specs.State.{open_challenge, withdraw_challenge, answer_challenge};
ghost use Rattle.club_rows.specs.Club.{ClubState, IsClub, tables};
ghost use Rattle.store_tables.specs.internal.Over.{HasRows};
ghost use Rattle.store_tables.specs.Reading.{Reads};

use crate::decides::Decide;
use clocks::Moment;
use club_changes::{CommandEffect, put_answered, put_challenge};
use club_core::seats::find_member;
use club_core::{ChallengeDecision, Event, Member, answer_challenge, open_challenge, withdraw};
use club_reads::{LookupFault, all_events, all_members, challenge_by, count_games};
use club_requests::{AnswerChallenge, Caller, OpenChallenge, Withdraw};
use sqlite::{Alter, Connection};
use std::alloc::Global;
use store_tables::Version;

fn member_id(caller: Caller) -> Option<u32>
    ensures { (id : ℕ) → caller ≡ Caller.Member id → result ≡ Some id }
{
    match caller {
        Caller::Member(id) => Some(id),
        Caller::Officer => None,
    }
}

impl Decide for OpenChallenge {
    ghost command = { λ c. open_challenge c.number (string_bytes c.event) (string_bytes c.other) c.first };

    fn decide<S: Alter>(
        &self,
        alloc: Global,
        version: Version,
        conn: &mut Connection<S>,
        caller: Caller,
        moment: Moment,
    ) -> Result<CommandEffect, LookupFault> {
        let under = challenge_by(alloc, conn, member_id(caller), self.number)?;
        let members = all_members(alloc, version, conn)?;
        let events = all_events(alloc, version, conn)?;
        let decision = open_challenge(&members, &events, under, caller, self);
        Ok(put_challenge(alloc, decision, moment)?)
    }
}

impl Decide for Withdraw {
    ghost command = { λ c. withdraw_challenge c.number };

    fn decide<S: Alter>(
        &self,
        alloc: Global,
        _version: Version,
        conn: &mut Connection<S>,
        caller: Caller,
        moment: Moment,
    ) -> Result<CommandEffect, LookupFault> {
        let under = challenge_by(alloc, conn, member_id(caller), self.number)?;
        Ok(put_challenge(alloc, withdraw(under, caller), moment)?)
    }
}

// The decision on the answer to a challenge.
fn decided_answer<S: Alter>(
    alloc: Global,
    conn: &mut Connection<S>,
    members: &[Member],
    events: &[Event],
    caller: Caller,
    command: &AnswerChallenge,
) -> Result<ChallengeDecision, LookupFault>
    requires { length members.now ≤ 200 }
    ensures reads { Reads (is_ok result) (state S.Store conn.old) (state S.Store conn.new) }
    ensures decided { HasCleanDisk (state S.Store conn.new) → IfOk result (λ d. (s : ClubState) → IsClub s →
        members_of members.now ≡ s.members → events_of events.now ≡ s.events →
        HasRows (tables s) (state S.Store conn.old) →
        challenge_outcome_of d ≡ by_member caller (λ member. answer_step s.events
        (challenge_by s.challenges (find_id (has_member_name (string_bytes command.now.challenger)) s.members)
        command.now.number) (length s.games) member command.now.accept)) }
{
    let challenger = find_member(members, command.challenger.as_str());
    let under = challenge_by(alloc, conn, challenger, command.number)?;
    let games = count_games(conn)?;
    Ok(answer_challenge(events, under, games, caller, command.accept))
}

impl Decide for AnswerChallenge {
    ghost command = { λ c. answer_challenge (string_bytes c.challenger) c.number c.accept };

    fn decide<S: Alter>(
        &self,
        alloc: Global,
        version: Version,
        conn: &mut Connection<S>,
        caller: Caller,
        moment: Moment,
    ) -> Result<CommandEffect, LookupFault> {
        let members = all_members(alloc, version, conn)?;
        let events = all_events(alloc, version, conn)?;
        let decision = decided_answer(alloc, conn, &members, &events, caller, self)?;
        Ok(put_answered(alloc, &events, decision, moment)?)
    }
}
