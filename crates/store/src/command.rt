//! Execution of a request: authentication, effective timestamp, and dispatch to the command.

ghost use Rattle.std.specs.Prelude.{◌≡◌, string_bytes, IfOk, IsTrue, is_ok};
ghost use Rattle.sqlite.specs.State.{HasCleanDisk};
ghost use Rattle.sqlite.specs.Held.{state};
ghost use Rattle.club_core.specs.Answer.{added_event, command_of};
ghost use Rattle.club_core.specs.State.{add_event, add_member, close_event, new_key, takes};
ghost use Rattle.store_tables.specs.Reading.{Reads};
ghost use Rattle.club_rows.specs.Club.{ClubState, IsClub, StoresClub};
ghost use Rattle.club_rows.specs.Tables.{version_of};
ghost use Rattle.club_changes.specs.Steps.{request, club_step};
ghost use Rattle.club_changes.specs.internal.Steps.{IsDecided};
ghost use Rattle.club_changes.specs.internal.Whole.{IsWhole};

use crate::decides::Decide;
use crate::sweep::Sweep;
use clocks::Moment;
use club_changes::{CommandEffect, on_closing, on_event, on_key, on_member, without_changes};
use club_reads::{LookupFault, all_events, all_members, identify_caller, last_moment};
use club_requests::{
    AddEvent, AddMember, Caller, CloseEvent, Command, NewKey, Outcome, Refusal, Who,
};
use sqlite::{Alter, Connection};
use std::alloc::Global;
use store_tables::Version;

impl Decide for AddMember {
    ghost command = { λ c. add_member (string_bytes c.name) (string_bytes c.key) };

    fn decide<S: Alter>(
        &self,
        alloc: Global,
        version: Version,
        conn: &mut Connection<S>,
        caller: Caller,
        moment: Moment,
    ) -> Result<CommandEffect, LookupFault> {
        let members = all_members(alloc, version, conn)?;
        Ok(on_member(alloc, &members, caller, self, moment)?)
    }
}

impl Decide for AddEvent {
    ghost command = { λ c. add_event (added_event c) };

    fn decide<S: Alter>(
        &self,
        alloc: Global,
        version: Version,
        conn: &mut Connection<S>,
        caller: Caller,
        moment: Moment,
    ) -> Result<CommandEffect, LookupFault> {
        let events = all_events(alloc, version, conn)?;
        Ok(on_event(alloc, &events, caller, self, moment)?)
    }
}

impl Decide for NewKey {
    ghost command = { λ c. new_key (string_bytes c.name) c.number (string_bytes c.key) };

    fn decide<S: Alter>(
        &self,
        alloc: Global,
        version: Version,
        conn: &mut Connection<S>,
        caller: Caller,
        moment: Moment,
    ) -> Result<CommandEffect, LookupFault> {
        let members = all_members(alloc, version, conn)?;
        Ok(on_key(alloc, &members, caller, self, moment)?)
    }
}

impl Decide for CloseEvent {
    ghost command = { λ c. close_event (string_bytes c.event) };

    fn decide<S: Alter>(
        &self,
        alloc: Global,
        version: Version,
        conn: &mut Connection<S>,
        caller: Caller,
        moment: Moment,
    ) -> Result<CommandEffect, LookupFault> {
        let events = all_events(alloc, version, conn)?;
        Ok(on_closing(alloc, &events, caller, self, moment)?)
    }
}

impl Decide for Command {
    ghost command = { command_of };

    fn decide<S: Alter>(
        &self,
        alloc: Global,
        version: Version,
        conn: &mut Connection<S>,
        caller: Caller,
        moment: Moment,
    ) -> Result<CommandEffect, LookupFault> {
        match self {
            Command::AddMember(command) => command.decide(alloc, version, conn, caller, moment),
            Command::AddEvent(command) => command.decide(alloc, version, conn, caller, moment),
            Command::Seat(command) => command.decide(alloc, version, conn, caller, moment),
            Command::Import(command) => command.decide(alloc, version, conn, caller, moment),
            Command::OnGame(command) => command.decide(alloc, version, conn, caller, moment),
            Command::Sweep => Sweep.decide(alloc, version, conn, caller, moment),
            Command::Challenge(command) => command.decide(alloc, version, conn, caller, moment),
            Command::Withdraw(command) => command.decide(alloc, version, conn, caller, moment),
            Command::Answer(command) => command.decide(alloc, version, conn, caller, moment),
            Command::NewKey(command) => command.decide(alloc, version, conn, caller, moment),
            Command::CloseEvent(command) => command.decide(alloc, version, conn, caller, moment),
            Command::Rule(command) => command.decide(alloc, version, conn, caller, moment),
        }
    }
}

/// Decides a request to a club of this version: its outcome, and the rows to write if it is accepted.
/// The effective timestamp is the later of the request's and that of the last accepted request.
pub(crate) fn decide_request<S: Alter>(
    alloc: Global,
    version: Version,
    conn: &mut Connection<S>,
    who: &Who,
    command: &Command,
    moment: Moment,
) -> Result<CommandEffect, LookupFault>
    ensures reads { Reads (is_ok result) (state S.Store conn.old) (state S.Store conn.new) }
    ensures acts { IfOk result IsWhole }
    ensures step { HasCleanDisk (state S.Store conn.new) → IfOk result (λ d. (s : ClubState) → IsClub s →
        version ≡ version_of s → IsTrue (takes s (command_of command.now)) → StoresClub s (state S.Store conn.old) →
        IsDecided s (club_step s (request who.now command.now moment)) d) }
{
    let last = last_moment(alloc, conn)?;
    match identify_caller(alloc, version, conn, who)? {
        Some(caller) => command.decide(alloc, version, conn, caller, moment.later(last)),
        None => Ok(without_changes(Outcome::Refused(Refusal::UnknownKey))),
    }
}
