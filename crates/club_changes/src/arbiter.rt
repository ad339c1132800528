//! Rows that an arbiter's command adds: another key of a member, and the closing of an event. Only a club of schema 3
//! can store them.

ghost use Rattle.std.specs.Prelude.{◌≡◌, ◌≤◌, ◌<◌, ◌^◌, Some, IfOk, true};
ghost use Rattle.std.specs.Prelude.{length, string_bytes};
ghost use Rattle.club_core.specs.Answer.{command_of};
ghost use Rattle.club_core.specs.internal.Answer.{members_of, events_of};
ghost use Rattle.club_core.specs.State.{needs_arbiter, new_key, close_event};
ghost use Rattle.club_rows.specs.Club.{ClubState};
ghost use Rattle.club_rows.specs.Tables.{key_row, closing_row};
ghost use Rattle.store_tables.specs.internal.Cells.{key_cells, closing_cells};
ghost use Rattle.club_changes.specs.internal.Steps.{IsDecided, caller_step};
ghost use Rattle.club_changes.specs.internal.Whole.{IsWhole};

use crate::decided::{CommandEffect, changes_at, is_accepted, without_changes};
use clocks::Moment;
use club_core::seats::{find_event, find_member};
use club_core::{Event, Member, close_event, new_key};
use club_requests::{Caller, CloseEvent, Command, NewKey};
use club_rows::numbers::to_i64;
use club_rules::Memory;
use std::alloc::Global;
use store_tables::{ClosingRow, KeyRow};

/// Whether only a club with an arbiter, of schema 3, can record what the command does.
pub fn needs_arbiter(command: &Command) -> bool
    ensures { result ≡ needs_arbiter (command_of command.now) }
{
    match command {
        Command::NewKey(_) => true,
        Command::CloseEvent(_) => true,
        Command::Rule(_) => true,
        _ => false,
    }
}

fn key_row(member: u32, command: &NewKey) -> Result<KeyRow, Memory>
    // A number below 2^63 is stored exactly.
    ensures { IfOk result (λ row. command.now.number < 2 ^ 63 →
        key_cells row ≡ key_row member command.now.number (string_bytes command.now.key)) }
{
    let key = command.key.clone()?;
    Ok(KeyRow {
        member: i64::from(member),
        number: to_i64(command.number),
        key,
    })
}

/// Decides a command to give a member another key, and returns its effect.
///
/// # Errors
///
/// `Memory` if out of memory.
pub fn on_key(
    alloc: Global,
    members: &[Member],
    caller: Caller,
    command: &NewKey,
    moment: Moment,
) -> Result<CommandEffect, Memory>
    requires { length members.now ≤ 200 }
    ensures acts { IfOk result IsWhole }
    ensures step { IfOk result (λ d. (s : ClubState) → s.has_arbiter ≡ true →
        members_of members.now ≡ s.members → IsDecided s (caller_step s moment caller (new_key
        (string_bytes command.now.name) command.now.number (string_bytes command.now.key))) d) }
{
    let outcome = new_key(members, caller, command);
    if !is_accepted(&outcome) {
        return Ok(without_changes(outcome));
    }
    let member = match find_member(members, command.name.as_str()) {
        Some(member) => member,
        None => return Ok(without_changes(outcome)),
    };
    let mut changes = changes_at(alloc, moment);
    changes.keys.push(key_row(member, command)?)?;
    Ok(CommandEffect {
        outcome,
        changes: Some(changes),
    })
}

fn closing_row(event: u32, moment: Moment) -> ClosingRow
    ensures { closing_cells result ≡ closing_row event moment }
{
    ClosingRow {
        event: i64::from(event),
        moment: to_i64(moment.seconds()),
    }
}

/// Decides a command to close an event to challenges, and returns its effect.
///
/// # Errors
///
/// `Memory` if out of memory.
pub fn on_closing(
    alloc: Global,
    events: &[Event],
    caller: Caller,
    command: &CloseEvent,
    moment: Moment,
) -> Result<CommandEffect, Memory>
    requires { length events.now ≤ 50 }
    ensures acts { IfOk result IsWhole }
    ensures step { IfOk result (λ d. (s : ClubState) → s.has_arbiter ≡ true → events_of events.now ≡ s.events →
        IsDecided s (caller_step s moment caller (close_event (string_bytes command.now.event))) d) }
{
    let outcome = close_event(events, caller, command);
    if !is_accepted(&outcome) {
        return Ok(without_changes(outcome));
    }
    let event = match find_event(events, command.event.as_str()) {
        Some(event) => event,
        None => return Ok(without_changes(outcome)),
    };
    let mut changes = changes_at(alloc, moment);
    changes.closings.push(closing_row(event, moment))?;
    Ok(CommandEffect {
        outcome,
        changes: Some(changes),
    })
}
