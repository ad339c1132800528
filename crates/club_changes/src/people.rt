//! Rows that adding a member or an event adds.

ghost use Rattle.std.specs.Prelude.{◌≡◌, ◌≤◌, ◌<◌, ◌^◌, Some, IfOk, []};
ghost use Rattle.std.specs.Prelude.{length, string_bytes};
ghost use Rattle.club_core.specs.Answer.{added_event};
ghost use Rattle.club_core.specs.internal.Answer.{members_of, events_of};
ghost use Rattle.club_core.specs.State.{is_accepted, add_member, add_event};
ghost use Rattle.club_core.specs.Events.{declaring};
ghost use Rattle.club_rows.specs.Tables.{member_row, event_row, rule_row};
ghost use Rattle.store_tables.specs.Cells.{event_cells};
ghost use Rattle.store_tables.specs.internal.Cells.{member_cells, event_rule_cells};
ghost use Rattle.club_rows.specs.Club.{ClubState, IsClub};
ghost use Rattle.club_changes.specs.internal.Steps.{caller_step};
ghost use Rattle.club_changes.specs.internal.Steps.{IsDecided};
ghost use Rattle.club_changes.specs.internal.Whole.{IsWhole};

use crate::decided::{CommandEffect, changes_at, is_accepted, without_changes};
use clocks::Moment;
use club_core::{Event, Member, add_event, add_member};
use club_requests::{AddEvent, AddMember, Caller};
use club_rows::kind_number;
use club_rows::numbers::{declares_number, to_i64};
use club_rules::Memory;
use std::alloc::Global;
use store_tables::{EventRow, EventRuleRow, MemberRow};

fn member_row(id: u32, command: &AddMember) -> Result<MemberRow, Memory>
    ensures { IfOk result (λ row. member_cells row ≡ member_row id
        (record { name = string_bytes command.now.name; key = string_bytes command.now.key; later = [] })) }
{
    let name = command.name.clone()?;
    let key = command.key.clone()?;
    Ok(MemberRow {
        id: i64::from(id),
        name,
        key,
    })
}

/// Decides a command to add a member, and returns its effect.
///
/// # Errors
///
/// `Memory` if out of memory.
pub fn on_member(
    alloc: Global,
    members: &[Member],
    caller: Caller,
    command: &AddMember,
    moment: Moment,
) -> Result<CommandEffect, Memory>
    requires { length members.now ≤ 200 }
    ensures acts { IfOk result IsWhole }
    ensures step { IfOk result (λ d. (s : ClubState) → members_of members.now ≡ s.members →
        IsDecided s (caller_step s moment caller (add_member (string_bytes command.now.name)
        (string_bytes command.now.key))) d) }
{
    let outcome = add_member(members, caller, command);
    if !is_accepted(&outcome) {
        return Ok(without_changes(outcome));
    }
    let mut changes = changes_at(alloc, moment);
    changes
        .members
        .push(member_row(members.len() as u32 + 1, command)?)?;
    Ok(CommandEffect {
        outcome,
        changes: Some(changes),
    })
}

fn event_row(id: u32, command: &AddEvent) -> Result<EventRow, Memory>
    // Seconds below 2^63 are stored exactly.
    ensures { IfOk result (λ row. command.now.budget < 2 ^ 63 → command.now.increment < 2 ^ 63 →
        event_cells row ≡ event_row id (added_event command.now)) }
{
    let name = command.name.clone()?;
    Ok(EventRow {
        id: i64::from(id),
        name,
        game: kind_number(command.game),
        budget: to_i64(command.budget),
        increment: to_i64(command.increment),
    })
}

// The rules of a new event: its players may declare a win.
fn rule_row(id: u32) -> EventRuleRow
    ensures { (e : _) → event_rule_cells result ≡ rule_row id (declaring e) }
{
    EventRuleRow {
        event: i64::from(id),
        declares: declares_number(true),
    }
}

/// Decides a command to add an event, and returns its effect.
///
/// # Errors
///
/// `Memory` if out of memory.
pub fn on_event(
    alloc: Global,
    events: &[Event],
    caller: Caller,
    command: &AddEvent,
    moment: Moment,
) -> Result<CommandEffect, Memory>
    requires { length events.now ≤ 50 }
    ensures acts { IfOk result IsWhole }
    ensures step { IfOk result (λ d. (s : ClubState) → IsClub s → events_of events.now ≡ s.events →
        IsDecided s (caller_step s moment caller (add_event (added_event command.now))) d) }
{
    let outcome = add_event(events, caller, command);
    if !is_accepted(&outcome) {
        return Ok(without_changes(outcome));
    }
    let id = events.len() as u32 + 1;
    let mut changes = changes_at(alloc, moment);
    changes.events.push(event_row(id, command)?)?;
    changes.event_rules.push(rule_row(id))?;
    Ok(CommandEffect {
        outcome,
        changes: Some(changes),
    })
}
