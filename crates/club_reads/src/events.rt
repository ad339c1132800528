//! Reads events.

ghost use Rattle.std.specs.Prelude.{◌≡◌, ◌≢◌, ◌≤◌, ◌<◌, ℕ, List, map, true, false, Some, None, IfOk, is_ok};
ghost use Rattle.std.specs.Prelude.{length};
ghost use Rattle.sqlite.specs.State.{HasCleanDisk};
ghost use Rattle.sqlite.specs.Held.{state};
ghost use Rattle.club_core.specs.internal.Answer.{event_of, events_of};
ghost use Rattle.club_core.specs.Events as core;
ghost use Rattle.club_core.specs.State as club;
ghost use Rattle.club_core.specs.State.{place};
ghost use Rattle.club_rows.specs.Tables.{number, numbered_from, event_row, rule_row};
ghost use Rattle.club_rows.specs.Tables.{gathered_from, rows_of_closing, version_of};
ghost use Rattle.store_tables.specs.Changes.{HaveSame};
ghost use Rattle.store_tables.specs.Names.{tree_of};
ghost use Rattle.store_tables.specs.declared.names.Table.TheVariants.{Closings};
ghost use Rattle.club_reads.specs.internal.Closings.{IsClosing, closed_as, without_closing};
ghost use Rattle.store_tables.specs.Cells.{event_cells};
ghost use Rattle.store_tables.specs.internal.Cells.{closing_cells, event_rule_cells};
ghost use Rattle.store_tables.specs.internal.Over.{HasRows};
ghost use Rattle.store_tables.specs.Reading.{Reads};
ghost use Rattle.club_rows.specs.Club.{ClubState, IsClub, StoresClub, tables};

use crate::fault::LookupFault;
use crate::found::first;
use clocks::Moment;
use club_core::Event;
use club_requests::values::MOST_EVENTS;
use club_rows::kind_of;
use club_rows::numbers::{declares_of, to_moment, to_u64};
use sqlite::{Alter, Connection};
use std::alloc::Global;
use store_sql::{find_by_first, list};
use store_tables::{ClosingRow, EventRow, EventRuleRow, Version};

// Converts the rows of an event and of its rules, with this closing; `Store` if a value is out of range.
pub(crate) fn event_of(
    row: &EventRow,
    rule: &EventRuleRow,
    closed: Option<Moment>,
) -> Result<Event, LookupFault>
    ensures { IfOk result (λ e. (id : ℕ) (event : core.Event) → event_cells row.now ≡ event_row id event →
        event_rule_cells rule.now ≡ rule_row id event → event_of e ≡ closed_as closed event) }
{
    let game = match kind_of(row.game) {
        Some(game) => game,
        None => return Err(LookupFault::Store),
    };
    let declares = match declares_of(rule.declares) {
        Some(declares) => declares,
        None => return Err(LookupFault::Store),
    };
    let (Some(budget), Some(increment)) = (to_u64(row.budget), to_u64(row.increment)) else {
        return Err(LookupFault::Store);
    };
    Ok(Event {
        name: row.name.clone()?,
        game,
        budget,
        increment,
        declares,
        closed,
    })
}

// Whether the closing is of this event.
fn is_of_event(closing: &ClosingRow, event: &EventRow) -> bool
    ensures own { result ≡ true → closing.now.event ≡ event.now.id }
    ensures other { result ≡ false → closing.now.event ≢ event.now.id }
{
    closing.event == event.id
}

// The timestamp of the event's closing, if there is one.
fn closing_of(closings: &[ClosingRow], event: &EventRow) -> Result<Option<Moment>, LookupFault>
    ensures { IfOk result (IsClosing closings.now event.now.id) }
{
    for closing in closings {
        if is_of_event(closing, event) {
            return match to_moment(closing.moment) {
                Some(moment) => Ok(Some(moment)),
                None => Err(LookupFault::Store),
            };
        }
    }
    Ok(None)
}

// Converts the rows of all events, in the order of ids, with the rows of their rules and closings.
fn events_of(
    alloc: Global,
    rows: &[EventRow],
    rules: &[EventRuleRow],
    closings: &[ClosingRow],
) -> Result<Vec<Event>, LookupFault>
    ensures room { IfOk result (λ events. length events.items ≤ 50) }
    ensures values { IfOk result (λ events. (all : List core.Event) →
        map event_cells rows.now ≡ numbered_from event_row 1 all →
        map event_rule_cells rules.now ≡ numbered_from rule_row 1 all →
        HaveSame (map closing_cells closings.now) (gathered_from rows_of_closing 1 all) →
        events_of events.items ≡ all) }
{
    if rows.len() > MOST_EVENTS {
        return Err(LookupFault::Store);
    }
    if rules.len() != rows.len() {
        return Err(LookupFault::Store);
    }
    let mut events = Vec::new(alloc);
    for i in 0..rows.len() {
        let closed = closing_of(closings, &rows[i])?;
        events.push(event_of(&rows[i], &rules[i], closed)?)?;
    }
    Ok(events)
}

// The rows of closings; a club of schema 2 has none, and nothing is read.
fn closing_rows<S: Alter>(
    alloc: Global,
    version: Version,
    conn: &mut Connection<S>,
) -> Result<Vec<ClosingRow>, LookupFault>
    ensures reads { Reads (is_ok result) (state S.Store conn.old) (state S.Store conn.new) }
    ensures rows { HasCleanDisk (state S.Store conn.new) → IfOk result (λ rows. (s : ClubState) → IsClub s →
        version ≡ version_of s → StoresClub s (state S.Store conn.old) →
        HaveSame (map closing_cells rows.items) (tables s (tree_of Closings))) }
{
    match version {
        Version::V1 => Ok(Vec::new(alloc)),
        Version::V2 => Ok(Vec::new(alloc)),
        Version::V3 => {
            let rows = list::<ClosingRow, S>(alloc, conn)?;
            Ok(rows)
        }
    }
}

/// Returns all events, in the order of ids, of a club of this version.
///
/// # Errors
///
/// - `Store` if a call of the database fails, or a row is invalid.
/// - `Memory` if out of memory.
pub fn all_events<S: Alter>(
    alloc: Global,
    version: Version,
    conn: &mut Connection<S>,
) -> Result<Vec<Event>, LookupFault>
    ensures reads { Reads (is_ok result) (state S.Store conn.old) (state S.Store conn.new) }
    ensures room { IfOk result (λ events. length events.items ≤ 50) }
    ensures values { HasCleanDisk (state S.Store conn.new) → IfOk result (λ events. (s : ClubState) → IsClub s →
        version ≡ version_of s → StoresClub s (state S.Store conn.old) → events_of events.items ≡ s.events) }
{
    let rows = list::<EventRow, S>(alloc, conn)?;
    let rules = list::<EventRuleRow, S>(alloc, conn)?;
    let closings = closing_rows(alloc, version, conn)?;
    let events = events_of(alloc, &rows, &rules, &closings)?;
    Ok(events)
}

/// Returns the event with this id, without its closing.
///
/// # Errors
///
/// - `Store` if a call of the database fails, a row is invalid, or there is no such event.
/// - `Memory` if out of memory.
pub fn event_with<S: Alter>(
    alloc: Global,
    conn: &mut Connection<S>,
    event: u32,
) -> Result<Event, LookupFault>
    ensures reads { Reads (is_ok result) (state S.Store conn.old) (state S.Store conn.new) }
    ensures found { HasCleanDisk (state S.Store conn.new) → IfOk result (λ e. (s : ClubState) → IsClub s →
        HasRows (tables s) (state S.Store conn.old) → (known : core.Event) → place s.events event ≡ Some known →
        event_of e ≡ without_closing known) }
{
    let number = i64::from(event);
    let row = match first(find_by_first::<EventRow, S>(alloc, conn, &number)?) {
        Some(row) => row,
        None => return Err(LookupFault::Store),
    };
    match first(find_by_first::<EventRuleRow, S>(alloc, conn, &number)?) {
        Some(rule) => Ok(event_of(&row, &rule, None)?),
        None => Err(LookupFault::Store),
    }
}
