//! Reads the tables of a club and checks members, events and event rules.

ghost use Rattle.std.specs.Prelude.{◌≡◌, ◌≢◌, ◌⊎◌, ℕ, pos, true, None, Some, IfSome, IfOk, IfErr, OnOk, IsTrue, List};
ghost use Rattle.std.specs.Prelude.{[], ◌∷◌, ◌≤◌, ◌<◌, is_ok, length, map, false, if◌then◌else◌};
ghost use Rattle.sqlite.specs.State.{HasCleanDisk, IsUnchanged};
ghost use Rattle.sqlite.specs.Held.{state};
ghost use Rattle.club_audit.specs.internal.Audit.{AreEvents, AreMembers, AreRules};
ghost use Rattle.club_core.specs.Events.{Event};
ghost use Rattle.club_core.specs.Members.{Member};
ghost use Rattle.store_tables.specs.Content.{cells};
ghost use Rattle.store_tables.specs.Names.{tree_of};
ghost use Rattle.store_tables.specs.Placed.{HasClubTables, HasTables, HasTablesOf, HasTableAt, club_trees};
ghost use Rattle.store_tables.specs.Cells.{event_cells};
ghost use Rattle.store_tables.specs.internal.Cells.{meta_cells, member_cells, event_rule_cells};
ghost use Rattle.store_tables.specs.Reading.{Reads};
ghost use Rattle.store_tables.specs.internal.Reading.{IsNoInput};
ghost use Rattle.store_tables.specs.Tables.{schema_number, meta, members, events};
ghost use Rattle.store_tables.specs.declared.names.Version.TheVariants.{V1, V2, V3};
ghost use Rattle.store_tables.specs.Tables.{standing};
ghost use Rattle.store_tables.specs.declared.names.Table.TheVariants.{Meta, Members, Events};
ghost use Rattle.club_audit.specs.internal.ClosingAudit.{AreClosingsAfter};
ghost use Rattle.club_audit.specs.internal.KeyAudit.{AreKeysOf};
ghost use Rattle.club_check.specs.Versions.{HasToldTables};
ghost use Rattle.club_check.specs.internal.ReasonIsRight.{AreRulingsCounted, IsAssumed};
ghost use Rattle.club_check.specs.ReasonIsRight.{IsOneMeta, HasTypes, HoldsNone};
ghost use Rattle.club_check.specs.internal.ReasonIsRight.{IsMetaRead, ReasonIsRight};
ghost use Rattle.club_check.specs.ReasonIsRight.{IsRightFault, NamesTable};
ghost use Rattle.club_check.specs.ReasonIsRight.{NamesSchema};
ghost use Rattle.club_check.specs.internal.ReasonIsRight.{AreRead, AreRulesRead, undeclared_row};
ghost use Rattle.club_check.specs.internal.ReasonIsRight.{ArePeopleRead};
ghost use Rattle.club_check.specs.Places.{NamesRows};
ghost use Rattle.club_check.specs.RightTables.{NamesFirstDamaged};
ghost use Rattle.club_check.specs.internal.RightTables.{NamesWrong, TellsEvents};
ghost use Rattle.club_check.specs.internal.Versions.{HasEvents};
ghost use Rattle.club_check.specs.internal.Faults.{told};
ghost use Rattle.store_sql.specs.internal.Read.{IsReadAs};
ghost use Rattle.schema_match.specs.Shapes.{is_of_club};
ghost use Rattle.schema_match.specs.internal.TableVersions.{has_version};

use crate::arbiter::{count_rulings, read_closings, read_keys};
use crate::fault::OpenFault;
use crate::known::{GameRows, read_games};
use crate::opening::name_untyped;
use club_audit::{are_events, are_members, are_rules};
use schema_match::{Versions, versions_of};
use sqlite::{Alter, Connection, Error, Row};
use std::alloc::Global;
use store_sql::{ReadFault, Select, check_columns, has_table, is_refused, read_all, show_all};
use store_tables::{
    ChallengeRow, ClosingRow, EventRow, EventRuleRow, GameTableRow, KeyRow, MemberRow, MetaRow,
    MoveRow, RowError, Rows, ScoreRow, SeenRow, Table, TableRow, Version,
};

/// The error for a failed statement: `Foreign` if the statement was rejected (a table or column is missing, or the
/// table to create exists), else `Store`.
pub fn fault_of(error: Error) -> OpenFault
    ensures store { IsNoInput error → result ≡ OpenFault.Store }
    ensures foreign { result ≡ OpenFault.Foreign → ¬ IsNoInput error }
    ensures possible_faults { (result ≡ OpenFault.Foreign) ⊎ (result ≡ OpenFault.Store) }
{
    if is_refused(&error) {
        OpenFault::Foreign
    } else {
        OpenFault::Store
    }
}

/// The error for a table whose rows could not be read.
pub(crate) fn fault_in(table: Table, fault: ReadFault) -> OpenFault
    ensures { result ≡ told table fault }
{
    match fault {
        ReadFault::Missing => OpenFault::Foreign,
        ReadFault::WrongType => OpenFault::Damaged(table),
        ReadFault::Store => OpenFault::Store,
        ReadFault::Memory => OpenFault::Memory,
    }
}

/// Reads all rows of a table. An error names `table`.
pub(crate) fn read<T: Select, S: Alter>(
    alloc: Global,
    conn: &mut Connection<S>,
    table: Table,
) -> Result<Vec<T>, OpenFault>
    ensures reads { Reads (is_ok result) (state S.Store conn.old) (state S.Store conn.new) }
    ensures rows { HasCleanDisk (state S.Store conn.new) → IfOk result (λ found.
        HasTableAt (state S.Store conn.old).now.schema T.which → IsReadAs T.table T.width (map T.cells found.items)
        (state S.Store conn.old) (state S.Store conn.new)) }
    ensures reason_is_right { HasCleanDisk (state S.Store conn.new) → IfErr result (λ e.
        HasTableAt (state S.Store conn.old).now.schema T.which → ReasonIsRight table T.table T.IsTyped
        (state S.Store conn.old) e) }
{
    match read_all(alloc, conn) {
        Ok(found) => Ok(found),
        Err(fault) => Err(fault_in(table, fault)),
    }
}

/// The row of `meta`; `None` unless there is exactly one row, with id 1.
fn one_meta(shown: &[Row]) -> Result<Option<MetaRow>, OpenFault>
    ensures some { IfOk result (λ o. IfSome o (λ found. (shown.now ≡ meta_cells found ∷ []) × (found.id ≡ pos 1))) }
    ensures none { IfOk result (λ o. o ≡ None → ¬ IsOneMeta shown.now) }
    ensures memory { IfErr result (λ e. e ≡ OpenFault.Memory) }
{
    if shown.len() != 1 {
        return Ok(None);
    }
    match MetaRow::parse(&shown[0]) {
        Ok(found) => {
            if found.id == 1 {
                Ok(Some(found))
            } else {
                Ok(None)
            }
        }
        Err(RowError::WrongType) => Ok(None),
        Err(RowError::Memory) => Err(OpenFault::Memory),
    }
}

/// Reads the row of `meta`; `None` unless there is exactly one row, with id 1.
fn read_meta<S: Alter>(conn: &mut Connection<S>) -> Result<Option<MetaRow>, OpenFault>
    ensures reads { Reads (is_ok result) (state S.Store conn.old) (state S.Store conn.new) }
    ensures some { HasCleanDisk (state S.Store conn.new) → IfOk result (λ o. IfSome o (λ found.
        HasClubTables (state S.Store conn.old).now.schema → IsReadAs (standing Meta) 1 (meta_cells found ∷ [])
        (state S.Store conn.old) (state S.Store conn.new) × (found.id ≡ pos 1))) }
    ensures none { HasCleanDisk (state S.Store conn.new) → IfOk result (λ o. o ≡ None →
        HoldsNone (state S.Store conn.old).now (λ _ content. HasTypes Table.Meta content)) }
    ensures unshown { HasCleanDisk (state S.Store conn.new) → IfOk result (λ o. o ≡ None →
        HasClubTables (state S.Store conn.old).now.schema → ¬ IsOneMeta (map (cells (standing Meta))
        (club_trees (state S.Store conn.old).now (tree_of Meta)))) }
    ensures same { HasCleanDisk (state S.Store conn.new) →
        OnOk result (HasClubTables (state S.Store conn.old).now.schema → IsUnchanged (state S.Store conn.old)
        (state S.Store conn.new)) }
    ensures reason_is_right { HasCleanDisk (state S.Store conn.new) → IfErr result (λ e.
        HasClubTables (state S.Store conn.old).now.schema → (e ≡ OpenFault.Store) ⊎ (e ≡ OpenFault.Memory)) }
{
    let shown = match show_all::<MetaRow, S>(conn) {
        Ok(shown) => shown,
        Err(error) => return Err(fault_of(error)),
    };
    one_meta(&shown)
}

/// Reads the members and checks that they are those of a legal club.
fn read_members<S: Alter>(
    alloc: Global,
    conn: &mut Connection<S>,
) -> Result<Vec<MemberRow>, OpenFault>
    ensures reads { Reads (is_ok result) (state S.Store conn.old) (state S.Store conn.new) }
    ensures rows { HasCleanDisk (state S.Store conn.new) → IfOk result (λ found.
        HasClubTables (state S.Store conn.old).now.schema → IsReadAs (standing Members) 1 (map member_cells found.items)
        (state S.Store conn.old) (state S.Store conn.new)) }
    ensures are { IfOk result (λ found. (ms : List Member) × AreMembers ms found.items) }
    ensures reason_is_right { HasCleanDisk (state S.Store conn.new) → IfErr result (λ e.
        HasClubTables (state S.Store conn.old).now.schema → NamesTable (state S.Store conn.old).now e ⊎ NamesRows
        (state S.Store conn.old).now e) }
    ensures wrong { HasCleanDisk (state S.Store conn.new) → IfErr result (λ e.
        HasClubTables (state S.Store conn.old).now.schema → NamesWrong Table.Members (state S.Store conn.old).now e) }
{
    let members = match read::<MemberRow, S>(alloc, conn, Table::Members) {
        Ok(members) => members,
        Err(fault) => return Err(fault),
    };
    if !are_members(&members) {
        return Err(OpenFault::Damaged(Table::Members));
    }
    Ok(members)
}

/// Reads the events and checks that they are those of a legal club.
fn read_events<S: Alter>(
    alloc: Global,
    conn: &mut Connection<S>,
) -> Result<Vec<EventRow>, OpenFault>
    ensures reads { Reads (is_ok result) (state S.Store conn.old) (state S.Store conn.new) }
    ensures rows { HasCleanDisk (state S.Store conn.new) → IfOk result (λ found.
        HasClubTables (state S.Store conn.old).now.schema → IsReadAs (standing Events) 1 (map event_cells found.items)
        (state S.Store conn.old) (state S.Store conn.new)) }
    ensures are { IfOk result (λ found. (es : List Event) × AreEvents es found.items) }
    ensures reason_is_right { HasCleanDisk (state S.Store conn.new) → IfErr result (λ e.
        HasClubTables (state S.Store conn.old).now.schema → NamesTable (state S.Store conn.old).now e ⊎ NamesRows
        (state S.Store conn.old).now e) }
    ensures wrong { HasCleanDisk (state S.Store conn.new) → IfErr result (λ e.
        HasClubTables (state S.Store conn.old).now.schema → NamesWrong Table.Events (state S.Store conn.old).now e) }
{
    let events = match read::<EventRow, S>(alloc, conn, Table::Events) {
        Ok(events) => events,
        Err(fault) => return Err(fault),
    };
    if !are_events(&events) {
        return Err(OpenFault::Damaged(Table::Events));
    }
    Ok(events)
}

fn other_schema(found: &MetaRow) -> OpenFault
    ensures { result ≡ OpenFault.Schema found.now.schema }
{
    OpenFault::Schema(found.schema)
}

/// The schema version and the row of `meta`, or the substitute of `no_meta`.
#[derive(Drop)]
pub(crate) struct FileHead {
    version: Version,
    meta: MetaRow,
}

/// Reads the schema version and the last timestamp from `meta`. The version is `assumed` if `meta` is wrong.
fn read_version<S: Alter>(conn: &mut Connection<S>, assumed: Version) -> Result<FileHead, OpenFault>
    ensures reads { Reads (is_ok result) (state S.Store conn.old) (state S.Store conn.new) }
    ensures found { HasCleanDisk (state S.Store conn.new) → IfOk result (λ told.
        HasClubTables (state S.Store conn.old).now.schema → IsAssumed assumed (state S.Store conn.old) →
        IsMetaRead told.version told.meta (state S.Store conn.old) (state S.Store conn.new)) }
    ensures same { HasCleanDisk (state S.Store conn.new) → OnOk result (
        HasClubTables (state S.Store conn.old).now.schema →
        IsUnchanged (state S.Store conn.old) (state S.Store conn.new)) }
    ensures reason_is_right { HasCleanDisk (state S.Store conn.new) → IfErr result (λ e.
        HasClubTables (state S.Store conn.old).now.schema →
        (e ≡ OpenFault.Store) ⊎ ((e ≡ OpenFault.Memory) ⊎ NamesSchema V1 (state S.Store conn.old).now e)) }
{
    let found = match read_meta(conn) {
        Ok(Some(found)) => found,
        Ok(None) => {
            return Ok(FileHead {
                version: assumed,
                meta: no_meta(),
            });
        }
        Err(fault) => return Err(fault),
    };
    match Version::from_number(found.schema) {
        Some(version) => Ok(FileHead {
            version,
            meta: found,
        }),
        None => Err(other_schema(&found)),
    }
}

/// The error for tables of this version, unless it is `oldest` or later.
fn refused(oldest: Version, version: Version) -> Option<OpenFault>
    ensures none { result ≡ None → schema_number oldest ≤ schema_number version }
    ensures some { IfSome result (λ e.
        (e ≡ OpenFault.Schema (pos (schema_number version))) × (schema_number version < schema_number oldest)) }
{
    if version.number() < oldest.number() {
        return Some(OpenFault::Schema(version.number()));
    }
    None
}

/// Checks that a table and its columns exist, before any of its rows is read.
fn check_table<T: Select, S: Alter>(conn: &mut Connection<S>, table: Table) -> Result<(), OpenFault>
    ensures reads { Reads (is_ok result) (state S.Store conn.old) (state S.Store conn.new) }
    ensures same { HasCleanDisk (state S.Store conn.new) →
        OnOk result (HasTableAt (state S.Store conn.old).now.schema T.which → IsUnchanged (state S.Store conn.old)
        (state S.Store conn.new)) }
    ensures reason_is_right { HasCleanDisk (state S.Store conn.new) → IfErr result (λ e.
        HasTableAt (state S.Store conn.old).now.schema T.which → e ≡ OpenFault.Store) }
{
    match check_columns::<T, S>(conn) {
        Ok(()) => Ok(()),
        Err(fault) => Err(fault_in(table, fault)),
    }
}

/// Checks that the tables that are common to all versions exist, except `meta`.
fn check_tables<S: Alter>(conn: &mut Connection<S>) -> Result<(), OpenFault>
    ensures reads { Reads (is_ok result) (state S.Store conn.old) (state S.Store conn.new) }
    ensures same { HasCleanDisk (state S.Store conn.new) →
        OnOk result (HasTables V1 (state S.Store conn.old).now.schema → IsUnchanged (state S.Store conn.old)
        (state S.Store conn.new)) }
    ensures reason_is_right { HasCleanDisk (state S.Store conn.new) → IfErr result (λ e.
        HasTables V1 (state S.Store conn.old).now.schema → e ≡ OpenFault.Store) }
{
    match check_people::<S>(conn) {
        Ok(()) => {}
        Err(fault) => return Err(fault),
    }
    match check_play::<S>(conn) {
        Ok(()) => Ok(()),
        Err(fault) => Err(fault),
    }
}

/// Checks that the table of event rules exists, or that it does not.
fn check_rules<S: Alter>(conn: &mut Connection<S>, wanted: bool) -> Result<(), OpenFault>
    ensures reads { Reads (is_ok result) (state S.Store conn.old) (state S.Store conn.new) }
    ensures same { HasCleanDisk (state S.Store conn.new) →
        OnOk result (IsUnchanged (state S.Store conn.old) (state S.Store conn.new)) }
    ensures none { HasCleanDisk (state S.Store conn.new) → OnOk result (wanted ≡ false →
        HasClubTables (state S.Store conn.old).now.schema → HasTablesOf V1 (state S.Store conn.old).now.schema) }
    ensures there { HasCleanDisk (state S.Store conn.new) → OnOk result (wanted ≡ true →
        HasClubTables (state S.Store conn.old).now.schema → HasTablesOf V2 (state S.Store conn.old).now.schema) }
    ensures reason_is_right { HasCleanDisk (state S.Store conn.new) → IfErr result (λ e. (e ≡ OpenFault.Store)
        ⊎ ((e ≡ OpenFault.Foreign) × (¬ HasTablesOf (if wanted then V2 else V1) (state S.Store conn.old).now.schema))) }
{
    let there = match has_table(conn, Table::EventRules) {
        Ok(there) => there,
        Err(_) => return Err(OpenFault::Store),
    };
    if there == wanted {
        Ok(())
    } else {
        Err(OpenFault::Foreign)
    }
}

/// Checks that a table of schema 3 exists.
fn check_third<S: Alter>(conn: &mut Connection<S>, table: Table) -> Result<(), OpenFault>
    ensures reads { Reads (is_ok result) (state S.Store conn.old) (state S.Store conn.new) }
    ensures same { HasCleanDisk (state S.Store conn.new) →
        OnOk result (IsUnchanged (state S.Store conn.old) (state S.Store conn.new)) }
    ensures reason_is_right { HasCleanDisk (state S.Store conn.new) → IfErr result (λ e. (e ≡ OpenFault.Store)
        ⊎ ((e ≡ OpenFault.Schema (pos 3)) × (¬ HasTableAt (state S.Store conn.old).now.schema table))) }
{
    match has_table(conn, table) {
        Ok(true) => Ok(()),
        Ok(false) => Err(OpenFault::Schema(Version::V3.number())),
        Err(_) => Err(OpenFault::Store),
    }
}

/// Checks that the tables exist that schema 3 has and schema 1 has not.
fn check_thirds<S: Alter>(conn: &mut Connection<S>) -> Result<(), OpenFault>
    ensures reads { Reads (is_ok result) (state S.Store conn.old) (state S.Store conn.new) }
    ensures same { HasCleanDisk (state S.Store conn.new) →
        OnOk result (IsUnchanged (state S.Store conn.old) (state S.Store conn.new)) }
    ensures reason_is_right { HasCleanDisk (state S.Store conn.new) → IfErr result (λ e. (e ≡ OpenFault.Store)
        ⊎ ((e ≡ OpenFault.Schema (pos 3)) × (¬ HasTables V3 (state S.Store conn.old).now.schema))) }
{
    match check_third(conn, Table::EventRules) {
        Ok(()) => {}
        Err(fault) => return Err(fault),
    }
    match check_third(conn, Table::Keys) {
        Ok(()) => {}
        Err(fault) => return Err(fault),
    }
    match check_third(conn, Table::Rulings) {
        Ok(()) => {}
        Err(fault) => return Err(fault),
    }
    match check_third(conn, Table::Closings) {
        Ok(()) => Ok(()),
        Err(fault) => Err(fault),
    }
}

/// Checks that the tables exist that tell the version from those before it, and none that schema 1 excludes.
fn check_version<S: Alter>(conn: &mut Connection<S>, version: Version) -> Result<(), OpenFault>
    ensures reads { Reads (is_ok result) (state S.Store conn.old) (state S.Store conn.new) }
    ensures same { HasCleanDisk (state S.Store conn.new) →
        OnOk result (IsUnchanged (state S.Store conn.old) (state S.Store conn.new)) }
    ensures version { HasCleanDisk (state S.Store conn.new) → OnOk result (version ≢ V3 →
        HasClubTables (state S.Store conn.old).now.schema →
        HasTablesOf version (state S.Store conn.old).now.schema) }
    ensures reason_is_right { HasCleanDisk (state S.Store conn.new) → IfErr result (λ e. (e ≡ OpenFault.Store)
        ⊎ (((e ≡ OpenFault.Foreign) × (¬ HasTablesOf version (state S.Store conn.old).now.schema))
        ⊎ ((version ≡ V3) × (e ≡ OpenFault.Schema (pos 3)) × (¬ HasTables V3 (state S.Store conn.old).now.schema)))) }
{
    match version {
        Version::V1 => check_rules(conn, false),
        Version::V2 => check_rules(conn, true),
        Version::V3 => check_thirds(conn),
    }
}

/// Checks that the tables of members, events, challenges and games exist.
fn check_people<S: Alter>(conn: &mut Connection<S>) -> Result<(), OpenFault>
    ensures reads { Reads (is_ok result) (state S.Store conn.old) (state S.Store conn.new) }
    ensures same { HasCleanDisk (state S.Store conn.new) →
        OnOk result (HasTables V1 (state S.Store conn.old).now.schema → IsUnchanged (state S.Store conn.old)
        (state S.Store conn.new)) }
    ensures reason_is_right { HasCleanDisk (state S.Store conn.new) → IfErr result (λ e.
        HasTables V1 (state S.Store conn.old).now.schema → e ≡ OpenFault.Store) }
{
    match check_table::<MemberRow, S>(conn, Table::Members) {
        Ok(()) => {}
        Err(fault) => return Err(fault),
    }
    match check_table::<EventRow, S>(conn, Table::Events) {
        Ok(()) => {}
        Err(fault) => return Err(fault),
    }
    match check_table::<ChallengeRow, S>(conn, Table::Challenges) {
        Ok(()) => {}
        Err(fault) => return Err(fault),
    }
    match check_table::<GameTableRow, S>(conn, Table::Games) {
        Ok(()) => Ok(()),
        Err(fault) => Err(fault),
    }
}

/// Checks that the tables of moves, positions and scores exist.
fn check_play<S: Alter>(conn: &mut Connection<S>) -> Result<(), OpenFault>
    ensures reads { Reads (is_ok result) (state S.Store conn.old) (state S.Store conn.new) }
    ensures same { HasCleanDisk (state S.Store conn.new) →
        OnOk result (HasTables V1 (state S.Store conn.old).now.schema → IsUnchanged (state S.Store conn.old)
        (state S.Store conn.new)) }
    ensures reason_is_right { HasCleanDisk (state S.Store conn.new) → IfErr result (λ e.
        HasTables V1 (state S.Store conn.old).now.schema → e ≡ OpenFault.Store) }
{
    match check_table::<MoveRow, S>(conn, Table::Moves) {
        Ok(()) => {}
        Err(fault) => return Err(fault),
    }
    match check_table::<SeenRow, S>(conn, Table::Seen) {
        Ok(()) => {}
        Err(fault) => return Err(fault),
    }
    match check_table::<ScoreRow, S>(conn, Table::Scores) {
        Ok(()) => Ok(()),
        Err(fault) => Err(fault),
    }
}

/// The substitute for a missing or wrong row of `meta`: its timestamp is invalid, so `meta` is reported if no earlier
/// table is wrong.
fn no_meta() -> MetaRow
    ensures { (n : ℕ) → result.last ≢ pos n }
{
    MetaRow {
        id: 1,
        schema: 2,
        last: -1,
    }
}

/// The event rules of a club of schema 1, which has no table for them: no event allows declarations.
fn undeclared(alloc: Global, events: &[EventRow]) -> Result<Vec<EventRuleRow>, OpenFault>
    ensures rules { IfOk result (λ rules. map event_rule_cells rules.items ≡ map undeclared_row events.now) }
    ensures memory { IfErr result (λ e. e ≡ OpenFault.Memory) }
{
    let mut rules = Vec::new(alloc);
    'events: for event in events {
        let rule = EventRuleRow {
            event: event.id,
            declares: 0,
        };
        if rules.push(rule).is_err() {
            return Err(OpenFault::Memory);
        }
    }
    Ok(rules)
}

/// Reads the event rules and checks them against the events; schema 1 has none to read.
fn read_rules<S: Alter>(
    alloc: Global,
    conn: &mut Connection<S>,
    version: Version,
    events: &[EventRow],
) -> Result<Vec<EventRuleRow>, OpenFault>
    ensures reads { Reads (is_ok result) (state S.Store conn.old) (state S.Store conn.new) }
    ensures rules { HasCleanDisk (state S.Store conn.new) → IfOk result (λ rules.
        HasTablesOf version (state S.Store conn.old).now.schema → IsTrue (state S.Store conn.old).is_open →
        AreRulesRead version events.now rules.items (state S.Store conn.old) (state S.Store conn.new)) }
    ensures are { IfOk result (λ rules. (es : List Event) → AreEvents es events.now →
        AreRules rules.items (length events.now)) }
    ensures reason_is_right { HasCleanDisk (state S.Store conn.new) → IfErr result (λ e.
        HasTablesOf version (state S.Store conn.old).now.schema →
        (es : List Event) → AreEvents es events.now → HasEvents events.now (state S.Store conn.old).now →
        NamesTable (state S.Store conn.old).now e ⊎ NamesRows (state S.Store conn.old).now e) }
    ensures wrong { HasCleanDisk (state S.Store conn.new) → IfErr result (λ e.
        HasTablesOf version (state S.Store conn.old).now.schema →
        TellsEvents events.now (state S.Store conn.old).now →
        NamesWrong Table.EventRules (state S.Store conn.old).now e) }
{
    match version {
        Version::V1 => return undeclared(alloc, events),
        Version::V2 => {}
        Version::V3 => {}
    }
    let rules = match read::<EventRuleRow, S>(alloc, conn, Table::EventRules) {
        Ok(rules) => rules,
        Err(fault) => return Err(fault),
    };
    if !are_rules(&rules, events.len()) {
        return Err(OpenFault::Damaged(Table::EventRules));
    }
    Ok(rules)
}

/// The rows of a club that are read whole, and the schema version.
#[derive(Drop)]
pub struct Register {
    /// The version of the schema.
    pub version: Version,
    /// All rows except those of rulings, moves, positions and scores. For schema 1, `event_rules` are those that an
    /// upgrade writes.
    pub rows: Rows,
}

/// A register, and the number of rulings.
#[derive(Drop)]
pub(crate) struct RegisterRows {
    pub register: Register,
    pub rulings: usize,
}

/// Reads `meta` and checks that the version is `oldest` or later and that all its tables exist. The version is
/// `assumed` if `meta` is wrong.
fn read_head<S: Alter>(
    conn: &mut Connection<S>,
    oldest: Version,
    assumed: Version,
) -> Result<FileHead, OpenFault>
    requires { schema_number oldest ≤ schema_number V2 }
    ensures reads { Reads (is_ok result) (state S.Store conn.old) (state S.Store conn.new) }
    ensures found { HasCleanDisk (state S.Store conn.new) → IfOk result (λ told.
        HasClubTables (state S.Store conn.old).now.schema → IsAssumed assumed (state S.Store conn.old) →
        (told.version ≢ V3 → HasTablesOf told.version (state S.Store conn.old).now.schema) ×
        IsMetaRead told.version told.meta (state S.Store conn.old) (state S.Store conn.new)) }
    ensures same { HasCleanDisk (state S.Store conn.new) → OnOk result (
        HasClubTables (state S.Store conn.old).now.schema →
        IsUnchanged (state S.Store conn.old) (state S.Store conn.new)) }
    ensures taken { IfOk result (λ told. schema_number oldest ≤ schema_number told.version) }
    ensures reason_is_right { HasCleanDisk (state S.Store conn.new) → IfErr result (λ e.
        HasToldTables (state S.Store conn.old).now → IsAssumed assumed (state S.Store conn.old) →
        IsRightFault oldest (state S.Store conn.old).now e) }
    ensures undamaged { HasCleanDisk (state S.Store conn.new) → IfErr result (λ e.
        HasClubTables (state S.Store conn.old).now.schema → IsAssumed assumed (state S.Store conn.old) →
        (t : Table) → e ≢ OpenFault.Damaged t) }
{
    let told = match read_version(conn, assumed) {
        Ok(told) => told,
        Err(fault) => return Err(fault),
    };
    match check_version(conn, told.version) {
        Ok(()) => {}
        Err(fault) => return Err(fault),
    }
    match refused(oldest, told.version) {
        Some(fault) => return Err(fault),
        None => {}
    }
    match check_tables(conn) {
        Ok(()) => Ok(told),
        Err(fault) => Err(fault),
    }
}

/// The version without a schema number in `meta`: schema 3 if all its tables exist, otherwise schema 2.
fn assumed(shapes: &Versions) -> Version
    ensures { result ≡ if has_version shapes.now V3 then V3 else V2 }
{
    if shapes.has(Version::V3) {
        Version::V3
    } else {
        Version::V2
    }
}

/// As `read_head`; also checks that the schema is equivalent to that of the version, whatever `CREATE` statements made
/// it.
/// An unaccepted schema number is reported before a schema that differs.
fn read_shaped<S: Alter>(
    alloc: Global,
    conn: &mut Connection<S>,
    oldest: Version,
) -> Result<FileHead, OpenFault>
    requires { schema_number oldest ≤ schema_number V2 }
    ensures reads { Reads (is_ok result) (state S.Store conn.old) (state S.Store conn.new) }
    ensures shape { IfOk result (λ told. is_of_club told.version (state S.Store conn.old).now.schema ≡ true) }
    ensures found { HasCleanDisk (state S.Store conn.new) → IfOk result (λ told.
        HasToldTables (state S.Store conn.old).now →
        (HasTablesOf told.version (state S.Store conn.old).now.schema) ×
        IsMetaRead told.version told.meta (state S.Store conn.old) (state S.Store conn.new)) }
    ensures stand { HasCleanDisk (state S.Store conn.new) → IfOk result (λ told.
        HasClubTables (state S.Store conn.old).now.schema → told.version ≢ V3 →
        HasTablesOf told.version (state S.Store conn.old).now.schema) }
    ensures same { HasCleanDisk (state S.Store conn.new) → OnOk result (
        HasToldTables (state S.Store conn.old).now →
        IsUnchanged (state S.Store conn.old) (state S.Store conn.new)) }
    ensures taken { IfOk result (λ told. schema_number oldest ≤ schema_number told.version) }
    ensures reason_is_right { HasCleanDisk (state S.Store conn.new) → IfErr result (λ e.
        HasToldTables (state S.Store conn.old).now → IsRightFault oldest (state S.Store conn.old).now e) }
    ensures undamaged { HasCleanDisk (state S.Store conn.new) → IfErr result (λ e.
        HasToldTables (state S.Store conn.old).now → (t : Table) → e ≢ OpenFault.Damaged t) }
{
    let shapes = match versions_of(alloc, conn) {
        Ok(shapes) => shapes,
        Err(_) => return Err(OpenFault::Memory),
    };
    let told = match read_head(conn, oldest, assumed(&shapes)) {
        Ok(told) => told,
        Err(fault) => return Err(fault),
    };
    let fits = shapes.has(told.version);
    if fits {
        Ok(told)
    } else {
        Err(OpenFault::Foreign)
    }
}

/// The version, `meta`, members, keys, events, event rules and closings of a club.
#[derive(Drop)]
pub(crate) struct MembersAndEvents {
    pub version: Version,
    pub meta: MetaRow,
    pub members: Vec<MemberRow>,
    pub keys: Vec<KeyRow>,
    pub events: Vec<EventRow>,
    pub event_rules: Vec<EventRuleRow>,
    pub closings: Vec<ClosingRow>,
}

/// Reads the version, `meta`, members, keys, events, event rules and closings.
/// The schema is checked before any row is read. Each table is checked before the next is read, so that the first wrong
/// table is reported.
fn read_people<S: Alter>(
    alloc: Global,
    conn: &mut Connection<S>,
    oldest: Version,
) -> Result<MembersAndEvents, OpenFault>
    requires { schema_number oldest ≤ schema_number V2 }
    ensures reads { Reads (is_ok result) (state S.Store conn.old) (state S.Store conn.new) }
    ensures rows { HasCleanDisk (state S.Store conn.new) → IfOk result (λ people.
        HasToldTables (state S.Store conn.old).now →
        ArePeopleRead people (state S.Store conn.old) (state S.Store conn.new)) }
    ensures stand { HasCleanDisk (state S.Store conn.new) → IfOk result (λ people.
        HasClubTables (state S.Store conn.old).now.schema → people.version ≢ V3 →
        HasTablesOf people.version (state S.Store conn.old).now.schema) }
    ensures shape { IfOk result (λ people. is_of_club people.version (state S.Store conn.old).now.schema ≡ true) }
    ensures taken { IfOk result (λ people. schema_number oldest ≤ schema_number people.version) }
    ensures members { IfOk result (λ people. (ms : List Member) × AreMembers ms people.members.items) }
    ensures events { IfOk result (λ people. (es : List Event) × AreEvents es people.events.items) }
    ensures keys { IfOk result (λ people. (keyed : List Member) × AreMembers keyed people.members.items ×
        AreKeysOf keyed people.keys.items) }
    ensures rules { IfOk result (λ people. AreRules people.event_rules.items (length people.events.items)) }
    ensures closings { IfOk result (λ people.
        AreClosingsAfter (length people.events.items) 0 people.closings.items) }
    ensures reason_is_right { HasCleanDisk (state S.Store conn.new) → IfErr result (λ e.
        HasToldTables (state S.Store conn.old).now → IsRightFault oldest (state S.Store conn.old).now e) }
    ensures first { HasCleanDisk (state S.Store conn.new) → IfErr result (λ e.
        HasToldTables (state S.Store conn.old).now → NamesFirstDamaged (state S.Store conn.old).now e) }
{
    let FileHead { version, meta } = match read_shaped(alloc, conn, oldest) {
        Ok(told) => told,
        Err(fault) => return Err(fault),
    };
    let members = match read_members(alloc, conn) {
        Ok(members) => members,
        Err(fault) => return Err(fault),
    };
    let keys = match read_keys(alloc, conn, version, &members) {
        Ok(keys) => keys,
        Err(fault) => return Err(fault),
    };
    let events = match read_events(alloc, conn) {
        Ok(events) => events,
        Err(fault) => return Err(fault),
    };
    let event_rules = match read_rules(alloc, conn, version, &events) {
        Ok(event_rules) => event_rules,
        Err(fault) => return Err(fault),
    };
    match read_closings(alloc, conn, version, &events) {
        Ok(closings) => Ok(MembersAndEvents {
            version,
            meta,
            members,
            keys,
            events,
            event_rules,
            closings,
        }),
        Err(fault) => Err(fault),
    }
}

/// Reads all rows except those of moves, positions and scores, and counts the rulings.
/// The first wrong table is reported; if a row of games has a value of the wrong type, challenges and moves are checked
/// before games are reported.
pub(crate) fn read_rows<S: Alter>(
    alloc: Global,
    conn: &mut Connection<S>,
    oldest: Version,
) -> Result<RegisterRows, OpenFault>
    requires { schema_number oldest ≤ schema_number V2 }
    ensures reads { Reads (is_ok result) (state S.Store conn.old) (state S.Store conn.new) }
    ensures rows { HasCleanDisk (state S.Store conn.new) → IfOk result (λ found.
        HasToldTables (state S.Store conn.old).now →
        (HasTablesOf found.register.version (state S.Store conn.old).now.schema) ×
        AreRead found.register.version found.register.rows (state S.Store conn.old) (state S.Store conn.new)) }
    ensures stand { HasCleanDisk (state S.Store conn.new) → IfOk result (λ found.
        HasClubTables (state S.Store conn.old).now.schema → found.register.version ≢ V3 →
        HasTablesOf found.register.version (state S.Store conn.old).now.schema) }
    ensures shape { IfOk result (λ found.
        is_of_club found.register.version (state S.Store conn.old).now.schema ≡ true) }
    ensures taken { IfOk result (λ found. schema_number oldest ≤ schema_number found.register.version) }
    ensures members { IfOk result (λ found. (ms : List Member) × AreMembers ms found.register.rows.members.items) }
    ensures events { IfOk result (λ found. (es : List Event) × AreEvents es found.register.rows.events.items) }
    ensures keys { IfOk result (λ found. (keyed : List Member) ×
        AreMembers keyed found.register.rows.members.items × AreKeysOf keyed found.register.rows.keys.items) }
    ensures rules { IfOk result (λ found. AreRules found.register.rows.event_rules.items
        (length found.register.rows.events.items)) }
    ensures closings { IfOk result (λ found. AreClosingsAfter (length found.register.rows.events.items) 0
        found.register.rows.closings.items) }
    ensures rulings { HasCleanDisk (state S.Store conn.new) → IfOk result (λ found.
        HasToldTables (state S.Store conn.old).now →
        AreRulingsCounted found.register.version found.rulings (state S.Store conn.old) (state S.Store conn.new)) }
    ensures reason_is_right { HasCleanDisk (state S.Store conn.new) → IfErr result (λ e.
        HasToldTables (state S.Store conn.old).now → IsRightFault oldest (state S.Store conn.old).now e) }
    ensures first { HasCleanDisk (state S.Store conn.new) → IfErr result (λ e.
        HasToldTables (state S.Store conn.old).now → NamesFirstDamaged (state S.Store conn.old).now e) }
{
    let MembersAndEvents {
        version,
        meta,
        members,
        keys,
        events,
        event_rules,
        closings,
    } = match read_people(alloc, conn, oldest) {
        Ok(people) => people,
        Err(fault) => return Err(fault),
    };
    let rulings = match count_rulings(alloc, conn, version) {
        Ok(rulings) => rulings,
        Err(fault) => return Err(fault),
    };
    let challenges = match read::<ChallengeRow, S>(alloc, conn, Table::Challenges) {
        Ok(challenges) => challenges,
        Err(fault) => return Err(fault),
    };
    let GameRows {
        games,
        judged,
        are_typed,
    } = match read_games(alloc, conn) {
        Ok(found) => found,
        Err(fault) => return Err(fault),
    };
    let rows = Rows {
        meta,
        members,
        keys,
        events,
        event_rules,
        closings,
        challenges,
        games,
    };
    if !are_typed {
        return Err(name_untyped(alloc, conn, rows, judged, rulings));
    }
    Ok(RegisterRows {
        register: Register { version, rows },
        rulings,
    })
}
