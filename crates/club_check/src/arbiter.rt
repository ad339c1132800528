//! Reads the tables that only schema 3 has: later keys, rulings and closed events.

ghost use Rattle.std.specs.Prelude.{◌≡◌, ◌⊎◌, IsTrue, IfErr, IfOk, List, is_ok, length};
ghost use Rattle.sqlite.specs.State.{HasCleanDisk};
ghost use Rattle.sqlite.specs.Held.{state};
ghost use Rattle.club_audit.specs.internal.Audit.{AreMembers};
ghost use Rattle.club_audit.specs.internal.ClosingAudit.{AreClosingsAfter};
ghost use Rattle.club_audit.specs.internal.KeyAudit.{AreKeysOf};
ghost use Rattle.club_core.specs.Members.{Member};
ghost use Rattle.store_tables.specs.Placed.{HasTablesOf};
ghost use Rattle.store_tables.specs.Reading.{Reads};
ghost use Rattle.club_check.specs.Places.{NamesRows};
ghost use Rattle.club_check.specs.ReasonIsRight.{NamesTable};
ghost use Rattle.club_check.specs.internal.ReasonIsRight.{AreClosingsRead, AreKeysRead, AreRulingsCounted, HoldsIn};
ghost use Rattle.club_check.specs.internal.RightTables.{IsUnheld, NamesWrong, TellsEvents, TellsMembers};

use crate::fault::OpenFault;
use crate::games::count_of;
use crate::read::read;
use club_audit::{are_closings, are_keys};
use sqlite::{Alter, Connection};
use std::alloc::Global;
use store_tables::{ClosingRow, EventRow, KeyRow, MemberRow, RulingRow, Table, Version};

/// Reads the later keys and checks them against the members; a version before schema 3 has none to read.
pub(crate) fn read_keys<S: Alter>(
    alloc: Global,
    conn: &mut Connection<S>,
    version: Version,
    members: &[MemberRow],
) -> Result<Vec<KeyRow>, OpenFault>
    ensures reads { Reads (is_ok result) (state S.Store conn.old) (state S.Store conn.new) }
    ensures rows { HasCleanDisk (state S.Store conn.new) → IfOk result (λ keys.
        HasTablesOf version (state S.Store conn.old).now.schema → IsTrue (state S.Store conn.old).is_open →
        AreKeysRead version keys.items (state S.Store conn.old) (state S.Store conn.new)) }
    ensures are { IfOk result (λ keys. (ms : List Member) → AreMembers ms members.now →
        (keyed : List Member) × AreMembers keyed members.now × AreKeysOf keyed keys.items) }
    ensures reason_is_right { HasCleanDisk (state S.Store conn.new) → IfErr result (λ e.
        HasTablesOf version (state S.Store conn.old).now.schema → HoldsIn version (state S.Store conn.old).now →
        TellsMembers members.now (state S.Store conn.old).now →
        NamesTable (state S.Store conn.old).now e ⊎ NamesRows (state S.Store conn.old).now e) }
    ensures wrong { HasCleanDisk (state S.Store conn.new) → IfErr result (λ e.
        HasTablesOf version (state S.Store conn.old).now.schema → HoldsIn version (state S.Store conn.old).now →
        TellsMembers members.now (state S.Store conn.old).now →
        NamesWrong Table.Keys (state S.Store conn.old).now e) }
{
    let keys = match version {
        Version::V1 => return Ok(Vec::new(alloc)),
        Version::V2 => return Ok(Vec::new(alloc)),
        Version::V3 => match read::<KeyRow, S>(alloc, conn, Table::Keys) {
            Ok(keys) => keys,
            Err(fault) => return Err(fault),
        },
    };
    match are_keys(alloc, &keys, members) {
        Ok(true) => Ok(keys),
        Ok(false) => Err(OpenFault::Damaged(Table::Keys)),
        Err(_) => Err(OpenFault::Memory),
    }
}

/// Reads the closed events and checks them against the events; a version before schema 3 has none to read.
pub(crate) fn read_closings<S: Alter>(
    alloc: Global,
    conn: &mut Connection<S>,
    version: Version,
    events: &[EventRow],
) -> Result<Vec<ClosingRow>, OpenFault>
    ensures reads { Reads (is_ok result) (state S.Store conn.old) (state S.Store conn.new) }
    ensures rows { HasCleanDisk (state S.Store conn.new) → IfOk result (λ closings.
        HasTablesOf version (state S.Store conn.old).now.schema → IsTrue (state S.Store conn.old).is_open →
        AreClosingsRead version closings.items (state S.Store conn.old) (state S.Store conn.new)) }
    ensures are { IfOk result (λ closings. AreClosingsAfter (length events.now) 0 closings.items) }
    ensures reason_is_right { HasCleanDisk (state S.Store conn.new) → IfErr result (λ e.
        HasTablesOf version (state S.Store conn.old).now.schema → HoldsIn version (state S.Store conn.old).now →
        TellsEvents events.now (state S.Store conn.old).now →
        NamesTable (state S.Store conn.old).now e ⊎ NamesRows (state S.Store conn.old).now e) }
    ensures wrong { HasCleanDisk (state S.Store conn.new) → IfErr result (λ e.
        HasTablesOf version (state S.Store conn.old).now.schema → HoldsIn version (state S.Store conn.old).now →
        TellsEvents events.now (state S.Store conn.old).now →
        NamesWrong Table.Closings (state S.Store conn.old).now e) }
{
    let closings = match version {
        Version::V1 | Version::V2 => return Ok(Vec::new(alloc)),
        Version::V3 => match read::<ClosingRow, S>(alloc, conn, Table::Closings) {
            Ok(closings) => closings,
            Err(fault) => return Err(fault),
        },
    };
    if !are_closings(&closings, events.len()) {
        return Err(OpenFault::Damaged(Table::Closings));
    }
    Ok(closings)
}

/// Counts the rulings; a version before schema 3 has none.
pub(crate) fn count_rulings<S: Alter>(
    alloc: Global,
    conn: &mut Connection<S>,
    version: Version,
) -> Result<usize, OpenFault>
    ensures reads { Reads (is_ok result) (state S.Store conn.old) (state S.Store conn.new) }
    ensures counted { HasCleanDisk (state S.Store conn.new) → IfOk result (λ count.
        HasTablesOf version (state S.Store conn.old).now.schema → IsTrue (state S.Store conn.old).is_open →
        AreRulingsCounted version count (state S.Store conn.old) (state S.Store conn.new)) }
    ensures torn { HasCleanDisk (state S.Store conn.new) → IfErr result (λ e.
        HasTablesOf version (state S.Store conn.old).now.schema → HoldsIn version (state S.Store conn.old).now →
        (e ≡ OpenFault.Store) ⊎ ((e ≡ OpenFault.Memory) ⊎ ((e ≡ OpenFault.Damaged Table.Rulings) ×
        IsUnheld (state S.Store conn.old).now))) }
{
    match version {
        Version::V1 | Version::V2 => Ok(0),
        Version::V3 => count_of::<RulingRow, S>(alloc, conn, Table::Rulings),
    }
}
