//! Migrations from one schema version to a later one.

ghost use Rattle.std.specs.Prelude.{◌≡◌, ◌≤◌, ◌⊎◌, true, false, [], IsTrue, IfOk, IfErr, OnOk, OnErr, drop, is_ok};
ghost use Rattle.sqlite.specs.State.{HasCleanDisk, IsUnchanged, Survives};
ghost use Rattle.sqlite.specs.Held.{state};
ghost use Rattle.sqlite_catalog.specs.Change.{is_used};
ghost use Rattle.sqlite_trees.specs.View.{doubt};
ghost use Rattle.store_tables.specs.internal.Changed.{widened};
ghost use Rattle.store_tables.specs.Names.{table_name};
ghost use Rattle.store_tables.specs.Migrations.{HoldsInVersion, LeavesInVersion, MigratesTo};
ghost use Rattle.store_tables.specs.Over.{HoldsClubAmong, LeavesBeside};
ghost use Rattle.store_tables.specs.internal.Over.{HoldsBeside};
ghost use Rattle.store_tables.specs.Placed.{HasTableAt, HasTables};
ghost use Rattle.store_tables.specs.Reading.{Reads};
ghost use Rattle.store_tables.specs.Tables.{IsServed};
ghost use Rattle.store_sql.specs.internal.Widened.{HasNoneAdded, WidensTo};

use crate::fault::{ReadFault, is_refused};
use crate::make::make_tables;
use crate::upsert::{Upsert, put_all};
use sqlite::{Alter, Connection, Error, Transaction, params};
use store_tables::{EventRuleRow, MetaRow, Table, Version};

/// Those of these tables that a schema with the first `count` of them does not have.
fn later_tables(tables: &[Table], count: usize) -> &[Table]
    ensures { result.now ≡ drop count tables.now }
{
    if count < tables.len() {
        &tables[count..]
    } else {
        &tables[tables.len()..]
    }
}

/// Creates the tables that version `to` adds to version `from`, and upserts the rows, in an open transaction.
fn migrate_inside<S: Alter>(
    tx: &mut Transaction<'_, S>,
    from: Version,
    to: Version,
    rules: &[EventRuleRow],
    meta: &MetaRow,
) -> Result<(), Error>
    ensures same_reference { tx.new.conn.ghost_name ≡ tx.old.conn.ghost_name }
    ensures widened { HasCleanDisk (state S.Store tx.new.conn.now) → IsTrue
        (state S.Store tx.old.conn.now).in_transaction → OnOk result (IsServed to →
        WidensTo from to rules.now meta.now (state S.Store tx.old.conn.now) (state S.Store tx.new.conn.now)) }
    ensures survives { Survives (state S.Store tx.old.conn.now) (state S.Store tx.new.conn.now) (λ _. ⊥) }
{
    make_tables(
        tx,
        later_tables(&Table::ALL[..to.table_count()], from.table_count()),
    )?;
    put_all(tx, rules)?;
    meta.put(tx)?;
    Ok(())
}

/// Migrates the tables from one schema version to a later one in one transaction, with these event rules (none from
/// schema 2) and this row of `meta`.
///
/// # Errors
///
/// `sqlite::Error` if a call of the database fails.
///
/// # Guarantees
///
/// - `stored`: on success the tables hold the later schema; foreign tables are unchanged.
/// - `fault`, `survives`: after an error or a crash the file holds the old or the later schema (atomic).
pub fn migrate<S: Alter>(
    conn: &mut Connection<S>,
    from: Version,
    to: Version,
    rules: &[EventRuleRow],
    meta: &MetaRow,
) -> Result<(), Error>
    requires { conn.old.in_transaction ≡ false }
    ensures idle { conn.new.in_transaction ≡ false }
    ensures clean { doubt (state S.Store conn.old).is_clean ≤ doubt (state S.Store conn.new).is_clean }
    ensures stored { HasCleanDisk (state S.Store conn.new) → OnOk result (IsServed to → (them : _) (content : _) →
        HasNoneAdded from to content → them.version ≡ to →
        HoldsInVersion from them content (state S.Store conn.old) →
        HoldsClubAmong them (widened rules.now meta.now content) (state S.Store conn.new)) }
    ensures fault { HasCleanDisk (state S.Store conn.new) → OnErr result (IsServed to → (them : _) (content : _) →
        HasNoneAdded from to content → them.version ≡ to →
        HoldsInVersion from them content (state S.Store conn.old) → (db : _) →
        (state S.Store conn.new).may_leave db →
        LeavesInVersion from them content db ⊎ LeavesBeside them (widened rules.now meta.now content) db) }
    ensures survives { Survives (state S.Store conn.old) (state S.Store conn.new) (λ db. IsServed to → (before : _) →
        before.version ≡ from → (after : _) → after.version ≡ to → MigratesTo before after →
        HasTables from before.schema → (content : _) → HasNoneAdded from to content →
        HoldsBeside before content (state S.Store conn.old).now →
        LeavesBeside after (widened rules.now meta.now content) db) }
{
    let mut tx = conn.transaction();
    migrate_inside(&mut tx, from, to, rules, meta)?;
    tx.commit()?;
    Ok(())
}

/// Whether this table of a club exists with all of its columns, in a database that is not yet checked.
///
/// # Errors
///
/// `Store` if a call of the database fails for any other reason than a missing table or column.
pub fn has_table<S: Alter>(conn: &mut Connection<S>, table: Table) -> Result<bool, ReadFault>
    ensures reads { Reads (is_ok result) (state S.Store conn.old) (state S.Store conn.new) }
    ensures same { HasCleanDisk (state S.Store conn.new) → OnOk result (IsUnchanged (state S.Store conn.old)
        (state S.Store conn.new)) }
    ensures stands { HasCleanDisk (state S.Store conn.new) → IfOk result (λ there.
        HasTableAt (state S.Store conn.old).now.schema table → there ≡ true) }
    ensures missing { HasCleanDisk (state S.Store conn.new) → IfOk result (λ there.
        is_used (state S.Store conn.old).now.schema (table_name table) ≡ false → there ≡ false) }
    ensures store { IfErr result (λ e. e ≡ ReadFault.Store) }
{
    let error = match conn.query_all(table.by_first(), params![0_i64]) {
        Ok(_) => return Ok(true),
        Err(error) => error,
    };
    if is_refused(&error) {
        return Ok(false);
    }
    Err(ReadFault::Store)
}
