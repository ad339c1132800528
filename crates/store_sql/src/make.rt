//! Creates the tables of a new club.

ghost use Rattle.std.specs.Prelude.{◌≡◌, ◌≤◌, ◌⊎◌, ℕ, false, [], ◌∷◌, pos, Err, IsTrue, IfOk, IfErr, OnOk, OnErr};
ghost use Rattle.sqlite.specs.State.{ExecutesInside, HasCleanDisk, Survives};
ghost use Rattle.sqlite.specs.Held.{state};
ghost use Rattle.sqlite_trees.specs.View.{doubt};
ghost use Rattle.sqlite.specs.declared.types.Value.TheVariants.{Int};
ghost use Rattle.store_tables.specs.internal.Cells.{meta_cells};
ghost use Rattle.store_tables.specs.Reading.{KeepsMay};
ghost use Rattle.store_tables.specs.internal.Reading.{IsNoInput};
ghost use Rattle.store_tables.specs.Contents.{Holds, IsExactlyEmpty, IsEmpty};
ghost use Rattle.store_tables.specs.internal.Contents.{Ran, opening};
ghost use Rattle.store_tables.specs.Club.{IsExactly, Leaves};
ghost use Rattle.store_tables.specs.Over.{HoldsClubAmong, LeavesBeside};
ghost use Rattle.store_tables.specs.Placed.{HasTableAt, HasTables};
ghost use Rattle.store_tables.specs.Room.{AreUnused, HasRoom, IsWithoutClub, LeavesNoClub};
ghost use Rattle.store_tables.specs.Tables.{IsServed};
ghost use Rattle.store_tables.specs.internal.Room.{AreBare, Fills, MakesHere};
ghost use Rattle.store_tables.specs.declared.names.Version.TheVariants.{V1};

use crate::upsert::put_meta;
use sqlite::{Alter, Connection, Error, Transaction};
use store_tables::{MetaRow, Table, Version};

/// Executes one CREATE TABLE statement.
pub(crate) fn make<S: Alter>(tx: &mut Transaction<'_, S>, sql: &str) -> Result<(), Error>
    ensures same_reference { tx.new.conn.ghost_name ≡ tx.old.conn.ghost_name }
    ensures ran { HasCleanDisk (state S.Store tx.new.conn.now) → IsTrue
        (state S.Store tx.old.conn.now).in_transaction → OnOk result (Ran sql.now (state S.Store tx.old.conn.now)
        (state S.Store tx.new.conn.now)) }
    ensures fails { HasCleanDisk (state S.Store tx.new.conn.now) → IsTrue
        (state S.Store tx.old.conn.now).in_transaction → IfErr result (λ e. ExecutesInside 0 sql.now []
        (state S.Store tx.old.conn.now) (state S.Store tx.new.conn.now) (Err e)) }
    ensures survives { Survives (state S.Store tx.old.conn.now) (state S.Store tx.new.conn.now) (λ _. ⊥) }
{
    match tx.execute(sql, &[]) {
        Ok(_) => Ok(()),
        Err(error) => Err(error),
    }
}

/// Creates these tables in their order.
pub(crate) fn make_tables<S: Alter>(
    tx: &mut Transaction<'_, S>,
    tables: &[Table],
) -> Result<(), Error>
    ensures same_reference { tx.new.conn.ghost_name ≡ tx.old.conn.ghost_name }
    ensures made { HasCleanDisk (state S.Store tx.new.conn.now) → IsTrue
        (state S.Store tx.old.conn.now).in_transaction → OnOk result (MakesHere tables.now
        (state S.Store tx.old.conn.now) (state S.Store tx.new.conn.now)) }
    // If the first of them exists, nothing is created.
    ensures refuses { HasCleanDisk (state S.Store tx.new.conn.now) → IsTrue
        (state S.Store tx.old.conn.now).in_transaction → (first : _) (rest : _) → tables.now ≡ first ∷ rest →
        HasTableAt (state S.Store tx.old.conn.now).now.schema first → IfOk result (λ _. ⊥) }
    // If their names are unused, only the store can fail.
    ensures known { HasCleanDisk (state S.Store tx.new.conn.now) → IsTrue
        (state S.Store tx.old.conn.now).in_transaction → (schema : _) (content : _) → AreUnused schema tables.now →
        AreBare schema content tables.now → Holds schema (state S.Store tx.old.conn.now).now content →
        IfErr result IsNoInput }
    ensures survives { Survives (state S.Store tx.old.conn.now) (state S.Store tx.new.conn.now) (λ _. ⊥) }
{
    'tables: for table in tables {
        make(tx, table.create())?;
    }
    Ok(())
}

/// The row of `meta` of a new club.
fn opening_row(schema: i64) -> MetaRow
    ensures { meta_cells result ≡ Int (pos 1) ∷ Int schema ∷ Int (pos 0) ∷ [] }
{
    MetaRow {
        id: 1,
        schema,
        last: 0,
    }
}

/// Creates the tables of this version and the row of `meta`, in an open transaction.
pub(crate) fn create_inside<S: Alter>(
    tx: &mut Transaction<'_, S>,
    version: Version,
) -> Result<(), Error>
    ensures same_reference { tx.new.conn.ghost_name ≡ tx.old.conn.ghost_name }
    ensures filled { HasCleanDisk (state S.Store tx.new.conn.now) → IsTrue
        (state S.Store tx.old.conn.now).in_transaction → OnOk result (Fills version (state S.Store tx.old.conn.now)
        (state S.Store tx.new.conn.now)) }
    ensures refuses { HasCleanDisk (state S.Store tx.new.conn.now) → IsTrue
        (state S.Store tx.old.conn.now).in_transaction →
        HasTables V1 (state S.Store tx.old.conn.now).now.schema →
        IfOk result (λ _. ⊥) }
    // In a schema with room for a club (`HasRoom`) only the store can fail.
    ensures known { HasCleanDisk (state S.Store tx.new.conn.now) → IsTrue
        (state S.Store tx.old.conn.now).in_transaction → (schema : _) (them : _) → them.version ≡ version →
        HasRoom schema them → Holds schema (state S.Store tx.old.conn.now).now them.rows → IfErr result IsNoInput }
    ensures survives { Survives (state S.Store tx.old.conn.now) (state S.Store tx.new.conn.now) (λ _. ⊥) }
{
    make_tables(tx, &Table::ALL[..version.table_count()])?;
    let meta = opening_row(version.number());
    put_meta(&meta, tx)?;
    Ok(())
}

/// Creates the tables of a new club of schema 2 or 3 in one transaction, in an empty database or beside foreign tables.
///
/// # Errors
///
/// `sqlite::Error` if a call of the database fails, or if a table name is already taken.
///
/// # Guarantees
///
/// - `stored`, `behind`: on success the database holds an empty club; foreign tables are unchanged.
/// - `fault`, `behind_fault`, `survives`: after an error or a crash there is no club, or a complete one (atomic).
/// - `stands`: if a club's tables already exist, the call fails and changes nothing.
pub fn create_tables<S: Alter>(conn: &mut Connection<S>, version: Version) -> Result<(), Error>
    requires { conn.old.in_transaction ≡ false }
    ensures idle { conn.new.in_transaction ≡ false }
    ensures clean { doubt (state S.Store conn.old).is_clean ≤ doubt (state S.Store conn.new).is_clean }
    ensures stored { HasCleanDisk (state S.Store conn.new) → OnOk result (IsServed version →
        IsExactlyEmpty (state S.Store conn.old) → IsExactly version (opening version) (state S.Store conn.new)) }
    ensures fault { HasCleanDisk (state S.Store conn.new) → OnErr result (IsServed version →
        IsExactlyEmpty (state S.Store conn.old) → (db : _) → (state S.Store conn.new).may_leave db →
        IsEmpty db ⊎ Leaves version (opening version) db) }
    // Beside foreign tables, whose rows stay.
    ensures behind { HasCleanDisk (state S.Store conn.new) → OnOk result ((them : _) → them.version ≡ version →
        IsWithoutClub them (state S.Store conn.old) →
        HoldsClubAmong them (opening version) (state S.Store conn.new)) }
    ensures behind_fault { HasCleanDisk (state S.Store conn.new) → OnErr result ((them : _) →
        them.version ≡ version → IsWithoutClub them (state S.Store conn.old) → (db : _) →
        (state S.Store conn.new).may_leave db → LeavesNoClub them db ⊎ LeavesBeside them (opening version) db) }
    // If a club's tables exist, nothing is created.
    ensures stands { HasCleanDisk (state S.Store conn.new) → HasTables V1 (state S.Store conn.old).now.schema →
        IfOk result (λ _. ⊥) × KeepsMay (state S.Store conn.old) (state S.Store conn.new) }
    ensures refused { HasCleanDisk (state S.Store conn.new) → IfErr result (λ e. IsNoInput e ⊎ KeepsMay
        (state S.Store conn.old) (state S.Store conn.new)) }
    // In an empty database only the store can fail; the same beside foreign tables that leave room for a club.
    ensures known { HasCleanDisk (state S.Store conn.new) → IsServed version →
        IsExactlyEmpty (state S.Store conn.old) → IfErr result IsNoInput }
    ensures known_behind { HasCleanDisk (state S.Store conn.new) → (them : _) → them.version ≡ version →
        IsWithoutClub them (state S.Store conn.old) → IfErr result IsNoInput }
    ensures survives { Survives (state S.Store conn.old) (state S.Store conn.new) (λ db.
        (IsServed version → IsExactlyEmpty (state S.Store conn.old) → Leaves version (opening version) db)
        × (HasTables V1 (state S.Store conn.old).now.schema → ⊥)
        × ((them : _) → them.version ≡ version → IsWithoutClub them (state S.Store conn.old) →
        LeavesBeside them (opening version) db)) }
{
    let mut tx = conn.transaction();
    create_inside(&mut tx, version)?;
    tx.commit()?;
    Ok(())
}
