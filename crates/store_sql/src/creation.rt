//! Creates the tables in an empty database together with their rows.

ghost use Rattle.std.specs.Prelude.{◌≡◌, ◌≤◌, ◌⊎◌, false, IsTrue, IfOk, IfErr, OnOk, OnErr};
ghost use Rattle.sqlite.specs.State.{HasCleanDisk, Survives};
ghost use Rattle.sqlite.specs.Held.{state};
ghost use Rattle.sqlite_trees.specs.View.{doubt};
ghost use Rattle.store_tables.specs.internal.Changed.{FitsVersion, changed};
ghost use Rattle.store_tables.specs.Club.{IsExactly, Leaves};
ghost use Rattle.store_tables.specs.Contents.{IsExactlyEmpty, IsEmpty};
ghost use Rattle.store_tables.specs.internal.Contents.{opening};
ghost use Rattle.store_tables.specs.Reading.{KeepsMay};
ghost use Rattle.store_tables.specs.Placed.{HasTables};
ghost use Rattle.store_tables.specs.declared.names.Version.TheVariants.{V1};
ghost use Rattle.store_sql.specs.internal.Filled.{FillsWith};

use crate::commit::put_changes;
use crate::make::create_inside;
use sqlite::{Alter, Connection, Error, Transaction};
use store_tables::{Changes, Version};

/// Creates the tables with the initial row of `meta` and upserts the rows, in an open transaction.
fn fill_inside<S: Alter>(
    tx: &mut Transaction<'_, S>,
    version: Version,
    changes: &Changes,
) -> Result<(), Error>
    ensures same_reference { tx.new.conn.ghost_name ≡ tx.old.conn.ghost_name }
    ensures filled { HasCleanDisk (state S.Store tx.new.conn.now) → IsTrue
        (state S.Store tx.old.conn.now).in_transaction → OnOk result (FitsVersion version changes.now →
        FillsWith version changes.now (state S.Store tx.old.conn.now) (state S.Store tx.new.conn.now)) }
    ensures refuses { HasCleanDisk (state S.Store tx.new.conn.now) → IsTrue
        (state S.Store tx.old.conn.now).in_transaction →
        HasTables V1 (state S.Store tx.old.conn.now).now.schema →
        IfOk result (λ _. ⊥) }
    ensures survives { Survives (state S.Store tx.old.conn.now) (state S.Store tx.new.conn.now) (λ _. ⊥) }
{
    create_inside(tx, version)?;
    put_changes(tx, version, changes)?;
    Ok(())
}

/// Creates the tables of this version in an empty database and upserts the rows, in one transaction.
///
/// # Errors
///
/// `sqlite::Error` if a call of the database fails, or if a club's tables already exist.
///
/// # Guarantees
///
/// - `stored`: on success the database holds exactly a new club's rows with these upserted. Rows of the arbiter's
///   tables need schema 3.
/// - `fault`, `survives`: after an error or a crash the database is empty, or holds all tables with all rows (atomic).
/// - `stands`: if a club's tables already exist, the call fails and changes nothing.
pub fn create_with_rows<S: Alter>(
    conn: &mut Connection<S>,
    version: Version,
    changes: &Changes,
) -> Result<(), Error>
    requires { conn.old.in_transaction ≡ false }
    ensures idle { conn.new.in_transaction ≡ false }
    ensures clean { doubt (state S.Store conn.old).is_clean ≤ doubt (state S.Store conn.new).is_clean }
    ensures stored { HasCleanDisk (state S.Store conn.new) → OnOk result (FitsVersion version changes.now →
        IsExactlyEmpty (state S.Store conn.old) →
        IsExactly version (changed version changes.now (opening version)) (state S.Store conn.new)) }
    ensures fault { HasCleanDisk (state S.Store conn.new) → OnErr result (FitsVersion version changes.now →
        IsExactlyEmpty (state S.Store conn.old) → (db : _) → (state S.Store conn.new).may_leave db →
        IsEmpty db ⊎ Leaves version (changed version changes.now (opening version)) db) }
    ensures stands { HasCleanDisk (state S.Store conn.new) → HasTables V1 (state S.Store conn.old).now.schema →
        IfOk result (λ _. ⊥) × KeepsMay (state S.Store conn.old) (state S.Store conn.new) }
    ensures survives { Survives (state S.Store conn.old) (state S.Store conn.new) (λ db.
        (FitsVersion version changes.now → IsExactlyEmpty (state S.Store conn.old) →
        Leaves version (changed version changes.now (opening version)) db) ×
        (HasTables V1 (state S.Store conn.old).now.schema → ⊥)) }
{
    let mut tx = conn.transaction();
    fill_inside(&mut tx, version, changes)?;
    tx.commit()?;
    Ok(())
}
