//! Copies a club into another database.

ghost use Rattle.std.specs.Prelude.{◌≡◌, ◌≢◌, ◌≤◌, ◌⊎◌, false, IfOk, IfErr, OnOk, OnErr, is_ok, Err};
ghost use Rattle.sqlite.specs.State.{HasCleanDisk};
ghost use Rattle.sqlite.specs.Held.{state};
ghost use Rattle.sqlite_trees.specs.View.{doubt};
ghost use Rattle.store_tables.specs.Over.{HasRowsIn};
ghost use Rattle.store_tables.specs.Placed.{HasTables};
ghost use Rattle.store_tables.specs.declared.names.Version.TheVariants.{V1};
ghost use Rattle.store_tables.specs.Tables.{IsServed};
ghost use Rattle.store_tables.specs.Club.{IsExactly, Leaves};
ghost use Rattle.store_tables.specs.Contents.{IsExactlyEmpty, IsEmpty};
ghost use Rattle.store_tables.specs.Reading.{KeepsContent, KeepsMay, Reads};

use crate::copy_fault::CopyFault;
use crate::rows::read_rows;
use crate::{TableFault, create_with_rows};
use sqlite::{Alter, Connection};
use std::alloc::Global;
use store_tables::Version;

fn unread(fault: TableFault) -> CopyFault
    ensures { result ≢ CopyFault.Copy }
{
    match fault {
        TableFault::Store => CopyFault::Club,
        TableFault::Memory => CopyFault::Memory,
    }
}

/// Creates the tables of a club of this version in an empty database and copies all rows of the club into them, in one
/// transaction.
///
/// # Errors
///
/// - `Club` if a call of the club's database fails, or its rows are invalid.
/// - `Copy` if a call of the copy's database fails, or it already holds a club's tables.
/// - `Memory` if out of memory.
///
/// # Guarantees
///
/// - `reads`: the club is only read.
/// - `stored`: on success the copy holds exactly the club's rows.
/// - `fault`: after an error or a crash the copy is empty or complete (atomic).
/// - `untouched`: after `Club` or `Memory` the copy was not touched.
pub fn copy_tables<S: Alter, T: Alter>(
    alloc: Global,
    version: Version,
    club: &mut Connection<S>,
    copy: &mut Connection<T>,
) -> Result<(), CopyFault>
    requires { copy.old.in_transaction ≡ false }
    ensures reads { Reads (is_ok result) (state S.Store club.old) (state S.Store club.new) }
    ensures unchanged { HasCleanDisk (state S.Store club.new) → result ≡ Err CopyFault.Copy →
        KeepsContent (state S.Store club.old) (state S.Store club.new) }
    ensures idle { copy.new.in_transaction ≡ false }
    ensures clean { doubt (state T.Store copy.old).is_clean ≤ doubt (state T.Store copy.new).is_clean }
    ensures stored { HasCleanDisk (state S.Store club.new) → HasCleanDisk (state T.Store copy.new) →
        OnOk result (IsServed version → (content : _) → HasRowsIn version content (state S.Store club.old) →
        IsExactlyEmpty (state T.Store copy.old) → IsExactly version content (state T.Store copy.new)) }
    ensures fault { HasCleanDisk (state S.Store club.new) → HasCleanDisk (state T.Store copy.new) →
        OnErr result (IsServed version → (content : _) → HasRowsIn version content (state S.Store club.old) →
        IsExactlyEmpty (state T.Store copy.old) → (db : _) → (state T.Store copy.new).may_leave db →
        IsEmpty db ⊎ Leaves version content db) }
    ensures untouched { IfErr result (λ e. e ≢ CopyFault.Copy → copy.new ≡ copy.old) }
    ensures stands { HasCleanDisk (state T.Store copy.new) →
        HasTables V1 (state T.Store copy.old).now.schema →
        IfOk result (λ _. ⊥) × KeepsMay (state T.Store copy.old) (state T.Store copy.new) }
{
    let rows = match read_rows(alloc, version, club) {
        Ok(rows) => rows,
        Err(fault) => return Err(unread(fault)),
    };
    match create_with_rows(copy, version, &rows) {
        Ok(()) => Ok(()),
        Err(_) => Err(CopyFault::Copy),
    }
}
