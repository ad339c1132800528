//! Copies an open club into an empty database.

ghost use Rattle.std.specs.Prelude.{◌≡◌, ◌≤◌, ◌⊎◌, false};
ghost use Rattle.sqlite.specs.State.{HasCleanDisk};
ghost use Rattle.sqlite.specs.Held.{state};
ghost use Rattle.sqlite_trees.specs.View.{doubt};
ghost use Rattle.store_tables.specs.Over.{HasRowsIn};
ghost use Rattle.store_tables.specs.Club.{IsExactly, Leaves};
ghost use Rattle.store_tables.specs.Contents.{IsEmpty, IsExactlyEmpty};
ghost use Rattle.store_tables.specs.Tables.{IsServed};
ghost use Rattle.store_tables.specs.Reading.{OnlyReads};
ghost use Rattle.store_tables.specs.Reading.{KeepsContent};
ghost use Rattle.club_orders.specs.Report.{IsOfCopy};

use crate::report::Report;
use sqlite::{Alter, Connection};
use std::alloc::Global;
use store::StoreFault;
use store_sql::{CopyFault, copy_tables};
use store_tables::Version;

/// Copies a verified club of this schema into an empty database, in one transaction with one commit. The club is only
/// read. Reports `Report::Copied`, or `Report::BackupFailed` if writing the copy failed, or `Report::StoreFailed` if
/// reading the club failed or memory ran out.
///
/// # Guarantees
///
/// `copied`: a reported copy has exactly the club's tables, in the club's schema. `after_crash`: after an error or a
/// crash the copy is empty or complete. `untouched`: after `StoreFailed` the copy was not touched.
pub fn back_up<S: Alter, T: Alter>(
    alloc: Global,
    version: Version,
    club: &mut Connection<S>,
    copy: &mut Connection<T>,
) -> Report
    requires { copy.old.in_transaction ≡ false }
    ensures idle { copy.new.in_transaction ≡ false }
    ensures reads { OnlyReads (state S.Store club.old) (state S.Store club.new) }
    ensures clean { doubt (state T.Store copy.old).is_clean ≤ doubt (state T.Store copy.new).is_clean }
    ensures possible_faults { IsOfCopy result }
    ensures copied { HasCleanDisk (state S.Store club.new) → HasCleanDisk (state T.Store copy.new) →
        result ≡ Report.Copied → IsServed version → (content : _) → HasRowsIn version content (state S.Store club.old) →
        IsExactlyEmpty (state T.Store copy.old) → IsExactly version content (state T.Store copy.new) }
    ensures after_crash { HasCleanDisk (state S.Store club.new) → HasCleanDisk (state T.Store copy.new) →
        IsServed version → (content : _) → HasRowsIn version content (state S.Store club.old) →
        IsExactlyEmpty (state T.Store copy.old) →
        (db : _) → (state T.Store copy.new).may_leave db → IsEmpty db ⊎ Leaves version content db }
    ensures unchanged { HasCleanDisk (state S.Store club.new) → result ≡ Report.BackupFailed →
        KeepsContent (state S.Store club.old) (state S.Store club.new) }
    ensures untouched { (fault : _) → result ≡ Report.StoreFailed fault → copy.new ≡ copy.old }
{
    match copy_tables(alloc, version, club, copy) {
        Ok(()) => Report::Copied,
        Err(CopyFault::Club) => Report::StoreFailed(StoreFault::Store),
        Err(CopyFault::Copy) => Report::BackupFailed,
        Err(CopyFault::Memory) => Report::StoreFailed(StoreFault::Memory),
    }
}
