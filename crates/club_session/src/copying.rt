//! Backup: a copy of a club in a new file.

ghost use Rattle.std.specs.Prelude.{◌≡◌, ◌⊎◌, Option, None, IfSome};
ghost use Rattle.sqlite_wal.specs.Files.{image_at};
ghost use Rattle.sqlite_store.specs.FileStore.{state as store_state, view as store_view};
ghost use Rattle.sqlite_trees.specs.View.{IsClean};
ghost use Rattle.sqlite.specs.State.{HasCleanDisk};
ghost use Rattle.sqlite.specs.Held.{state};
ghost use Rattle.sqlite.specs.Files.{file_state};
ghost use Rattle.store_tables.specs.Over.{HasRowsIn};
ghost use Rattle.store_tables.specs.Tables.{IsServed};
ghost use Rattle.store_tables.specs.Club.{IsExactly};
ghost use Rattle.store_tables.specs.Reading.{OnlyReads};
ghost use Rattle.club_rows.specs.Club.{ClubState, tables};
ghost use Rattle.club_rows.specs.Tables.{version_of};
ghost use Rattle.store_files.specs.Finds.{HaveNoTables};
ghost use Rattle.club_check.specs.declared.fault.OpenFault.TheVariants.{Foreign};
ghost use Rattle.club_orders.specs.declared.report.Report.TheVariants.{Copied, BackupFailed, Unopened};
ghost use Rattle.club_orders.specs.Report.{IfUnopened, IsNotOpened, IsOfCopy, OnlyUnopened};
ghost use Rattle.club_orders.specs.Refused.{IsOlder};
ghost use Rattle.club_session.specs.Copied.{HasCopyOf, HasCopyOrNone};
ghost use Rattle.club_session.specs.Found.{AreFilesOf, AreFirstFilesOf, AreKept, AreRefused, AreSound, IsBackedUp};

use crate::opening::{RepeatableStart, open_new, open_once, open_with_retries};
use crate::preflight::{OpenMode, remove_wal};
use club_orders::{Report, verify};
use sqlite::{Alter, Connection, FileFrom, FileStore, Leftover};
use sqlite_disk::{Disk, Start, Wary};
use store::{holds_exactly, opened_empty_holds};
use store_files::close;
use store_tables::Version;

/// The result of a backup, and the copy, if its files were opened.
pub struct BackupResult<D: Disk> {
    pub report: Report,
    pub copy: Option<Leftover<D>>,
}

impl<D: Disk + Drop> BackupResult<D> {
    /// Closes the copy at this path and returns the report. If the copy is not complete, its log is removed as that of
    /// a club after an order.
    pub fn into_report(self, rt: &HostRuntime, path: &str) -> Report
        ensures { result ≡ self.report }
    {
        let BackupResult { report, copy } = self;
        if let Some(left) = copy {
            drop(left.into_files());
            release_copy(rt, path, &report);
        }
        report
    }
}

// Opens the files of a copy that is not complete again, and closes them without a log, if that can be done.
fn release_copy(rt: &HostRuntime, path: &str, report: &Report) {
    if matches!(report, Report::Copied) {
        return;
    }
    if let Ok(copy) = open_once(rt, path, OpenMode::Ordering, Wary) {
        match copy.close_files() {
            Ok(files) => {
                let _removed = remove_wal(rt, path);
                drop(files);
            }
            Err((_, store)) => drop(Leftover::Store(store).into_files()),
        }
    }
}

// Closes a complete copy: checkpoints its log into the file and removes the log.
fn finish<T: Start>(
    rt: &HostRuntime,
    copy: Connection<FileStore<FileFrom<T>>>,
    path: &str,
) -> BackupResult<FileFrom<T>>
    ensures possible_faults { (result.report ≡ Copied) ⊎ (result.report ≡ BackupFailed) }
    ensures whole { (version content : _) →
        (HasCleanDisk (file_state copy) → IsExactly version content (file_state copy)) →
        result.report ≡ Copied → HasCopyOf version content result.copy }
    ensures after_crash { (version content : _) →
        (HasCleanDisk (file_state copy) → IsExactly version content (file_state copy)) →
        HasCopyOrNone version content result.copy }
{
    let files = match copy.close_files() {
        Ok(files) => files,
        Err((_, store)) => {
            return BackupResult {
                report: Report::BackupFailed,
                copy: Some(Leftover::Store(store)),
            };
        }
    };
    if !remove_wal(rt, path) {
        return BackupResult {
            report: Report::BackupFailed,
            copy: Some(Leftover::Files(files)),
        };
    }
    BackupResult {
        report: Report::Copied,
        copy: Some(Leftover::Files(files)),
    }
}

// Copies an open club of this schema, which was verified, into a new file at this path.
fn copy_into<S: Alter, T: Start>(
    rt: &HostRuntime,
    version: Version,
    club: &mut Connection<S>,
    path: &str,
    start: T,
) -> BackupResult<FileFrom<T>>
    ensures reads { OnlyReads (state S.Store club.old) (state S.Store club.new) }
    ensures possible_faults { IsOfCopy result.report }
    ensures copied { HasCleanDisk (state S.Store club.new) → HaveNoTables (image_at T.Start) → IsServed version →
        (content : _) → HasRowsIn version content (state S.Store club.old) → result.report ≡ Copied →
        HasCopyOf version content result.copy }
    ensures after_crash { HasCleanDisk (state S.Store club.new) → HaveNoTables (image_at T.Start) → IsServed version →
        (content : _) → HasRowsIn version content (state S.Store club.old) →
        HasCopyOrNone version content result.copy }
{
    let mut copy = match open_new(rt, path, start) {
        Ok(copy) => copy,
        Err(report) => return BackupResult { report, copy: None },
    };
    opened_empty_holds(&copy);
    match club_orders::back_up(rt.alloc(), version, club, &mut copy) {
        Report::Copied => finish(rt, copy, path),
        report => BackupResult {
            report,
            copy: Some(Leftover::Store(copy.into_store())),
        },
    }
}

/// Copies the club in the file at `file` into a new file at `path`. `S` and `T` are the assumptions on their initial
/// contents. Waits up to 5 s for the lock on the club, opens and checks it, and only then creates the copy, with mode
/// 0600, if nothing exists at its path. Returns the report with the copy, and the club's store if it was opened.
///
/// # Guarantees
///
/// - `kept`: the club's files hold what they held, also after a crash.
/// - `refuses`, `untaken`: the reason why a file was rejected is true, and no copy is created.
/// - `copied`, `sound`: after `Report::Copied` the club is legal, and the copy's file alone holds all its tables, in
///   the club's schema.
/// - `after_crash`: after an error or a crash the copy is empty or complete.
pub fn back_up<S: RepeatableStart, T: Start>(
    rt: &HostRuntime,
    file: &str,
    path: &str,
    start: S,
    copy_start: T,
) -> (BackupResult<FileFrom<T>>, Option<FileStore<FileFrom<S>>>)
    ensures unopened { result.1 ≡ None → (result.0.copy ≡ None) × (IsNotOpened result.0.report ⊎
        (result.0.report ≡ Unopened Foreign)) }
    ensures kept { IfSome result.1 (λ store. IsClean (store_view store) →
        AreKept (image_at S.Start) (store_state store).may_leave) }
    ensures refuses { IfSome result.1 (λ store. IsClean (store_view store) → IfUnopened result.0.report
        (AreRefused (image_at S.Start) (store_state store).may_leave)) }
    ensures untaken { (fault : _) → result.0.report ≡ Unopened fault → result.0.copy ≡ None }
    ensures older { IfSome result.1 (λ store. IsClean (store_view store) →
        (them : _) (s : ClubState) → AreFirstFilesOf them s (image_at S.Start) → OnlyUnopened result.0.report IsOlder) }
    ensures possible_faults { IfSome result.1 (λ store. IsClean (store_view store) →
        (s : ClubState) → AreFilesOf s (image_at S.Start) → IsBackedUp result.0.report) }
    ensures sound { IfSome result.1 (λ store. IsClean (store_view store) → result.0.report ≡ Copied →
        AreSound (image_at S.Start)) }
    ensures copied { IfSome result.1 (λ store. IsClean (store_view store) → HaveNoTables (image_at T.Start) →
        (s : ClubState) → AreFilesOf s (image_at S.Start) → result.0.report ≡ Copied →
        HasCopyOf (version_of s) (tables s) result.0.copy) }
    ensures after_crash { IfSome result.1 (λ store. IsClean (store_view store) → HaveNoTables (image_at T.Start) →
        (s : ClubState) → AreFilesOf s (image_at S.Start) →
        HasCopyOrNone (version_of s) (tables s) result.0.copy) }
{
    let conn = match open_with_retries(rt, file, OpenMode::Ordering, start) {
        Ok(conn) => conn,
        Err(report) => return (BackupResult { report, copy: None }, None),
    };
    holds_exactly(&conn);
    let (report, conn) = verify(rt.alloc(), conn);
    let mut conn = conn;
    match report {
        Report::Sound(version) => {
            let done = copy_into(rt, version, &mut conn, path, copy_start);
            (done, Some(close(conn)))
        }
        report => (BackupResult { report, copy: None }, Some(close(conn))),
    }
}
