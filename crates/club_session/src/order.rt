//! One order over a club's files, from opening to closing.

ghost use Rattle.std.specs.Prelude.{◌≡◌, ◌≢◌, ◌≤◌, ◌⊎◌, ◌++◌, ◌∷◌, [], Bool, false, None, IfErr, IfOk, IfSome, IsSome};
ghost use Rattle.sqlite_wal.specs.Files.{image_at};
ghost use Rattle.sqlite_wal.specs.Recovery.{Image};
ghost use Rattle.sqlite_store.specs.FileStore.{state as store_state, view as store_view};
ghost use Rattle.sqlite_trees.specs.View.{IsClean};
ghost use Rattle.sqlite.specs.Tree.{Trees};
ghost use Rattle.sqlite.specs.State.{HasCleanDisk};
ghost use Rattle.sqlite.specs.Held.{IsNew};
ghost use Rattle.sqlite.specs.Start.{FindsIn};
ghost use Rattle.sqlite.specs.Files.{file_state, IsOpened};
ghost use Rattle.club_rows.specs.Club.{ClubState};
ghost use Rattle.club_rows.specs.Tables.{version_of};
ghost use Rattle.store_tables.specs.Tables.{schema_number};
ghost use Rattle.store_files.specs.Finds.{IsFoundIn, AreReachable, HaveNoTables, AreWithoutClub};
ghost use Rattle.cli.specs.declared.words.Task.TheVariants.{Init};
ghost use Rattle.club_check.specs.declared.fault.OpenFault.TheVariants.{Foreign};
ghost use Rattle.club_orders.specs.declared.report.Report.TheVariants.{Sound, Unopened, Upgraded};
ghost use Rattle.club_orders.specs.Report.{IsNotOpened};
ghost use Rattle.club_session.specs.declared.preflight.OpenMode.TheVariants.{Making};
ghost use Rattle.club_orders.specs.Batches.{AnswersBatch};
ghost use Rattle.club_orders.specs.Report.{AnswersCommand, IfInit, IfRequest, IfAsk, IfBatch, IfBoundedSweep, IfVerify};
ghost use Rattle.club_orders.specs.Report.{AnswersQuery, IsPassed, IsBegun, IsBegunBehind, task_sessions};
ghost use Rattle.club_orders.specs.Report.{IfUnopened, IfUpgrade, IsCreated, IsCreation, IsExisting, IsLedTo};
ghost use Rattle.club_orders.specs.Report.{IsRepeated, OnlyUnopened};
ghost use Rattle.club_orders.specs.Report.{schemas_after, writes};
ghost use Rattle.club_orders.specs.NextStates.{LeavesTask};
ghost use Rattle.club_orders.specs.Sweeps.{IsBoundedSweep};
ghost use Rattle.club_orders.specs.Refused.{IfAccepted, IfOpensClub, IsOlder};
ghost use Rattle.club_session.specs.Found.{AreCarriedOver, AreEarlierFilesOf, AreFilesOf, AreFirstFilesOf, AreKept};
ghost use Rattle.club_session.specs.Found.{AnswerAs, AreFilesBeside, AreNotUpgraded, AreRefused, AreSound};
ghost use Rattle.club_session.specs.Found.{HaveClubTables, UseNamesOf};

use crate::opening::{RepeatableStart, open_with_retries};
use crate::preflight::OpenMode;
use cli::{Order, Task};
use clocks::Moment;
use club_orders::{Report, act};
use sqlite::{Connection, FileFrom, FileStore};
use sqlite_disk::Start;
use std::alloc::Global;
use std::io::Write;
use store_files::close;

// The mode in which a task opens the files.
fn purpose_of(task: &Task) -> OpenMode
    ensures { (arbiter : Bool) → task.now ≡ Init arbiter → result ≡ Making }
{
    match task {
        Task::Init { has_arbiter: _ } => OpenMode::Making,
        Task::Batch(_) => OpenMode::Batching,
        _ => OpenMode::Ordering,
    }
}

/// Opens the files of an order, and waits up to 5 s for their lock. `S` is the assumption on their initial contents.
///
/// # Errors
///
/// - `Report::InUse`: another program has locked the file.
/// - `Report::Unopened(OpenFault::Foreign)`: there is no club. The creation of a club never reports it, and no file is
///   changed.
/// - `Report::NotOpened`, `Report::Unread`: the path names no database file, it has a feature or an object that is not
///   read, its log may not be trusted, or opening failed.
pub fn open_files<S: RepeatableStart>(
    rt: &HostRuntime,
    order: &Order,
    start: S,
) -> Result<Connection<FileStore<FileFrom<S>>>, Report>
    ensures opened { IfOk result (λ c. HasCleanDisk (file_state c) → IsOpened c) }
    ensures found { IfOk result (λ c. HasCleanDisk (file_state c) → FindsIn (image_at S.Start) (file_state c)) }
    ensures fresh { IfOk result IsNew }
    ensures unopened { IfErr result (λ report. IsNotOpened report ⊎
        ((report ≡ Unopened Foreign) × ((arbiter : Bool) → order.entry.now.task ≢ Init arbiter))) }
{
    match open_with_retries(rt, order.file.as_str(), purpose_of(&order.task), start) {
        Ok(conn) => Ok(conn),
        Err(report) => Err(report),
    }
}

/// Executes a task over files that were just opened: checks, executes, closes. It can open no files itself. For a
/// backup it only verifies the club; `back_up` makes the copy. Returns the report, and the store if the files were
/// opened.
///
/// # Guarantees
///
/// - `given_back`, `unopened`: the store is returned if the files were opened. Otherwise the report is that of the
///   opening, and nothing was done.
/// - `history`: whatever a crash leaves, the next opening finds a state that the earlier history and this order lead
///   to, beside the same foreign tables. Only an upgrade changes the schema.
/// - `next_state`: from a legal state, whatever a crash leaves is that state or the next one; the next one after
///   success.
/// - `begun`, `behind`: after the creation of a club, or a crash in it, there is an empty club of the requested schema
///   or no club.
/// - `creation`, `empty`, `existing`: a club is created, or the report says that there is one or that a call failed. An
///   existing club is unchanged.
/// - `shape`: a file is accepted only with the schema of a club; by an upgrade, of any version.
/// - `carries`, `repeats`, `stays`: an upgrade leads to the same state in the requested schema, or changes nothing. A
///   club of that schema or a later one stays as it is.
/// - `beside`: there is no upgrade where a foreign table has the name of a new one.
/// - `answer`, `given`, `asked`: the reported outcomes and the text written to `out` are those of the club's
///   specification.
/// - `bounded`: a sweep with a limit ends no game if more games are overdue, and reports their number.
/// - `refuses`, `withheld`: the reason why a file was rejected is true, and the file is unchanged. Only an upgrade in
///   which a database call failed may have changed it.
/// - `passes`, `sound`: `verify` reports a legal club as sound, unless a call fails or memory runs out, and nothing
///   else.
/// - `silent`: only a query writes to `out`.
pub fn execute_order<S: Start, W: Write>(
    alloc: Global,
    opened: Result<Connection<FileStore<FileFrom<S>>>, Report>,
    task: &Task,
    moment: Moment,
    out: &mut W,
) -> (Report, Option<FileStore<FileFrom<S>>>)
    requires opened { IfOk opened (λ c. HasCleanDisk (file_state c) → IsOpened c) }
    requires found { IfOk opened (λ c. HasCleanDisk (file_state c) → FindsIn (image_at S.Start) (file_state c)) }
    requires fresh { IfOk opened IsNew }
    ensures given_back { IfOk opened (λ c. IsSome result.1) }
    ensures unopened { IfErr opened (λ report. (result.0 ≡ report) × (result.1 ≡ None) × (out.new ≡ out.old)) }
    ensures begun { IfSome result.1 (λ store. IsClean (store_view store) →
        IfInit task.now (λ version. HaveNoTables (image_at S.Start) →
        (left : Image) → (store_state store).may_leave left →
        (found : Trees) → IsFoundIn left found → ∥ IsBegun version result.0 found ∥₁)) }
    // Beside foreign tables, too, which keep their rows.
    ensures behind { IfSome result.1 (λ store. IsClean (store_view store) →
        IfInit task.now (λ version. (them : _) → them.version ≡ version → AreWithoutClub them (image_at S.Start) →
        IsCreated result.0 × ((left : Image) → (store_state store).may_leave left →
        (found : Trees) → IsFoundIn left found → ∥ IsBegunBehind them result.0 found ∥₁))) }
    ensures creation { IfSome result.1 (λ store. IfInit task.now (λ version. IsCreation result.0)) }
    // In files without tables the creation fails only if a call fails.
    ensures empty { IfSome result.1 (λ store. IsClean (store_view store) →
        IfInit task.now (λ version. HaveNoTables (image_at S.Start) → IsCreated result.0)) }
    // No club is created where there is one, sound or damaged.
    ensures existing { IfSome result.1 (λ store. IsClean (store_view store) →
        IfInit task.now (λ version. HaveClubTables (image_at S.Start) →
        OnlyUnopened result.0 IsExisting × AreKept (image_at S.Start) (store_state store).may_leave)) }
    ensures answer { IfSome result.1 (λ store. IsClean (store_view store) →
        (s : ClubState) → AreFilesOf s (image_at S.Start) →
        IfRequest task.now (λ command. AnswersCommand s command moment result.0)) }
    ensures bounded { IfSome result.1 (λ store. IsClean (store_view store) →
        (s : ClubState) → AreFilesOf s (image_at S.Start) →
        IfBoundedSweep task.now (λ most. IsBoundedSweep s moment most result.0)) }
    ensures given { IfSome result.1 (λ store. IsClean (store_view store) →
        (s : ClubState) → AreFilesOf s (image_at S.Start) →
        IfBatch task.now (λ batch. AnswersBatch s moment batch result.0)) }
    ensures asked { IfSome result.1 (λ store. IsClean (store_view store) →
        (s : ClubState) → AreFilesOf s (image_at S.Start) →
        IfAsk task.now (λ question.
        AnswersQuery s moment question (W.contents out.old) (W.contents out.new) result.0)) }
    ensures passes { IfSome result.1 (λ store. IsClean (store_view store) →
        (s : ClubState) → AreFilesOf s (image_at S.Start) →
        IfVerify task.now (IsPassed (version_of s) result.0)) }
    ensures sound { IfSome result.1 (λ store. IsClean (store_view store) →
        IfVerify task.now ((version : _) → result.0 ≡ Sound version → AreSound (image_at S.Start))) }
    // The schema of an accepted file is equivalent to a club's, whatever `CREATE` statements made it.
    ensures shape { IfSome result.1 (λ store. IsClean (store_view store) →
        IfAccepted task.now result.0 (λ version. AnswerAs version (image_at S.Start))) }
    ensures refuses { IfSome result.1 (λ store. IsClean (store_view store) →
        IfOpensClub task.now (IfUnopened result.0
        (AreRefused (image_at S.Start) (store_state store).may_leave))) }
    ensures older { IfSome result.1 (λ store. IsClean (store_view store) →
        (them : _) (s : ClubState) → AreFirstFilesOf them s (image_at S.Start) →
        IfOpensClub task.now (OnlyUnopened result.0 IsOlder)) }
    ensures carries { IfSome result.1 (λ store. IsClean (store_view store) →
        (from : _) (them : _) (s : ClubState) → AreEarlierFilesOf from them s (image_at S.Start) →
        IfUpgrade task.now (λ to. them.version ≡ to →
        AreCarriedOver from them s result.0 (store_state store).may_leave)) }
    ensures repeats { IfSome result.1 (λ store. IsClean (store_view store) →
        (s : ClubState) → AreFilesOf s (image_at S.Start) →
        IfUpgrade task.now (λ to. schema_number to ≤ schema_number (version_of s) →
        IsRepeated (version_of s) result.0 × AreKept (image_at S.Start) (store_state store).may_leave)) }
    // A foreign table with the name of a new one is left alone.
    ensures beside { IfSome result.1 (λ store. IsClean (store_view store) →
        IfUpgrade task.now (λ to. UseNamesOf to (image_at S.Start) → (from : _) → result.0 ≢ Upgraded from)) }
    ensures withheld { IfSome result.1 (λ store. IsClean (store_view store) →
        IfUpgrade task.now (λ to. IfUnopened result.0
        (AreNotUpgraded to (image_at S.Start) (store_state store).may_leave))) }
    ensures spares { IfSome result.1 (λ store. IsClean (store_view store) →
        IfInit task.now (λ version. result.0 ≡ Unopened Foreign →
        AreKept (image_at S.Start) (store_state store).may_leave)) }
    ensures silent { writes task.now ≡ false → out.new ≡ out.old }
    // From any legal state, whatever history led to it.
    ensures next_state { IfSome result.1 (λ store. IsClean (store_view store) →
        (them : _) (s : ClubState) → AreFilesBeside them s (image_at S.Start) →
        (left : Image) → (store_state store).may_leave left →
        (found : Trees) → IsFoundIn left found → ∥ LeavesTask them s task.now moment result.0 found ∥₁) }
    // A club of the requested schema or a later one stays, whatever history led to it.
    ensures stays { IfSome result.1 (λ store. IsClean (store_view store) →
        IfUpgrade task.now (λ to. (from version : _) (them : _) (sessions : _) →
        schema_number to ≤ schema_number version →
        AreReachable from (version ∷ []) them sessions (image_at S.Start) →
        (left : Image) → (store_state store).may_leave left →
        AreReachable from (version ∷ []) them sessions left)) }
    ensures history { IfSome result.1 (λ store. IsClean (store_view store) →
        (from : _) (versions : _) (them : _) (sessions : _) → IsLedTo task.now result.0 them.version →
        AreReachable from versions them sessions (image_at S.Start) →
        (left : Image) → (store_state store).may_leave left →
        AreReachable from (schemas_after task.now result.0 versions) them
        (sessions ++ task_sessions task.now moment result.0) left) }
{
    let conn = match opened {
        Ok(conn) => conn,
        Err(report) => return (report, None),
    };
    let (report, conn) = act(alloc, conn, task, moment, out);
    (report, Some(close(conn)))
}
