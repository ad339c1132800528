//! Execution of one order over a connection.

ghost use Rattle.std.specs.Prelude.{◌≡◌, ◌≢◌, ◌≤◌, ◌++◌, ◌∷◌, [], false, true, refl, ⊤};
ghost use Rattle.sqlite.specs.State.{HasCleanDisk, Opens, IsLive};
ghost use Rattle.sqlite.specs.Held.{state};
ghost use Rattle.sqlite_trees.specs.View.{doubt};
ghost use Rattle.store_tables.specs.Placed.{HasClubTables};
ghost use Rattle.store_tables.specs.Contents.{IsEmpty};
ghost use Rattle.store_tables.specs.Over.{LeavesBeside};
ghost use Rattle.store_tables.specs.Room.{LeavesNoClub};
ghost use Rattle.store_tables.specs.Club.{IsExactly};
ghost use Rattle.store_tables.specs.Reading.{KeepsContent};
ghost use Rattle.store_tables.specs.Tables.{IsServed, schema_number};
ghost use Rattle.schema_match.specs.Shapes.{is_of_club};
ghost use Rattle.club_rows.specs.Club.{ClubState, IsClub, tables};
ghost use Rattle.club_rows.specs.FirstSchema.{IsClubOf};
ghost use Rattle.club_rows.specs.Tables.{version_of};
ghost use Rattle.store.specs.Clubs.{version_with};
ghost use Rattle.store.specs.Histories.{HasState, IsReachable, IsReachableIn};
ghost use Rattle.store.specs.Upgrades.{uses_names_of};
ghost use Rattle.club_orders.specs.Batches.{AnswersBatch};
ghost use Rattle.club_orders.specs.NextStates.{LeavesRequest, LeavesTask};
ghost use Rattle.club_orders.specs.Report.{given, AnswersCommand, IfRequest, IfAsk, IfBatch, IfVerify, IfUnopened};
ghost use Rattle.club_orders.specs.Report.{IfBoundedSweep, IfInit, IfUpgrade};
ghost use Rattle.club_orders.specs.Sweeps.{IsBoundedSweep};
ghost use Rattle.club_orders.specs.internal.Report.{ask_report};
ghost use Rattle.club_orders.specs.Report.{IfTaken, IfUpgradeOf, IsLedTo, IsRepeated, OnlyUnopened, upgrade_of};
ghost use Rattle.club_orders.specs.internal.Report.{IsUpgradeResult};
ghost use Rattle.club_orders.specs.Report.{IsCreated, IsCreation, IsExisting};
ghost use Rattle.club_orders.specs.internal.Report.{upgrade_report};
ghost use Rattle.club_orders.specs.Report.{AnswersQuery, IsPassed, IsBegun, IsBegunBehind, request_sessions};
ghost use Rattle.club_orders.specs.Report.{task_sessions};
ghost use Rattle.club_orders.specs.Report.{schema_led_to, schemas_after, schemas_after_upgrade, writes};
ghost use Rattle.club_check.specs.Refused.{HoldClub};
ghost use Rattle.club_check.specs.Versions.{HasToldTables, IsOpenedAt};
ghost use Rattle.club_check.specs.internal.Refused.{IsKept, IsRefusal};
ghost use Rattle.club_orders.specs.Recorded.{IfRecorded, can_ask};
ghost use Rattle.club_orders.specs.Refused.{HasEarlier, IfAccepted, IfOpensClub, IsOlder};
ghost use Rattle.club_orders.specs.internal.Refused.{HasFirst, IsUpgradeRefusal};
ghost use Rattle.club_orders.specs.internal.Recorded.{unopened_unrecorded};

use crate::open_club::{Execute, execute_in_club, open_checked};
use crate::report::Report;
use crate::sweeps::BoundedSweep;
use cli::Task;
use clocks::Moment;
use club_requests::{Command, Outcome, Question, Refusal, Who};
use sqlite::{Alter, Connection};
use std::alloc::Global;
use std::io::{Write, sink};
use store::{
    AskFault, Club, OpenFault, Upgrade, crash_keeps_history, create, holds_exactly,
    opened_empty_holds, opened_history_holds, upgrade,
};
use store_tables::Version;

// The schema of a club with or without an arbiter.
fn version_of(has_arbiter: bool) -> Version
    ensures is { result ≡ version_with has_arbiter }
    ensures served { IsServed result }
{
    if has_arbiter {
        Version::V3
    } else {
        Version::V2
    }
}

// Creates a club, with an arbiter or without one.
fn init<S: Alter>(alloc: Global, conn: Connection<S>, has_arbiter: bool) -> (Report, Connection<S>)
    requires { conn.in_transaction ≡ false }
    ensures idle { result.1.in_transaction ≡ false }
    ensures clean { doubt (state S.Store conn).is_clean ≤ doubt (state S.Store result.1).is_clean }
    ensures begun { HasCleanDisk (state S.Store result.1) → Opens (state S.Store conn) → IsLive (state S.Store conn) →
        IsEmpty (state S.Store conn).committed.trees →
        (db : _) → (state S.Store result.1).may_leave db → IsBegun (version_with has_arbiter) result.0 db }
    ensures possible_reports { IsCreation result.0 }
    ensures empty { HasCleanDisk (state S.Store result.1) → Opens (state S.Store conn) → IsLive (state S.Store conn) →
        IsEmpty (state S.Store conn).committed.trees → IsCreated result.0 }
    // Beside foreign tables, which keep their rows.
    ensures behind { HasCleanDisk (state S.Store result.1) → Opens (state S.Store conn) → IsLive (state S.Store conn) →
        (them : _) → them.version ≡ version_with has_arbiter →
        LeavesNoClub them (state S.Store conn).committed.trees → IsCreated result.0
        × ((db : _) → (state S.Store result.1).may_leave db → IsBegunBehind them result.0 db) }
    ensures existing { HasCleanDisk (state S.Store result.1) → Opens (state S.Store conn) →
        HasClubTables (state S.Store conn).now.schema →
        OnlyUnopened result.0 IsExisting × IsKept (state S.Store conn) (state S.Store result.1) }
    ensures unchanged { HasCleanDisk (state S.Store result.1) → Opens (state S.Store conn) →
        IsLive (state S.Store conn) → (s : ClubState) → IsClub s → HasState s (state S.Store conn).committed.trees →
        IsKept (state S.Store conn) (state S.Store result.1) }
    ensures spares { HasCleanDisk (state S.Store result.1) → Opens (state S.Store conn) →
        result.0 ≡ Report.Unopened OpenFault.Foreign → IsKept (state S.Store conn) (state S.Store result.1) }
    ensures history { HasCleanDisk (state S.Store result.1) → Opens (state S.Store conn) → IsLive (state S.Store conn) →
        (from : _) (versions : _) (them : _) (sessions : _) →
        IsReachableIn from versions them sessions (state S.Store conn).committed.trees →
        (db : _) → (state S.Store result.1).may_leave db → IsReachableIn from versions them sessions db }
{
    opened_empty_holds(&conn);
    holds_exactly(&conn);
    opened_history_holds(&conn);
    crash_keeps_history(&conn);
    match create(alloc, conn, has_arbiter) {
        Ok(club) => {
            let conn = club.into_connection();
            crash_keeps_history(&conn);
            (Report::Ready, conn)
        }
        Err(unopened) => (Report::Unopened(unopened.fault), unopened.conn),
    }
}

impl Execute for Command {
    ghost IsAnswer = { λ c s moment before now report. AnswersCommand s c moment report };

    ghost chapters = { λ c moment report. request_sessions (given c moment) report };

    ghost Leaves = { λ c them s moment report trees. LeavesRequest them s (given c moment) report trees };

    ghost unchanged = { λ c them s moment fault trees is. is };

    ghost untaken = { λ c s moment bytes fault is. unopened_unrecorded _ fault (λ x. x) is };

    ghost no_chapter = { λ c moment fault. refl };

    // The command is executed as the officer's.
    fn execute<S: Alter, W: Write>(
        &self,
        alloc: Global,
        club: &mut Club<S>,
        moment: Moment,
        _out: &mut W,
    ) -> Report {
        match club.apply(alloc, &Who::Officer, self, moment) {
            Ok(outcome) => Report::Answered(outcome),
            Err(fault) => Report::StoreFailed(fault),
        }
    }
}

// The report of a query.
fn report_of_question(answer: Result<Option<Refusal>, AskFault>) -> Report
    ensures taken { IfUnopened result (λ fault. ⊥) }
    ensures report { result ≡ ask_report answer }
{
    match answer {
        Ok(None) => Report::Shown,
        Ok(Some(refusal)) => Report::Answered(Outcome::Refused(refusal)),
        Err(AskFault::Output) => Report::OutputFailed,
        Err(AskFault::Club(fault)) => Report::StoreFailed(fault),
    }
}

impl Execute for Question {
    ghost IsAnswer = { λ question s moment before now report. AnswersQuery s moment question before now report };

    ghost chapters = { λ question moment report. [] };

    ghost Leaves = { λ question them s moment report trees. LeavesBeside them (tables s) trees };

    ghost unchanged = { λ question them s moment fault trees is. is };

    ghost untaken = { λ question s moment bytes fault is.
        (unopened_unrecorded (can_ask s question) fault (λ x. (x, refl)) is, λ none. refl) };

    ghost no_chapter = { λ question moment fault. refl };

    fn execute<S: Alter, W: Write>(
        &self,
        alloc: Global,
        club: &mut Club<S>,
        moment: Moment,
        out: &mut W,
    ) -> Report {
        report_of_question(club.ask(alloc, self, moment, out))
    }
}

// Migrates a club to this schema, unless it is of this schema or a later one.
fn run_upgrade<S: Alter>(alloc: Global, conn: Connection<S>, to: Version) -> (Report, Connection<S>)
    requires idle { conn.in_transaction ≡ false }
    requires served { IsServed to }
    ensures idle { result.1.in_transaction ≡ false }
    ensures clean { doubt (state S.Store conn).is_clean ≤ doubt (state S.Store result.1).is_clean }
    ensures carries { HasCleanDisk (state S.Store result.1) → Opens (state S.Store conn) → IsLive (state S.Store conn) →
        (from : _) (them : _) (s : ClubState) → HasEarlier from them s (state S.Store conn).committed.trees →
        them.version ≡ to → IsUpgradeResult from them s result.0 (state S.Store result.1) }
    ensures repeats { HasCleanDisk (state S.Store result.1) → Opens (state S.Store conn) → IsLive (state S.Store conn) →
        (s : ClubState) → IsClub s → HasState s (state S.Store conn).committed.trees →
        schema_number to ≤ schema_number (version_of s) →
        IsRepeated (version_of s) result.0 × IsKept (state S.Store conn) (state S.Store result.1) }
    ensures shape { IfUpgradeOf result.0 (λ version. is_of_club version (state S.Store conn).now.schema ≡ true) }
    ensures beside { uses_names_of to (state S.Store conn).now.schema ≡ true → (from : _) →
        result.0 ≢ Report.Upgraded from }
    ensures refuses { HasCleanDisk (state S.Store result.1) →
        IfUnopened result.0 (IsUpgradeRefusal to (state S.Store conn) (state S.Store result.1)) }
    ensures stays { HasCleanDisk (state S.Store result.1) → Opens (state S.Store conn) → IsLive (state S.Store conn) →
        (from version : _) (them : _) (chapters : _) → schema_number to ≤ schema_number version →
        IsReachable from version them chapters (state S.Store conn).committed.trees →
        (db : _) → (state S.Store result.1).may_leave db → IsReachable from version them chapters db }
    ensures history { HasCleanDisk (state S.Store result.1) → Opens (state S.Store conn) → IsLive (state S.Store conn) →
        (from : _) (versions : _) (them : _) (chapters : _) → them.version ≡ schema_led_to to result.0 →
        IsReachableIn from versions them chapters (state S.Store conn).committed.trees →
        (db : _) → (state S.Store result.1).may_leave db →
        IsReachableIn from (schemas_after_upgrade to result.0 versions) them
        (chapters ++ upgrade_of to result.0 ∷ []) db }
{
    holds_exactly(&conn);
    opened_history_holds(&conn);
    crash_keeps_history(&conn);
    match upgrade(alloc, conn, to) {
        Ok((conn, done)) => {
            crash_keeps_history(&conn);
            (report_of_upgrade(done), conn)
        }
        Err(unopened) => (Report::Unopened(unopened.fault), unopened.conn),
    }
}

// The report of an upgrade.
fn report_of_upgrade(done: Upgrade) -> Report
    ensures { result ≡ upgrade_report done }
{
    match done {
        Upgrade::Done(from) => Report::Upgraded(from),
        Upgrade::Already(version) => Report::AlreadyUpgraded(version),
    }
}

/// Checks every row of a club, and changes nothing. Reports `Report::Sound` with the club's schema, or
/// `Report::Unopened` with the reason, and returns the connection.
///
/// # Guarantees
///
/// `legal`: a file reported as sound holds a legal club. `passes`: a legal club is sound and of its schema, unless a
/// call fails or memory runs out. `keeps`: the file is unchanged.
pub fn verify<S: Alter>(alloc: Global, conn: Connection<S>) -> (Report, Connection<S>)
    requires { conn.in_transaction ≡ false }
    ensures idle { result.1.in_transaction ≡ false }
    ensures clean { doubt (state S.Store conn).is_clean ≤ doubt (state S.Store result.1).is_clean }
    ensures passes { HasCleanDisk (state S.Store result.1) → Opens (state S.Store conn) → IsLive (state S.Store conn) →
        (s : ClubState) → IsClub s → HasState s (state S.Store conn).committed.trees →
        IsPassed (version_of s) result.0 }
    // The schema of an accepted file is equivalent to a club's, whatever `CREATE` statements made it.
    ensures schema { (version : _) → result.0 ≡ Report.Sound version →
        IsServed version × (is_of_club version (state S.Store conn).now.schema ≡ true) }
    ensures sound { HasCleanDisk (state S.Store result.1) → (version : _) → result.0 ≡ Report.Sound version →
        IsOpenedAt version (state S.Store conn) →
        (s : ClubState) × IsClubOf version s × IsExactly version (tables s) (state S.Store result.1) }
    ensures legal { HasCleanDisk (state S.Store result.1) → Opens (state S.Store conn) → IsLive (state S.Store conn) →
        HasToldTables (state S.Store conn).now → (version : _) → result.0 ≡ Report.Sound version →
        HoldClub (state S.Store conn).committed.trees }
    ensures keeps { HasCleanDisk (state S.Store result.1) → Opens (state S.Store conn) →
        IsKept (state S.Store conn) (state S.Store result.1) }
    ensures possible_reports { ((version : _) → result.0 ≢ Report.Sound version) →
        OnlyUnopened result.0 (λ fault. ⊤) }
    ensures same { HasCleanDisk (state S.Store result.1) → (version : _) → result.0 ≡ Report.Sound version →
        KeepsContent (state S.Store conn) (state S.Store result.1) }
    ensures shape { IfTaken result.0 ((version : _) × IsServed version ×
        (is_of_club version (state S.Store conn).now.schema ≡ true)) }
    ensures refuses { HasCleanDisk (state S.Store result.1) →
        IfUnopened result.0 (IsRefusal (state S.Store conn) (state S.Store result.1)) }
    ensures older { HasCleanDisk (state S.Store result.1) → Opens (state S.Store conn) → IsLive (state S.Store conn) →
        (them : _) (s : ClubState) → HasFirst them s (state S.Store conn).committed.trees →
        OnlyUnopened result.0 IsOlder }
    ensures history { HasCleanDisk (state S.Store result.1) → Opens (state S.Store conn) → IsLive (state S.Store conn) →
        (from : _) (versions : _) (them : _) (sessions : _) →
        IsReachableIn from versions them sessions (state S.Store conn).committed.trees →
        (db : _) → (state S.Store result.1).may_leave db → IsReachableIn from versions them sessions db }
{
    match open_checked(alloc, conn) {
        Ok(club) => {
            let version = version_of(club.has_arbiter());
            (Report::Sound(version), club.into_connection())
        }
        Err(found) => (Report::Unopened(found.fault), found.conn),
    }
}

/// Executes a task at this timestamp over a newly opened connection, and returns the report and the connection.
/// A backup only verifies here. Every task except the upgrade rejects schema 1. Only a query writes to `out`.
///
/// # Guarantees
///
/// - `answer`, `given`, `asked`: the reported outcomes and the text written are those of the club's specification. A
///   command of the arbiter, or a batch with one, is fault 71 on a club of schema 2, and changes nothing.
/// - `bounded`: a sweep with a limit ends no game if more games are overdue, and reports their number.
/// - `history`: whatever a crash leaves is reached by the earlier history and this task, beside the same foreign
///   tables. Only an upgrade changes the schema (`stays`: never to an earlier one).
/// - `next_state`: from a legal state, whatever a crash leaves is that state or the next one; the next one after
///   success.
/// - `begun`, `behind`: after the creation of a club, or a crash in it, there is an empty club of the requested schema
///   or no club.
/// - `creation`, `empty`, `existing`: a club is created, or the report says that there is one or that a call failed. An
///   existing club is unchanged.
/// - `carries`, `repeats`: an upgrade carries a club of an earlier schema to the requested one, with the same state,
///   and leaves any other as it is. `beside`: it carries none where the name of a new table is used.
/// - `shape`: a file is accepted only with the schema of a club; by an upgrade, of any version.
/// - `refuses`, `withheld`: the reason why a file was rejected is true, and the file is unchanged. Only an upgrade in
///   which a database call failed may have changed it.
pub fn act<S: Alter, W: Write>(
    alloc: Global,
    conn: Connection<S>,
    task: &Task,
    moment: Moment,
    out: &mut W,
) -> (Report, Connection<S>)
    requires { conn.in_transaction ≡ false }
    ensures idle { result.1.in_transaction ≡ false }
    ensures clean { doubt (state S.Store conn).is_clean ≤ doubt (state S.Store result.1).is_clean }
    ensures begun { HasCleanDisk (state S.Store result.1) → Opens (state S.Store conn) → IsLive (state S.Store conn) →
        IfInit task.now (λ version. IsEmpty (state S.Store conn).committed.trees →
        (db : _) → (state S.Store result.1).may_leave db → IsBegun version result.0 db) }
    ensures creation { IfInit task.now (λ version. IsCreation result.0) }
    // In a database without tables the creation fails only if a call fails.
    ensures empty { HasCleanDisk (state S.Store result.1) → Opens (state S.Store conn) → IsLive (state S.Store conn) →
        IfInit task.now (λ version. IsEmpty (state S.Store conn).committed.trees → IsCreated result.0) }
    // Beside foreign tables, too, which keep their rows.
    ensures behind { HasCleanDisk (state S.Store result.1) → Opens (state S.Store conn) → IsLive (state S.Store conn) →
        IfInit task.now (λ version. (them : _) → them.version ≡ version →
        LeavesNoClub them (state S.Store conn).committed.trees → IsCreated result.0
        × ((db : _) → (state S.Store result.1).may_leave db → IsBegunBehind them result.0 db)) }
    ensures answer { HasCleanDisk (state S.Store result.1) → Opens (state S.Store conn) → IsLive (state S.Store conn) →
        (s : ClubState) → IsClub s → HasState s (state S.Store conn).committed.trees →
        IfRequest task.now (λ command. AnswersCommand s command moment result.0) }
    ensures bounded { HasCleanDisk (state S.Store result.1) → Opens (state S.Store conn) →
        IsLive (state S.Store conn) → (s : ClubState) → IsClub s → HasState s (state S.Store conn).committed.trees →
        IfBoundedSweep task.now (λ most. IsBoundedSweep s moment most result.0) }
    ensures given { HasCleanDisk (state S.Store result.1) → Opens (state S.Store conn) → IsLive (state S.Store conn) →
        (s : ClubState) → IsClub s → HasState s (state S.Store conn).committed.trees →
        IfBatch task.now (λ batch. AnswersBatch s moment batch result.0) }
    ensures asked { HasCleanDisk (state S.Store result.1) → Opens (state S.Store conn) → IsLive (state S.Store conn) →
        (s : ClubState) → IsClub s → HasState s (state S.Store conn).committed.trees →
        IfAsk task.now (λ question.
        AnswersQuery s moment question (W.contents out.old) (W.contents out.new) result.0) }
    ensures passes { HasCleanDisk (state S.Store result.1) → Opens (state S.Store conn) → IsLive (state S.Store conn) →
        (s : ClubState) → IsClub s → HasState s (state S.Store conn).committed.trees →
        IfVerify task.now (IsPassed (version_of s) result.0) }
    ensures sound { HasCleanDisk (state S.Store result.1) → IfVerify task.now ((version : _) →
        result.0 ≡ Report.Sound version → IsOpenedAt version (state S.Store conn) →
        (s : ClubState) × IsClubOf version s × IsExactly version (tables s) (state S.Store result.1)) }
    ensures legal { HasCleanDisk (state S.Store result.1) → Opens (state S.Store conn) → IsLive (state S.Store conn) →
        HasToldTables (state S.Store conn).now → IfVerify task.now ((version : _) →
        result.0 ≡ Report.Sound version → HoldClub (state S.Store conn).committed.trees) }
    // The schema of an accepted file is equivalent to a club's, whatever `CREATE` statements made it.
    ensures shape { IfAccepted task.now result.0 (λ version.
        is_of_club version (state S.Store conn).now.schema ≡ true) }
    ensures refuses { HasCleanDisk (state S.Store result.1) → IfOpensClub task.now (IfUnopened result.0
        (IsRefusal (state S.Store conn) (state S.Store result.1))) }
    ensures older { HasCleanDisk (state S.Store result.1) → Opens (state S.Store conn) → IsLive (state S.Store conn) →
        (them : _) (s : ClubState) → HasFirst them s (state S.Store conn).committed.trees →
        IfOpensClub task.now (OnlyUnopened result.0 IsOlder) }
    ensures carries { HasCleanDisk (state S.Store result.1) → Opens (state S.Store conn) → IsLive (state S.Store conn) →
        (from : _) (them : _) (s : ClubState) → HasEarlier from them s (state S.Store conn).committed.trees →
        IfUpgrade task.now (λ to. them.version ≡ to →
        IsUpgradeResult from them s result.0 (state S.Store result.1)) }
    ensures repeats { HasCleanDisk (state S.Store result.1) → Opens (state S.Store conn) → IsLive (state S.Store conn) →
        (s : ClubState) → IsClub s → HasState s (state S.Store conn).committed.trees →
        IfUpgrade task.now (λ to. schema_number to ≤ schema_number (version_of s) →
        IsRepeated (version_of s) result.0 × IsKept (state S.Store conn) (state S.Store result.1)) }
    ensures beside { IfUpgrade task.now (λ to. uses_names_of to (state S.Store conn).now.schema ≡ true →
        (from : _) → result.0 ≢ Report.Upgraded from) }
    ensures withheld { HasCleanDisk (state S.Store result.1) → IfUpgrade task.now (λ to. IfUnopened result.0
        (IsUpgradeRefusal to (state S.Store conn) (state S.Store result.1))) }
    // No club is created where there is one, sound or damaged.
    ensures existing { HasCleanDisk (state S.Store result.1) → Opens (state S.Store conn) →
        IfInit task.now (λ version. HasClubTables (state S.Store conn).now.schema →
        OnlyUnopened result.0 IsExisting × IsKept (state S.Store conn) (state S.Store result.1)) }
    ensures spares { HasCleanDisk (state S.Store result.1) → Opens (state S.Store conn) →
        IfInit task.now (λ version. result.0 ≡ Report.Unopened OpenFault.Foreign →
        IsKept (state S.Store conn) (state S.Store result.1)) }
    ensures silent { writes task.now ≡ false → out.new ≡ out.old }
    // From any legal state, whatever history led to it.
    ensures next_state { HasCleanDisk (state S.Store result.1) → Opens (state S.Store conn) →
        IsLive (state S.Store conn) → (s : ClubState) → IsClub s →
        (has : HasState s (state S.Store conn).committed.trees) → (db : _) → (state S.Store result.1).may_leave db →
        LeavesTask has.them s task.now moment result.0 db }
    // A club of the requested schema or a later one stays, whatever history led to it.
    ensures stays { HasCleanDisk (state S.Store result.1) → Opens (state S.Store conn) → IsLive (state S.Store conn) →
        (from version : _) (them : _) (sessions : _) →
        IsReachable from version them sessions (state S.Store conn).committed.trees →
        IfUpgrade task.now (λ to. schema_number to ≤ schema_number version →
        (db : _) → (state S.Store result.1).may_leave db → IsReachable from version them sessions db) }
    ensures history { HasCleanDisk (state S.Store result.1) → Opens (state S.Store conn) → IsLive (state S.Store conn) →
        (from : _) (versions : _) (them : _) (sessions : _) → IsLedTo task.now result.0 them.version →
        IsReachableIn from versions them sessions (state S.Store conn).committed.trees →
        (db : _) → (state S.Store result.1).may_leave db →
        IsReachableIn from (schemas_after task.now result.0 versions) them
        (sessions ++ task_sessions task.now moment result.0) db }
{
    match task {
        Task::Init { has_arbiter } => init(alloc, conn, *has_arbiter),
        Task::Request(command) => execute_in_club(alloc, conn, command, moment, &mut sink()),
        Task::SweepAtMost(most) => {
            let sweep = BoundedSweep { most: *most };
            execute_in_club(alloc, conn, &sweep, moment, &mut sink())
        }
        Task::Ask(question) => execute_in_club(alloc, conn, question, moment, out),
        Task::Verify => verify(alloc, conn),
        Task::Upgrade { has_arbiter } => run_upgrade(alloc, conn, version_of(*has_arbiter)),
        Task::Backup(_) => verify(alloc, conn),
        Task::Batch(batch) => execute_in_club(alloc, conn, batch, moment, &mut sink()),
    }
}
