//! Opens a club and executes a task on it.

ghost use Rattle.std.specs.Prelude.{◌≡◌, ◌≤◌, ◌⊎◌, ◌++◌, ℕ, List, [], Option, false, true, IfOk, IfErr};
ghost use Rattle.sqlite.specs.State.{HasCleanDisk, Opens, IsLive};
ghost use Rattle.sqlite.specs.Held.{state};
ghost use Rattle.sqlite_trees.specs.View.{doubt};
ghost use Rattle.store_tables.specs.Club.{IsExactly};
ghost use Rattle.sqlite.specs.Tree.{Trees};
ghost use Rattle.store_tables.specs.Over.{LeavesBeside, Neighbours};
ghost use Rattle.store_tables.specs.Reading.{OnlyReads, Reads};
ghost use Rattle.store_tables.specs.Tables.{IsServed};
ghost use Rattle.schema_match.specs.Shapes.{is_of_club};
ghost use Rattle.club_rows.specs.Club.{ClubState, IsClub, tables};
ghost use Rattle.club_rows.specs.FirstSchema.{IsClubOf};
ghost use Rattle.club_check.specs.Versions.{IsOpenedAt};
ghost use Rattle.club_check.specs.internal.Refused.{IsRefusal};
ghost use Rattle.store.specs.Clubs.{Serves, version_with};
ghost use Rattle.store.specs.Histories.{HistoryStep, HasState, IsHistory, IsReachable, IsReachableIn};
ghost use Rattle.club_orders.specs.Refused.{IsOlder};
ghost use Rattle.club_orders.specs.internal.Refused.{HasFirst, IsTakenOver};
ghost use Rattle.club_orders.specs.Report.{IfTaken, IfUnopened, OnlyUnopened};

use crate::report::Report;
use clocks::Moment;
use sqlite::{Alter, Connection};
use std::alloc::Global;
use std::io::Write;
use store::{
    Club, OpenFault, Unopened, adopt, crash_keeps_history, holds_exactly, opened_history_holds,
};

/// Opens the club in the connection's database, or returns the connection and the reason. Changes nothing.
///
/// # Errors
///
/// The errors of `adopt`, with the connection.
pub(crate) fn open_checked<S: Alter>(
    alloc: Global,
    conn: Connection<S>,
) -> Result<Club<S>, Unopened<S>>
    requires { conn.in_transaction ≡ false }
    ensures ready { IfOk result (λ club. club.needs_reopening ≡ false) }
    // The schema of an accepted file is equivalent to a club's, whatever `CREATE` statements made it.
    ensures shape { IfOk result (λ club. is_of_club (version_with club.has_arbiter) (state S.Store conn).now.schema ≡
        true) }
    ensures taken { IfOk result (λ club. HasCleanDisk (state S.Store club.connection) → Opens (state S.Store conn) →
        IsLive (state S.Store conn) → IsTakenOver club.has_arbiter (state S.Store conn)
        (state S.Store club.connection)) }
    ensures found { IfOk result (λ club. HasCleanDisk (state S.Store club.connection) →
        IsOpenedAt (version_with club.has_arbiter) (state S.Store conn) →
        (s : ClubState) × IsClubOf (version_with club.has_arbiter) s × IsExactly (version_with club.has_arbiter)
        (tables s) (state S.Store club.connection)) }
    ensures kept { IfOk result (λ club. Reads true (state S.Store conn) (state S.Store club.connection)) }
    ensures idle { IfErr result (λ u. u.conn.in_transaction ≡ false) }
    ensures reads { IfErr result (λ u. OnlyReads (state S.Store conn) (state S.Store u.conn)) }
    // A legal club, alone or beside foreign tables, is accepted.
    ensures accepts_sound { IfErr result (λ u. HasCleanDisk (state S.Store u.conn) → Opens (state S.Store conn) →
        IsLive (state S.Store conn) → (s : ClubState) → IsClub s → HasState s (state S.Store conn).committed.trees →
        (u.fault ≡ OpenFault.Store) ⊎ (u.fault ≡ OpenFault.Memory)) }
    ensures refuses { IfErr result (λ u. HasCleanDisk (state S.Store u.conn) →
        IsRefusal (state S.Store conn) (state S.Store u.conn) u.fault) }
    ensures older { IfErr result (λ u. HasCleanDisk (state S.Store u.conn) → Opens (state S.Store conn) →
        IsLive (state S.Store conn) → (them : _) (s : ClubState) →
        HasFirst them s (state S.Store conn).committed.trees → IsOlder u.fault) }
    ensures history { IfErr result (λ u. HasCleanDisk (state S.Store u.conn) → Opens (state S.Store conn) →
        IsLive (state S.Store conn) → (from version : _) (them : _) (sessions : _) →
        IsReachable from version them sessions (state S.Store conn).committed.trees →
        (db : _) → (state S.Store u.conn).may_leave db → IsReachable from version them sessions db) }
{
    holds_exactly(&conn);
    opened_history_holds(&conn);
    crash_keeps_history(&conn);
    adopt(alloc, conn)
}

/// A task on an open club.
pub(crate) trait Execute {
    ghost use Rattle.club_check.specs.declared.fault.OpenFault.{OpenFault};
    ghost use Rattle.club_check.specs.declared.fault.OpenFault.TheVariants as open_fault;
    ghost use Rattle.club_orders.specs.declared.report.Report.{Report};
    ghost use Rattle.club_orders.specs.declared.report.Report.TheVariants.{Unopened};

    /// The report is the club's answer in this state at this timestamp, if the writer had the first bytes before and
    /// has the second after.
    ghost IsAnswer: { Self → ClubState → ℕ → Option (List ℕ) → Option (List ℕ) → Report → Type 0 };

    /// The steps that the task adds to the history of the club.
    ghost chapters: { Self → ℕ → Report → List HistoryStep };

    /// The tables that a crash leaves after the task, from a legal state before it, beside these foreign tables.
    ghost Leaves: { Self → Neighbours → ClubState → ℕ → Report → Trees → Type 0 };

    /// Executes the task at this timestamp and reports the result.
    fn execute<S: Alter, W: Write>(
        &self,
        alloc: Global,
        club: &mut Club<S>,
        moment: Moment,
        out: &mut W,
    ) -> Report
        requires { club.old.needs_reopening ≡ false }
        ensures taken { IfUnopened result (λ fault. ⊥) }
        ensures clean { doubt (state S.Store club.old.connection).is_clean ≤ doubt
            (state S.Store club.new.connection).is_clean }
        ensures answer { HasCleanDisk (state S.Store club.new.connection) → (them : _) (s : ClubState) →
            Serves club.old.has_arbiter (state S.Store club.old.connection) them s →
            IsAnswer self.now s moment (W.contents out.old) (W.contents out.new) result }
        ensures next_state { HasCleanDisk (state S.Store club.new.connection) → (them : _) (s : ClubState) →
            Serves club.old.has_arbiter (state S.Store club.old.connection) them s →
            (db : _) → (state S.Store club.new.connection).may_leave db → Leaves self.now them s moment result db }
        ensures history { HasCleanDisk (state S.Store club.new.connection) → (from : _) (them : _) (sessions : _) →
            IsHistory from (version_with club.old.has_arbiter) them sessions (state S.Store club.old.connection) →
            (db : _) → (state S.Store club.new.connection).may_leave db →
            IsReachable from (version_with club.old.has_arbiter) them (sessions ++ chapters self.now moment result)
            db };

    /// If a call failed or memory ran out while the club was opened, that fault is an answer.
    ghost untaken: { (task : Self) (s : ClubState) (moment : ℕ) (bytes : Option (List ℕ)) (fault : OpenFault) →
        (fault ≡ open_fault.Store) ⊎ (fault ≡ open_fault.Memory) →
        IsAnswer task s moment bytes bytes (Unopened fault) };

    /// If the club was not opened, its tables stay.
    ghost unchanged: { (task : Self) (them : Neighbours) (s : ClubState) (moment : ℕ) (fault : OpenFault)
        (trees : Trees) →
        LeavesBeside them (tables s) trees → Leaves task them s moment (Unopened fault) trees };

    /// If the club was not opened, the history has no new step.
    ghost no_chapter: { (task : Self) (moment : ℕ) (fault : OpenFault) → chapters task moment (Unopened fault) ≡ [] };
}

/// Opens the club and executes a task on it, or reports why it was not opened; returns the connection.
pub(crate) fn execute_in_club<S: Alter, T: Execute, W: Write>(
    alloc: Global,
    conn: Connection<S>,
    task: &T,
    moment: Moment,
    out: &mut W,
) -> (Report, Connection<S>)
    requires { conn.in_transaction ≡ false }
    ensures idle { result.1.in_transaction ≡ false }
    ensures clean { doubt (state S.Store conn).is_clean ≤ doubt (state S.Store result.1).is_clean }
    ensures answer { HasCleanDisk (state S.Store result.1) → Opens (state S.Store conn) → IsLive (state S.Store conn) →
        (s : ClubState) → IsClub s → HasState s (state S.Store conn).committed.trees →
        T.IsAnswer task.now s moment (W.contents out.old) (W.contents out.new) result.0 }
    // The schema of an accepted file is equivalent to a club's, whatever `CREATE` statements made it.
    ensures shape { IfTaken result.0 ((version : _) × IsServed version ×
        (is_of_club version (state S.Store conn).now.schema ≡ true)) }
    ensures refuses { HasCleanDisk (state S.Store result.1) →
        IfUnopened result.0 (IsRefusal (state S.Store conn) (state S.Store result.1)) }
    ensures older { HasCleanDisk (state S.Store result.1) → Opens (state S.Store conn) → IsLive (state S.Store conn) →
        (them : _) (s : ClubState) → HasFirst them s (state S.Store conn).committed.trees →
        OnlyUnopened result.0 IsOlder }
    ensures next_state { HasCleanDisk (state S.Store result.1) → Opens (state S.Store conn) →
        IsLive (state S.Store conn) → (s : ClubState) → IsClub s →
        (has : HasState s (state S.Store conn).committed.trees) → (db : _) → (state S.Store result.1).may_leave db →
        T.Leaves task.now has.them s moment result.0 db }
    ensures history { HasCleanDisk (state S.Store result.1) → Opens (state S.Store conn) → IsLive (state S.Store conn) →
        (from : _) (versions : _) (them : _) (sessions : _) → IsServed them.version →
        IsReachableIn from versions them sessions (state S.Store conn).committed.trees →
        (db : _) → (state S.Store result.1).may_leave db →
        IsReachableIn from versions them (sessions ++ T.chapters task.now moment result.0) db }
{
    let mut club = match open_checked(alloc, conn) {
        Ok(club) => club,
        Err(unopened) => return (Report::Unopened(unopened.fault), unopened.conn),
    };
    let report = task.execute(alloc, &mut club, moment, out);
    (report, club.into_connection())
}
