//! A serving session: open the club, serve it, release it.

ghost use Rattle.std.specs.Prelude.{◌≡◌, ◌++◌, false, true, List, None, IfSome};
ghost use Rattle.sqlite.specs.State.{HasCleanDisk, Opens, IsLive};
ghost use Rattle.sqlite.specs.Held.{state};
ghost use Rattle.sqlite.specs.Tree.{Trees};
ghost use Rattle.store.specs.Clubs.{version_with};
ghost use Rattle.store.specs.Histories.{HasState, IsReachable, IsHistory};
ghost use Rattle.store_tables.specs.Tables.{IsServed};
ghost use Rattle.club_rows.specs.Club.{ClubState, IsClub};
ghost use Rattle.club_check.specs.Refused.{HoldClub};
ghost use Rattle.club_check.specs.Versions.{HasToldTables};
ghost use Rattle.server.specs.declared.connections.Served.{Served};
ghost use Rattle.club_session.specs.Acknowledged.{IsLedTo};
ghost use Rattle.club_session.specs.internal.Acknowledged.{IsAfter, IsSettled};
ghost use Rattle.club_session.specs.Served.{DeskState};
ghost use Rattle.club_session.specs.ServedStates.{IsOpenIn};
ghost use Rattle.club_session.specs.ToldFault.{IfOpened, IsOfClub};
ghost use Rattle.club_session.specs.internal.ToldFault.{HasServedSchema, IsReportedFault, fault_after};
ghost use Rattle.club_session.specs.internal.Turns.{IsHistoryOn, IsReachableOn};

use crate::desk_club::DeskClub;
use crate::faults::fault_of_opening;
use http_desk::ClubFault;
use server::Connections;
use sqlite::{Alter, Connection};
use std::alloc::Global;
use store::laws::requests_keep_clubs;
use store::{adopt, crash_keeps_history, holds_exactly, opened_history_holds};

// Serves until `serve_next` ends the session or a call on the club fails; whether one has failed.
fn serve_open<S: Alter, V: Connections>(
    alloc: Global,
    club: &mut DeskClub<S>,
    visits: &mut V,
) -> bool
    requires { club.old.club.needs_reopening ≡ false }
    ensures clean { HasCleanDisk (state S.Store club.new.club.connection) →
        HasCleanDisk (state S.Store club.old.club.connection) }
    ensures told { result ≡ club.new.club.needs_reopening }
    ensures stands { result ≡ false → HasCleanDisk (state S.Store club.new.club.connection) →
        (from : _) (them : _) (sessions : _) →
        IsHistory from (version_with club.old.club.has_arbiter) them sessions
        (state S.Store club.old.club.connection) →
        IsHistoryOn from (version_with club.old.club.has_arbiter) them sessions
        (state S.Store club.new.club.connection) }
    ensures history { HasCleanDisk (state S.Store club.new.club.connection) → (from : _) (them : _) (sessions : _) →
        IsHistory from (version_with club.old.club.has_arbiter) them sessions
        (state S.Store club.old.club.connection) →
        IsReachableOn from (version_with club.old.club.has_arbiter) them sessions
        (state S.Store club.new.club.connection) }
    ensures acknowledged { (before : List Served) → V.HasServed visits.old before → (items : List Served) ×
        V.HasServed visits.new (before ++ items) × (HasCleanDisk (state S.Store club.new.club.connection) →
        (s : DeskState) →
        IsOpenIn club.old.club.has_arbiter false (state S.Store club.old.club.connection) s →
        IsAfter club.new.club.has_arbiter club.new.club.needs_reopening (state S.Store club.new.club.connection) s
        items) }
{
    requests_keep_clubs();
    for _ in 0..u64::MAX {
        let item = visits.serve_next(alloc, club);
        if club.club.needs_reopening() {
            return true;
        }
        if item.is_none() {
            return false;
        }
    }
    false
}

// The fault to report after the session.
fn fault_after(has_failed: bool) -> Option<ClubFault>
    ensures { result ≡ fault_after has_failed }
{
    if has_failed {
        Some(ClubFault::Reopen)
    } else {
        None
    }
}

/// Opens the club of a fresh connection, serves it until the session ends, and returns the connection.
///
/// The fault is `None` if all went well, `Reopen` if a call on the club failed, otherwise the reason why it could not
/// be opened.
///
/// # Guarantees
///
/// - `history`: any crash leaves a state that the history leads to, with commands of members and of the officer added,
///   in the schema that was there.
/// - `stands`: without a fault none of these commands was cut off, and the club is of schema 2 or schema 3.
/// - `acknowledged`: any crash leaves a state to which the requests and orders lead that `visits` served, in order.
///   Each reply that was sent is the one that the state before it determines, and its effect is in.
/// - `answered`: without a fault this state is the same, whatever a crash leaves.
/// - `told`: the reported fault is a right one; an unopened file stays as it was.
/// - `accepts_sound`: for a sound club file the fault is `Reopen`, `Store` or `Memory`.
pub fn serve_club<S: Alter, V: Connections>(
    alloc: Global,
    conn: Connection<S>,
    visits: &mut V,
) -> (Option<ClubFault>, Connection<S>)
    requires { conn.in_transaction ≡ false }
    ensures idle { result.1.in_transaction ≡ false }
    ensures clean { HasCleanDisk (state S.Store result.1) → HasCleanDisk (state S.Store conn) }
    ensures history { HasCleanDisk (state S.Store result.1) → Opens (state S.Store conn) → IsLive (state S.Store conn) →
        (from version : _) (them : _) (sessions : _) → IsServed them.version →
        IsReachable from version them sessions (state S.Store conn).committed.trees →
        IsReachableOn from version them sessions (state S.Store result.1) }
    ensures stands { HasCleanDisk (state S.Store result.1) → Opens (state S.Store conn) →
        IsLive (state S.Store conn) → result.0 ≡ None →
        (from version : _) (them : _) (sessions : _) → IsServed them.version →
        IsReachable from version them sessions (state S.Store conn).committed.trees →
        IsServed version × IsHistoryOn from version them sessions (state S.Store result.1) }
    ensures told { HasCleanDisk (state S.Store result.1) →
        IsReportedFault (state S.Store conn) (state S.Store result.1) result.0 }
    // Whatever a crash leaves is a state to which the items lead that were served, in order. So it has the effect of
    // each acknowledged one.
    ensures acknowledged { (before : List Served) → V.HasServed visits.old before → (items : List Served) ×
        V.HasServed visits.new (before ++ items) × (HasCleanDisk (state S.Store result.1) →
        Opens (state S.Store conn) → IsLive (state S.Store conn) →
        (s : ClubState) → IsClub s → HasState s (state S.Store conn).committed.trees →
        (db : Trees) → (state S.Store result.1).may_leave db → IsLedTo s items db) }
    ensures answered { result.0 ≡ None →
        (before : List Served) → V.HasServed visits.old before → (items : List Served) ×
        V.HasServed visits.new (before ++ items) × (HasCleanDisk (state S.Store result.1) →
        Opens (state S.Store conn) → IsLive (state S.Store conn) →
        (s : ClubState) → IsClub s → HasState s (state S.Store conn).committed.trees →
        IsSettled s items (state S.Store result.1).may_leave) }
    ensures taken { HasCleanDisk (state S.Store result.1) → Opens (state S.Store conn) → IsLive (state S.Store conn) →
        HasToldTables (state S.Store conn).now →
        IfOpened result.0 (HoldClub (state S.Store conn).committed.trees) }
    // The tables' shape decides whether they are a club's, not the text of their CREATE statements.
    ensures shape { IfOpened result.0 (HasServedSchema (state S.Store conn).now.schema) }
    ensures accepts_sound { HasCleanDisk (state S.Store result.1) → Opens (state S.Store conn) →
        IsLive (state S.Store conn) →
        (s : ClubState) → IsClub s → HasState s (state S.Store conn).committed.trees →
        IfSome result.0 IsOfClub }
{
    holds_exactly(&conn);
    opened_history_holds(&conn);
    crash_keeps_history(&conn);
    let club = match adopt(alloc, conn) {
        Ok(club) => club,
        Err(unopened) => return (Some(fault_of_opening(unopened.fault)), unopened.conn),
    };
    let mut club = DeskClub { club };
    let has_failed = serve_open(alloc, &mut club, visits);
    (fault_after(has_failed), club.club.into_connection())
}
