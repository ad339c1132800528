//! Serving sessions of a club over its files: open, execute the requests, close.
//!
//! Whatever a crash leaves of a session, the next opening finds a state that the club's history leads to.
//!
//! # Guarantees
//!
//! - `close_club` (`member`, `history`), `close` (`member`): the next opening finds one of the databases that a crash
//!   could leave. A history that leads to all of those leads to what is found.
//! - `serve_session` (`history`, `kept`): if a history led to what an opening found, that history and this session
//!   lead to what the next opening finds. If the club is not opened, the history alone does.
//! - `new_files_have_no_tables`: an opening of new files finds no table.
#![tactic(auto)]

ghost use Rattle.std.specs.Prelude.{◌≡◌, ◌≤◌, ◌⊎◌, ◌++◌, ◌∷◌, [], false, pos, None, IfOk, IfErr, IfSome, map, length};
ghost use Rattle.std.specs.Prelude.{take};
ghost use Rattle.sqlite.specs.State.{HasCleanDisk, Opens, IsLive};
ghost use Rattle.sqlite.specs.Files.{file_state, IsNothing};
ghost use Rattle.sqlite_wal.specs.Recovery.{Image};
ghost use Rattle.sqlite_store.specs.FileStore.{state as store_state, view as store_view};
ghost use Rattle.sqlite_trees.specs.View.{IsClean, doubt};
ghost use Rattle.store_tables.specs.Tables.{IsServed};
ghost use Rattle.club_core.specs.Answer.{answered, outcome_of, request_of};
ghost use Rattle.club_rows.specs.Club.{ClubState, IsClub};
ghost use Rattle.store.specs.Runs.{club_outcomes};
ghost use Rattle.store.specs.Histories.{HasState, IsReachable, session_of};
ghost use Rattle.store_files.specs.Finds.{Finds, HaveNoTables};

use club_requests::Request;
use sqlite::{Connection, FileStore};
use sqlite_disk::Disk;
use sqlite_trees::store::Store;
use std::alloc::Global;
use store::{Club, OpenFault, Run, StoreFault, Unopened, resume};

/// Closes a connection and returns its store, after a checkpoint of the log if it is long enough.
///
/// # Guarantees
///
/// `member`: after a crash, an opening finds one of the databases that a crash could leave of the connection.
pub fn close<D: Disk + Drop>(conn: Connection<FileStore<D>>) -> FileStore<D>
    ensures clean { doubt (file_state conn).is_clean ≤ doubt (store_view result).is_clean }
    ensures member { IsClean (store_view result) → (left : _) → (store_state result).may_leave left → (found : _) →
        Finds left found →
        ∥ (file_state conn).may_leave found ∥₁ }
{
    let mut store = conn.into_store();
    // An empty savepoint and its commit make the store checkpoint the log if it has as many frames as
    // `checkpoint_frames`, and write nothing.
    let _marked = store.savepoint();
    let _copied = store.commit();
    store
}

/// Ends a session, complete or failed, and returns the store.
///
/// # Guarantees
///
/// `member`: after a crash, an opening finds one of the databases that a crash could leave of the club. `history`: a
/// history that leads to all of these leads to what the opening finds, in the same schema.
pub fn close_club<D: Disk + Drop>(club: Club<FileStore<D>>) -> FileStore<D>
    ensures clean { doubt (file_state club.connection).is_clean ≤ doubt (store_view result).is_clean }
    ensures member { IsClean (store_view result) → (left : _) → (store_state result).may_leave left → (found : _) →
        Finds left found →
        ∥ (file_state club.connection).may_leave found ∥₁ }
    ensures history { IsClean (store_view result) → (from version : _) (them : _) (sessions : _) →
        ((db : _) → (file_state club.connection).may_leave db → IsReachable from version them sessions db) →
        (left : _) → (store_state result).may_leave left → (found : _) → Finds left found →
        ∥ IsReachable from version them sessions found ∥₁ }
{
    let conn = club.into_connection();
    close(conn)
}

/// Runs one session over newly opened files: opens the club, executes the requests in turn up to the first fault, and
/// closes it.
///
/// # Errors
///
/// The errors of `adopt`, with the connection; no request was executed. A fault during the session is in `Run::fault`.
///
/// # Guarantees
///
/// `history`: whatever a crash leaves, the next opening finds a state that the earlier sessions and this one lead to,
/// in the same schema. `kept`: after an error, one that the earlier sessions lead to.
pub fn serve_session<D: Disk + Drop>(
    alloc: Global,
    conn: Connection<FileStore<D>>,
    requests: &[Request],
) -> Result<(Run, FileStore<D>), Unopened<FileStore<D>>>
    requires { conn.in_transaction ≡ false }
    ensures clean { IfOk result (λ lived. doubt (file_state conn).is_clean ≤ doubt (store_view lived.1).is_clean) }
    // Never `Reopen`: the club was opened just now.
    ensures possible_faults { IfOk result (λ lived. IfSome lived.0.fault (λ fault. (fault ≡ StoreFault.Store) ⊎
        ((fault ≡ StoreFault.Memory) ⊎ (fault ≡ StoreFault.Schema (pos 2))))) }
    ensures within { IfOk result (λ lived. length lived.0.outcomes.items ≤ length requests.now) }
    ensures whole { IfOk result (λ lived. lived.0.fault ≡ None → length lived.0.outcomes.items ≡ length requests.now) }
    ensures outcomes { IfOk result (λ lived. IsClean (store_view lived.1) → Opens (file_state conn) →
        IsLive (file_state conn) →
        (s : ClubState) → IsClub s → HasState s (file_state conn).committed.trees →
        map outcome_of lived.0.outcomes.items ≡ map answered (club_outcomes s
        (map request_of (take (length lived.0.outcomes.items) requests.now)))) }
    ensures history { IfOk result (λ lived. IsClean (store_view lived.1) → Opens (file_state conn) →
        IsLive (file_state conn) →
        (from version : _) (them : _) (sessions : _) → IsServed them.version →
        ∥ IsReachable from version them sessions (file_state conn).committed.trees ∥₁ →
        (left : _) → (store_state lived.1).may_leave left → (found : _) → Finds left found →
        ∥ IsReachable from version them (sessions ++ session_of requests.now lived.0 ∷ []) found ∥₁) }
    ensures idle { IfErr result (λ unopened. unopened.conn.in_transaction ≡ false) }
    ensures known { IfErr result (λ unopened. doubt (file_state conn).is_clean ≤ doubt
        (file_state unopened.conn).is_clean) }
    ensures accepts_sound { IfErr result (λ unopened. HasCleanDisk (file_state unopened.conn) →
        Opens (file_state conn) →
        IsLive (file_state conn) →
        (s : ClubState) → IsClub s → HasState s (file_state conn).committed.trees →
        (unopened.fault ≡ OpenFault.Store) ⊎ (unopened.fault ≡ OpenFault.Memory)) }
    ensures kept { IfErr result (λ unopened. HasCleanDisk (file_state unopened.conn) → Opens (file_state conn) →
        IsLive (file_state conn) →
        (from version : _) (them : _) (sessions : _) →
        ∥ IsReachable from version them sessions (file_state conn).committed.trees ∥₁ →
        (db : _) → (file_state unopened.conn).may_leave db → ∥ IsReachable from version them sessions db ∥₁) }
{
    match resume(alloc, conn, requests) {
        Ok((run, club)) => Ok((run, close_club(club))),
        Err(unopened) => Err(unopened),
    }
}

/// Property: an opening of new files finds no table, also if an earlier opening of them was interrupted.
pub fn new_files_have_no_tables()
    ensures { (files : Image) → IsNothing files → HaveNoTables files }
{}
