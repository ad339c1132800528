//! One serving session over a club's files, from opening to closing.

ghost use Rattle.std.specs.Prelude.{◌≡◌, ◌⊎◌, ◌∷◌, ◌++◌, [], List, Option, None, Ok, Err, IfSome, IfOk};
ghost use Rattle.sqlite_wal.specs.Files.{image_at};
ghost use Rattle.sqlite_wal.specs.Recovery.{Image};
ghost use Rattle.sqlite_store.specs.FileStore.{state as store_state, view as store_view};
ghost use Rattle.sqlite_trees.specs.View.{IsClean};
ghost use Rattle.store_tables.specs.Tables.{IsServed};
ghost use Rattle.store_files.specs.Finds.{AreReachable};
ghost use Rattle.club_orders.specs.Report.{IsUnopened};
ghost use Rattle.club_rows.specs.Club.{ClubState};
ghost use Rattle.http_desk.specs.declared.faults.ClubFault as desk_fault;
ghost use Rattle.server.specs.declared.connections.Served.{Served};
ghost use Rattle.club_session.specs.Acknowledged.{AreLedTo, AreSettled};
ghost use Rattle.club_session.specs.ToldFault.{IfOpened, IsOfClub};
ghost use Rattle.club_session.specs.Found.{AnswerAsClub, AreFilesOf, AreSound, IsSessionFault};
ghost use Rattle.club_session.specs.ReachableOn.{AreReachableOn, AreReachableWhole};

use crate::opening::{RepeatableStart, open_with_retries};
use crate::preflight::OpenMode;
use crate::serve_club;
use club_orders::Report;
use http_desk::ClubFault;
use server::Connections;
use sqlite::{FileFrom, FileStore};
use store_files::close;

/// Runs one serving session over the club's files: locks, opens and checks them, serves clients until the server must
/// release the file, and closes.
/// It does not wait for the lock. `S` is the assumption on their initial contents. Returns the fault that later
/// requests get, if any, or why the files were not opened; and the store if they were.
///
/// # Guarantees
///
/// - `history`: whatever a crash leaves, the next opening finds a state that the earlier history and commands of
///   members and of the officer lead to, in the schema that was there.
/// - `whole`: without a fault none of these commands was cut off, and the club is of schema 2 or schema 3.
/// - `acknowledged`: whatever a crash leaves, the next opening finds a state to which the requests and orders lead that
///   `visits` served, in order. Each reply that was sent is the one that the state before it determines, and its effect
///   is in. Without an opened file nothing is served (`unserved`).
/// - `answered`: without a fault this state is the same, whatever a crash leaves.
/// - `told`, `taken`: a rejected file is unchanged and the reason is true; an accepted file holds a legal club.
/// - `accepts_sound`: over a legal club, only a failed call or lack of memory is a fault.
pub fn serve_files<S: RepeatableStart, V: Connections>(
    rt: &HostRuntime,
    file: &str,
    start: S,
    visits: &mut V,
) -> (
    Result<Option<ClubFault>, Report>,
    Option<FileStore<FileFrom<S>>>,
)
    ensures unopened { result.1 ≡ None → IsUnopened result.0 }
    ensures history { IfSome result.1 (λ store. IsClean (store_view store) →
        (from : _) (versions : _) (them : _) (sessions : _) → IsServed them.version →
        AreReachable from versions them sessions (image_at S.Start) →
        (left : Image) → (store_state store).may_leave left → AreReachableOn from versions them sessions left) }
    ensures whole { IfSome result.1 (λ store. IsClean (store_view store) → result.0 ≡ Ok None →
        (from : _) (versions : _) (them : _) (sessions : _) → IsServed them.version →
        AreReachable from versions them sessions (image_at S.Start) →
        (left : Image) → (store_state store).may_leave left →
        AreReachableWhole from versions them sessions left) }
    // Whatever a crash leaves, the next opening finds a state to which the items lead that were served, in order. So it
    // has the effect of each acknowledged one.
    ensures acknowledged { IfSome result.1 (λ store.
        (before : List Served) → V.HasServed visits.old before → (items : List Served) ×
        V.HasServed visits.new (before ++ items) × (IsClean (store_view store) →
        (s : ClubState) → AreFilesOf s (image_at S.Start) →
        (left : Image) → (store_state store).may_leave left → AreLedTo s items left)) }
    ensures answered { IfSome result.1 (λ store. result.0 ≡ Ok None →
        (before : List Served) → V.HasServed visits.old before → (items : List Served) ×
        V.HasServed visits.new (before ++ items) × (IsClean (store_view store) →
        (s : ClubState) → AreFilesOf s (image_at S.Start) →
        AreSettled s items (store_state store).may_leave)) }
    ensures unserved { result.1 ≡ None → visits.new ≡ visits.old }
    ensures told { IfSome result.1 (λ store. IsClean (store_view store) →
        (told : Option desk_fault.ClubFault) × (result.0 ≡ Ok told) ×
        IsSessionFault (image_at S.Start) (store_state store).may_leave told) }
    ensures taken { IfSome result.1 (λ store. IsClean (store_view store) →
        IfOk result.0 (λ told. IfOpened told (AreSound (image_at S.Start)))) }
    // The schema of an accepted file is equivalent to a club's, whatever `CREATE` statements made it.
    ensures shape { IfSome result.1 (λ store. IsClean (store_view store) →
        IfOk result.0 (λ told. IfOpened told (AnswerAsClub (image_at S.Start)))) }
    ensures accepts_sound { IfSome result.1 (λ store. IsClean (store_view store) →
        (s : ClubState) → AreFilesOf s (image_at S.Start) → IfOk result.0 (λ told. IfSome told IsOfClub)) }
{
    let conn = match open_with_retries(rt, file, OpenMode::Serving, start) {
        Ok(conn) => conn,
        Err(report) => return (Err(report), None),
    };
    let (fault, conn) = serve_club(rt.alloc(), conn, visits);
    (Ok(fault), Some(close(conn)))
}
