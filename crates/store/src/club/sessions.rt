//! Serving sessions of a club, each over what the earlier ones left in the file.

ghost use Rattle.std.specs.Prelude.{◌≡◌, ◌≢◌, pos, ◌≤◌, ◌⊎◌, ◌+◌, ◌++◌, ◌∷◌, [], false, true, Some, None, IsSome};
ghost use Rattle.std.specs.Prelude.{IfSome, IfOk};
ghost use Rattle.std.specs.Prelude.{IfErr};
ghost use Rattle.std.specs.Prelude.{map, length, take};
ghost use Rattle.sqlite.specs.State.{HasCleanDisk, Opens, IsLive};
ghost use Rattle.sqlite.specs.Held.{state};
ghost use Rattle.sqlite_trees.specs.View.{doubt};
ghost use Rattle.store_tables.specs.Over.{HoldsClubAmong};
ghost use Rattle.store.specs.Clubs.{Serves, version_with};
ghost use Rattle.store_tables.specs.Tables.{IsServed};
ghost use Rattle.std.specs.List.{list_any};
ghost use Rattle.club_core.specs.Answer.{answered, command_of, outcome_of, request_of};
ghost use Rattle.club_core.specs.State.{needs_arbiter};
ghost use Rattle.club_rows.specs.Club.{ClubState, IsClub, tables};
ghost use Rattle.store.specs.Runs.{club_outcomes};
ghost use Rattle.store.specs.Histories.{HasState, IsAfter, IsReachable, IsHistory, session_of};

use super::run::Run;
use super::{Club, Unopened, adopt};
use crate::fault::StoreFault;
use club_check::OpenFault;
use club_requests::Request;
use sqlite::{Alter, Connection};
use std::alloc::Global;

impl<S: Alter> Club<S> {
    /// Executes the requests as `run`, with a contract in terms of the club's history.
    ///
    /// # Guarantees
    ///
    /// `history`: whatever a crash leaves is reached by the earlier sessions and this one, in the same schema.
    /// `stands`, `goes_on`: without a fault and after `Schema` the open club is, too, so the next session can follow.
    pub fn session(&mut self, alloc: Global, requests: &[Request]) -> Run
        ensures shut { self.old.needs_reopening ≡ true → (result.fault ≡ Some StoreFault.Reopen) ×
            (result.outcomes.items ≡ []) × (self.new ≡ self.old) }
        ensures same_schema { self.new.has_arbiter ≡ self.old.has_arbiter }
        ensures possible_faults { self.old.needs_reopening ≡ false →
            IfSome result.fault (λ fault. (fault ≡ StoreFault.Store) ⊎ ((fault ≡ StoreFault.Memory) ⊎
            (fault ≡ StoreFault.Schema (pos 2)))) }
        ensures stays_open { result.fault ≡ None → self.new.needs_reopening ≡ false }
        ensures ends { IfSome result.fault (λ fault. fault ≢ StoreFault.Schema (pos 2) →
            self.new.needs_reopening ≡ true) }
        ensures other_schema { self.old.needs_reopening ≡ false → result.fault ≡ Some (StoreFault.Schema (pos 2)) →
            (self.old.has_arbiter ≡ false) ×
            (list_any (λ request. needs_arbiter (command_of request.command)) requests.now ≡ true) }
        ensures clean { doubt (state S.Store self.old.connection).is_clean ≤ doubt
            (state S.Store self.new.connection).is_clean }
        ensures within { length result.outcomes.items ≤ length requests.now }
        ensures whole { result.fault ≡ None → length result.outcomes.items ≡ length requests.now }
        ensures outcomes { HasCleanDisk (state S.Store self.new.connection) → (them : _) (s : ClubState) →
            Serves self.old.has_arbiter (state S.Store self.old.connection) them s →
            map outcome_of result.outcomes.items ≡ map answered
            (club_outcomes s (map request_of (take (length result.outcomes.items) requests.now))) }
        // From one legal state, whatever history led to it.
        ensures left { HasCleanDisk (state S.Store self.new.connection) → self.old.needs_reopening ≡ false →
            (them : _) (s : ClubState) →
            Serves self.old.has_arbiter (state S.Store self.old.connection) them s →
            (db : _) → (state S.Store self.new.connection).may_leave db →
            IsAfter them s requests.now (length result.outcomes.items) db
            ⊎ (IsSome result.fault × IsAfter them s requests.now (length result.outcomes.items + 1) db) }
        ensures history { HasCleanDisk (state S.Store self.new.connection) → self.old.needs_reopening ≡ false →
            (from : _) (them : _) (sessions : _) →
            IsHistory from (version_with self.old.has_arbiter) them sessions (state S.Store self.old.connection) →
            (db : _) → (state S.Store self.new.connection).may_leave db →
            IsReachable from (version_with self.old.has_arbiter) them (sessions ++ session_of requests.now result ∷
            []) db }
        ensures stands { HasCleanDisk (state S.Store self.new.connection) → result.fault ≡ None →
            (from : _) (them : _) (sessions : _) →
            IsHistory from (version_with self.old.has_arbiter) them sessions (state S.Store self.old.connection) →
            IsHistory from (version_with self.old.has_arbiter) them
            (sessions ++ session_of requests.now result ∷ []) (state S.Store self.new.connection) }
        ensures goes_on { HasCleanDisk (state S.Store self.new.connection) → self.old.needs_reopening ≡ false →
            result.fault ≡ Some (StoreFault.Schema (pos 2)) → (from : _) (them : _) (sessions : _) →
            IsHistory from (version_with self.old.has_arbiter) them sessions (state S.Store self.old.connection) →
            IsHistory from (version_with self.old.has_arbiter) them
            (sessions ++ session_of requests.now result ∷ []) (state S.Store self.new.connection) }
    {
        self.run(alloc, requests)
    }
}

/// Opens the club in a newly opened connection and executes the requests as one session, whatever ended the last one.
///
/// # Errors
///
/// The errors of `adopt`, with the connection; no request was executed. A fault during the session is in `Run::fault`.
///
/// # Guarantees
///
/// `history`: whatever a crash leaves is reached by the earlier sessions and this one, in the same schema. `kept`:
/// after an error, by the earlier sessions. `stands`: only a club of schema 2 or 3 is served. `accepts_sound`: a legal
/// club is opened, unless a call fails or memory runs out.
pub fn resume<S: Alter>(
    alloc: Global,
    conn: Connection<S>,
    requests: &[Request],
) -> Result<(Run, Club<S>), Unopened<S>>
    requires { conn.in_transaction ≡ false }
    ensures clean { IfOk result (λ resumed. doubt (state S.Store conn).is_clean ≤ doubt
        (state S.Store resumed.1.connection).is_clean) }
    ensures stays_open { IfOk result (λ resumed. resumed.0.fault ≡ None → resumed.1.needs_reopening ≡ false) }
    ensures ends { IfOk result (λ resumed. IfSome resumed.0.fault (λ fault. fault ≢ StoreFault.Schema (pos 2) →
        resumed.1.needs_reopening ≡ true)) }
    // Never `Reopen`: the club was opened just now.
    ensures possible_faults { IfOk result (λ resumed. IfSome resumed.0.fault (λ fault.
        (fault ≡ StoreFault.Store) ⊎ ((fault ≡ StoreFault.Memory) ⊎ (fault ≡ StoreFault.Schema (pos 2))))) }
    ensures within { IfOk result (λ resumed. length resumed.0.outcomes.items ≤ length requests.now) }
    ensures whole { IfOk result (λ resumed. resumed.0.fault ≡ None →
        length resumed.0.outcomes.items ≡ length requests.now) }
    ensures outcomes { IfOk result (λ resumed. HasCleanDisk (state S.Store resumed.1.connection) → Opens
        (state S.Store conn) → IsLive (state S.Store conn) →
        (s : ClubState) → IsClub s → HasState s (state S.Store conn).committed.trees →
        map outcome_of resumed.0.outcomes.items ≡ map answered
        (club_outcomes s (map request_of (take (length resumed.0.outcomes.items) requests.now)))) }
    ensures history { IfOk result (λ resumed. HasCleanDisk (state S.Store resumed.1.connection) → Opens
        (state S.Store conn) → IsLive (state S.Store conn) →
        (from version : _) (them : _) (sessions : _) → IsServed them.version →
        IsReachable from version them sessions (state S.Store conn).committed.trees →
        (db : _) → (state S.Store resumed.1.connection).may_leave db →
        IsReachable from version them (sessions ++ session_of requests.now resumed.0 ∷ []) db) }
    ensures stands { IfOk result (λ resumed. HasCleanDisk (state S.Store resumed.1.connection) → Opens
        (state S.Store conn) → IsLive (state S.Store conn) → resumed.0.fault ≡ None →
        (from version : _) (them : _) (sessions : _) → IsServed them.version →
        IsReachable from version them sessions (state S.Store conn).committed.trees →
        (version ≡ version_with resumed.1.has_arbiter) × IsHistory from version them (sessions ++ session_of
        requests.now resumed.0 ∷ [])
        (state S.Store resumed.1.connection)) }
    ensures idle { IfErr result (λ unopened. unopened.conn.in_transaction ≡ false) }
    ensures known { IfErr result (λ unopened. doubt (state S.Store conn).is_clean ≤ doubt
        (state S.Store unopened.conn).is_clean) }
    ensures accepts_sound { IfErr result (λ unopened. HasCleanDisk (state S.Store unopened.conn) →
        Opens (state S.Store conn) →
        IsLive (state S.Store conn) →
        (s : ClubState) → IsClub s → HasState s (state S.Store conn).committed.trees →
        (unopened.fault ≡ OpenFault.Store) ⊎ (unopened.fault ≡ OpenFault.Memory)) }
    ensures kept { IfErr result (λ unopened. HasCleanDisk (state S.Store unopened.conn) → Opens (state S.Store conn) →
        IsLive (state S.Store conn) →
        (from version : _) (them : _) (sessions : _) →
        IsReachable from version them sessions (state S.Store conn).committed.trees → (db : _) →
        (state S.Store unopened.conn).may_leave db → IsReachable from version them sessions db) }
{
    let mut club = match adopt(alloc, conn) {
        Ok(club) => club,
        Err(unopened) => return Err(unopened),
    };
    let run = club.session(alloc, requests);
    Ok((run, club))
}
