//! Execution of several requests in turn.

ghost use Rattle.std.specs.Prelude.{◌≡◌, ◌≢◌, pos, ◌≤◌, ◌⊎◌, ◌+◌, true, false, None, Some, IsSome, IfSome, Err, IfOk};
ghost use Rattle.std.specs.Prelude.{IfErr};
ghost use Rattle.std.specs.Prelude.{OnOk, OnErr, [], map, length, take};
ghost use Rattle.sqlite.specs.State.{HasCleanDisk};
ghost use Rattle.sqlite.specs.Held.{state};
ghost use Rattle.sqlite_trees.specs.View.{doubt};
ghost use Rattle.store_tables.specs.Over.{HoldsClubAmong, LeavesBeside};
ghost use Rattle.store.specs.Clubs.{Asks, Serves};
ghost use Rattle.std.specs.List.{list_any};
ghost use Rattle.club_core.specs.Answer.{answered, command_of, outcome_of, request_of};
ghost use Rattle.club_core.specs.State.{needs_arbiter};
ghost use Rattle.club_rows.specs.Club.{ClubState, IsClub, tables};
ghost use Rattle.club_changes.specs.Steps.{club_step, club_next};
ghost use Rattle.store.specs.Runs.{club_fold, club_outcomes};
ghost use Rattle.store.specs.Histories.{IsAfter};

use super::Club;
use crate::fault::StoreFault;
use club_requests::{Outcome, Request};
use sqlite::Alter;
use std::alloc::Global;

/// The outcomes of the requests that were executed, in order, and the fault that ended the run, if any.
#[derive(Drop)]
pub struct Run {
    /// One outcome for each executed request, in order.
    pub outcomes: Vec<Outcome>,
    /// The fault that ended the run.
    pub fault: Option<StoreFault>,
}

impl Run {
    fn ended(alloc: Global, fault: StoreFault) -> Run
        ensures fault { result.fault ≡ Some fault }
        ensures none { result.outcomes.items ≡ [] }
    {
        Run {
            outcomes: Vec::new(alloc),
            fault: Some(fault),
        }
    }
}

impl<S: Alter> Club<S> {
    // Executes one request. The range of `Moment` keeps a legal state legal.
    fn serve(&mut self, alloc: Global, request: &Request) -> Result<Outcome, StoreFault>
        ensures same_schema { self.new.has_arbiter ≡ self.old.has_arbiter }
        ensures stays_open { OnOk result (self.new.needs_reopening ≡ false) }
        ensures ends { IfErr result (λ fault. fault ≢ StoreFault.Schema (pos 2) → self.new.needs_reopening ≡ true) }
        ensures possible_faults { IfErr result (λ fault. self.old.needs_reopening ≡ false →
            (fault ≡ StoreFault.Store) ⊎ ((fault ≡ StoreFault.Memory) ⊎ (fault ≡ StoreFault.Schema (pos 2)))) }
        ensures schema { IfErr result (λ fault. fault ≡ StoreFault.Schema (pos 2) →
            (self.old.has_arbiter ≡ false) × (needs_arbiter (command_of request.now.command) ≡ true) ×
            (self.new ≡ self.old)) }
        ensures clean { doubt (state S.Store self.old.connection).is_clean ≤ doubt
            (state S.Store self.new.connection).is_clean }
        ensures legal { result ≢ Err (StoreFault.Schema (pos 2)) → self.old.needs_reopening ≡ false →
            (s : ClubState) → IsClub s → self.old.has_arbiter ≡ s.has_arbiter →
            IsClub (club_next s (request_of request.now)) }
        ensures answer { HasCleanDisk (state S.Store self.new.connection) → IfOk result (λ outcome. (s : ClubState) →
            Asks self.old.has_arbiter (state S.Store self.old.connection) s →
            outcome_of outcome ≡ answered (club_step s (request_of request.now))) }
        ensures step { HasCleanDisk (state S.Store self.new.connection) → OnOk result ((them : _) (s : ClubState) →
            Serves self.old.has_arbiter (state S.Store self.old.connection) them s →
            HoldsClubAmong them (tables (club_next s (request_of request.now))) (state S.Store self.new.connection)) }
        ensures fault { HasCleanDisk (state S.Store self.new.connection) →
            OnErr result (self.old.needs_reopening ≡ false → (them : _) (s : ClubState) →
            Serves self.old.has_arbiter (state S.Store self.old.connection) them s →
            (db : _) → (state S.Store self.new.connection).may_leave db → LeavesBeside them (tables s) db ⊎
            LeavesBeside them (tables (club_next s (request_of request.now))) db) }
    {
        let _within = request.moment.seconds();
        self.apply(alloc, &request.who, &request.command, request.moment)
    }

    /// Executes the requests in turn, up to the first fault. Each is a transaction of its own.
    /// A fault is in `Run::fault`, with the variants of `apply`; after all but `Schema(2)` every later call returns
    /// `Reopen`.
    ///
    /// # Guarantees
    ///
    /// `outcomes`: the outcomes are those of the club's specification. `whole`, `stored`: without a fault every request
    /// is answered, and the tables hold the state after all. `fault`, `left`: after a fault or a crash the file
    /// holds the state after the answered requests, or after one more.
    pub fn run(&mut self, alloc: Global, requests: &[Request]) -> Run
        ensures shut { self.old.needs_reopening ≡ true → (result.fault ≡ Some StoreFault.Reopen) ×
            (result.outcomes.items ≡ []) × (self.new ≡ self.old) }
        ensures same_schema { self.new.has_arbiter ≡ self.old.has_arbiter }
        ensures possible_faults { self.old.needs_reopening ≡ false →
            IfSome result.fault (λ fault. (fault ≡ StoreFault.Store) ⊎ ((fault ≡ StoreFault.Memory) ⊎
            (fault ≡ StoreFault.Schema (pos 2)))) }
        ensures stays_open { result.fault ≡ None → self.new.needs_reopening ≡ false }
        ensures ends { IfSome result.fault (λ fault. fault ≢ StoreFault.Schema (pos 2) →
            self.new.needs_reopening ≡ true) }
        ensures schema { self.old.needs_reopening ≡ false → result.fault ≡ Some (StoreFault.Schema (pos 2)) →
            (self.old.has_arbiter ≡ false) × (self.new.needs_reopening ≡ false) }
        ensures other_schema { self.old.needs_reopening ≡ false → result.fault ≡ Some (StoreFault.Schema (pos 2)) →
            (self.old.has_arbiter ≡ false) ×
            (list_any (λ request. needs_arbiter (command_of request.command)) requests.now ≡ true) }
        ensures clean { doubt (state S.Store self.old.connection).is_clean ≤ doubt
            (state S.Store self.new.connection).is_clean }
        ensures within { length result.outcomes.items ≤ length requests.now }
        ensures whole { result.fault ≡ None → length result.outcomes.items ≡ length requests.now }
        ensures outcomes { HasCleanDisk (state S.Store self.new.connection) → (them : _) (s : ClubState) →
            Serves self.old.has_arbiter (state S.Store self.old.connection) them s →
            map outcome_of result.outcomes.items ≡ map answered
            (club_outcomes s (map request_of (take (length result.outcomes.items) requests.now))) }
        ensures stored { HasCleanDisk (state S.Store self.new.connection) → result.fault ≡ None →
            (them : _) (s : ClubState) →
            Serves self.old.has_arbiter (state S.Store self.old.connection) them s →
            HoldsClubAmong them (tables (club_fold s (map request_of requests.now)))
            (state S.Store self.new.connection) }
        // After `Schema` the tables hold the state after the answered requests, and the club goes on.
        ensures goes_on { HasCleanDisk (state S.Store self.new.connection) → self.old.needs_reopening ≡ false →
            result.fault ≡ Some (StoreFault.Schema (pos 2)) → (them : _) (s : ClubState) →
            Serves self.old.has_arbiter (state S.Store self.old.connection) them s → HoldsClubAmong them
            (tables (club_fold s (map request_of (take (length result.outcomes.items) requests.now))))
            (state S.Store self.new.connection) }
        ensures legal { HasCleanDisk (state S.Store self.new.connection) → result.fault ≡ None →
            (them : _) (s : ClubState) →
            Serves self.old.has_arbiter (state S.Store self.old.connection) them s →
            IsClub (club_fold s (map request_of requests.now)) }
        ensures legal_so_far { HasCleanDisk (state S.Store self.new.connection) → self.old.needs_reopening ≡ false →
            result.fault ≡ Some (StoreFault.Schema (pos 2)) → (them : _) (s : ClubState) →
            Serves self.old.has_arbiter (state S.Store self.old.connection) them s →
            IsClub (club_fold s (map request_of (take (length result.outcomes.items) requests.now))) }
        ensures fault { HasCleanDisk (state S.Store self.new.connection) → IsSome result.fault →
            self.old.needs_reopening ≡ false → (them : _) (s : ClubState) →
            Serves self.old.has_arbiter (state S.Store self.old.connection) them s →
            (db : _) → (state S.Store self.new.connection).may_leave db → LeavesBeside them
            (tables (club_fold s (map request_of (take (length result.outcomes.items) requests.now)))) db
            ⊎ LeavesBeside them
            (tables (club_fold s (map request_of (take (length result.outcomes.items + 1) requests.now)))) db }
        ensures left { HasCleanDisk (state S.Store self.new.connection) → self.old.needs_reopening ≡ false →
            (them : _) (s : ClubState) →
            Serves self.old.has_arbiter (state S.Store self.old.connection) them s →
            (db : _) → (state S.Store self.new.connection).may_leave db →
            IsAfter them s requests.now (length result.outcomes.items) db
            ⊎ (IsSome result.fault × IsAfter them s requests.now (length result.outcomes.items + 1) db) }
    {
        if self.needs_reopening {
            return Run::ended(alloc, StoreFault::Reopen);
        }
        // All outcomes are allocated first: none may be lost after its commit.
        let mut outcomes = match Vec::with_capacity(alloc, requests.len()) {
            Ok(outcomes) => outcomes,
            Err(_) => {
                self.needs_reopening = true;
                return Run::ended(alloc, StoreFault::Memory);
            }
        };
        for request in requests {
            match self.serve(alloc, request) {
                Ok(outcome) => match outcomes.push(outcome) {
                    Ok(()) => {}
                    Err(_) => {
                        self.needs_reopening = true;
                        return Run {
                            outcomes,
                            fault: Some(StoreFault::Memory),
                        };
                    }
                },
                Err(fault) => return Run {
                    outcomes,
                    fault: Some(fault),
                },
            }
        }
        Run {
            outcomes,
            fault: None,
        }
    }
}
