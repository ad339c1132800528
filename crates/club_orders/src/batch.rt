//! Execution of a batch: queries, then requests in turn.

ghost use Rattle.std.specs.List.{list_any};
ghost use Rattle.std.specs.Prelude.{◌≡◌, ◌⊎◌, true, false, refl, pos, IfOk, IfErr, OnOk, is_ok};
ghost use Rattle.club_requests.specs.Questions.{is_arbiters};
ghost use Rattle.sqlite.specs.State.{HasCleanDisk};
ghost use Rattle.sqlite.specs.Held.{state};
ghost use Rattle.store_tables.specs.Reading.{Reads};
ghost use Rattle.club_rows.specs.Club.{ClubState};
ghost use Rattle.store.specs.Clubs.{Asks};
ghost use Rattle.club_orders.specs.NextStates.{LeavesBatch};
ghost use Rattle.club_orders.specs.Batches.{batch_sessions, AnswersBatch, AreAsked, IsAsked};
ghost use Rattle.club_orders.specs.Recorded.{needs_any};
ghost use Rattle.club_orders.specs.internal.Recorded.{unopened_unrecorded};

use crate::batched::BatchResults;
use crate::open_club::Execute;
use crate::report::Report;
use cli::Batch;
use clocks::Moment;
use club_changes::needs_arbiter;
use club_requests::{Outcome, Question, Refusal, Request};
use sqlite::Alter;
use std::alloc::Global;
use std::io::{Write, sink};
use store::{AskFault, Club, Run, StoreFault};

// Whether one of the requests needs an arbiter.
fn needs_any(requests: &[Request]) -> bool
    ensures { result ≡ needs_any requests.now }
{
    requests
        .iter()
        .any(|request| needs_arbiter(&request.command))
}

// The refusal of a query, if it is refused. Its answer is discarded.
fn refusal_of<S: Alter>(
    alloc: Global,
    club: &mut Club<S>,
    question: &Question,
    moment: Moment,
) -> Result<Option<Refusal>, StoreFault>
    requires { club.old.needs_reopening ≡ false }
    ensures ready { OnOk result (club.new.needs_reopening ≡ false) }
    ensures same_schema { club.new.has_arbiter ≡ club.old.has_arbiter }
    ensures possible_faults { IfErr result (λ fault. (fault ≡ StoreFault.Store) ⊎ ((fault ≡ StoreFault.Memory)
        ⊎ ((fault ≡ StoreFault.Schema (pos 2)) × (is_arbiters question.now ≡ true) × (club.old.has_arbiter ≡ false)))) }
    ensures reads { Reads (is_ok result) (state S.Store club.old.connection) (state S.Store club.new.connection) }
    ensures asked { HasCleanDisk (state S.Store club.new.connection) → IfOk result (λ refusal. (s : ClubState) →
        Asks club.old.has_arbiter (state S.Store club.old.connection) s → IsAsked s moment question.now refusal) }
{
    match club.ask(alloc, question, moment, &mut sink()) {
        Ok(refusal) => Ok(refusal),
        Err(AskFault::Club(fault)) => Err(fault),
        // A sink accepts all that is written, so this cannot happen.
        Err(AskFault::Output) => Err(StoreFault::Store),
    }
}

// The refusal of the first query that is refused, if any.
fn refusal_among<S: Alter>(
    alloc: Global,
    club: &mut Club<S>,
    questions: &[Question],
    moment: Moment,
) -> Result<Option<Refusal>, StoreFault>
    requires { club.old.needs_reopening ≡ false }
    ensures ready { OnOk result (club.new.needs_reopening ≡ false) }
    ensures same_schema { club.new.has_arbiter ≡ club.old.has_arbiter }
    ensures possible_faults { IfErr result (λ fault. (fault ≡ StoreFault.Store) ⊎ ((fault ≡ StoreFault.Memory)
        ⊎ ((fault ≡ StoreFault.Schema (pos 2)) × (list_any is_arbiters questions.now ≡ true)
        × (club.old.has_arbiter ≡ false)))) }
    ensures reads { Reads (is_ok result) (state S.Store club.old.connection) (state S.Store club.new.connection) }
    ensures asked { HasCleanDisk (state S.Store club.new.connection) → IfOk result (λ refusal. (s : ClubState) →
        Asks club.old.has_arbiter (state S.Store club.old.connection) s →
        AreAsked s moment questions.now refusal) }
{
    for question in questions {
        match refusal_of(alloc, club, question, moment) {
            Ok(None) => {}
            Ok(Some(refusal)) => return Ok(Some(refusal)),
            Err(fault) => return Err(fault),
        }
    }
    Ok(None)
}

impl Execute for Batch {
    ghost IsAnswer = { λ batch s moment before now report. AnswersBatch s moment batch report };

    ghost chapters = { λ batch moment report. batch_sessions batch.requests.items report };

    ghost Leaves = { λ batch them s moment report trees. LeavesBatch them s batch.requests.items report trees };

    ghost unchanged = { λ batch them s moment fault trees is. is };

    ghost untaken = { λ batch s moment bytes fault is. unopened_unrecorded _ fault (λ x. x) is };

    ghost no_chapter = { λ batch moment fault. refl };

    // Runs the queries; if none is refused, executes the requests up to the first fault. Does nothing if the club
    // cannot record one of the requests.
    fn execute<S: Alter, W: Write>(
        &self,
        alloc: Global,
        club: &mut Club<S>,
        moment: Moment,
        _out: &mut W,
    ) -> Report {
        if !club.has_arbiter() && needs_any(self.requests.as_slice()) {
            return Report::StoreFailed(StoreFault::Schema(2));
        }
        // The numbers are copied first: no outcome may be lost for want of memory.
        let numbers = match Vec::from_slice(alloc, self.numbers.as_slice()) {
            Ok(numbers) => numbers,
            Err(_) => return Report::StoreFailed(StoreFault::Memory),
        };
        match refusal_among(alloc, club, self.questions.as_slice(), moment) {
            Ok(None) => {}
            Ok(Some(refusal)) => return Report::Answered(Outcome::Refused(refusal)),
            Err(fault) => return Report::StoreFailed(fault),
        }
        let Run { outcomes, fault } = club.session(alloc, self.requests.as_slice());
        Report::Batched(BatchResults {
            numbers,
            outcomes,
            fault,
        })
    }
}
