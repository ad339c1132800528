//! Execution of a sweep with a limit on the number of games that it ends.

ghost use Rattle.std.specs.Prelude.{◌≡◌, refl};
ghost use Rattle.club_core.specs.Answer.{outcome_of};
ghost use Rattle.club_orders.specs.NextStates.{LeavesRequest};
ghost use Rattle.club_orders.specs.Report.{request_sessions};
ghost use Rattle.club_orders.specs.Sweeps.{IsBoundedSweep, sweep_at, swept_count};

use crate::open_club::Execute;
use crate::report::Report;
use clocks::Moment;
use club_requests::{Answer, Command, Outcome, Who};
use sqlite::Alter;
use std::alloc::Global;
use std::io::Write;
use store::Club;
use store::laws::requests_keep_clubs;

/// A sweep that ends no game if more games than `most` are overdue.
#[derive(Clone, Copy, Debug)]
pub(crate) struct BoundedSweep {
    pub(crate) most: u64,
}

// The number of games that a sweep with this outcome ends.
fn swept_count(outcome: &Outcome) -> u64
    ensures { result ≡ swept_count (outcome_of outcome.now) }
{
    match outcome {
        Outcome::Accepted(Answer::Swept { count }) => u64::from(*count),
        _ => 0,
    }
}

impl Execute for BoundedSweep {
    ghost IsAnswer = { λ sweep s moment before now report. IsBoundedSweep s moment sweep.most report };

    ghost chapters = { λ sweep moment report. request_sessions (sweep_at moment) report };

    ghost Leaves = { λ sweep them s moment report trees. LeavesRequest them s (sweep_at moment) report trees };

    ghost unchanged = { λ sweep them s moment fault trees is. is };

    ghost untaken = { λ sweep s moment bytes fault is. is };

    ghost no_chapter = { λ sweep moment fault. refl };

    // Counts the overdue games before it ends them: no other request can come between.
    fn execute<S: Alter, W: Write>(
        &self,
        alloc: Global,
        club: &mut Club<S>,
        moment: Moment,
        out: &mut W,
    ) -> Report {
        requests_keep_clubs();
        let _within = moment.seconds();
        let count = match club.preview(alloc, &Who::Officer, &Command::Sweep, moment) {
            Ok(outcome) => swept_count(&outcome),
            Err(fault) => return Report::StoreFailed(fault),
        };
        if count > self.most {
            return Report::Overdue(count);
        }
        Command::Sweep.execute(alloc, club, moment, out)
    }
}
