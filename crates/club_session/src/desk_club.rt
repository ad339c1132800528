//! A club of the store as a `ClubService`.

ghost use Rattle.std.specs.Prelude.{◌≡◌};

use crate::faults::{club_fault, fault_of_question};
use crate::shown::text_or_refusal;
use clocks::Moment;
use club_requests::{Command, Outcome, Question, Refusal, Who};
use http_desk::{ClubFault, ClubService};
use sqlite::Alter;
use std::alloc::Global;
use store::Club;
use store::laws::requests_keep_clubs;

/// A club of the store that serves requests.
#[derive(Drop)]
pub struct DeskClub<S: Alter> {
    /// The open club.
    pub club: Club<S>,
}

impl<S: Alter> ClubService for DeskClub<S> {
    ghost use Rattle.std.specs.Prelude.{◌≡◌, true};
    ghost use Rattle.sqlite.specs.Held.{state};
    ghost use Rattle.sqlite.specs.State.{HasCleanDisk};
    ghost use Rattle.http_desk.specs.declared.faults.ClubFault.TheVariants.{Reopen};
    ghost use Rattle.club_session.specs.Served.{DeskState, served};
    ghost use Rattle.club_session.specs.ServedStates.{IsLeft, IsOpenIn, served_stays, served_settled, left_wider};

    ghost State = { DeskState };

    ghost club = { served };

    ghost IsClean = { λ b. HasCleanDisk (state S.Store b.club.connection) };

    ghost Stands = { λ b s. IsOpenIn b.club.has_arbiter b.club.needs_reopening (state S.Store b.club.connection) s };

    ghost Leaves = { λ b s t. IsLeft b.club.has_arbiter b.club.needs_reopening (state S.Store b.club.connection) s t };

    ghost IsShut = { λ b fault. (b.club.needs_reopening ≡ true) × (fault ≡ Reopen) };

    fn member_by_key(&mut self, alloc: Global, key: &str) -> Result<Option<String>, ClubFault> {
        club_fault(self.club.member_by_key(alloc, key))
    }

    fn ask(
        &mut self,
        alloc: Global,
        question: &Question,
        moment: Moment,
    ) -> Result<Result<Vec<u8>, Refusal>, ClubFault> {
        let mut bytes = Vec::new(alloc);
        match self.club.ask(alloc, question, moment, &mut bytes) {
            Ok(refusal) => Ok(text_or_refusal(refusal, bytes)),
            Err(fault) => Err(fault_of_question(fault)),
        }
    }

    fn apply(
        &mut self,
        alloc: Global,
        who: &Who,
        command: &Command,
        moment: Moment,
    ) -> Result<Outcome, ClubFault> {
        let _within = moment.seconds();
        requests_keep_clubs();
        club_fault(self.club.apply(alloc, who, command, moment))
    }

    ghost stays = { λ b s t stands. served_stays _ _ _ s t stands };

    ghost settled = { λ b s t stands. served_settled _ _ _ s t stands };

    ghost wider = { λ b s t left. left_wider _ _ _ s t left };
}
