//! A club that is unavailable.

use crate::faults::ClubFault;
use crate::served::ClubService;
use clocks::Moment;
use club_requests::{Command, Outcome, Question, Refusal, Who};
use std::alloc::Global;

/// A club whose file could not be opened: it has no state, and answers every call with the fault.
#[derive(Clone, Copy, Debug, PartialEq, Eq)]
pub struct UnavailableClub {
    /// The fault that every call returns.
    pub fault: ClubFault,
}

impl ClubService for UnavailableClub {
    ghost use Rattle.std.specs.Prelude.{◌≡◌};
    ghost use Rattle.http_desk.specs.internal.Closed.{closed};

    ghost State = { Unit {0} };

    ghost club = { closed };

    ghost IsClean = { λ b. Unit {0} };

    ghost Stands = { λ b s. ⊥ };

    ghost Leaves = { λ b s t. Unit {0} };

    ghost IsShut = { λ b fault. b.fault ≡ fault };

    fn member_by_key(&mut self, _alloc: Global, _key: &str) -> Result<Option<String>, ClubFault> {
        Err(self.fault)
    }

    fn ask(
        &mut self,
        _alloc: Global,
        _question: &Question,
        _moment: Moment,
    ) -> Result<Result<Vec<u8>, Refusal>, ClubFault> {
        Err(self.fault)
    }

    fn apply(
        &mut self,
        _alloc: Global,
        _who: &Who,
        _command: &Command,
        _moment: Moment,
    ) -> Result<Outcome, ClubFault> {
        Err(self.fault)
    }

    ghost stays = { λ b s t h. tt };

    ghost settled = { λ b s t h. tt };

    ghost wider = { λ b s t h. tt };
}
