//! The interface between the HTTP application and a club.
ghost use Rattle.std.specs.Prelude.{◌≡◌, Err, option_map, string_bytes};
ghost use Rattle.club_core.specs.Answer.{command_of, outcome_of, who_of};
ghost use Rattle.http_bodies.specs.ShownViews.{shown_view};
ghost use Rattle.http_desk.specs.Served.{Club, IsOfCall, IsOfCommand, IsOfQuestion, Serves};

use crate::faults::ClubFault;
use clocks::Moment;
use club_requests::{Command, Outcome, Question, Refusal, Who};
use std::alloc::Global;

/// A club that can be served.
///
/// A call that fails leaves the state before it or the one after it; its fault is `Store` or `Memory`, or `Schema` for
/// an arbiter's command or query. A failed club answers every call with its fault, whichever that is. A club that could
/// not be opened has no state.
pub trait ClubService {
    ghost use Rattle.http_desk.specs.declared.faults.ClubFault.{ClubFault};
    ghost use Rattle.http_desk.specs.declared.faults.ClubFault.TheVariants.{Schema};

    ghost State: { Type 0 };

    ghost club: { Club State };

    ghost IsClean: { Self → Type 0 };

    ghost Stands: { Self → State → Type 0 };

    ghost Leaves: { Self → State → State → Type 0 };

    ghost IsShut: { Self → ClubFault → Type 0 };

    /// The name of the member who has the key, if there is one.
    ///
    /// # Errors
    ///
    /// - `Store` if a database call fails.
    /// - `Memory` if out of memory.
    /// - The fault of a failed club.
    ///
    /// # Guarantees
    ///
    /// `serves`: the state is unchanged, and the name is the one in that state.
    fn member_by_key(&mut self, alloc: Global, key: &str) -> Result<Option<String>, ClubFault>
        ensures clean { IsClean self.new → IsClean self.old }
        ensures shut { (fault : ClubFault) → IsShut self.old fault →
            (result ≡ Err fault) × IsShut self.new fault }
        ensures serves { IsClean self.new → (s : State) → Stands self.old s →
            Serves (Stands self.new) (Leaves self.new) s s
            (λ name. option_map string_bytes name ≡ club.member_by_key s key.now) IsOfCall result };

    /// The answer to a query at a timestamp, or the refusal.
    ///
    /// # Errors
    ///
    /// As for `member_by_key`, and `Schema` if the query is an arbiter's and the file has no tables for it.
    ///
    /// # Guarantees
    ///
    /// `serves`: the state is unchanged, and the answer is the one in that state.
    fn ask(
        &mut self,
        alloc: Global,
        question: &Question,
        moment: Moment,
    ) -> Result<Result<Vec<u8>, Refusal>, ClubFault>
        ensures clean { IsClean self.new → IsClean self.old }
        ensures shut { (fault : ClubFault) → IsShut self.old fault →
            (result ≡ Err fault) × IsShut self.new fault }
        ensures serves { IsClean self.new → (s : State) → Stands self.old s →
            Serves (Stands self.new) (Leaves self.new) s s
            (λ shown. club.IsShown s moment question.now (shown_view shown)) (IsOfQuestion question.now) result };

    /// Executes a command.
    ///
    /// # Errors
    ///
    /// As for `member_by_key`, and `Schema` if the command is an arbiter's and the file has no tables for it.
    ///
    /// # Guarantees
    ///
    /// - `serves`: the state and the outcome are those of one step of the club; at a fault the step was made or not.
    /// - `schema`: at the fault `Schema` the step was not made, and the club goes on.
    fn apply(
        &mut self,
        alloc: Global,
        who: &Who,
        command: &Command,
        moment: Moment,
    ) -> Result<Outcome, ClubFault>
        ensures clean { IsClean self.new → IsClean self.old }
        ensures shut { (fault : ClubFault) → IsShut self.old fault →
            (result ≡ Err fault) × IsShut self.new fault }
        ensures serves { IsClean self.new → (s : State) → Stands self.old s →
            Serves (Stands self.new) (Leaves self.new) s
            (club.step s (record { who = who_of who.now; command = command_of command.now; moment = moment })).0
            (λ outcome. outcome_of outcome ≡
            (club.step s (record { who = who_of who.now; command = command_of command.now; moment = moment })).1)
            (IsOfCommand (command_of command.now)) result }
        ensures schema { IsClean self.new → (s : State) → Stands self.old s → result ≡ Err Schema → Stands self.new s };

    /// A present state is a possible result of a failed call, as the state before it (`stays`) and after it
    /// (`settled`).
    ghost stays: { (b : Self) (s t : State) → Stands b s → Leaves b s t };

    ghost settled: { (b : Self) (s t : State) → Stands b t → Leaves b s t };

    ghost wider: { (b : Self) (s t : State) → Leaves b s s → Leaves b s t };
}
