//! Previews of commands. A preview changes nothing.

ghost use Rattle.std.specs.Prelude.{◌≡◌, ◌≢◌, ◌⊎◌, true, false, pos, Err, IfOk, IfErr, OnOk, is_ok};
ghost use Rattle.sqlite.specs.State.{HasCleanDisk};
ghost use Rattle.sqlite.specs.Held.{state};
ghost use Rattle.store_tables.specs.Reading.{Reads};
ghost use Rattle.club_core.specs.Answer.{answered, command_of, outcome_of};
ghost use Rattle.club_core.specs.State.{needs_arbiter};
ghost use Rattle.club_rows.specs.Club.{ClubState};
ghost use Rattle.store.specs.Clubs.{Asks};
ghost use Rattle.club_changes.specs.Steps.{request, club_step};

use super::{Club, lacks_arbiter, version_of};
use crate::command::decide_request;
use crate::fault::StoreFault;
use clocks::Moment;
use club_changes::CommandEffect;
use club_requests::{Command, Outcome, Who};
use sqlite::Alter;
use std::alloc::Global;

// The outcome of an effect.
fn outcome_in(effect: CommandEffect) -> Outcome
    ensures { result ≡ effect.outcome }
{
    let CommandEffect {
        outcome,
        changes: _,
    } = effect;
    outcome
}

impl<S: Alter> Club<S> {
    /// The outcome that a command would have at this timestamp. Changes nothing.
    ///
    /// # Errors
    ///
    /// - `StoreFault::Store`: a call of the database failed, or it holds rows that no club has.
    /// - `StoreFault::Memory`: out of memory.
    /// - `StoreFault::Reopen`: an earlier call failed.
    ///
    /// After any of these every later call returns `Reopen`.
    ///
    /// - `StoreFault::Schema(2)`: a club without an arbiter cannot record the command; the club stays open.
    ///
    /// # Guarantees
    ///
    /// `answer`: the outcome is that of the club's specification. `reads`: the tables are unchanged.
    pub fn preview(
        &mut self,
        alloc: Global,
        who: &Who,
        command: &Command,
        moment: Moment,
    ) -> Result<Outcome, StoreFault>
        ensures shut { self.old.needs_reopening ≡ true → (result ≡ Err StoreFault.Reopen) × (self.new ≡ self.old) }
        ensures same_schema { self.new.has_arbiter ≡ self.old.has_arbiter }
        ensures stays_open { OnOk result (self.new.needs_reopening ≡ false) }
        ensures ends { IfErr result (λ fault. fault ≢ StoreFault.Schema (pos 2) → self.new.needs_reopening ≡ true) }
        ensures possible_faults { IfErr result (λ fault. self.old.needs_reopening ≡ false →
            (fault ≡ StoreFault.Store) ⊎ ((fault ≡ StoreFault.Memory) ⊎ (fault ≡ StoreFault.Schema (pos 2)))) }
        ensures schema { self.old.needs_reopening ≡ false → self.old.has_arbiter ≡ false →
            needs_arbiter (command_of command.now) ≡ true →
            (result ≡ Err (StoreFault.Schema (pos 2))) × (self.new ≡ self.old) }
        ensures other_schema { result ≡ Err (StoreFault.Schema (pos 2)) → (self.old.has_arbiter ≡ false) ×
            (needs_arbiter (command_of command.now) ≡ true) }
        ensures reads { Reads (is_ok result) (state S.Store self.old.connection)
            (state S.Store self.new.connection) }
        ensures answer { HasCleanDisk (state S.Store self.new.connection) → IfOk result (λ outcome. (s : ClubState) →
            Asks self.old.has_arbiter (state S.Store self.old.connection) s →
            outcome_of outcome ≡ answered (club_step s (request who.now command.now moment))) }
    {
        if self.needs_reopening {
            return Err(StoreFault::Reopen);
        }
        if lacks_arbiter(self.has_arbiter, command) {
            return Err(StoreFault::Schema(2));
        }
        let version = version_of(self.has_arbiter);
        match decide_request(alloc, version, &mut self.connection, who, command, moment) {
            Ok(decided) => Ok(outcome_in(decided)),
            Err(fault) => {
                self.needs_reopening = true;
                Err(StoreFault::from(fault))
            }
        }
    }
}
