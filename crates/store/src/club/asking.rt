//! Queries on an open club. A query changes nothing.

ghost use Rattle.std.specs.Prelude.{◌≡◌, ◌⊎◌, pos, true, false, Err, IfOk, IfErr, OnOk};
ghost use Rattle.club_requests.specs.Questions.{is_arbiters};
ghost use Rattle.sqlite.specs.State.{HasCleanDisk};
ghost use Rattle.sqlite.specs.Held.{state};
ghost use Rattle.store_tables.specs.Reading.{Reads};
ghost use Rattle.club_rows.specs.Club.{ClubState};
ghost use Rattle.store.specs.Clubs.{Asks};
ghost use Rattle.club_answers.specs.AnswerTexts.{HasWrittenAnswer, HasShownSome};
ghost use Rattle.store.specs.Asking.{stays_open};

use super::{Club, version_of};
use crate::fault::{AskFault, StoreFault};
use clocks::Moment;
use club_answers::{ViewFault, answer};
use club_requests::{Question, Refusal};
use sqlite::Alter;
use std::alloc::Global;
use std::io::Write;

impl<S: Alter> Club<S> {
    /// Writes the answer to a query at this timestamp to `writer`, or returns the refusal. Changes nothing.
    ///
    /// # Errors
    ///
    /// - `AskFault::Output`: the writer failed. The club stays open; the writer has a prefix of the answer.
    /// - `AskFault::Club`: a call of the database failed or it holds rows that no club has (`Store`), memory ran out
    ///   (`Memory`), or an earlier call failed (`Reopen`). Every later call returns `Reopen`. A club without an arbiter
    ///   does not answer an arbiter's query (`Schema(2)`); it stays open, and nothing was read.
    ///
    /// # Guarantees
    ///
    /// `shown`: the text written is the answer of the stored state. `begun`: whatever fails, the writer has a prefix of
    /// it. `reads`: the tables are unchanged.
    pub fn ask<W: Write>(
        &mut self,
        alloc: Global,
        question: &Question,
        moment: Moment,
        writer: &mut W,
    ) -> Result<Option<Refusal>, AskFault>
        ensures same_schema { self.new.has_arbiter ≡ self.old.has_arbiter }
        ensures shut { self.old.needs_reopening ≡ true →
            (result ≡ Err (AskFault.Club StoreFault.Reopen)) × (self.new ≡ self.old) × (writer.new ≡ writer.old) }
        ensures stays_open { OnOk result (self.new.needs_reopening ≡ false) }
        ensures output { result ≡ Err AskFault.Output → self.new.needs_reopening ≡ false }
        ensures ends { IfErr result (λ fault. (fault ≡ AskFault.Output)
            ⊎ ((fault ≡ AskFault.Club (StoreFault.Schema (pos 2))) ⊎ (self.new.needs_reopening ≡ true))) }
        ensures possible_faults { IfErr result (λ fault. self.old.needs_reopening ≡ false → (fault ≡ AskFault.Output)
            ⊎ ((fault ≡ AskFault.Club (StoreFault.Schema (pos 2)))
            ⊎ ((fault ≡ AskFault.Club StoreFault.Store) ⊎ (fault ≡ AskFault.Club StoreFault.Memory)))) }
        // A club without an arbiter does not answer an arbiter's query, and goes on.
        ensures other_schema { self.old.needs_reopening ≡ false → self.old.has_arbiter ≡ false →
            is_arbiters question.now ≡ true → (result ≡ Err (AskFault.Club (StoreFault.Schema (pos 2))))
            × (self.new ≡ self.old) × (writer.new ≡ writer.old) }
        ensures only_then { result ≡ Err (AskFault.Club (StoreFault.Schema (pos 2))) →
            (self.old.has_arbiter ≡ false) × (is_arbiters question.now ≡ true) }
        ensures reads { Reads (stays_open result) (state S.Store self.old.connection)
            (state S.Store self.new.connection) }
        ensures shown { HasCleanDisk (state S.Store self.new.connection) → IfOk result (λ refusal. (s : ClubState) →
            Asks self.old.has_arbiter (state S.Store self.old.connection) s →
            HasWrittenAnswer s moment question.now refusal (W.contents writer.old) (W.contents writer.new)) }
        ensures begun { HasCleanDisk (state S.Store self.new.connection) → (s : ClubState) →
            Asks self.old.has_arbiter (state S.Store self.old.connection) s →
            HasShownSome s moment question.now (W.contents writer.old) (W.contents writer.new) }
    {
        if self.needs_reopening {
            return Err(AskFault::Club(StoreFault::Reopen));
        }
        if !self.has_arbiter && question.is_arbiters() {
            return Err(AskFault::Club(StoreFault::Schema(2)));
        }
        match answer(
            alloc,
            version_of(self.has_arbiter),
            &mut self.connection,
            question,
            moment,
            writer,
        ) {
            Ok(refusal) => Ok(refusal),
            Err(ViewFault::Output) => Err(AskFault::Output),
            Err(ViewFault::Call(fault)) => {
                self.needs_reopening = true;
                Err(AskFault::Club(StoreFault::from(fault)))
            }
        }
    }
}
