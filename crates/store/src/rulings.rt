//! Execution of a ruling of the arbiter on a game.

ghost use Rattle.std.specs.Prelude.{◌≡◌, ◌≤◌, IfOk, IsTrue, is_ok};
ghost use Rattle.club_core.specs.Game.{Game};
ghost use Rattle.club_core.specs.State.{rule};
ghost use Rattle.club_core.specs.Step.{ruling_step};
ghost use Rattle.club_requests.specs.Outcome.{by_officer};
ghost use Rattle.club_reads.specs.internal.Rulings.{FindsRulings};
ghost use Rattle.club_rows.specs.internal.Replay.{terms_given};
ghost use Rattle.sqlite.specs.State.{HasCleanDisk};
ghost use Rattle.sqlite.specs.Held.{state};
ghost use Rattle.store_tables.specs.internal.Over.{HasRows};
ghost use Rattle.store_tables.specs.Contents.{Content};
ghost use Rattle.store_tables.specs.Reading.{Reads};
ghost use Rattle.store_tables.specs.Names.{tree_of};
ghost use Rattle.store_tables.specs.declared.names.Table.TheVariants.{Scores};
ghost use Rattle.club_changes.specs.Steps.{IsRecordOf};
ghost use Rattle.club_changes.specs.internal.Steps.{FindsSeenRows, IsRuledIn};
ghost use Rattle.club_changes.specs.internal.Whole.{IsWhole};

use crate::decides::Decide;
use clocks::Moment;
use club_changes::{
    CommandEffect, RulingRows, StoredGame, put_ruling, ruling_row_of_decision, without_changes,
};
use club_core::{conclude, rule, settle};
use club_games::by_kind;
use club_reads::{LookupFault, rulings_on, score_rows_of_ruling, stored_game, view};
use club_requests::{Caller, Outcome, Refusal, Rule};
use club_rules::Rules;
use sqlite::{Alter, Connection};
use std::alloc::Global;
use store_tables::Version;

// Executes a ruling on a stored game, by the rules of its kind.
fn rule_on<R: Rules, S: Alter>(
    alloc: Global,
    conn: &mut Connection<S>,
    stored: &StoredGame,
    caller: Caller,
    command: &Rule,
    moment: Moment,
) -> Result<CommandEffect, LookupFault>
    ensures reads { Reads (is_ok result) (state S.Store conn.old) (state S.Store conn.new) }
    ensures acts { IfOk result IsWhole }
    ensures step { HasCleanDisk (state S.Store conn.new) → IfOk result (λ d. (content : Content) (old : Game R.Move) →
        HasRows content (state S.Store conn.old) → FindsSeenRows R.rules stored.now.id old content →
        FindsRulings stored.now.id old content (state S.Store conn.old) →
        IsRecordOf R.rules (terms_given stored.now.terms) stored.now.id stored.now.row old →
        IsRuledIn R.rules (terms_given stored.now.terms) stored.now.id moment (content (tree_of Scores)) old
        (by_officer caller (ruling_step R.rules old command.now.number command.now.ruling moment)) d) }
{
    let view = view::<R, S>(alloc, conn, stored)?;
    let rulings = rulings_on(alloc, conn, stored.id)?;
    let decision = rule(
        &view,
        rulings.stored_rulings(command.number),
        caller,
        command,
    )?;
    let settled = settle(&decision, 0, 0);
    let decision = conclude(decision, settled);
    let row = &view.row;
    let ruling = ruling_row_of_decision(alloc, stored.id, row, &decision, command, moment)?;
    let scores = score_rows_of_ruling(alloc, conn, row, &decision)?;
    let rows = RulingRows { ruling, scores };
    Ok(put_ruling(alloc, stored.id, decision, rows, moment)?)
}

impl Decide for Rule {
    ghost command = { λ c. rule c.game c.number c.ruling };

    fn decide<S: Alter>(
        &self,
        alloc: Global,
        _version: Version,
        conn: &mut Connection<S>,
        caller: Caller,
        moment: Moment,
    ) -> Result<CommandEffect, LookupFault> {
        if caller != Caller::Officer {
            return Ok(without_changes(Outcome::Refused(Refusal::NotAllowed)));
        }
        match stored_game(alloc, conn, self.game)? {
            Some(stored) => by_kind!(
                stored.kind,
                rule_on::<_, S>(alloc, conn, &stored, caller, self, moment)
            ),
            None => Ok(without_changes(Outcome::Refused(Refusal::UnknownGame))),
        }
    }
}
