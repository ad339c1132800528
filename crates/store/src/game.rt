//! Execution of commands in a game, by its rules and its rows.

ghost use Rattle.std.specs.Prelude.{◌≡◌, ◌≤◌, ◌<◌, ℕ, length, IfOk, is_ok, IsTrue};
ghost use Rattle.club_core.specs.Answer.{game_command_of};
ghost use Rattle.club_core.specs.Events as core;
ghost use Rattle.club_core.specs.Game.{Game, clocks_of};
ghost use Rattle.club_core.specs.Legal.{IsLegalGame};
ghost use Rattle.club_requests.specs.Limits.{is_budget, is_increment};
ghost use Rattle.club_core.specs.State.{on_game};
ghost use Rattle.club_core.specs.Step as machine;
ghost use Rattle.club_core.specs.Step.{asked_ply, game_step};
ghost use Rattle.club_core.specs.View.{IsSound, Shows, ShowsPly, terms_of};
ghost use Rattle.club_core.specs.internal.View.{IsConcluded, IsDecision};
ghost use Rattle.club_rows.specs.internal.Replay.{terms_given};
ghost use Rattle.sqlite.specs.State.{HasCleanDisk};
ghost use Rattle.sqlite.specs.Held.{state};
ghost use Rattle.store_tables.specs.internal.Over.{HasRows};
ghost use Rattle.store_tables.specs.Contents.{Content};
ghost use Rattle.store_tables.specs.Reading.{Reads};
ghost use Rattle.store_tables.specs.Names.{tree_of};
ghost use Rattle.store_tables.specs.declared.names.Table.TheVariants.{Scores};
ghost use Rattle.club_changes.specs.Steps.{IsRecordOf};
ghost use Rattle.club_reads.specs.internal.Rulings.{FindsVerdict};
ghost use Rattle.club_changes.specs.internal.Steps.{IsDecidedIn, IsSeenAfter, AreScoresAfter, HasTwoPlayers};
ghost use Rattle.club_changes.specs.internal.Steps.{FindsMoveRows, FindsSeenRows};
ghost use Rattle.club_changes.specs.internal.Whole.{IsWhole};

use crate::decides::Decide;
use clocks::Moment;
use club_changes::{CommandEffect, DerivedRows, StoredGame, put_decision, without_changes};
use club_core::{Decision, GameView, asked_ply, conclude, decide, refusal_without_game, settle};
use club_games::by_kind;
use club_reads::{
    LookupFault, occurrences_of, score_rows_of_decision, seen_row_of_decision, stored_game,
    view_at_ply,
};
use club_requests::{Caller, GameCommand, OnGame, Outcome};
use club_rules::Rules;
use sqlite::{Alter, Connection};
use std::alloc::Global;
use store_tables::Version;

// A decision with the end and result of the game, and the rows of positions and scores that follow from it.
#[derive(Drop)]
struct Concluded<R: Rules> {
    decision: Decision<R>,
    counts: DerivedRows,
}

// Completes a decision: the repetition count of the new position may end the game; the rows of positions and scores
// follow.
fn counted<R: Rules, S: Alter>(
    alloc: Global,
    conn: &mut Connection<S>,
    game: u32,
    decision: Decision<R>,
    plies: u32,
) -> Result<Concluded<R>, LookupFault>
    requires { plies ≤ 600 }
    ensures reads { Reads (is_ok result) (state S.Store conn.old) (state S.Store conn.new) }
    ensures concluded { HasCleanDisk (state S.Store conn.new) → IfOk result (λ new. (content : Content)
        (terms : core.Terms) (old : Game R.Move) (moment : ℕ) (who : Caller) (command : machine.GameCommand) →
        HasRows content (state S.Store conn.old) → FindsSeenRows R.rules game old content →
        IsLegalGame R.rules terms old → plies ≡ length old.entries →
        IsDecision R.rules terms old (game_step R.rules terms old moment who command) decision →
        IsConcluded R.rules terms old (game_step R.rules terms old moment who command) new.decision
        × IsSeenAfter R.rules game (game_step R.rules terms old moment who command) new.decision new.counts.seen
        × (HasTwoPlayers new.decision → AreScoresAfter (content (tree_of Scores)) new.decision new.counts.scores)) }
{
    let seen = seen_row_of_decision(alloc, conn, game, &decision, plies)?;
    let stood = occurrences_of::<R>(&seen);
    let settled = settle(&decision, stood.times, stood.first_ply);
    let decision = conclude(decision, settled);
    let scores = score_rows_of_decision(alloc, conn, &decision)?;
    Ok(Concluded {
        decision,
        counts: DerivedRows { seen, scores },
    })
}

// Executes a command in the game of this view.
fn decide_in_game<R: Rules, S: Alter>(
    alloc: Global,
    conn: &mut Connection<S>,
    game: u32,
    view: &GameView<R>,
    caller: Caller,
    command: &GameCommand,
    moment: Moment,
) -> Result<CommandEffect, LookupFault>
    requires { IsSound R.rules view.now }
    ensures reads { Reads (is_ok result) (state S.Store conn.old) (state S.Store conn.new) }
    ensures acts { IfOk result IsWhole }
    ensures step { HasCleanDisk (state S.Store conn.new) → IfOk result (λ d. (content : Content) (old : Game R.Move) →
        HasRows content (state S.Store conn.old) → FindsSeenRows R.rules game old content →
        IsTrue (is_budget view.now.budget) →
        IsTrue (is_increment view.now.increment) → IsLegalGame R.rules (terms_of view.now) old →
        Shows R.rules old view.now →
        ShowsPly R.rules old (asked_ply (game_command_of command.now)) view.now →
        (clocks_of old (terms_of view.now)).since ≤ moment →
        IsDecidedIn R.rules (terms_of view.now) game moment (content (tree_of Scores)) old
        (game_step R.rules (terms_of view.now) old moment caller (game_command_of command.now)) d) }
{
    let moment = moment.later(view.row.since);
    let decision = decide(alloc, view, caller, command, moment)?;
    let concluded = counted(alloc, conn, game, decision, view.row.plies)?;
    Ok(put_decision(alloc, game, concluded.decision, concluded.counts, moment)?)
}

// Executes a command in a stored game, by the rules of its kind.
fn act<R: Rules, S: Alter>(
    alloc: Global,
    conn: &mut Connection<S>,
    stored: &StoredGame,
    caller: Caller,
    command: &GameCommand,
    moment: Moment,
) -> Result<CommandEffect, LookupFault>
    ensures reads { Reads (is_ok result) (state S.Store conn.old) (state S.Store conn.new) }
    ensures acts { IfOk result IsWhole }
    ensures step { HasCleanDisk (state S.Store conn.new) → IfOk result (λ d. (content : Content) (old : Game R.Move) →
        HasRows content (state S.Store conn.old) → FindsSeenRows R.rules stored.now.id old content →
        FindsMoveRows R.rules (terms_given stored.now.terms) stored.now.id old content →
        FindsVerdict stored.now.id old content (state S.Store conn.old) →
        IsRecordOf R.rules (terms_given stored.now.terms) stored.now.id stored.now.row old →
        (clocks_of old (terms_given stored.now.terms)).since ≤ moment →
        IsDecidedIn R.rules (terms_given stored.now.terms) stored.now.id moment (content (tree_of Scores)) old
        (game_step R.rules (terms_given stored.now.terms) old moment caller (game_command_of command.now)) d) }
{
    let ply = asked_ply(command);
    let view = view_at_ply::<R, S>(alloc, conn, stored, ply)?;
    decide_in_game(alloc, conn, stored.id, &view, caller, command, moment)
}

impl Decide for OnGame {
    ghost command = { λ c. on_game c.game (game_command_of c.command) };

    fn decide<S: Alter>(
        &self,
        alloc: Global,
        _version: Version,
        conn: &mut Connection<S>,
        caller: Caller,
        moment: Moment,
    ) -> Result<CommandEffect, LookupFault> {
        match stored_game(alloc, conn, self.game)? {
            Some(stored) => by_kind!(
                stored.kind,
                act::<_, S>(alloc, conn, &stored, caller, &self.command, moment)
            ),
            None => {
                let refusal = refusal_without_game(caller, &self.command);
                Ok(without_changes(Outcome::Refused(refusal)))
            }
        }
    }
}
