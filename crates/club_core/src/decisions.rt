//! The decision on a command to one game: it checks the caller's rights, then calls the module for the command.

ghost use Rattle.std.specs.Prelude.{◌≡◌, ◌≤◌, IfOk};
ghost use Rattle.club_core.specs.Answer.{game_command_of};
ghost use Rattle.club_core.specs.Game.{Game};
ghost use Rattle.club_core.specs.Legal.{IsLegalGame};
ghost use Rattle.club_core.specs.Step.{may_give, no_game_refusal, asked_ply, caller_side, side_step, game_step};
ghost use Rattle.club_core.specs.View.{Shows, ShowsPly, IsSound, terms_of};
ghost use Rattle.club_core.specs.internal.View.{IsDecision};

use crate::decided::Decision;
use crate::declarations::declare;
use crate::draws::{accept_draw, offer_draw};
use crate::endings::{claim_time, resign};
use crate::moves::play_move;
use crate::players::{side_of_member, side_of_ply};
use crate::rows::{GameRow, GameView};
use clocks::Moment;
use club_requests::{Caller, GameCommand, Refusal};
use club_rules::{Memory, Rules};
use squares::Side;
use std::alloc::Global;

/// Whether the caller may give the command. On a game the officer may only play moves.
fn may_give(caller: Caller, command: &GameCommand) -> bool
    ensures { result ≡ may_give caller (game_command_of command.now) }
{
    match command {
        GameCommand::Move { ply: _, text: _ } => true,
        _ => caller != Caller::Officer,
    }
}

/// The refusal of a command on a game that does not exist.
pub fn refusal_without_game(caller: Caller, command: &GameCommand) -> Refusal
    ensures { result ≡ no_game_refusal caller (game_command_of command.now) }
{
    if may_give(caller, command) {
        Refusal::UnknownGame
    } else {
        Refusal::NotAllowed
    }
}

/// The ply of the move that a command names, or 0 if it is not a move.
pub fn asked_ply(command: &GameCommand) -> u64
    ensures { result ≡ asked_ply (game_command_of command.now) }
{
    match command {
        GameCommand::Move { ply, text: _ } => *ply,
        _ => 0,
    }
}

/// The side for which a command is given. The officer plays for the side whose turn the ply is.
fn side_of_caller<E>(row: &GameRow<E>, caller: Caller, ply: u64) -> Option<Side>
    ensures { result ≡ caller_side row.now.first row.now.second caller ply }
{
    match caller {
        Caller::Officer => Some(side_of_ply(ply)),
        Caller::Member(id) => side_of_member(row, id),
    }
}

/// Decides a command by the player of a side.
fn decide_for<R: Rules>(
    alloc: Global,
    view: &GameView<R>,
    side: Side,
    command: &GameCommand,
    moment: Moment,
) -> Result<Decision<R>, Memory>
    requires sound { IsSound R.rules view.now }
    requires later { view.now.row.since ≤ moment }
    ensures { IfOk result (λ d. (game : Game R.Move) → Shows R.rules game view.now →
        ShowsPly R.rules game (asked_ply (game_command_of command.now)) view.now →
        IsLegalGame R.rules (terms_of view.now) game →
        IsDecision R.rules (terms_of view.now) game
        (side_step R.rules (terms_of view.now) game moment side (game_command_of command.now)) d) }
{
    let decision = match command {
        GameCommand::Move { ply, text } => {
            play_move(alloc, view, side, *ply, text.as_str(), moment)?
        }
        GameCommand::OfferDraw { ply } => offer_draw(view, side, *ply)?,
        GameCommand::AcceptDraw { ply } => accept_draw(view, side, *ply)?,
        GameCommand::Resign => resign(view, side)?,
        GameCommand::ClaimTime => claim_time(view, side, moment)?,
        GameCommand::Declare { ply } => declare(view, side, *ply)?,
    };
    Ok(decision)
}

/// Decides a command on the game in the view.
///
/// `moment` is the effective timestamp: the later of the request's own and that of the last accepted request.
/// `view.asked` must hold the move at `asked_ply(command)`, if one was played.
///
/// # Errors
///
/// `Memory` if out of memory.
///
/// # Guarantees
///
/// If the view shows a legal game, the decision, completed by `settle` and `conclude`, is the outcome of the specified
/// transition `game_step` (clause `ensures`).
pub fn decide<R: Rules>(
    alloc: Global,
    view: &GameView<R>,
    caller: Caller,
    command: &GameCommand,
    moment: Moment,
) -> Result<Decision<R>, Memory>
    requires sound { IsSound R.rules view.now }
    requires later { view.now.row.since ≤ moment }
    ensures { IfOk result (λ d. (game : Game R.Move) → Shows R.rules game view.now →
        ShowsPly R.rules game (asked_ply (game_command_of command.now)) view.now →
        IsLegalGame R.rules (terms_of view.now) game →
        IsDecision R.rules (terms_of view.now) game
        (game_step R.rules (terms_of view.now) game moment caller (game_command_of command.now)) d) }
{
    if !may_give(caller, command) {
        return Ok(Decision::Refused(Refusal::NotAllowed));
    }
    let side = match side_of_caller(&view.row, caller, asked_ply(command)) {
        Some(side) => side,
        None => return Ok(Decision::Refused(Refusal::NotAPlayer)),
    };
    let decision = decide_for(alloc, view, side, command, moment)?;
    Ok(decision)
}
