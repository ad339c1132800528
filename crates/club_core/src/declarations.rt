//! Declarations of a win by the side to move.

ghost use Rattle.std.specs.Prelude.{◌≡◌, None, IfOk, IfNone};
ghost use Rattle.std.specs.Option.{option_map};
ghost use Rattle.club_core.specs.Answer.{reply_of};
ghost use Rattle.club_core.specs.Game.{Game};
ghost use Rattle.club_core.specs.Legal.{IsLegalGame};
ghost use Rattle.club_core.specs.Step.{repeat_of_declare, declare_refusal, step_declare};
ghost use Rattle.club_core.specs.View.{Shows, terms_of};
ghost use Rattle.club_core.specs.internal.View.{IsDecision};

use crate::decided::Decision;
use crate::draws::is_next_ply;
use crate::endings::{accept_end, answer_of_end};
use crate::ends::is_ended_by;
use crate::players::is_side;
use crate::rows::GameView;
use club_requests::{Answer, OutsideEnd, Refusal};
use club_rules::{Memory, Rules};
use squares::Side;

/// The answer to a repeat of the declaration that ended the game, if the command is one.
fn repeat_of_declare<R: Rules>(view: &GameView<R>, side: Side, ply: u64) -> Option<Answer>
    ensures { (game : Game R.Move) → Shows R.rules game view.now → IsLegalGame R.rules (terms_of view.now) game →
        option_map reply_of result ≡ repeat_of_declare R.rules (terms_of view.now) game side ply }
{
    if is_ended_by(view.row.outside, OutsideEnd::Declared)
        && is_side(side, R::turn(&view.position))
        && is_next_ply(view, ply)
    {
        return Some(answer_of_end(view, OutsideEnd::Declared));
    }
    None
}

/// The refusal of a declaration, if any.
fn refusal_of_declare<R: Rules>(view: &GameView<R>, side: Side, ply: u64) -> Option<Refusal>
    ensures value { (game : Game R.Move) → Shows R.rules game view.now →
        result ≡ declare_refusal R.rules (terms_of view.now) game side ply }
    ensures running { IfNone result (view.now.row.end ≡ None) }
{
    if view.row.end.is_some() {
        return Some(Refusal::GameOver);
    }
    if !is_next_ply(view, ply) {
        return Some(Refusal::WrongPly);
    }
    if !is_side(side, R::turn(&view.position)) {
        return Some(Refusal::NotYourTurn);
    }
    if !view.declares || !R::can_declare(&view.position) {
        return Some(Refusal::NotDeclarable);
    }
    None
}

/// Decides a declaration of a win by the player of a side.
///
/// # Errors
///
/// `Memory` if out of memory.
pub fn declare<R: Rules>(view: &GameView<R>, side: Side, ply: u64) -> Result<Decision<R>, Memory>
    ensures { IfOk result (λ d. (game : Game R.Move) → Shows R.rules game view.now →
        IsLegalGame R.rules (terms_of view.now) game →
        IsDecision R.rules (terms_of view.now) game (step_declare R.rules (terms_of view.now) game side ply) d) }
{
    match repeat_of_declare(view, side, ply) {
        Some(answer) => return Ok(Decision::Repeated(answer)),
        None => {}
    }
    match refusal_of_declare(view, side, ply) {
        Some(refusal) => return Ok(Decision::Refused(refusal)),
        None => {}
    }
    let decision = accept_end(view, OutsideEnd::Declared)?;
    Ok(decision)
}
