//! Ends for outside reasons: the side to move resigns, or the opponent claims a win on time.

ghost use Rattle.std.specs.Prelude.{◌≡◌, ◌≤◌, None, IfOk, IfNone};
ghost use Rattle.std.specs.Option.{option_map};
ghost use Rattle.club_core.specs.Answer.{reply_of};
ghost use Rattle.club_core.specs.Game.{Game};
ghost use Rattle.club_core.specs.Legal.{IsLegalGame};
ghost use Rattle.club_core.specs.Step.{reply_of_end, ends, repeat_of_resign, resign_refusal, step_resign};
ghost use Rattle.club_core.specs.Step.{repeat_of_claim, claim_refusal, step_claim};
ghost use Rattle.club_core.specs.View.{Shows, terms_of};
ghost use Rattle.club_core.specs.internal.View.{IsDecision};

use crate::decided::Decision;
use crate::ends::is_ended_by;
use crate::players::{is_side, left_in};
use crate::rows::{GameEnd, GameView, copy_row};
use clocks::Moment;
use club_requests::{Answer, OutsideEnd, Refusal};
use club_rules::{Memory, Rules};
use squares::Side;

/// The answer to a command that ends the game for this reason.
pub fn answer_of_end<R: Rules>(view: &GameView<R>, end: OutsideEnd) -> Answer
    ensures { (game : Game R.Move) → Shows R.rules game view.now → reply_of result ≡ reply_of_end R.rules game end }
{
    Answer::Ended {
        end,
        result: end.score(R::turn(&view.position)),
    }
}

/// Ends a running game for an outside reason.
///
/// # Errors
///
/// `Memory` if out of memory.
pub fn accept_end<R: Rules>(view: &GameView<R>, end: OutsideEnd) -> Result<Decision<R>, Memory>
    requires { view.now.row.end ≡ None }
    ensures { IfOk result (λ d. (game : Game R.Move) → Shows R.rules game view.now →
        IsDecision R.rules (terms_of view.now) game (ends R.rules game end) d) }
{
    let answer = answer_of_end(view, end);
    let mut row = copy_row(&view.row)?;
    row.outside = Some(end);
    row.end = Some(GameEnd::Outside(end));
    row.result = Some(end.score(R::turn(&view.position)));
    Ok(Decision::Accepted {
        row,
        made: None,
        answer,
    })
}

/// The answer to a repeat of the resignation that ended the game, if the command is one.
fn repeat_of_resign<R: Rules>(view: &GameView<R>, side: Side) -> Option<Answer>
    ensures { (game : Game R.Move) → Shows R.rules game view.now → IsLegalGame R.rules (terms_of view.now) game →
        option_map reply_of result ≡ repeat_of_resign R.rules game side }
{
    if is_ended_by(view.row.outside, OutsideEnd::Resigned)
        && is_side(side, R::turn(&view.position))
    {
        return Some(answer_of_end(view, OutsideEnd::Resigned));
    }
    None
}

/// The refusal of a resignation, if any.
fn refusal_of_resign<R: Rules>(view: &GameView<R>, side: Side) -> Option<Refusal>
    ensures value { (game : Game R.Move) → Shows R.rules game view.now → result ≡ resign_refusal R.rules game side }
    ensures running { IfNone result (view.now.row.end ≡ None) }
{
    if view.row.end.is_some() {
        return Some(Refusal::GameOver);
    }
    if !is_side(side, R::turn(&view.position)) {
        return Some(Refusal::NotYourTurn);
    }
    None
}

/// Decides a resignation by the player of a side.
///
/// # Errors
///
/// `Memory` if out of memory.
pub fn resign<R: Rules>(view: &GameView<R>, side: Side) -> Result<Decision<R>, Memory>
    ensures { IfOk result (λ d. (game : Game R.Move) → Shows R.rules game view.now →
        IsLegalGame R.rules (terms_of view.now) game →
        IsDecision R.rules (terms_of view.now) game (step_resign R.rules game side) d) }
{
    match repeat_of_resign(view, side) {
        Some(answer) => return Ok(Decision::Repeated(answer)),
        None => {}
    }
    match refusal_of_resign(view, side) {
        Some(refusal) => return Ok(Decision::Refused(refusal)),
        None => {}
    }
    let decision = accept_end(view, OutsideEnd::Resigned)?;
    Ok(decision)
}

/// The answer to a repeat of the claim that ended the game, if the command is one.
fn repeat_of_claim<R: Rules>(view: &GameView<R>, side: Side) -> Option<Answer>
    ensures { (game : Game R.Move) → Shows R.rules game view.now → IsLegalGame R.rules (terms_of view.now) game →
        option_map reply_of result ≡ repeat_of_claim R.rules game side }
{
    if is_ended_by(view.row.outside, OutsideEnd::Time) && !is_side(side, R::turn(&view.position)) {
        return Some(answer_of_end(view, OutsideEnd::Time));
    }
    None
}

/// The refusal of a claim on time, if any.
fn refusal_of_claim<R: Rules>(view: &GameView<R>, side: Side, moment: Moment) -> Option<Refusal>
    requires { view.now.row.since ≤ moment }
    ensures value { (game : Game R.Move) → Shows R.rules game view.now →
        result ≡ claim_refusal R.rules (terms_of view.now) game moment side }
    ensures running { IfNone result (view.now.row.end ≡ None) }
{
    if view.row.end.is_some() {
        return Some(Refusal::GameOver);
    }
    let turn = R::turn(&view.position);
    if is_side(side, turn) {
        return Some(Refusal::NotYourTurn);
    }
    let elapsed = moment.seconds() - view.row.since.seconds();
    if elapsed <= left_in(&view.row, turn) {
        return Some(Refusal::TimeLeft);
    }
    None
}

/// Decides a claim by the player of a side that the opponent has exceeded the time limit.
///
/// # Errors
///
/// `Memory` if out of memory.
pub fn claim_time<R: Rules>(
    view: &GameView<R>,
    side: Side,
    moment: Moment,
) -> Result<Decision<R>, Memory>
    requires { view.now.row.since ≤ moment }
    ensures { IfOk result (λ d. (game : Game R.Move) → Shows R.rules game view.now →
        IsLegalGame R.rules (terms_of view.now) game →
        IsDecision R.rules (terms_of view.now) game (step_claim R.rules (terms_of view.now) game moment side) d) }
{
    match repeat_of_claim(view, side) {
        Some(answer) => return Ok(Decision::Repeated(answer)),
        None => {}
    }
    match refusal_of_claim(view, side, moment) {
        Some(refusal) => return Ok(Decision::Refused(refusal)),
        None => {}
    }
    let decision = accept_end(view, OutsideEnd::Time)?;
    Ok(decision)
}
