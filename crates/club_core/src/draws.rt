//! Draws by agreement: offer, and acceptance of the opponent's offer.

ghost use Rattle.std.specs.Prelude.{◌≡◌, ◌+◌, ◌==◌, ℕ, Some, None, IfOk, IfNone, if◌then◌else◌};
ghost use Rattle.std.specs.Option.{option_map};
ghost use Rattle.club_requests.specs.declared.refusals.Refusal.TheVariants.{NotInThisGame};
ghost use Rattle.club_core.specs.Answer.{reply_of};
ghost use Rattle.club_core.specs.Game.{Game};
ghost use Rattle.club_core.specs.Legal.{IsLegalGame};
ghost use Rattle.club_requests.specs.Outcome.{accepted, draw_offered};
ghost use Rattle.club_core.specs.Step.{has_offer, offered, repeat_of_offer, offer_refusal, step_offer};
ghost use Rattle.club_core.specs.Step.{repeat_of_accept, accept_refusal, step_accept};
ghost use Rattle.club_core.specs.View.{Shows, IsSound, terms_of};
ghost use Rattle.club_core.specs.internal.View.{IsDecision};

use crate::decided::Decision;
use crate::endings::{accept_end, answer_of_end};
use crate::ends::is_ended_by;
use crate::players::is_side;
use crate::rows::{GameView, Offer, copy_row};
use club_requests::{Answer, OutsideEnd, Refusal};
use club_rules::{Memory, Rules};
use squares::Side;

/// The refusal of draw commands if the rules of this game have no draw by agreement.
fn refusal_of_draws<R: Rules>() -> Option<Refusal>
    ensures { result ≡ (if R.rules.has_draw_offers then None else Some NotInThisGame) }
{
    if R::has_draw_offers() {
        return None;
    }
    Some(Refusal::NotInThisGame)
}

/// Whether this side has made a draw offer at this ply.
fn has_offer(offer: Option<Offer>, side: Side, ply: u64) -> bool
    ensures { result ≡ has_offer offer side ply }
{
    match offer {
        Some(offer) => is_side(offer.side, side) && u64::from(offer.ply) == ply,
        None => false,
    }
}

/// Whether the ply is the next one.
pub fn is_next_ply<R: Rules>(view: &GameView<R>, ply: u64) -> bool
    ensures { result ≡ (ply == view.now.row.plies + 1) }
{
    ply == u64::from(view.row.plies) + 1
}

/// The answer to a repeat of the current draw offer, if the command is one.
fn repeat_of_offer(offer: Option<Offer>, side: Side, ply: u64) -> Option<Answer>
    ensures { option_map reply_of result ≡ repeat_of_offer offer side ply }
{
    match offer {
        Some(offer) => {
            if is_side(offer.side, side) && u64::from(offer.ply) == ply {
                Some(Answer::Offered { ply: offer.ply })
            } else {
                None
            }
        }
        None => None,
    }
}

/// The refusal of a draw offer, if any.
fn refusal_of_offer<R: Rules>(view: &GameView<R>, side: Side, ply: u64) -> Option<Refusal>
    ensures value { (game : Game R.Move) → Shows R.rules game view.now → result ≡ offer_refusal R.rules game side ply }
    ensures running { IfNone result (view.now.row.end ≡ None) }
    ensures next { IfNone result (ply ≡ view.now.row.plies + 1) }
{
    if view.row.end.is_some() {
        return Some(Refusal::GameOver);
    }
    if !is_next_ply(view, ply) {
        return Some(Refusal::WrongPly);
    }
    if has_offer(view.row.offer, side.other(), ply) {
        return Some(Refusal::Conflict);
    }
    None
}

/// Stores a draw offer at the next ply.
fn accept_offer<R: Rules>(view: &GameView<R>, side: Side) -> Result<Decision<R>, Memory>
    requires sound { IsSound R.rules view.now }
    ensures { IfOk result (λ d. (game : Game R.Move) (ply : ℕ) → Shows R.rules game view.now →
        ply ≡ view.now.row.plies + 1 →
        IsDecision R.rules (terms_of view.now) game
        (accepted (offered game (record { side = side; ply = ply })) (draw_offered ply)) d) }
{
    let ply = view.row.plies + 1;
    let mut row = copy_row(&view.row)?;
    row.offer = Some(Offer { side, ply });
    Ok(Decision::Accepted {
        row,
        made: None,
        answer: Answer::Offered { ply },
    })
}

/// Decides a draw offer by the player of a side.
///
/// # Errors
///
/// `Memory` if out of memory.
pub fn offer_draw<R: Rules>(view: &GameView<R>, side: Side, ply: u64) -> Result<Decision<R>, Memory>
    requires sound { IsSound R.rules view.now }
    ensures { IfOk result (λ d. (game : Game R.Move) → Shows R.rules game view.now →
        IsDecision R.rules (terms_of view.now) game (step_offer R.rules game side ply) d) }
{
    match refusal_of_draws::<R>() {
        Some(refusal) => return Ok(Decision::Refused(refusal)),
        None => {}
    }
    match repeat_of_offer(view.row.offer, side, ply) {
        Some(answer) => return Ok(Decision::Repeated(answer)),
        None => {}
    }
    match refusal_of_offer(view, side, ply) {
        Some(refusal) => return Ok(Decision::Refused(refusal)),
        None => {}
    }
    let decision = accept_offer(view, side)?;
    Ok(decision)
}

/// The answer to a repeat of the agreement that ended the game, if the command is one.
fn repeat_of_accept<R: Rules>(view: &GameView<R>, side: Side, ply: u64) -> Option<Answer>
    ensures { (game : Game R.Move) → Shows R.rules game view.now → IsLegalGame R.rules (terms_of view.now) game →
        option_map reply_of result ≡ repeat_of_accept R.rules game side ply }
{
    if is_ended_by(view.row.outside, OutsideEnd::Agreed)
        && has_offer(view.row.offer, side.other(), ply)
    {
        return Some(answer_of_end(view, OutsideEnd::Agreed));
    }
    None
}

/// The refusal of an acceptance, if any.
fn refusal_of_accept<R: Rules>(view: &GameView<R>, side: Side, ply: u64) -> Option<Refusal>
    ensures value { (game : Game R.Move) → Shows R.rules game view.now → result ≡ accept_refusal R.rules game side ply }
    ensures running { IfNone result (view.now.row.end ≡ None) }
{
    if view.row.end.is_some() {
        return Some(Refusal::GameOver);
    }
    if !is_next_ply(view, ply) {
        return Some(Refusal::WrongPly);
    }
    if !has_offer(view.row.offer, side.other(), ply) {
        return Some(Refusal::NoOffer);
    }
    None
}

/// Decides an acceptance of a draw by the player of a side.
///
/// # Errors
///
/// `Memory` if out of memory.
pub fn accept_draw<R: Rules>(
    view: &GameView<R>,
    side: Side,
    ply: u64,
) -> Result<Decision<R>, Memory>
    ensures { IfOk result (λ d. (game : Game R.Move) → Shows R.rules game view.now →
        IsLegalGame R.rules (terms_of view.now) game →
        IsDecision R.rules (terms_of view.now) game (step_accept R.rules game side ply) d) }
{
    match refusal_of_draws::<R>() {
        Some(refusal) => return Ok(Decision::Refused(refusal)),
        None => {}
    }
    match repeat_of_accept(view, side, ply) {
        Some(answer) => return Ok(Decision::Repeated(answer)),
        None => {}
    }
    match refusal_of_accept(view, side, ply) {
        Some(refusal) => return Ok(Decision::Refused(refusal)),
        None => {}
    }
    let decision = accept_end(view, OutsideEnd::Agreed)?;
    Ok(decision)
}
