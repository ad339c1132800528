//! Rulings of the arbiter on a game: more time for a side, a score, or that the game does not count.

ghost use Rattle.std.specs.Prelude.{◌≡◌, ◌≤◌, ◌<◌, ◌+◌, ◌^◌, ℕ, Option, Some, None, true, IfOk, string_bytes};
ghost use Rattle.std.specs.Option.{option_map};
ghost use Rattle.club_requests.specs.declared.rulings.Ruling.{Ruling};
ghost use Rattle.club_requests.specs.declared.rulings.Ruling.TheVariants.{Grant};
ghost use Rattle.club_requests.specs.Limits.{longest_grant};
ghost use Rattle.club_requests.specs.Outcome.{accepted, by_officer, ruling_given};
ghost use Rattle.club_requests.specs.Rulings.{has_grant_time, verdict_in};
ghost use Rattle.club_core.specs.Game.{Game, after_ruling};
ghost use Rattle.club_core.specs.Rulings.{is_given};
ghost use Rattle.club_core.specs.Step.{ruled, ruling_step};
ghost use Rattle.club_core.specs.View.{Shows, IsSound, clocks_in, terms_of};
ghost use Rattle.club_core.specs.internal.Rulings.{is_late_for, is_next_number, stored_refusal};
ghost use Rattle.club_core.specs.internal.View.{IsDecision, ShowsRulings, rule_in};

use crate::decided::Decision;
use crate::rows::{GameEnd, GameRow, GameView, StoredRulings, copy_row};
use clocks::Moment;
use club_requests::values::MOST_RULINGS;
use club_requests::{Answer, Caller, Refusal, Rule, Ruling, Verdict};
use club_rules::{Memory, Rules};
use squares::Side;

/// A ruling with its timestamp and the number of plies that were played when it was given.
#[derive(Clone, Copy, Debug, PartialEq, Eq)]
pub struct GivenRuling {
    pub ruling: Ruling,
    pub moment: Moment,
    pub plies: u64,
}

// Whether the ruling is the one that was given.
fn is_given(ruling: Ruling, given: Option<Ruling>) -> bool
    ensures { result ≡ is_given ruling given }
{
    match given {
        Some(given) => given.is_same(ruling),
        None => false,
    }
}

// Whether a rule of the game gave this end, or the ruling grants time after it.
fn is_late_for<E>(end: &Option<GameEnd<E>>, ruling: Ruling) -> bool
    ensures { result ≡ is_late_for end.now ruling }
{
    match end {
        Some(GameEnd::Rule(_)) => true,
        Some(GameEnd::Verdict(_)) => ruling.is_grant(),
        Some(GameEnd::Outside(_)) => ruling.is_grant(),
        None => false,
    }
}

// Whether the number is that of a ruling, or the next one.
fn is_next_number(stored: StoredRulings, number: u64) -> bool
    ensures { result ≡ is_next_number stored number }
{
    1 <= number && number <= u64::from(stored.count) + 1
}

// The refusal of a ruling, if any.
fn refusal_of_ruling<E>(
    end: &Option<GameEnd<E>>,
    stored: StoredRulings,
    number: u64,
    ruling: Ruling,
) -> Option<Refusal>
    ensures { result ≡ stored_refusal end.now stored number ruling }
{
    if is_late_for(end, ruling) {
        return Some(Refusal::GameOver);
    }
    if stored.asked.is_some() {
        return Some(Refusal::Conflict);
    }
    if !is_next_number(stored, number) || !ruling.has_grant_time() {
        return Some(Refusal::BadValue);
    }
    if stored.count >= MOST_RULINGS {
        return Some(Refusal::Full);
    }
    None
}

// The row with so many seconds more for a side.
fn granted_row<E: Copy + Drop>(
    row: &GameRow<E>,
    side: Side,
    seconds: u64,
) -> Result<GameRow<E>, Memory>
    requires time { seconds ≤ longest_grant }
    requires first { row.now.left_first + longest_grant < 2 ^ 64 }
    requires second { row.now.left_second + longest_grant < 2 ^ 64 }
    ensures clocks { IfOk result (λ new. clocks_in new ≡ after_ruling (Grant side seconds) (clocks_in row.now)) }
    ensures key { IfOk result (λ new.
        option_map (λ k. string_bytes k) new.key ≡ option_map (λ k. string_bytes k) row.now.key) }
    ensures position { IfOk result (λ new. string_bytes new.position ≡ string_bytes row.now.position) }
    ensures others { IfOk result (λ new. new ≡ record row.now {
      key = new.key;
      left_first = new.left_first;
      left_second = new.left_second;
      position = new.position;
    }) }
{
    let (left_first, left_second) = match side {
        Side::First => (row.left_first + seconds, row.left_second),
        Side::Second => (row.left_first, row.left_second + seconds),
    };
    let mut new = copy_row(row)?;
    new.left_first = left_first;
    new.left_second = left_second;
    Ok(new)
}

// Gives a side so many seconds more.
fn accept_grant<R: Rules>(
    view: &GameView<R>,
    side: Side,
    seconds: u64,
    number: u64,
) -> Result<Decision<R>, Memory>
    requires sound { IsSound R.rules view.now }
    requires time { seconds ≤ longest_grant }
    ensures { IfOk result (λ d. (game : Game R.Move) (moment : ℕ) → Shows R.rules game view.now →
        IsDecision R.rules (terms_of view.now) game
        (accepted (ruled game (Grant side seconds) moment) (ruling_given number)) d) }
{
    let row = granted_row(&view.row, side, seconds)?;
    Ok(Decision::Accepted {
        row,
        made: None,
        answer: Answer::RulingGiven { number },
    })
}

// Ends the game by a verdict, whatever ended it from outside before.
fn accept_verdict<R: Rules>(
    view: &GameView<R>,
    verdict: Verdict,
    number: u64,
) -> Result<Decision<R>, Memory>
    requires { rule_in view.now.row.end ≡ None }
    ensures { IfOk result (λ d. (game : Game R.Move) (ruling : Ruling) (moment : ℕ) → Shows R.rules game view.now →
        verdict_in ruling ≡ Some verdict →
        IsDecision R.rules (terms_of view.now) game (accepted (ruled game ruling moment) (ruling_given number)) d) }
{
    let mut row = copy_row(&view.row)?;
    row.end = Some(GameEnd::Verdict(verdict));
    row.result = verdict.score();
    Ok(Decision::Accepted {
        row,
        made: None,
        answer: Answer::RulingGiven { number },
    })
}

// Gives a ruling that nothing refuses.
fn accept_ruling<R: Rules>(
    view: &GameView<R>,
    number: u64,
    ruling: Ruling,
) -> Result<Decision<R>, Memory>
    requires sound { IsSound R.rules view.now }
    requires alone { rule_in view.now.row.end ≡ None }
    requires time { has_grant_time ruling ≡ true }
    ensures { IfOk result (λ d. (game : Game R.Move) (moment : ℕ) → Shows R.rules game view.now →
        IsDecision R.rules (terms_of view.now) game (accepted (ruled game ruling moment) (ruling_given number)) d) }
{
    let decision = match ruling {
        Ruling::Grant { side, seconds } => accept_grant(view, side, seconds, number)?,
        Ruling::Award(score) => accept_verdict(view, Verdict::Awarded(score), number)?,
        Ruling::Void => accept_verdict(view, Verdict::Voided, number)?,
    };
    Ok(decision)
}

/// Decides a ruling of the arbiter on the game in the view; only the officer may give one.
///
/// Rulings of a game are numbered from 1. The ruling that has the number is a repeat. A verdict stays possible after an
/// end for an outside reason or an earlier verdict; the latest one decides, and the outside end stays in the row. No
/// ruling follows an end by a rule of the game, and no grant any end. `stored.asked` must hold the ruling under the
/// command's number, if there is one.
///
/// # Errors
///
/// `Memory` if out of memory.
///
/// # Guarantees
///
/// If the view and the stored rulings are those of a game, the decision, completed by `settle` and `conclude`, is the
/// outcome of the specified transition `ruling_step` at any timestamp (clause `ensures`).
pub fn rule<R: Rules>(
    view: &GameView<R>,
    stored: StoredRulings,
    caller: Caller,
    command: &Rule,
) -> Result<Decision<R>, Memory>
    requires sound { IsSound R.rules view.now }
    ensures { IfOk result (λ d. (game : Game R.Move) (moment : ℕ) → Shows R.rules game view.now →
        ShowsRulings game command.now.number stored →
        IsDecision R.rules (terms_of view.now) game
        (by_officer caller (ruling_step R.rules game command.now.number command.now.ruling moment)) d) }
{
    if caller != Caller::Officer {
        return Ok(Decision::Refused(Refusal::NotAllowed));
    }
    let number = command.number;
    let ruling = command.ruling;
    if is_given(ruling, stored.asked) {
        return Ok(Decision::Repeated(Answer::RulingGiven { number }));
    }
    match refusal_of_ruling(&view.row.end, stored, number, ruling) {
        Some(refusal) => return Ok(Decision::Refused(refusal)),
        None => {}
    }
    let decision = accept_ruling(view, number, ruling)?;
    Ok(decision)
}
