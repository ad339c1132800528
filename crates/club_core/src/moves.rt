//! A move in one game: played, refused, or a repeat of a move already played.

ghost use Rattle.std.specs.Prelude.{◌≡◌, ℕ, Ok, ◌+◌, ◌-◌, ◌^◌, ◌<◌, ◌≤◌, Option, Some, None, IfOk, IfErr};
ghost use Rattle.std.specs.Prelude.{string_bytes};
ghost use Rattle.std.specs.Option.{option_map};
ghost use Rattle.club_core.specs.Answer.{reply_of};
ghost use Rattle.club_core.specs.Game.{Game, spend, left_of, left_after};
ghost use Rattle.club_core.specs.Legal.{IsLegalGame};
ghost use Rattle.club_core.specs.Step.{move_refusal, checked, step_move, repeat_of, move_at, plays, reads_as};
ghost use Rattle.club_core.specs.View.{Shows, ShowsPly, IsSound, terms_of, clocks_in};
ghost use Rattle.club_core.specs.internal.View.{CanPlay, IsDecision};

use crate::decided::Decision;
use crate::ends::{name_of_end, rule_in};
use crate::players::{is_side, left_in, side_of_ply};
use crate::rows::{GameRow, GameView, Made, copy_key};
use clocks::{Clock, Moment};
use club_requests::values::MOST_TEXT_BYTES;
use club_requests::{Answer, MoveAnswer, Refusal};
use club_rules::{Memory, MoveRefusal, Rules};
use squares::Side;
use std::alloc::Global;

/// Whether the text denotes the move `made` in the position `before`.
fn reads_as<R: Rules>(
    alloc: Global,
    before: &R::Position,
    text: &str,
    made: &R::Move,
) -> Result<bool, Memory>
    ensures { IfOk result (λ b. b ≡ reads_as R.rules (R.rules.read_move before.now text.now) made.now) }
{
    match R::read_move(alloc, before, text)? {
        Ok(read) => Ok(R::is_same_move(&read, made)),
        Err(_) => Ok(false),
    }
}

/// Reads a move's text and checks that the move is legal.
///
/// # Errors
///
/// `Memory` if out of memory.
pub fn read_legal<R: Rules>(
    alloc: Global,
    position: &R::Position,
    text: &str,
) -> Result<Result<R::Move, MoveRefusal>, Memory>
    ensures value { IfOk result
        (λ read. read ≡ checked R.rules position.now (R.rules.read_move position.now text.now)) }
    ensures legal { IfOk result (λ read. IfOk read (λ made. R.rules.check position.now made ≡ Ok tt)) }
{
    let made = match R::read_move(alloc, position, text)? {
        Ok(made) => made,
        Err(refusal) => return Ok(Err(refusal)),
    };
    match R::check(position, &made) {
        Ok(()) => Ok(Ok(made)),
        Err(refusal) => Ok(Err(refusal)),
    }
}

/// The clock of a side, from the row.
fn clock_in<E>(row: &GameRow<E>, side: Side, increment: u64) -> Clock
    ensures { result ≡ record { left = left_of side (clocks_in row.now); increment = increment } }
{
    Clock {
        left: left_in(row, side),
        increment,
    }
}

/// The answer to a repeat of the move in the view's `asked`, if the command is one.
fn repeat_of<R: Rules>(
    alloc: Global,
    view: &GameView<R>,
    side: Side,
    ply: u64,
    text: &str,
) -> Result<Option<Answer>, Memory>
    requires { IsSound R.rules view.now }
    ensures { IfOk result (λ answer. (game : Game R.Move) → Shows R.rules game view.now →
        ShowsPly R.rules game ply view.now →
        IsLegalGame R.rules (terms_of view.now) game →
        option_map reply_of answer ≡ repeat_of R.rules (terms_of view.now) game ply (move_at game ply) side text.now) }
{
    let asked = match &view.asked {
        Some(asked) => asked,
        None => return Ok(None),
    };
    if !is_side(side, side_of_ply(ply)) {
        return Ok(None);
    }
    let repeats = reads_as::<R>(alloc, &asked.before, text, &asked.made)?;
    if !repeats {
        return Ok(None);
    }
    let written = R::write_move(alloc, &asked.before, &asked.made)?;
    let after = R::play(&asked.before, &asked.made);
    let position = R::write_position(alloc, &after)?;
    let end = if asked.ply == view.row.plies {
        rule_in(&view.row.end)
    } else {
        None
    };
    Ok(Some(Answer::Moved(MoveAnswer {
        ply: asked.ply,
        text: written,
        left: asked.left,
        position,
        end: name_of_end::<R>(end),
    })))
}

/// The mover's clock after a new move, or the refusal that applies before the text is read.
fn clock_after<R: Rules>(
    view: &GameView<R>,
    side: Side,
    ply: u64,
    text: &str,
    moment: Moment,
) -> Result<Clock, Refusal>
    requires sound { IsSound R.rules view.now }
    requires later { view.now.row.since ≤ moment }
    ensures refused { IfErr result (λ refusal. (game : Game R.Move) → Shows R.rules game view.now →
        move_refusal R.rules (terms_of view.now) game moment side ply text.now ≡ Some refusal) }
    ensures allowed { IfOk result (λ clock. (game : Game R.Move) → Shows R.rules game view.now →
        move_refusal R.rules (terms_of view.now) game moment side ply text.now ≡ None) }
    ensures running { IfOk result (λ clock. view.now.row.end ≡ None) }
    ensures to_move { IfOk result (λ clock. side ≡ R.rules.turn view.now.position) }
    ensures left { IfOk result (λ clock. clock.left ≡
        left_after (left_of side (clocks_in view.now.row)) view.now.increment (moment - view.now.row.since)) }
{
    if view.row.end.is_some() {
        return Err(Refusal::GameOver);
    }
    let plies = u64::from(view.row.plies);
    if ply == 0 || ply > plies + 1 {
        return Err(Refusal::WrongPly);
    }
    if ply <= plies {
        return Err(Refusal::Conflict);
    }
    let turn = R::turn(&view.position);
    if !is_side(side, turn) {
        return Err(Refusal::NotYourTurn);
    }
    let elapsed = moment.seconds() - view.row.since.seconds();
    let clock = match clock_in(&view.row, turn, view.increment).spend(elapsed) {
        Ok(clock) => clock,
        Err(_) => return Err(Refusal::OutOfTime),
    };
    if text.len() > MOST_TEXT_BYTES {
        return Err(Refusal::BadValue);
    }
    Ok(clock)
}

/// When a side moved, and the seconds that the move left it.
#[derive(Clone, Copy)]
struct MoveTime {
    side: Side,
    moment: Moment,
    left: u64,
}

/// The row after a move at this time, with the new track and position.
fn moved_row<E: Copy + Drop>(
    row: &GameRow<E>,
    time: MoveTime,
    track: (u32, u32),
    position: String,
) -> Result<GameRow<E>, Memory>
    requires plies { row.now.plies < 2 ^ 32 - 1 }
    ensures clocks { IfOk result
        (λ new. (increment : ℕ) → time.left ≡ left_after (left_of time.side (clocks_in row.now)) increment
        (time.moment - row.now.since) →
        clocks_in new ≡ spend increment time.side time.moment (clocks_in row.now)) }
    ensures left { IfOk result (λ new. left_of time.side (clocks_in new) ≡ time.left) }
    ensures key { IfOk result (λ new. option_map (λ k. string_bytes k) new.key
        ≡ option_map (λ k. string_bytes k) row.now.key) }
    ensures others { IfOk result (λ new. new ≡ record row.now {
      key = new.key;
      since = time.moment;
      plies = row.now.plies + 1;
      left_first = new.left_first;
      left_second = new.left_second;
      track = track;
      offer = None;
      end = None;
      result = None;
      position = position;
    }) }
{
    let (left_first, left_second) = match time.side {
        Side::First => (time.left, row.left_second),
        Side::Second => (row.left_first, time.left),
    };
    Ok(GameRow {
        key: copy_key(&row.key)?,
        event: row.event,
        first: row.first,
        second: row.second,
        start: row.start,
        since: time.moment,
        plies: row.plies + 1,
        left_first,
        left_second,
        track,
        offer: None,
        outside: row.outside,
        end: None,
        result: None,
        position,
    })
}

/// Plays a legal move in a running game.
fn accept_move<R: Rules>(
    alloc: Global,
    view: &GameView<R>,
    turn: Side,
    made: R::Move,
    left: u64,
    moment: Moment,
) -> Result<Decision<R>, Memory>
    requires sound { IsSound R.rules view.now }
    requires can { CanPlay R.rules view.now turn made left moment }
    ensures { IfOk result (λ d. (game : Game R.Move) → Shows R.rules game view.now →
        IsLegalGame R.rules (terms_of view.now) game →
        IsDecision R.rules (terms_of view.now) game (plays R.rules (terms_of view.now) game moment (Ok made)) d) }
{
    let text = R::write_move(alloc, &view.position, &made)?;
    let position = R::play(&view.position, &made);
    let track = R::track_next(view.track, &view.position, &made, &position);
    let written = R::write_position(alloc, &position)?;
    let shown = written.clone()?;
    let numbers = R::track_numbers(&track);
    let time = MoveTime {
        side: turn,
        moment,
        left,
    };
    let row = moved_row(&view.row, time, numbers, written)?;
    let answer = Answer::Moved(MoveAnswer {
        ply: row.plies,
        text,
        left,
        position: shown,
        end: None,
    });
    Ok(Decision::Accepted {
        row,
        made: Some(Made { made, position }),
        answer,
    })
}

/// Decides a move by the player of a side.
///
/// # Errors
///
/// `Memory` if out of memory.
pub fn play_move<R: Rules>(
    alloc: Global,
    view: &GameView<R>,
    side: Side,
    ply: u64,
    text: &str,
    moment: Moment,
) -> Result<Decision<R>, Memory>
    requires sound { IsSound R.rules view.now }
    requires later { view.now.row.since ≤ moment }
    ensures { IfOk result (λ d. (game : Game R.Move) → Shows R.rules game view.now →
        ShowsPly R.rules game ply view.now →
        IsLegalGame R.rules (terms_of view.now) game →
        IsDecision R.rules (terms_of view.now) game
        (step_move R.rules (terms_of view.now) game moment side ply text.now) d) }
{
    match repeat_of(alloc, view, side, ply, text)? {
        Some(answer) => return Ok(Decision::Repeated(answer)),
        None => {}
    }
    let clock = match clock_after(view, side, ply, text, moment) {
        Ok(clock) => clock,
        Err(refusal) => return Ok(Decision::Refused(refusal)),
    };
    let made = match read_legal::<R>(alloc, &view.position, text)? {
        Ok(made) => made,
        Err(refusal) => {
            let ply = view.row.plies + 1;
            return Ok(Decision::Refused(Refusal::Play { ply, refusal }));
        }
    };
    let decision = accept_move(alloc, view, side, made, clock.left, moment)?;
    Ok(decision)
}
