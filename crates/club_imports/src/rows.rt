//! The row of an imported game.

ghost use Rattle.std.specs.Prelude.{◌≡◌, ◌≤◌, ◌<◌, ◌+◌, ◌^◌, ℕ, Bool, [], length, Some, None, IfOk, IsTrue};
ghost use Rattle.squares.specs.declared.sides.Side.TheVariants.{First};
ghost use Rattle.club_rules.specs.Line.{IsPlayedLine, position_after, line_track};
ghost use Rattle.club_rules.specs.Records.{IsGameByRules};
ghost use Rattle.club_rules.specs.internal.Records.{recorded_of};
ghost use Rattle.club_core.specs.Game.{end_with, left_of, spend, spend_all};
ghost use Rattle.club_core.specs.Imports.{recorded_end, imported};
ghost use Rattle.club_requests.specs.Limits.{most_plies, is_budget, is_increment};
ghost use Rattle.club_core.specs.View.{IsRowOf};
ghost use Rattle.club_imports.specs.internal.OneMoment.{at_moment, clocks_with};

use crate::imports::NewGame;
use clocks::Moment;
use club_core::{GameEnd, GameRow};
use club_requests::OutsideEnd;
use club_rules::{Memory, Rules};
use squares::{Score, Side};
use std::alloc::Global;

/// The position and the track after the moves of a line.
#[derive(Drop)]
struct LineState<R: Rules> {
    position: R::Position,
    track: R::Track,
}

fn line_state_after<R: Rules>(moves: &[R::Move]) -> LineState<R>
    requires line { IsPlayedLine R.rules R.rules.start moves.now }
    requires few { length moves.now ≤ most_plies }
    ensures position { result.position ≡ position_after R.rules R.rules.start moves.now }
    ensures track { result.track ≡ line_track R.rules R.rules.start moves.now }
{
    let mut position = R::start();
    let mut track = R::track_start(&position);
    for i in 0..moves.len() {
        let made = &moves[i];
        let next = R::play(&position, made);
        track = R::track_next(track, &position, made, &next);
        position = next;
    }
    LineState { position, track }
}

/// The seconds that both players have left.
#[derive(Clone, Copy, Debug, PartialEq, Eq)]
pub struct RemainingTimes {
    pub first: u64,
    pub second: u64,
}

impl RemainingTimes {
    /// The seconds that a side has left.
    pub fn seconds_of(self, side: Side) -> u64
        ensures { (moment : ℕ) → result ≡ left_of side (clocks_with self.first self.second moment) }
    {
        match side {
            Side::First => self.first,
            Side::Second => self.second,
        }
    }

    /// Adds an increment (in seconds) for a side, whose move took no time.
    pub fn with_increment(self, side: Side, increment: u64) -> RemainingTimes
        requires first { self.first + increment < 2 ^ 64 }
        requires second { self.second + increment < 2 ^ 64 }
        ensures { (moment : ℕ) → clocks_with result.first result.second moment
            ≡ spend increment side moment (clocks_with self.first self.second moment) }
    {
        match side {
            Side::First => RemainingTimes {
                first: self.first + increment,
                second: self.second,
            },
            Side::Second => RemainingTimes {
                first: self.first,
                second: self.second + increment,
            },
        }
    }
}

/// The seconds left after moves that took no time, each adding the increment to the mover's clock.
fn left_after(budget: u64, increment: u64, plies: usize) -> RemainingTimes
    requires budget { IsTrue (is_budget budget) }
    requires increment { IsTrue (is_increment increment) }
    requires few { plies ≤ most_plies }
    ensures { (moment : ℕ) → clocks_with result.first result.second moment
        ≡ spend_all increment [] 0 First (at_moment moment plies) (clocks_with budget budget moment) }
{
    let mut left = RemainingTimes {
        first: budget,
        second: budget,
    };
    let mut side = Side::First;
    for ply in 0..plies {
        left = left.with_increment(side, increment);
        side = side.other();
    }
    left
}

/// The end of a recorded game for a reason outside the rules: the record's score, if the rules gave no end.
fn outside_of_record<E>(end: &Option<E>, score: Score) -> Option<OutsideEnd>
    ensures { result ≡ recorded_end end.now score }
{
    match end {
        Some(_) => None,
        None => Some(OutsideEnd::Recorded(score)),
    }
}

/// The end of a recorded game: by the rules, otherwise as the record states.
fn end_of_record<E>(end: Option<E>, score: Score) -> Option<GameEnd<E>>
    ensures { result ≡ end_with end None (recorded_end end score) }
{
    match end {
        Some(end) => Some(GameEnd::Rule(end)),
        None => Some(GameEnd::Outside(OutsideEnd::Recorded(score))),
    }
}

/// The row of a recorded game that is imported under a key at this timestamp. The budget and the increment are in
/// seconds; each move adds the increment and takes no time.
///
/// # Errors
///
/// `Memory` if out of memory.
pub fn imported_row<R: Rules>(
    alloc: Global,
    key: &str,
    new: &NewGame<R::Move>,
    budget: u64,
    increment: u64,
    start: Moment,
) -> Result<GameRow<R::End>, Memory>
    requires by_rules { IsGameByRules R.rules (recorded_of new.now.recorded) }
    requires budget { IsTrue (is_budget budget) }
    requires increment { IsTrue (is_increment increment) }
    ensures { IfOk result (λ row. (declares : Bool) →
        IsRowOf R.rules (record { budget = budget; increment = increment; declares = declares })
        (imported R.rules (Some key.now) new.now.pairing start (recorded_of new.now.recorded)) row) }
{
    let moves = new.recorded.moves.as_slice();
    let line_state = line_state_after::<R>(moves);
    let opening = R::start();
    let end = R::judge(alloc, &opening, moves)?;
    let left = left_after(budget, increment, moves.len());
    let key = String::from_str(alloc, key)?;
    let position = R::write_position(alloc, &line_state.position)?;
    Ok(GameRow {
        key: Some(key),
        event: new.pairing.event,
        first: new.pairing.first,
        second: new.pairing.second,
        start,
        since: start,
        plies: moves.len() as u32,
        left_first: left.first,
        left_second: left.second,
        track: R::track_numbers(&line_state.track),
        offer: None,
        outside: outside_of_record(&end, new.recorded.score),
        end: end_of_record(end, new.recorded.score),
        result: Some(new.recorded.score),
        position,
    })
}
