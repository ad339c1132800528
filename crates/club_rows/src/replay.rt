//! Replays a game from the rows of its moves.
//! Each row is compared with the values that the rules and the clocks give.

ghost use Rattle.std.specs.Prelude.{◌≡◌, ◌≢◌, ◌≤◌, ◌<◌, ◌+◌, ◌++◌, ◌∷◌, [], ◌^◌, ℕ, IfOk, IfSome, IsTrue, None};
ghost use Rattle.std.specs.Prelude.{Some, Ok, Bool, cond, length, is_some, string_bytes};
ghost use Rattle.squares.specs.declared.sides.Side.TheVariants.{First, Second};
ghost use Rattle.squares.specs.Sides.{other};
ghost use Rattle.club_rules.specs.Line.{IsPlayedLine, line_track, position_after};
ghost use Rattle.club_requests.specs.Limits.{is_budget, is_increment};
ghost use Rattle.club_core.specs.Game.{Game, Entry, clocks_of, clocks_then};
ghost use Rattle.club_rows.specs.Tables.{with_entry};
ghost use Rattle.club_rows.specs.internal.Tally.{PositionText, same_text, seen_at, stood_then, stood_seldom};
ghost use Rattle.club_rows.specs.internal.Replay.{IsCounted, IsReplayed, TakesTime, IsNext, Replays, Follows};
ghost use Rattle.club_rows.specs.internal.Replay.{WasReplayed};
ghost use Rattle.club_rows.specs.Replay.{IsPlayedAs};
ghost use Rattle.club_rows.specs.Rulings.{ArePossible};
ghost use Rattle.club_rows.specs.internal.Replay.{HasRoom, grants_to, granted_by};
ghost use Rattle.club_rows.specs.internal.Rulings.{given_of, rulings_given};
ghost use Rattle.club_rows.specs.internal.Replay.{left_in, clocks_replayed, terms_with, terms_given};

use crate::numbers::{to_i64, to_moment};
use crate::tally::{Occurrences, PositionCounts};
use clocks::{Clock, Moment};
use club_core::GivenRuling;
use club_requests::Ruling;
use club_requests::values::{MOST_PLIES, is_budget, is_increment};
use club_rules::{Memory, Rules};
use squares::Side;
use std::alloc::Global;
use store_tables::MoveRow;

/// The terms of an event: time budget of each player and increment per move, in seconds, and whether a player may
/// declare a win.
#[derive(Clone, Copy, Debug, PartialEq, Eq)]
pub struct Terms {
    pub budget: u64,
    pub increment: u64,
    pub declares: bool,
}

/// A game before its first move.
#[derive(Clone, Copy, Debug, PartialEq, Eq)]
pub struct Opening {
    pub id: u32,
    pub start: Moment,
    pub terms: Terms,
}

/// A game after the rows replayed so far.
#[derive(Drop)]
pub struct Replayed<R: Rules> {
    pub position: R::Position,
    pub line: Vec<R::Move>,
    pub left_first: u64,
    pub left_second: u64,
    pub since: Moment,
    /// The state that the rules keep beside the position.
    pub track: R::Track,
    pub tally: PositionCounts,
    /// The repetition count of the last position.
    pub stood: Occurrences,
}

/// A legal next move and the state after it.
#[derive(Drop)]
pub struct Next<R: Rules> {
    pub made: R::Move,
    pub position: R::Position,
    /// The notation of that position.
    pub text: String,
    pub turn: Side,
    pub moment: Moment,
    pub left: u64,
}

/// Parses the text of a row as a legal move. None if it is illegal, or not written exactly as the rules write it.
///
/// # Errors
///
/// `Memory` if out of memory.
pub fn move_of<R: Rules>(
    alloc: Global,
    position: &R::Position,
    text: &str,
) -> Result<Option<R::Move>, Memory>
    ensures legal { IfOk result (λ found. IfSome found (λ made. R.rules.check position.now made ≡ Ok tt)) }
    ensures text { IfOk result (λ found. IfSome found (λ made. text.now ≡ R.rules.write_move position.now made)) }
    ensures none { IfOk result (λ found. found ≡ None → (made : R.Move) → R.rules.check position.now made ≡ Ok tt →
        text.now ≢ R.rules.write_move position.now made) }
{
    let made = match R::read_move(alloc, position, text)? {
        Ok(made) => made,
        Err(_) => return Ok(None),
    };
    match R::check(position, &made) {
        Ok(()) => {}
        Err(_) => return Ok(None),
    }
    let written = R::write_move(alloc, position, &made)?;
    if written.as_str() != text {
        return Ok(None);
    }
    Ok(Some(made))
}

fn clock<R: Rules>(game: &Replayed<R>, side: Side, increment: u64) -> Clock
    ensures increment { result.increment ≡ increment }
    ensures left { result.left ≡ left_in game.now side }
{
    match side {
        Side::First => Clock {
            left: game.left_first,
            increment,
        },
        Side::Second => Clock {
            left: game.left_second,
            increment,
        },
    }
}

// The game before its first move.
fn start<R: Rules>(alloc: Global, budget: u64, start: Moment) -> Result<Replayed<R>, Memory>
    ensures safe { IfOk result (IsReplayed R.rules 0) }
    ensures clocks { IfOk result (λ game. clocks_replayed game
        ≡ record { left_first = budget; left_second = budget; since = start }) }
    ensures line { IfOk result (λ game. game.line.items ≡ []) }
{
    let position = R::start();
    let text = R::write_position(alloc, &position)?;
    let mut tally = PositionCounts::new(alloc);
    let stood = tally.add(text, 0)?;
    Ok(Replayed {
        track: R::track_start(&position),
        position,
        line: Vec::new(alloc),
        left_first: budget,
        left_second: budget,
        since: start,
        tally,
        stood,
    })
}

// The row's timestamp and the mover's remaining seconds, if both are those of a move in time.
fn clock_after<R: Rules>(
    game: &Replayed<R>,
    turn: Side,
    increment: u64,
    row: &MoveRow,
) -> Option<(Moment, u64)>
    requires increment { increment ≤ 2592000 }
    requires room { game.now.left_first + game.now.left_second < 2 ^ 62 }
    ensures some { IfSome result (λ after. TakesTime game.now turn increment row.now after.0 after.1) }
    ensures none { result ≡ None → (moment left : ℕ) → ¬ TakesTime game.now turn increment row.now moment left }
{
    let moment = match to_moment(row.moment) {
        Some(moment) => moment,
        None => return None,
    };
    if moment < game.since {
        return None;
    }
    let elapsed = moment.seconds() - game.since.seconds();
    let after = match clock(game, turn, increment).spend(elapsed) {
        Ok(after) => after,
        Err(_) => return None,
    };
    if to_i64(after.left) != row.left {
        return None;
    }
    Some((moment, after.left))
}

// The end that the rules give to the replayed line.
pub(crate) fn end_of<R: Rules>(game: &Replayed<R>) -> Option<R::End>
    requires line { IsPlayedLine R.rules R.rules.start game.now.line.items }
    requires position { game.now.position ≡ position_after R.rules R.rules.start game.now.line.items }
    requires counts { IsCounted R.rules game.now }
    ensures { result ≡ R.rules.judge R.rules.start game.now.line.items }
{
    let plies = game.line.len();
    let end = R::track_end(
        game.track,
        &game.position,
        plies,
        game.stood.times,
        game.stood.first_ply,
    );
    end
}

// The move of a row, if it is the legal next move and the row has exactly its values.
fn next_of<R: Rules>(
    alloc: Global,
    game: &Replayed<R>,
    increment: u64,
    id: u32,
    row: &MoveRow,
) -> Result<Option<Next<R>>, Memory>
    requires increment { increment ≤ 2592000 }
    requires room { game.now.left_first + game.now.left_second < 2 ^ 62 }
    requires plies { length game.now.line.items < 600 }
    requires line { IsPlayedLine R.rules R.rules.start game.now.line.items }
    requires position { game.now.position ≡ position_after R.rules R.rules.start game.now.line.items }
    requires counts { IsCounted R.rules game.now }
    ensures some { IfOk result (λ found. IfSome found (λ next. IsNext R.rules increment id game.now row.now next.made
        next.moment next.left)) }
    ensures after { IfOk result (λ found. IfSome found (λ next. next.position
        ≡ R.rules.play game.now.position next.made)) }
    ensures text { IfOk result (λ found. IfSome found (λ next. string_bytes next.text
        ≡ R.rules.write_position (R.rules.play game.now.position next.made))) }
    ensures turn { IfOk result (λ found. IfSome found (λ next. next.turn ≡ R.rules.turn game.now.position)) }
    ensures none { IfOk result (λ found. found ≡ None → (made : R.Move) (moment left : ℕ) →
        ¬ IsNext R.rules increment id game.now row.now made moment left) }
{
    if end_of(game).is_some() {
        return Ok(None);
    }
    if row.game != i64::from(id) {
        return Ok(None);
    }
    if row.ply != to_i64(game.line.len() as u64 + 1) {
        return Ok(None);
    }
    let made = match move_of::<R>(alloc, &game.position, row.text.as_str())? {
        Some(made) => made,
        None => return Ok(None),
    };
    let turn = R::turn(&game.position);
    let (moment, left) = match clock_after(game, turn, increment, row) {
        Some(after) => after,
        None => return Ok(None),
    };
    let position = R::play(&game.position, &made);
    let written = R::write_position(alloc, &position)?;
    if written.as_str() != row.position.as_str() {
        return Ok(None);
    }
    Ok(Some(Next {
        made,
        position,
        text: written,
        turn,
        moment,
        left,
    }))
}

// Plays the move.
fn advanced<R: Rules>(game: Replayed<R>, next: Next<R>) -> Result<Replayed<R>, Memory>
    requires plies { length game.line.items < 600 }
    requires track { game.track ≡ line_track R.rules R.rules.start game.line.items }
    ensures line { IfOk result (λ new. new.line.items ≡ game.line.items ++ next.made ∷ []) }
    ensures position { IfOk result (λ new. new.position ≡ next.position) }
    ensures mover { IfOk result (λ new. left_in new next.turn ≡ next.left) }
    ensures other { IfOk result (λ new. left_in new (other next.turn) ≡ left_in game (other next.turn)) }
    ensures since { IfOk result (λ new. new.since ≡ next.moment) }
    ensures track { IfOk result (λ new. new.track ≡ R.rules.track_next game.track game.position next.made
        next.position) }
    ensures stood { IfOk result (λ new. stood_seldom (seen_at game.tally next.text) →
        new.stood ≡ stood_then (seen_at game.tally next.text) (length game.line.items + 1)) }
    ensures tally { IfOk result (λ new. (other : PositionText) →
        seen_at new.tally other ≡ cond (same_text next.text other) (Some new.stood) (seen_at game.tally other)) }
{
    let (left_first, left_second) = match next.turn {
        Side::First => (next.left, game.left_second),
        Side::Second => (game.left_first, next.left),
    };
    let track = R::track_next(game.track, &game.position, &next.made, &next.position);
    let mut tally = game.tally;
    let stood = tally.add(next.text, game.line.len() + 1)?;
    let mut line = game.line;
    line.push(next.made)?;
    Ok(Replayed {
        position: next.position,
        line,
        left_first,
        left_second,
        since: next.moment,
        track,
        tally,
        stood,
    })
}

// Replays one more row. None if it is not the row of the next move.
fn with_row<R: Rules>(
    alloc: Global,
    game: Replayed<R>,
    increment: u64,
    id: u32,
    row: &MoveRow,
) -> Result<Option<Replayed<R>>, Memory>
    requires increment { increment ≤ 2592000 }
    requires room { length game.line.items < 600 }
    requires left { game.left_first + game.left_second < 2 ^ 62 }
    requires game { IsReplayed R.rules (length game.line.items) game }
    ensures safe { IfOk result (λ found. IfSome found (IsReplayed R.rules (length game.line.items + 1))) }
    ensures first { IfOk result (λ found. IfSome found (λ new. new.left_first ≤ game.left_first + increment)) }
    ensures second { IfOk result (λ found. IfSome found (λ new. new.left_second ≤ game.left_second + increment)) }
    ensures some { IfOk result (λ found. IfSome found (λ new. (budget : ℕ) (declares : Bool) (old : Game R.Move) →
        Replays R.rules old (clocks_of old (terms_with budget increment declares)) game →
        (e : Entry R.Move) × Follows R.rules (terms_with budget increment declares) id old row.now e
        × Replays R.rules (with_entry old e)
        (clocks_then (with_entry old e) (terms_with budget increment declares)) new)) }
    ensures none { IfOk result (λ found. found ≡ None → (budget : ℕ) (declares : Bool) (old : Game R.Move) →
        Replays R.rules old (clocks_of old (terms_with budget increment declares)) game → (e : Entry R.Move) →
        ¬ Follows R.rules (terms_with budget increment declares) id old row.now e) }
{
    match next_of::<R>(alloc, &game, increment, id, row)? {
        Some(next) => {
            let new = advanced(game, next)?;
            Ok(Some(new))
        }
        None => Ok(None),
    }
}

// The seconds that a ruling grants to this side after so many plies.
fn granted_by(ruling: &GivenRuling, side: Side, plies: u64) -> u64
    ensures { result ≡ granted_by side plies (given_of ruling.now) }
{
    if ruling.plies != plies {
        return 0;
    }
    match ruling.ruling {
        Ruling::Grant { side: to, seconds } => { if to == side { seconds } else { 0 } }
        Ruling::Award(_) => 0,
        Ruling::Void => 0,
    }
}

// The seconds of a side with what these rulings grant after so many plies.
fn with_grants(left: u64, side: Side, plies: u64, rulings: &[GivenRuling]) -> u64
    requires { left + grants_to side plies (rulings_given rulings.now) < 2 ^ 63 }
    ensures { result ≡ left + grants_to side plies (rulings_given rulings.now) }
{
    let mut sum = left;
    for ruling in rulings {
        sum += granted_by(ruling, side, plies);
    }
    sum
}

// The game with the time that was granted since its last move.
fn granted<R: Rules>(game: Replayed<R>, rulings: &[GivenRuling]) -> Replayed<R>
    requires first { game.left_first + grants_to First (length game.line.items) (rulings_given rulings.now) < 2 ^ 63 }
    requires second { game.left_second + grants_to Second (length game.line.items) (rulings_given rulings.now)
        < 2 ^ 63 }
    ensures first { result.left_first ≡
        game.left_first + grants_to First (length game.line.items) (rulings_given rulings.now) }
    ensures second { result.left_second ≡
        game.left_second + grants_to Second (length game.line.items) (rulings_given rulings.now) }
    ensures others { result ≡ record game { left_first = result.left_first; left_second = result.left_second } }
{
    let plies = game.line.len() as u64;
    let left_first = with_grants(game.left_first, Side::First, plies, rulings);
    let left_second = with_grants(game.left_second, Side::Second, plies, rulings);
    let mut new = game;
    new.left_first = left_first;
    new.left_second = left_second;
    new
}

/// Replays the rows of a game's moves, in the order of plies, with the time that these rulings granted. None if no game
/// with this opening and these rulings has exactly these rows, or a term is outside its limits.
///
/// # Errors
///
/// `Memory` if out of memory.
pub fn replay<R: Rules>(
    alloc: Global,
    opening: Opening,
    rulings: &[GivenRuling],
    rows: &[MoveRow],
) -> Result<Option<Replayed<R>>, Memory>
    requires { ArePossible (rulings_given rulings.now) }
    ensures safe { IfOk result (λ found. IfSome found (IsReplayed R.rules (length rows.now))) }
    ensures short { IfOk result (λ found. IfSome found (λ game. length rows.now ≤ 600)) }
    ensures room { IfOk result (λ found. IfSome found (λ game. HasRoom (clocks_replayed game))) }
    ensures terms { IfOk result (λ found. IfSome found (λ game. IsTrue (is_budget opening.terms.budget)
        × IsTrue (is_increment opening.terms.increment))) }
    ensures some { IfOk result (λ found. IfSome found (λ game. WasReplayed R.rules
        (terms_given opening.terms) opening.id (rulings_given rulings.now) opening.start rows.now
        (length rows.now) game)) }
    ensures none { IfOk result (λ found. found ≡ None → IsTrue (is_budget opening.terms.budget) →
        IsTrue (is_increment opening.terms.increment) →
        (game : Game R.Move) → game.rulings ≡ rulings_given rulings.now →
        ¬ IsPlayedAs R.rules (terms_given opening.terms) opening.id opening.start rows.now game) }
{
    if !is_budget(opening.terms.budget) {
        return Ok(None);
    }
    if !is_increment(opening.terms.increment) {
        return Ok(None);
    }
    if rows.len() > MOST_PLIES as usize {
        return Ok(None);
    }
    let begun = start(alloc, opening.terms.budget, opening.start)?;
    let mut game = granted::<R>(begun, rulings);
    for row in rows {
        let next = match with_row::<R>(alloc, game, opening.terms.increment, opening.id, row)? {
            Some(next) => next,
            None => return Ok(None),
        };
        let more = granted(next, rulings);
        game = more;
    }
    Ok(Some(game))
}
