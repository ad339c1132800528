//! The data that a command on a game reads and writes.

ghost use Rattle.std.specs.Prelude.{◌≡◌, IfOk, string_bytes};
ghost use Rattle.std.specs.Option.{option_map};

use clocks::Moment;
use club_requests::{OutsideEnd, Ruling, Verdict};
use club_rules::{Memory, Rules};
use squares::{Score, Side};

/// The reason why a game is over: a rule of the game, the arbiter's verdict, or a reason outside its rules.
#[derive(Clone, Copy, Drop)]
pub enum GameEnd<E> {
    Rule(E),
    Verdict(Verdict),
    Outside(OutsideEnd),
}

/// A draw offer, made by a side at a ply.
#[derive(Clone, Copy, Debug, PartialEq, Eq)]
pub struct Offer {
    pub side: Side,
    pub ply: u32,
}

/// The stored summary of a game: players by id, clocks in seconds, and the position as text.
#[derive(Drop)]
pub struct GameRow<E> {
    pub key: Option<String>,
    pub event: u32,
    pub first: u32,
    pub second: u32,
    pub start: Moment,
    /// The timestamp of the last move, or of the start.
    pub since: Moment,
    pub plies: u32,
    pub left_first: u64,
    pub left_second: u64,
    /// The two numbers by which the track (the summary of the moves for the drawing rules) is stored.
    pub track: (u32, u32),
    pub offer: Option<Offer>,
    /// The end for a reason outside the rules, also if the arbiter's verdict has replaced it.
    pub outside: Option<OutsideEnd>,
    /// `None` while the game is running.
    pub end: Option<GameEnd<E>>,
    /// `None` while the game is running, and for a void game.
    pub result: Option<Score>,
    pub position: String,
}

/// The move at the ply that a command names, with the mover's seconds left after it and the position before it.
#[derive(Drop)]
pub struct Asked<R: Rules> {
    pub ply: u32,
    pub made: R::Move,
    pub left: u64,
    pub before: R::Position,
}

/// All data that decides a command on one game.
#[derive(Drop)]
pub struct GameView<R: Rules> {
    pub row: GameRow<R::End>,
    pub budget: u64,
    pub increment: u64,
    /// Whether the event allows players to declare a win.
    pub declares: bool,
    pub position: R::Position,
    /// The summary of the moves so far, by which the rules judge the next one.
    pub track: R::Track,
    /// `None` if no move was played at that ply.
    pub asked: Option<Asked<R>>,
}

/// What is stored of the arbiter's rulings on a game, as a ruling under a number needs it.
#[derive(Clone, Copy, Debug, PartialEq, Eq)]
pub struct StoredRulings {
    /// The number of rulings.
    pub count: u32,
    /// The ruling under the number; `None` if there is none.
    pub asked: Option<Ruling>,
}

/// A newly played move with the position after it.
#[derive(Drop)]
pub struct Made<R: Rules> {
    pub made: R::Move,
    pub position: R::Position,
}

/// Clones the key of a row.
///
/// # Errors
///
/// `Memory` if out of memory.
pub fn copy_key(key: &Option<String>) -> Result<Option<String>, Memory>
    ensures { IfOk result (λ copy. option_map (λ k. string_bytes k) copy ≡ option_map (λ k. string_bytes k) key.now) }
{
    match key {
        Some(key) => Ok(Some(key.clone()?)),
        None => Ok(None),
    }
}

/// Clones a row.
///
/// # Errors
///
/// `Memory` if out of memory.
pub fn copy_row<E: Copy + Drop>(row: &GameRow<E>) -> Result<GameRow<E>, Memory>
    ensures key { IfOk result (λ copy.
        option_map (λ k. string_bytes k) copy.key ≡ option_map (λ k. string_bytes k) row.now.key) }
    ensures position { IfOk result (λ copy. string_bytes copy.position ≡ string_bytes row.now.position) }
    ensures others { IfOk result (λ copy. copy ≡ record row.now { key = copy.key; position = copy.position }) }
{
    Ok(GameRow {
        key: copy_key(&row.key)?,
        event: row.event,
        first: row.first,
        second: row.second,
        start: row.start,
        since: row.since,
        plies: row.plies,
        left_first: row.left_first,
        left_second: row.left_second,
        track: row.track,
        offer: row.offer,
        outside: row.outside,
        end: row.end,
        result: row.result,
        position: row.position.clone()?,
    })
}
