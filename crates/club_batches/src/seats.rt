//! The batch that seats a round robin.

ghost use Rattle.std.specs.Prelude.{◌≡◌, ◌++◌, None, Some, false, IfErr, IfOk, OnOk, length, map, string_bytes};
ghost use Rattle.std.specs.List.{list_all, list_any};
ghost use Rattle.club_core.specs.Answer.{command_of, request_of};
ghost use Rattle.club_requests.specs.Limits.{is_name};
ghost use Rattle.club_requests.specs.Outcome.{first_refusal};
ghost use Rattle.club_batches.specs.Seats.{IsSeatError, are_keys, asked_name, games_of, has_twice, is_same, key_of};
ghost use Rattle.club_batches.specs.Seats.{line_of, name_at, name_tests, numbers_to, robin_refusal, seat_command};
ghost use Rattle.club_batches.specs.Seats.{seat_line, seat_lines, seat_request};

use crate::orders::{batch_for, push_order};
use cli::{Batch, RoundRobin};
use clocks::Moment;
use club_requests::{Command, GameFilter, Listing, Question, Refusal, Request, Seat, is_name};
use pairings::{BoardPairing, rounds};
use std::alloc::{AllocError, Global};

/// The maximum number of players of a round robin.
const MOST_PLAYERS: usize = 32;

/// The minimum number of players of a round robin.
const FEWEST_PLAYERS: usize = 2;

/// The reason why no round robin is seated.
#[derive(Debug, Drop)]
pub enum SeatError {
    Refused(Refusal),
    Memory,
}

impl From<AllocError> for SeatError {
    ghost use Rattle.std.specs.Prelude.{◌≡◌};
    ghost use Rattle.club_batches.specs.declared.seats.SeatError.TheVariants as seat_error;

    ghost from_gives = { λ _ given. given ≡ seat_error.Memory };

    fn from(_refused: AllocError) -> SeatError {
        SeatError::Memory
    }
}

fn is_same(one: &String, other: &String) -> bool
    ensures { result ≡ is_same one.now other.now }
{
    one.as_str() == other.as_str()
}

fn is_among(name: &String, names: &[String]) -> bool
    ensures { result ≡ list_any (is_same name.now) names.now }
{
    names.iter().any(|other| is_same(name, other))
}

// Whether a name occurs twice.
fn has_twice(names: &[String]) -> bool
    ensures { result ≡ has_twice names.now }
{
    for (place, name) in names.iter().enumerate() {
        if is_among(name, &names[place + 1..]) {
            return true;
        }
    }
    false
}

// A query that is refused unless a member has the name.
fn question_for(alloc: Global, name: &str) -> Result<Question, AllocError>
    ensures { IfOk result (λ question. asked_name question ≡ Some name.now) }
{
    Ok(Question::Games(Listing {
        event: None,
        member: Some(String::from_str(alloc, name)?),
        which: GameFilter::All,
    }))
}

fn questions_for(alloc: Global, names: &[String]) -> Result<Vec<Question>, AllocError>
    ensures { IfOk result (λ questions. map asked_name questions.items ≡
        map (λ name. Some (string_bytes name)) names.now) }
{
    let mut questions = Vec::new(alloc);
    for name in names {
        questions.push(question_for(alloc, name.as_str())?)?;
    }
    Ok(questions)
}

fn key_of(alloc: Global, prefix: &str, game: BoardPairing) -> Result<String, AllocError>
    ensures { IfOk result (λ key. string_bytes key ≡ key_of prefix.now game) }
{
    let round = game.round;
    let board = game.board;
    format!(in alloc; "{prefix}{round}.{board}")
}

// A copy of a player's name. Players count from 1.
fn name_of(alloc: Global, names: &[String], player: u32) -> Result<String, AllocError>
    ensures { IfOk result (λ name. string_bytes name ≡ name_at (map string_bytes names.now) player) }
{
    match names.get((player as usize).saturating_sub(1)) {
        Some(name) => String::from_str(alloc, name.as_str()),
        None => Ok(String::new(alloc)),
    }
}

fn seat_of(alloc: Global, robin: &RoundRobin, game: BoardPairing) -> Result<Command, AllocError>
    ensures { IfOk result (λ command. command_of command ≡ seat_command robin.entry.now game) }
{
    Ok(Command::Seat(Seat {
        key: key_of(alloc, robin.prefix.as_str(), game)?,
        event: robin.event.clone()?,
        first: name_of(alloc, robin.names.as_slice(), game.first)?,
        second: name_of(alloc, robin.names.as_slice(), game.second)?,
    }))
}

// Whether each name is a valid name of a member.
fn are_names(names: &[String]) -> bool
    ensures { result ≡ list_all (λ name. is_name (string_bytes name)) names.now }
{
    names.iter().all(|name| is_name(name.as_str()))
}

// The refusal of the names: the event's name is invalid, or a member's name is invalid or occurs twice.
fn refusal_of(robin: &RoundRobin) -> Option<Refusal>
    ensures { result ≡ first_refusal (name_tests robin.entry.now) }
{
    if !is_name(robin.event.as_str()) {
        return Some(Refusal::UnknownEvent);
    }
    if has_twice(robin.names.as_slice()) {
        return Some(Refusal::BadValue);
    }
    if !are_names(robin.names.as_slice()) {
        return Some(Refusal::BadValue);
    }
    None
}

// Whether the keys of all games are valid.
fn are_keys(alloc: Global, prefix: &str, games: &[BoardPairing]) -> Result<bool, AllocError>
    ensures { IfOk result (λ valid. valid ≡ are_keys prefix.now games.now) }
{
    for game in games {
        let key = key_of(alloc, prefix, *game)?;
        if !is_name(key.as_str()) {
            return Ok(false);
        }
    }
    Ok(true)
}

// The batch that seats the games, with commands numbered from 1.
fn seated(
    alloc: Global,
    robin: &RoundRobin,
    games: &[BoardPairing],
    questions: Vec<Question>,
    moment: Moment,
) -> Result<Batch, AllocError>
    ensures requests { IfOk result (λ batch. map request_of batch.requests.items ≡
        map (seat_request robin.entry.now moment) games.now) }
    ensures numbers { IfOk result (λ batch. batch.numbers.items ≡ numbers_to (length games.now)) }
    ensures questions { IfOk result (λ batch. batch.questions ≡ questions) }
{
    let mut batch = batch_for(alloc, questions);
    let mut number: u64 = 0;
    for game in games {
        number += 1;
        push_order(&mut batch, number, seat_of(alloc, robin, *game)?, moment)?;
    }
    Ok(batch)
}

/// The batch that seats a round robin: one `seat` command for each game of the Berger table, in the order of rounds,
/// numbered from 1. Its queries check that each name is a member's.
///
/// # Errors
///
/// - `SeatError::Refused` with `BadValue` if there are fewer than 2 or more than 32 players, a name is invalid or
///   occurs twice, or a key is invalid; with `UnknownEvent` if the event's name is invalid. The number of players is
///   tested first, then the event's name, the members' names, and the keys.
/// - `SeatError::Memory` if out of memory.
///
/// # Guarantees
///
/// `requests`, `numbers`, `questions`: the batch is exactly this one. `accepted`: no test refuses the round robin.
/// `refused`: the refusal is that of the first test that fails.
pub fn seats_of(alloc: Global, robin: &RoundRobin, moment: Moment) -> Result<Batch, SeatError>
    ensures requests { IfOk result (λ batch. map request_of batch.requests.items ≡
        map (seat_request robin.entry.now moment) (games_of robin.entry.now)) }
    ensures numbers { IfOk result (λ batch. batch.numbers.items ≡ numbers_to (length (games_of robin.entry.now))) }
    ensures questions { IfOk result (λ batch. map asked_name batch.questions.items ≡
        map (λ name. Some (string_bytes name)) robin.entry.now.names.items) }
    ensures accepted { IfOk result (λ batch. robin_refusal robin.entry.now ≡ None) }
    ensures refused { IfErr result (IsSeatError robin.entry.now) }
{
    let players = robin.names.as_slice().len();
    if players < FEWEST_PLAYERS || players > MOST_PLAYERS {
        return Err(SeatError::Refused(Refusal::BadValue));
    }
    match refusal_of(robin) {
        Some(refusal) => return Err(SeatError::Refused(refusal)),
        None => {}
    }
    let games = rounds(alloc, players as u32, robin.is_double)?;
    if !are_keys(alloc, robin.prefix.as_str(), games.as_slice())? {
        return Err(SeatError::Refused(Refusal::BadValue));
    }
    let questions = questions_for(alloc, robin.names.as_slice())?;
    Ok(seated(alloc, robin, games.as_slice(), questions, moment)?)
}

// Appends a `seat` command as a line of a batch.
fn push_seat_line(lines: &mut String, seat: &Seat) -> Result<(), AllocError>
    ensures { OnOk result (string_bytes lines.new ≡ string_bytes lines.old ++ seat_line seat.now) }
{
    let key = seat.key.as_str();
    let event = seat.event.as_str();
    let first = seat.first.as_str();
    let second = seat.second.as_str();
    writeln!(lines, "seat {key} {event} {first} {second}")
}

// Appends a command as a line of a batch, if it is a `seat`.
fn push_line(lines: &mut String, command: &Command) -> Result<(), AllocError>
    ensures { OnOk result (string_bytes lines.new ≡ string_bytes lines.old ++ line_of command.now) }
{
    match command {
        Command::Seat(seat) => push_seat_line(lines, seat),
        _ => Ok(()),
    }
}

fn lines_of(alloc: Global, requests: &[Request]) -> Result<String, AllocError>
    ensures { IfOk result (λ lines. string_bytes lines ≡ seat_lines requests.now) }
{
    let mut lines = String::new(alloc);
    for request in requests {
        push_line(&mut lines, &request.command)?;
    }
    Ok(lines)
}

/// The `seat` commands of a batch as lines that `read_orders` accepts.
///
/// # Errors
///
/// `AllocError` if out of memory.
pub fn seat_lines(alloc: Global, batch: &Batch) -> Result<String, AllocError>
    ensures { IfOk result (λ lines. string_bytes lines ≡ seat_lines batch.now.requests.items) }
{
    lines_of(alloc, batch.requests.as_slice())
}
