//! The Berger tables: the pairings of one round, and of all rounds.

ghost use Rattle.std.specs.Prelude.{◌≡◌, ◌≤◌, ◌+◌, ◌*◌, ◌++◌, suc, IfOk, OnOk, length, filter};
ghost use Rattle.pairings.specs.Table.{seats, rounds_once, rounds_of, meet, is_lower_first, game_of, numbered};
ghost use Rattle.pairings.specs.Table.{row, games, all_games};

use std::alloc::{AllocError, Global};

/// A game of the table. Players, rounds and boards are numbered from 1.
#[derive(Clone, Copy, Debug, PartialEq, Eq)]
pub struct BoardPairing {
    pub round: u32,
    pub board: u32,
    pub first: u32,
    pub second: u32,
}

// The number of players, plus one for the bye if it is odd.
fn seats(players: u32) -> u32
    requires { players ≤ 32 }
    ensures { result ≡ seats players }
{
    if players % 2 == 0 {
        players
    } else {
        players + 1
    }
}

// The number of rounds of a single round robin.
fn rounds_once(players: u32) -> u32
    requires few { players ≤ 32 }
    requires two { 2 ≤ players }
    ensures { result ≡ rounds_once players }
{
    seats(players) - 1
}

/// The number of rounds of a single or double round robin.
pub fn rounds_of(players: u32, is_double: bool) -> u32
    requires few { players ≤ 32 }
    requires two { 2 ≤ players }
    ensures { result ≡ rounds_of players is_double }
{
    if is_double {
        2 * rounds_once(players)
    } else {
        rounds_once(players)
    }
}

// Whether two players meet in the round.
fn meet(players: u32, round: u32, lower: u32, higher: u32) -> bool
    requires few { players ≤ 32 }
    requires two { 2 ≤ players }
    requires round { round ≤ 62 }
    requires lower { lower ≤ 32 }
    requires higher { higher ≤ 32 }
    ensures { result ≡ meet players round (record { lower = lower; higher = higher }) }
{
    let sum = if higher == seats(players) {
        2 * lower
    } else {
        lower + higher
    };
    sum % rounds_once(players) == (round + 1) % rounds_once(players)
}

// Whether the player with the lower number plays First.
fn is_lower_first(players: u32, round: u32, lower: u32, higher: u32) -> bool
    requires few { players ≤ 32 }
    requires two { 2 ≤ players }
    requires lower { lower ≤ 32 }
    requires higher { higher ≤ 32 }
    ensures { result ≡ is_lower_first players round (record { lower = lower; higher = higher }) }
{
    let begins = if higher == seats(players) {
        2 * lower <= seats(players)
    } else {
        (lower + higher) % 2 == 1
    };
    if round <= rounds_once(players) {
        begins
    } else {
        !begins
    }
}

// The game of two players who meet.
fn game_of(players: u32, round: u32, board: u32, lower: u32, higher: u32) -> BoardPairing
    requires few { players ≤ 32 }
    requires two { 2 ≤ players }
    requires lower { lower ≤ 32 }
    requires higher { higher ≤ 32 }
    ensures { result ≡ game_of players round board (record { lower = lower; higher = higher }) }
{
    if is_lower_first(players, round, lower, higher) {
        BoardPairing {
            round,
            board,
            first: lower,
            second: higher,
        }
    } else {
        BoardPairing {
            round,
            board,
            first: higher,
            second: lower,
        }
    }
}

// Appends the games of a player against players with higher numbers.
fn push_row(
    pairings: &mut Vec<BoardPairing>,
    players: u32,
    round: u32,
    lower: u32,
) -> Result<(), AllocError>
    requires few { players ≤ 32 }
    requires two { 2 ≤ players }
    requires round { round ≤ 62 }
    requires lower { lower ≤ players }
    requires room { length pairings.old.items ≤ 32 * lower }
    ensures items { OnOk result (pairings.new.items ≡ pairings.old.items ++
        numbered players round (suc (length pairings.old.items)) (filter (meet players round) (row players lower))) }
    ensures few { OnOk result (length pairings.new.items ≤ length pairings.old.items + 32) }
{
    for higher in lower + 1..players + 1 {
        if meet(players, round, lower, higher) {
            let board = pairings.as_slice().len() as u32 + 1;
            pairings.push(game_of(players, round, board, lower, higher))?;
        }
    }
    Ok(())
}

/// The games of a round, ordered by the lower player number of each.
///
/// # Errors
///
/// `AllocError` if out of memory.
pub fn round(alloc: Global, players: u32, round: u32) -> Result<Vec<BoardPairing>, AllocError>
    requires few { players ≤ 32 }
    requires two { 2 ≤ players }
    requires round { round ≤ 62 }
    ensures { IfOk result (λ pairings. pairings.items ≡ games players round) }
{
    let mut pairings = Vec::new(alloc);
    for lower in 1..players + 1 {
        push_row(&mut pairings, players, round, lower)?;
    }
    Ok(pairings)
}

/// The games of all rounds, in the order of the rounds.
///
/// # Errors
///
/// `AllocError` if out of memory.
pub fn rounds(alloc: Global, players: u32, is_double: bool) -> Result<Vec<BoardPairing>, AllocError>
    requires few { players ≤ 32 }
    requires two { 2 ≤ players }
    ensures { IfOk result (λ pairings. pairings.items ≡ all_games players is_double) }
{
    let mut pairings = Vec::new(alloc);
    for number in 1..rounds_of(players, is_double) + 1 {
        pairings.append(&mut round(alloc, players, number)?)?;
    }
    Ok(pairings)
}
