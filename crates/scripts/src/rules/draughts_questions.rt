//! Questions about positions and moves of draughts.

use crate::rules::draughts_board::{square, told_set};
use crate::rules::unanswered::Unanswered;
use crate::rules::words::{one_word, push_word, yes};
use draughts_moves::{check, has_move, legal, play, routes};
use pdn::{read_fen, read_move, write_fen, write_move};
use squares::{DMove, DPiece, DPos, DSet, Dsq, Numbers, Side};
use std::alloc::Global;
use std::hash::{DefaultHasher, Hash, Hasher};

fn man(side: Side) -> DPiece {
    DPiece { side, king: false }
}

// Applies a step to a position: `pass_turn`, a man such as `w:31` or `b:1`, or a square to clear.
fn change(position: &mut DPos, step: &str) -> Result<(), Unanswered> {
    if step == "pass" {
        position.pass_turn();
        return Ok(());
    }
    let (what, number) = step.split_once(':').ok_or(Unanswered::Word)?;
    let square = square(number)?;
    match what {
        "w" => position.put(square, man(Side::First)),
        "b" => position.put(square, man(Side::Second)),
        "clear" => position.clear(square),
        "clear-all" => position.clear_all(DSet::new().with(square)),
        _ => return Err(Unanswered::Word),
    }
    Ok(())
}

/// Parses a position: a FEN, `opening`, or `new` and steps from an empty board.
pub fn position(alloc: Global, text: &str) -> Result<DPos, Unanswered> {
    if text == "opening" {
        return Ok(DPos::opening());
    }
    match text.strip_prefix("new") {
        Some(steps) => {
            let mut position = DPos::new(Side::First);
            for step in steps.split_whitespace() {
                change(&mut position, step)?;
            }
            Ok(position)
        }
        None => Ok(read_fen(alloc, text).ok().ok_or(Unanswered::Position)?),
    }
}

/// Parses a move: the numbers of its origin, its destination and the captured squares, such as `47-42` or `28-19-23`.
pub fn parse_move_numbers(alloc: Global, text: &str) -> Result<DMove, Unanswered> {
    let mut squares = Vec::new(alloc);
    for number in text.split('-') {
        squares.push(square(number)?)?;
    }
    match *squares.as_slice() {
        [from, to, ..] => {
            let mut taken = DSet::new();
            for square in squares.as_slice().get(2..).ok_or(Unanswered::Move)? {
                taken = taken.with(*square);
            }
            Ok(DMove { from, to, taken })
        }
        _ => Err(Unanswered::Move),
    }
}

/// A move in the notation that `parse_move_numbers` parses.
pub fn told_move(alloc: Global, made: &DMove) -> Result<String, Unanswered> {
    let mut text = format!(in alloc; "{}-{}", made.from.number(), made.to.number())?;
    for number in Numbers::from_set(made.taken).as_slice() {
        text.push_str(format!(in alloc; "-{number}")?.as_str())?;
    }
    Ok(text)
}

/// Moves, separated by spaces.
pub fn told_moves(alloc: Global, moves: &[DMove]) -> Result<String, Unanswered> {
    let mut text = String::new(alloc);
    for made in moves {
        push_word(&mut text, told_move(alloc, made)?.as_str())?;
    }
    Ok(text)
}

// The texts of the legal moves.
fn all_texts(alloc: Global, position: &DPos) -> Result<String, Unanswered> {
    let mut texts = String::new(alloc);
    for made in &legal(alloc, position)? {
        match check(position, made) {
            Ok(()) => push_word(&mut texts, write_move(alloc, position, made)?.as_str())?,
            Err(_) => return Err(Unanswered::Move),
        }
    }
    Ok(texts)
}

// The letter of a piece.
fn letter(piece: DPiece) -> &'static str {
    match (piece.side, piece.king) {
        (Side::First, false) => "w",
        (Side::First, true) => "W",
        (Side::Second, false) => "b",
        (Side::Second, true) => "B",
    }
}

// The contents of the squares in order: men as `w` and `b`, kings as `W` and `B`.
fn cells(alloc: Global, position: &DPos) -> Result<String, Unanswered> {
    let mut text = String::new(alloc);
    for square in &Dsq::all() {
        match position.piece_at(*square) {
            Some(piece) => text.push_str(letter(piece))?,
            None => text.push('.')?,
        }
    }
    Ok(text)
}

// The side to move, and the squares of White's pieces, of Black's pieces and of the kings.
fn told(alloc: Global, position: &DPos) -> Result<String, Unanswered> {
    let first = told_set(alloc, position.squares_of(Side::First))?;
    let second = told_set(alloc, position.squares_of(Side::Second))?;
    let kings = told_set(alloc, position.kings())?;
    let turn = match position.turn() {
        Side::First => "W",
        Side::Second => "B",
    };
    Ok(format!(in alloc; "{turn}, {first}, {second}, {kings}")?)
}

// The text written for the position of a FEN, or the fault.
fn rewritten(alloc: Global, text: &str) -> Result<String, Unanswered> {
    match read_fen(alloc, text) {
        Ok(position) => Ok(write_fen(alloc, &position)?),
        Err(fault) => Ok(format!(in alloc; "{fault}")?),
    }
}

// The move that a text denotes, or the fault.
fn read(alloc: Global, position: &DPos, text: &str) -> Result<String, Unanswered> {
    match read_move(alloc, position, text) {
        Ok(made) => told_move(alloc, &made),
        Err(fault) => Ok(format!(in alloc; "{fault}")?),
    }
}

// The position after a move, or the reason why the move is illegal.
fn outcome(alloc: Global, position: &DPos, made: &DMove) -> Result<String, Unanswered> {
    match check(position, made) {
        Ok(()) => Ok(write_fen(alloc, &play(position, made))?),
        Err(cause) => Ok(format!(in alloc; "{cause}")?),
    }
}

// The squares of each route of a capture.
fn ways(alloc: Global, position: &DPos, made: &DMove) -> Result<String, Unanswered> {
    let mut text = String::new(alloc);
    for route in &routes(alloc, position, made)? {
        for square in route {
            push_word(
                &mut text,
                format!(in alloc; "{}", square.number())?.as_str(),
            )?;
        }
        text.push_str(";")?;
    }
    Ok(text)
}

fn hash_of(position: &DPos) -> u64 {
    let mut state = DefaultHasher::new();
    position.hash(&mut state);
    state.finish()
}

// Whether two positions are equal, and whether their hashes are.
fn compared(one: &DPos, other: &DPos) -> &'static str {
    match (one == other, hash_of(one) == hash_of(other)) {
        (true, true) => "the same, hashed alike",
        (true, false) => "the same, hashed otherwise",
        (false, true) => "another, hashed alike",
        (false, false) => "another, hashed otherwise",
    }
}

fn of_position(alloc: Global, asked: &str, position: &DPos) -> Result<String, Unanswered> {
    match asked {
        "moves" => told_moves(alloc, legal(alloc, position)?.as_slice()),
        "texts" => all_texts(alloc, position),
        "told" => told(alloc, position),
        "cells" => cells(alloc, position),
        "empty" => told_set(alloc, position.empty_squares()),
        "can-move" => one_word(alloc, yes(has_move(position))),
        _ => Err(Unanswered::Question),
    }
}

fn of_two(alloc: Global, asked: &str, position: &DPos, second: &str) -> Result<String, Unanswered> {
    match asked {
        "read" => read(alloc, position, second),
        "play" => outcome(alloc, position, &parse_move_numbers(alloc, second)?),
        "routes" => ways(alloc, position, &parse_move_numbers(alloc, second)?),
        "same" => one_word(alloc, compared(position, &self::position(alloc, second)?)),
        _ => Err(Unanswered::Question),
    }
}

/// Answers a question about a position, with or without a move, a text or another position.
pub fn answer(alloc: Global, asked: &str, parts: &[String]) -> Result<String, Unanswered> {
    match parts {
        [text] if asked == "fen" => rewritten(alloc, text.as_str()),
        [start] => of_position(alloc, asked, &position(alloc, start.as_str())?),
        [start, second] => of_two(
            alloc,
            asked,
            &position(alloc, start.as_str())?,
            second.as_str(),
        ),
        _ => Err(Unanswered::Question),
    }
}
