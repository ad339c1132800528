//! Questions about positions and moves of shogi.

use crate::rules::shogi_board::{piece, square};
use crate::rules::shogi_told::{told_cause, told_move, told_moves, told_position};
use crate::rules::unanswered::Unanswered;
use crate::rules::words::{one_word, push_word, side, yes};
use sfen::{read, read_usi, write, write_usi};
use shogi_moves::{attacked, can_declare, check, has_move, in_check, legal, mated, play};
use squares::{SMove, SPos};
use std::alloc::Global;
use std::cmp::Ordering;

/// Parses a position: an SFEN or `opening`.
pub fn position(text: &str) -> Result<SPos, Unanswered> {
    if text == "opening" {
        return Ok(SPos::opening());
    }
    match read(text) {
        Ok((position, _)) => Ok(position),
        Err(_) => Err(Unanswered::Position),
    }
}

/// Parses a move in USI notation.
pub fn parse_usi(text: &str) -> Result<SMove, Unanswered> {
    Ok(read_usi(text).ok().ok_or(Unanswered::Move)?)
}

// The SFEN of a position and a move number.
fn written(alloc: Global, position: &SPos, number: u16) -> Result<String, Unanswered> {
    if number < 1 {
        return Err(Unanswered::Number);
    }
    if number > 9999 {
        return Err(Unanswered::Number);
    }
    Ok(write(alloc, position, number)?)
}

// The text written for the position and the move number of an SFEN, or the fault.
fn rewritten(alloc: Global, text: &str) -> Result<String, Unanswered> {
    match read(text) {
        Ok((position, number)) => written(alloc, &position, number),
        Err(fault) => Ok(format!(in alloc; "{fault}")?),
    }
}

// The move that a text denotes, if the same text is written for it, or the fault.
fn reread(alloc: Global, text: &str) -> Result<String, Unanswered> {
    match read_usi(text) {
        Ok(made) if write_usi(alloc, &made)?.as_str() == text => told_move(alloc, &made),
        Ok(_) => one_word(alloc, "written otherwise"),
        Err(fault) => Ok(format!(in alloc; "{fault}")?),
    }
}

// The reason why a move is illegal, or whether it mates.
fn outcome(position: &SPos, made: &SMove) -> &'static str {
    match check(position, made) {
        Ok(()) if mated(&play(position, made)) => "mates",
        Ok(()) => "goes on",
        Err(cause) => told_cause(cause),
    }
}

// Whether a square is attacked by the opponent of a side, `b` or `w`.
fn threat(position: &SPos, letter_and_square: &str) -> Result<&'static str, Unanswered> {
    let (letter, place) = letter_and_square.split_once(' ').ok_or(Unanswered::Square)?;
    Ok(yes(attacked(position, side(letter, "b")?, square(place)?)))
}

// The indices of the squares with this piece.
fn places(alloc: Global, position: &SPos, name: &str) -> Result<String, Unanswered> {
    let word = position.word(piece(name)?.ok_or(Unanswered::Piece)?);
    let mut text = String::new(alloc);
    for number in 0..81_u32 {
        if word >> number & 1 == 1 {
            push_word(&mut text, format!(in alloc; "{number}")?.as_str())?;
        }
    }
    Ok(text)
}

// The number of pieces of a side on the board.
fn army(alloc: Global, position: &SPos, letter: &str) -> Result<String, Unanswered> {
    let squares = position.board().squares_of_side(side(letter, "b")?);
    Ok(format!(in alloc; "{}", squares.len())?)
}

// Whether two positions, and their boards, are equal.
fn sameness(one: &SPos, other: &SPos) -> &'static str {
    match (one.copy() == *other, one.board().copy() == *other.board()) {
        (true, true) => "the same",
        (true, false) => "the same position, another board",
        (false, true) => "another position, the same board",
        (false, false) => "another position, another board",
    }
}

// The order of two positions.
fn order(one: &SPos, other: &SPos) -> &'static str {
    match (one < other, one.cmp(other)) {
        (true, Ordering::Less) => "before",
        (false, Ordering::Equal) => "level",
        (false, Ordering::Greater) => "after",
        _ => "before and not before",
    }
}

fn of_position(alloc: Global, asked: &str, position: &SPos) -> Result<String, Unanswered> {
    match asked {
        "list" => told_moves(alloc, legal(alloc, position)?.as_slice()),
        "count" => Ok(format!(in alloc; "{}", legal(alloc, position)?.len())?),
        "told" => told_position(alloc, position),
        "in-check" => one_word(alloc, yes(in_check(position))),
        "mated" => one_word(alloc, yes(mated(position))),
        "can-move" => one_word(alloc, yes(has_move(position))),
        "declares" => one_word(alloc, yes(can_declare(position))),
        _ => Err(Unanswered::Question),
    }
}

fn of_two(alloc: Global, asked: &str, position: &SPos, second: &str) -> Result<String, Unanswered> {
    match asked {
        "check" => one_word(alloc, outcome(position, &parse_usi(second)?)),
        "attacked" => one_word(alloc, threat(position, second)?),
        "places" => places(alloc, position, second),
        "army" => army(alloc, position, second),
        "same" => one_word(alloc, sameness(position, &self::position(second)?)),
        "order" => one_word(alloc, order(position, &self::position(second)?)),
        _ => Err(Unanswered::Question),
    }
}

/// Answers a question about a text or a position, with or without another value.
pub fn answer(alloc: Global, asked: &str, parts: &[String]) -> Result<String, Unanswered> {
    match parts {
        [text] if asked == "sfen" => rewritten(alloc, text.as_str()),
        [text] if asked == "usi" => reread(alloc, text.as_str()),
        [start] => of_position(alloc, asked, &position(start.as_str())?),
        [start, second] => of_two(alloc, asked, &position(start.as_str())?, second.as_str()),
        _ => Err(Unanswered::Question),
    }
}
