//! Questions about lines of draughts moves.

use crate::rules::draughts_questions::{parse_move_numbers, position};
use crate::rules::unanswered::Unanswered;
use crate::rules::words::{one_word, push_word, side, told_score, yes};
use draughts_draws::{DEnd, DLineFault, DrawCounts, judge};
use squares::{DMove, DPos};
use std::alloc::Global;

/// Parses moves that are separated by spaces.
pub fn line(alloc: Global, texts: &str) -> Result<Vec<DMove>, Unanswered> {
    let mut moves = Vec::new(alloc);
    for text in texts.split_whitespace() {
        moves.push(parse_move_numbers(alloc, text)?)?;
    }
    Ok(moves)
}

fn told_end(end: Option<DEnd>) -> &'static str {
    match end {
        None => "goes on",
        Some(DEnd::NoMove) => "NoMove",
        Some(DEnd::Repetition) => "Repetition",
        Some(DEnd::KingMoves) => "KingMoves",
        Some(DEnd::ThreeToOne) => "ThreeToOne",
        Some(DEnd::TwoToOne) => "TwoToOne",
        Some(DEnd::PlyLimit) => "PlyLimit",
    }
}

fn end(name: &str) -> Result<DEnd, Unanswered> {
    match name {
        "NoMove" => Ok(DEnd::NoMove),
        "Repetition" => Ok(DEnd::Repetition),
        "KingMoves" => Ok(DEnd::KingMoves),
        "ThreeToOne" => Ok(DEnd::ThreeToOne),
        "TwoToOne" => Ok(DEnd::TwoToOne),
        "PlyLimit" => Ok(DEnd::PlyLimit),
        _ => Err(Unanswered::Word),
    }
}

fn told(alloc: Global, judged: Result<Option<DEnd>, DLineFault>) -> Result<String, Unanswered> {
    match judged {
        Ok(end) => one_word(alloc, told_end(end)),
        Err(fault) => Ok(format!(in alloc; "{fault}")?),
    }
}

// The end of a line by its draw counts, updated move by move.
fn counted(alloc: Global, start: &DPos, moves: &[DMove]) -> Result<Option<DEnd>, DLineFault> {
    let mut counts = DrawCounts::start(alloc, start)?;
    for made in moves {
        counts.push(made)?;
    }
    Ok(counts.end())
}

// The end of a line; reports whether whole and incremental judging differ.
fn judged(alloc: Global, start: &str, moves: &[DMove]) -> Result<String, Unanswered> {
    let start = position(alloc, start)?;
    let whole = told(alloc, judge(alloc, &start, moves))?;
    let stepwise = told(alloc, counted(alloc, &start, moves))?;
    if whole == stepwise {
        return Ok(whole);
    }
    Ok(format!(in alloc; "{whole}, but move by move {stepwise}")?)
}

// The end of the first `plies` moves of a line.
fn judged_so_far(
    alloc: Global,
    start: &str,
    moves: &[DMove],
    plies: &str,
) -> Result<String, Unanswered> {
    let plies: usize = plies.parse()?;
    match moves.get(..plies) {
        Some(moves) => judged(alloc, start, moves),
        None => Err(Unanswered::Move),
    }
}

// The result of adding each move to the draw counts; a refused move changes nothing.
fn pushed(alloc: Global, start: &str, texts: &str) -> Result<String, Unanswered> {
    let Ok(mut counts) = DrawCounts::start(alloc, &position(alloc, start)?) else {
        return Err(Unanswered::Memory);
    };
    let mut text = String::new(alloc);
    for one in texts.split_whitespace() {
        match counts.push(&parse_move_numbers(alloc, one)?) {
            Ok(()) => push_word(&mut text, "made,")?,
            Err(fault) => push_word(&mut text, format!(in alloc; "{fault},")?.as_str())?,
        }
    }
    push_word(&mut text, told_end(counts.end()))?;
    Ok(text)
}

// The score of an end; `turn` is the side to move.
fn score(name: &str, turn: &str) -> Result<&'static str, Unanswered> {
    Ok(told_score(end(name)?.outcome(side(turn, "w")?)))
}

/// Answers a question about a line of moves, the score of an end, or two moves.
pub fn answer(alloc: Global, asked: &str, parts: &[String]) -> Result<String, Unanswered> {
    match (asked, parts) {
        ("judge", [start, texts]) => {
            judged(
                alloc,
                start.as_str(),
                line(alloc, texts.as_str())?.as_slice(),
            )
        }
        ("judge", [start, texts, plies]) => {
            let moves = line(alloc, texts.as_str())?;
            judged_so_far(alloc, start.as_str(), moves.as_slice(), plies.as_str())
        }
        ("push", [start, texts]) => pushed(alloc, start.as_str(), texts.as_str()),
        ("score", [name, turn]) => one_word(alloc, score(name.as_str(), turn.as_str())?),
        ("same-move", [one, other]) => {
            one_word(
                alloc,
                yes(
                    parse_move_numbers(alloc, one.as_str())?
                        == parse_move_numbers(alloc, other.as_str())?,
                ),
            )
        }
        _ => Err(Unanswered::Question),
    }
}
