//! Questions about lines of shogi moves.

use crate::rules::shogi_questions::{parse_usi, position};
use crate::rules::unanswered::Unanswered;
use crate::rules::words::{one_word, side, told_score};
use shogi_repetition::{Marks, SEnd, SLineFault, Tail, judge};
use squares::{SMove, SPos, Side};
use std::alloc::Global;

/// Parses moves that are separated by spaces.
fn line(alloc: Global, texts: &str) -> Result<Vec<SMove>, Unanswered> {
    let mut moves = Vec::new(alloc);
    for text in texts.split_whitespace() {
        moves.push(parse_usi(text)?)?;
    }
    Ok(moves)
}

fn told_end(end: Option<SEnd>) -> &'static str {
    match end {
        None => "goes on",
        Some(SEnd::Fourfold) => "Fourfold",
        Some(SEnd::NoMove) => "NoMove",
        Some(SEnd::PlyLimit) => "PlyLimit",
        Some(SEnd::PerpetualCheck(Side::First)) => "PerpetualCheck First",
        Some(SEnd::PerpetualCheck(Side::Second)) => "PerpetualCheck Second",
    }
}

fn end(name: &str) -> Result<SEnd, Unanswered> {
    match name {
        "Fourfold" => Ok(SEnd::Fourfold),
        "NoMove" => Ok(SEnd::NoMove),
        "PlyLimit" => Ok(SEnd::PlyLimit),
        "PerpetualCheck First" => Ok(SEnd::PerpetualCheck(Side::First)),
        "PerpetualCheck Second" => Ok(SEnd::PerpetualCheck(Side::Second)),
        _ => Err(Unanswered::Word),
    }
}

fn told(alloc: Global, judged: Result<Option<SEnd>, SLineFault>) -> Result<String, Unanswered> {
    match judged {
        Ok(end) => one_word(alloc, told_end(end)),
        Err(fault) => Ok(format!(in alloc; "{fault}")?),
    }
}

// The end of a line by its marks, updated move by move.
fn marked(alloc: Global, start: &SPos, moves: &[SMove]) -> Result<Option<SEnd>, SLineFault> {
    let mut marks = Marks::start(alloc, start)?;
    for made in moves {
        marks.push(made)?;
    }
    Ok(marks.end())
}

// The end of the first `plies` moves of a line; reports whether whole and incremental judging differ.
fn judged(alloc: Global, start: &str, texts: &str, plies: usize) -> Result<String, Unanswered> {
    let start = position(start)?;
    let line = line(alloc, texts)?;
    let moves = match line.as_slice().get(..plies) {
        Some(moves) => moves,
        None => return Err(Unanswered::Move),
    };
    let whole = told(alloc, judge(alloc, &start, moves))?;
    let stepwise = told(alloc, marked(alloc, &start, moves))?;
    if whole == stepwise {
        return Ok(whole);
    }
    Ok(format!(in alloc; "{whole}, but move by move {stepwise}")?)
}

// The end of a line whose last position is the initial one, by each side's count of successive checks and by its plies,
// repetition count and first occurrence.
fn weighed(checks: (&str, &str), stood: (&str, &str, &str)) -> Result<&'static str, Unanswered> {
    let tail = Tail {
        first_checks: checks.0.parse()?,
        second_checks: checks.1.parse()?,
    };
    let (plies, times, first) = stood;
    let end = tail.end(
        &SPos::opening(),
        plies.parse()?,
        times.parse()?,
        first.parse()?,
    );
    Ok(told_end(end))
}

// The score of an end; `turn` is the side to move.
fn score(name: &str, turn: &str) -> Result<&'static str, Unanswered> {
    Ok(told_score(end(name)?.outcome(side(turn, "b")?)))
}

/// Answers a question about a line of moves, about perpetual check, or about the score of an end.
pub fn answer(alloc: Global, asked: &str, parts: &[String]) -> Result<String, Unanswered> {
    match (asked, parts) {
        ("judge", [start, texts, plies]) => {
            judged(
                alloc,
                start.as_str(),
                texts.as_str(),
                plies.as_str().parse()?,
            )
        }
        ("weigh", [first, second, plies, times, since]) => {
            let checks = (first.as_str(), second.as_str());
            one_word(
                alloc,
                weighed(checks, (plies.as_str(), times.as_str(), since.as_str()))?,
            )
        }
        ("score", [name, turn]) => one_word(alloc, score(name.as_str(), turn.as_str())?),
        _ => Err(Unanswered::Question),
    }
}
