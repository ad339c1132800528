//! Questions about the two games through the club's traits `Rules` and `Records`.

use crate::rules::unanswered::Unanswered;
use crate::rules::words::{one_word, told_score, yes};
use club_rules::{Memory, RecordFormat, RecordReading, Records, Rules};
use squares::Side;
use std::alloc::Global;

// The position after the move of a text, and the track of the line extended by that move.
fn step<R: Rules>(
    alloc: Global,
    position: &R::Position,
    track: R::Track,
    text: &str,
) -> Result<(R::Position, R::Track), Unanswered> {
    let made = R::read_move(alloc, position, text)?
        .ok()
        .ok_or(Unanswered::Move)?;
    if R::check(position, &made).is_err() {
        return Err(Unanswered::Move);
    }
    let (first, second) = R::track_numbers(&track);
    if first == u32::MAX {
        return Err(Unanswered::Game);
    }
    if second == u32::MAX {
        return Err(Unanswered::Game);
    }
    let after = R::play(position, &made);
    let track = R::track_next(track, position, &made, &after);
    Ok((after, track))
}

// The last position and the track of a line that is given by the texts of its moves.
fn follow<R: Rules>(
    alloc: Global,
    start: &str,
    texts: &str,
) -> Result<(R::Position, R::Track), Unanswered> {
    let mut position = position::<R>(alloc, start)?;
    let mut track = R::track_start(&position);
    for text in texts.split_whitespace() {
        let (after, next) = step::<R>(alloc, &position, track, text)?;
        position = after;
        track = next;
    }
    Ok((position, track))
}

// The number of leaf nodes at a depth of `depth` plies; a depth of 0 is treated as 1.
fn leaves<R: Rules>(alloc: Global, position: &R::Position, depth: u32) -> Result<u64, Memory> {
    let moves = R::legal(alloc, position)?;
    if depth <= 1 {
        return Ok(moves.len() as u64);
    }
    let mut count: u64 = 0;
    for made in &moves {
        match R::check(position, made) {
            Ok(()) => {
                let next = R::play(position, made);
                count = count.saturating_add(leaves::<R>(alloc, &next, depth - 1)?);
            }
            Err(_) => {}
        }
    }
    Ok(count)
}

// The text written for the move that a text denotes, or the refusal.
fn rewritten<R: Rules>(
    alloc: Global,
    position: &R::Position,
    text: &str,
) -> Result<String, Unanswered> {
    let made = match R::read_move(alloc, position, text)? {
        Ok(made) => made,
        Err(refusal) => return Ok(format!(in alloc; "{refusal}")?),
    };
    if !R::is_same_move(&made, &made) {
        return one_word(alloc, "another move");
    }
    match R::check(position, &made) {
        Ok(()) => Ok(R::write_move(alloc, position, &made)?),
        Err(refusal) => Ok(format!(in alloc; "{refusal}")?),
    }
}

// An end's name and its score; the side is the one to move.
fn told_end<R: Rules>(
    alloc: Global,
    end: Option<R::End>,
    turn: Side,
) -> Result<String, Unanswered> {
    match end {
        Some(end) => {
            let (name, score) = (R::end_name(&end), R::outcome(&end, turn));
            Ok(format!(in alloc; "{} {score}", name.name())?)
        }
        None => one_word(alloc, "goes on"),
    }
}

// The end of a line by its track; the arguments are its plies, repetition count and first occurrence.
fn tracked<R: Rules>(
    alloc: Global,
    track: R::Track,
    last: &R::Position,
    stood: &[String],
) -> Result<String, Unanswered> {
    match stood {
        [plies, times, first] => {
            let (plies, times) = (plies.as_str().parse()?, times.as_str().parse()?);
            let end = R::track_end(track, last, plies, times, first.as_str().parse()?);
            told_end::<R>(alloc, end, R::turn(last))
        }
        _ => Err(Unanswered::Question),
    }
}

// Answers a question about the last position of a line and the line's track.
fn of_line<R: Rules>(
    alloc: Global,
    asked: &str,
    last: &R::Position,
    track: R::Track,
) -> Result<String, Unanswered> {
    let turn = R::turn(last);
    match asked {
        "turn" => one_word(
            alloc,
            if turn == Side::First {
                "First"
            } else {
                "Second"
            },
        ),
        "text" => Ok(R::write_position(alloc, last)?),
        "end" => told_end::<R>(alloc, R::judge(alloc, last, &[])?, turn),
        "numbers" => {
            let (first, second) = R::track_numbers(&track);
            Ok(format!(in alloc; "{first} {second}")?)
        }
        _ => Err(Unanswered::Question),
    }
}

// The position that a text denotes; `opening` is the initial position.
fn position<R: Rules>(alloc: Global, text: &str) -> Result<R::Position, Unanswered> {
    if text == "opening" {
        return Ok(R::start());
    }
    Ok(R::read_position(alloc, text)?.ok_or(Unanswered::Position)?)
}

// The text written for the position that a text denotes, if any.
fn reread<R: Rules>(alloc: Global, text: &str) -> Result<String, Unanswered> {
    match R::read_position(alloc, text)? {
        Some(position) => Ok(R::write_position(alloc, &position)?),
        None => one_word(alloc, "none"),
    }
}

// The number of leaf nodes at a depth.
fn lines<R: Rules>(alloc: Global, start: &str, depth: &str) -> Result<String, Unanswered> {
    let count = leaves::<R>(alloc, &position::<R>(alloc, start)?, depth.parse()?)?;
    Ok(format!(in alloc; "{count}")?)
}

// The plies and the score of one game of a text of records, or the refusal.
fn recorded<R: Records>(alloc: Global, part: &str, text: &str) -> Result<String, Unanswered> {
    match R::read_record(alloc, text.as_bytes(), part.parse()?)? {
        RecordReading::Game(game) => {
            let (plies, score) = (game.moves.len(), told_score(game.score));
            Ok(format!(in alloc; "{plies} {score}")?)
        }
        RecordReading::NoPart => one_word(alloc, "no part"),
        RecordReading::Refused(refusal) => Ok(format!(in alloc; "{refusal}")?),
    }
}

fn told_format(format: RecordFormat) -> &'static str {
    match format {
        RecordFormat::Pdn => "PDN",
        RecordFormat::Csa => "CSA",
    }
}

// Answers a question about the game.
fn of_game<R: Records>(alloc: Global, asked: &str, value: &str) -> Result<String, Unanswered> {
    match asked {
        "draw-offers" => one_word(alloc, yes(R::has_draw_offers())),
        "format" => one_word(alloc, told_format(R::format())),
        "position" => reread::<R>(alloc, value),
        _ => Err(Unanswered::Question),
    }
}

// Answers a question about a line; its track may be given by its numbers.
fn of_track<R: Rules>(
    alloc: Global,
    asked: &str,
    start: &str,
    texts: &str,
    values: &[String],
) -> Result<String, Unanswered> {
    let (last, track) = follow::<R>(alloc, start, texts)?;
    match (asked, values) {
        (asked, []) => of_line::<R>(alloc, asked, &last, track),
        ("move", [text]) => rewritten::<R>(alloc, &last, text.as_str()),
        ("track", stood) => tracked::<R>(alloc, track, &last, stood),
        ("track-of", [first, second, stood @ ..]) => {
            let track = R::track_of(first.as_str().parse()?, second.as_str().parse()?);
            tracked::<R>(alloc, track, &last, stood)
        }
        _ => Err(Unanswered::Question),
    }
}

/// Answers a question about the game, its records, or a line of moves from a position.
pub fn answer<R: Records>(
    alloc: Global,
    asked: &str,
    parts: &[String],
) -> Result<String, Unanswered> {
    match (asked, parts) {
        (asked, [value]) => of_game::<R>(alloc, asked, value.as_str()),
        ("lines", [start, depth]) => lines::<R>(alloc, start.as_str(), depth.as_str()),
        ("record", [part, text]) => recorded::<R>(alloc, part.as_str(), text.as_str()),
        (asked, [start, texts, values @ ..]) => {
            of_track::<R>(alloc, asked, start.as_str(), texts.as_str(), values)
        }
        _ => Err(Unanswered::Question),
    }
}
