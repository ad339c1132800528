//! Writing of draughts games.
ghost use Rattle.std.specs.Prelude.{length};
ghost use Rattle.squares.specs.DraughtsOpening.{opening};
ghost use Rattle.draughts_draws.specs.Faults.{IsPlayed};

use crate::rules::draughts_lines::line;
use crate::rules::unanswered::Unanswered;
use crate::rules::writers::{Recorded, written_in_each_way};
use clocks::{Moment, civil};
use draughts_draws::judge;
use pdn_games::{GameWriter, PdnHead, WriteFault, write_game};
use squares::{DMove, DPos, Score};
use std::alloc::Global;
use std::io::Write;

// A game and the tags of its record.
#[derive(Drop)]
struct Game<'a> {
    head: PdnHead<'a>,
    moves: Vec<DMove>,
}

// Parses a score; `None` for a star.
fn score(text: &str) -> Result<Option<Score>, Unanswered> {
    match text {
        "2-0" => Ok(Some(Score::FirstWins)),
        "1-1" => Ok(Some(Score::Draw)),
        "0-2" => Ok(Some(Score::SecondWins)),
        "*" => Ok(None),
        _ => Err(Unanswered::Word),
    }
}

// Writes a legal game move by move.
fn write_moves<W: Write>(
    alloc: Global,
    head: &PdnHead,
    moves: &[DMove],
    writer: &mut W,
) -> Result<(), WriteFault>
    requires { IsPlayed opening moves.now (length moves.now) }
{
    let mut game = GameWriter::start(alloc, head, writer)?;
    for i in 0..moves.len() {
        game.push(writer, &moves[i])?;
    }
    game.finish(writer)?;
    Ok(())
}

impl<'a> Recorded for Game<'a> {
    fn text(&self, alloc: Global) -> Result<String, Unanswered> {
        match judge(alloc, &DPos::opening(), self.moves.as_slice()) {
            Ok(_) => Ok(write_game(alloc, &self.head, self.moves.as_slice())?),
            Err(_) => Err(Unanswered::Game),
        }
    }

    fn write_to<W: Write>(&self, alloc: Global, writer: &mut W) -> Result<bool, Unanswered> {
        match judge(alloc, &DPos::opening(), self.moves.as_slice()) {
            Ok(_) => match write_moves(alloc, &self.head, self.moves.as_slice(), writer) {
                Ok(()) => Ok(true),
                Err(WriteFault::Writer(_)) => Ok(false),
                Err(WriteFault::Memory) => Err(Unanswered::Memory),
            },
            Err(_) => Err(Unanswered::Game),
        }
    }
}

/// The record of a game: event, start (Unix seconds), White, Black, score and moves.
pub fn write_record(alloc: Global, parts: &[String]) -> Result<String, Unanswered> {
    match parts {
        [event, seconds, white, black, result, moves] => {
            let start = Moment::new(seconds.as_str().parse()?).ok_or(Unanswered::Number)?;
            let head = PdnHead {
                event: event.as_str(),
                date: civil(start),
                white: white.as_str(),
                black: black.as_str(),
                score: score(result.as_str())?,
            };
            let moves = line(alloc, moves.as_str())?;
            written_in_each_way(alloc, &Game { head, moves })
        }
        _ => Err(Unanswered::Question),
    }
}
