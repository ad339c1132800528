//! Writing of shogi games.
ghost use Rattle.std.specs.Prelude.{◌≡◌, IfOk, Some, length, map};
ghost use Rattle.squares.specs.ShogiOpening.{opening};
ghost use Rattle.shogi_repetition.specs.Faults.{IsPlayed};

use crate::rules::shogi_questions::parse_usi;
use crate::rules::unanswered::Unanswered;
use crate::rules::writers::{Recorded, written_in_each_way};
use clocks::Moment;
use csa::{CsaEnd, CsaHead, GameWriter, WriteFault, write_game};
use shogi_repetition::judge;
use squares::{SMove, SPos};
use std::alloc::Global;
use std::io::Write;

// A game whose side to move resigned, with the time of each move in seconds.
#[derive(Drop)]
struct Game<'a> {
    event: &'a str,
    black: &'a str,
    white: &'a str,
    start: Moment,
    entries: Vec<(SMove, u64)>,
}

impl<'a> Game<'a> {
    // The head of the record.
    fn head(&self) -> CsaHead<'a>
        ensures { result.end ≡ Some CsaEnd.Resigned }
    {
        CsaHead {
            event: self.event,
            black: self.black,
            white: self.white,
            start: self.start,
            end: Some(CsaEnd::Resigned),
        }
    }
}

// The moves of the entries.
fn moves_of(alloc: Global, entries: &[(SMove, u64)]) -> Result<Vec<SMove>, Unanswered>
    ensures { IfOk result (λ moves. moves.items ≡ map (λ e. e.0) entries.now) }
{
    Ok(entries.iter().map(|entry| entry.0).collect(alloc)?)
}

// Parses entries: moves in USI notation, each with its seconds after a colon.
fn entries(alloc: Global, text: &str) -> Result<Vec<(SMove, u64)>, Unanswered> {
    let mut entries = Vec::new(alloc);
    for entry in text.split_whitespace() {
        let (usi, seconds) = entry.split_once(':').ok_or(Unanswered::Move)?;
        let seconds: u64 = seconds.parse()?;
        entries.push((parse_usi(usi)?, seconds))?;
    }
    Ok(entries)
}

// Writes a legal game move by move.
fn write_entries<W: Write>(
    alloc: Global,
    head: &CsaHead,
    entries: &[(SMove, u64)],
    writer: &mut W,
) -> Result<(), WriteFault>
    requires played { IsPlayed opening (map (λ e. e.0) entries.now) (length entries.now) }
    requires end { head.now.end ≡ Some CsaEnd.Resigned }
{
    let mut game = GameWriter::start(alloc, head, writer)?;
    for i in 0..entries.len() {
        let entry = entries[i];
        game.push(writer, &entry.0, entry.1)?;
    }
    game.finish(writer)?;
    Ok(())
}

impl<'a> Recorded for Game<'a> {
    fn text(&self, alloc: Global) -> Result<String, Unanswered> {
        let entries = self.entries.as_slice();
        let moves = moves_of(alloc, entries)?;
        match judge(alloc, &SPos::opening(), moves.as_slice()) {
            Ok(None) => Ok(write_game(alloc, &self.head(), entries)?),
            _ => Err(Unanswered::Game),
        }
    }

    fn write_to<W: Write>(&self, alloc: Global, writer: &mut W) -> Result<bool, Unanswered> {
        let entries = self.entries.as_slice();
        let moves = moves_of(alloc, entries)?;
        match judge(alloc, &SPos::opening(), moves.as_slice()) {
            Ok(None) => match write_entries(alloc, &self.head(), entries, writer) {
                Ok(()) => Ok(true),
                Err(WriteFault::Writer(_)) => Ok(false),
                Err(WriteFault::Memory) => Err(Unanswered::Memory),
            },
            _ => Err(Unanswered::Game),
        }
    }
}

/// The record of a game: event, start (Unix seconds), Black, White, and moves with their seconds. The side to move
/// resigns.
pub fn write_record(alloc: Global, parts: &[String]) -> Result<String, Unanswered> {
    match parts {
        [event, seconds, black, white, moves] => {
            let game = Game {
                event: event.as_str(),
                black: black.as_str(),
                white: white.as_str(),
                start: Moment::new(seconds.as_str().parse()?).ok_or(Unanswered::Number)?,
                entries: entries(alloc, moves.as_str())?,
            };
            written_in_each_way(alloc, &game)
        }
        _ => Err(Unanswered::Question),
    }
}
