//! Writers of the parts of a game's text.
ghost use Rattle.std.specs.Prelude.{◌≡◌, ◌<◌, ◌+◌, ◌++◌, OnOk, IfOk, string_bytes};
ghost use Rattle.draughts_moves.specs.Legal.{Legal};
ghost use Rattle.pdn.specs.MoveValue.{move_text};
ghost use Rattle.pdn_games.specs.Writing.{tag_line, two_digits, date_text, result_text, ply_text, end_text};
ghost use Rattle.pdn_games.specs.internal.Writer.{tags_text};

use crate::head::PdnHead;
use clocks::CivilTime;
use draughts_moves::Memory;
use pdn::laws::writes_one_text;
use pdn::write_move;
use squares::{DMove, DPos, Score};
use std::alloc::Global;

// Appends a tag on a line of its own.
fn push_tag(text: &mut String, name: &str, value: &str) -> Result<(), Memory>
    ensures { OnOk result (string_bytes text.new ≡ string_bytes text.old ++ tag_line name.now value.now) }
{
    text.push_str("[")?;
    text.push_str(name)?;
    text.push_str(" \"")?;
    text.push_str(value)?;
    text.push_str("\"]\n")?;
    Ok(())
}

// Appends the last two decimal digits of a number.
fn push_two(text: &mut String, number: u16) -> Result<(), Memory>
    ensures { OnOk result (string_bytes text.new ≡ string_bytes text.old ++ two_digits number) }
{
    text.push((b'0' + (number / 10 % 10) as u8) as char)?;
    text.push((b'0' + (number % 10) as u8) as char)?;
    Ok(())
}

// The text of a date: `YYYY.MM.DD`.
fn date_of(alloc: Global, date: &CivilTime) -> Result<String, Memory>
    ensures { IfOk result (λ text. string_bytes text ≡ date_text date.now) }
{
    let mut text = String::new(alloc);
    let year = date.year.unsigned_abs();
    push_two(&mut text, year / 100)?;
    push_two(&mut text, year)?;
    text.push_str(".")?;
    push_two(&mut text, u16::from(date.month))?;
    text.push_str(".")?;
    push_two(&mut text, u16::from(date.day))?;
    Ok(text)
}

// The text of a score, or a star for a running game.
fn result_text(score: Option<Score>) -> &'static str
    ensures { result.now ≡ result_text score }
{
    match score {
        None => "*",
        Some(score) => score.text(),
    }
}

/// Appends the tags of a game and the empty line after them.
///
/// # Errors
///
/// `Memory` if out of memory.
pub fn push_head(alloc: Global, text: &mut String, head: &PdnHead) -> Result<(), Memory>
    ensures { OnOk result (string_bytes text.new ≡ string_bytes text.old ++ tags_text head.now) }
{
    let date = date_of(alloc, &head.date)?;
    push_tag(text, "Event", head.event)?;
    push_tag(text, "Date", date.as_str())?;
    push_tag(text, "White", head.white)?;
    push_tag(text, "Black", head.black)?;
    push_tag(text, "Result", result_text(head.score))?;
    push_tag(text, "GameType", "20")?;
    text.push_str("\n")?;
    Ok(())
}

// The text of a legal move.
fn text_of(alloc: Global, position: &DPos, played: &DMove) -> Result<String, Memory>
    requires { Legal position.now played.now }
    ensures { IfOk result (λ text. string_bytes text ≡ move_text position.now played.now) }
{
    writes_one_text();
    let text = write_move(alloc, position, played)?;
    Ok(text)
}

// Appends the text of a move after `plies` plies: with its number if White moves, else with the line's end.
fn push_ply_text(text: &mut String, plies: usize, written: &str) -> Result<(), Memory>
    ensures { OnOk result (string_bytes text.new ≡ string_bytes text.old ++ ply_text plies written.now) }
{
    if plies % 2 == 0 {
        let number = plies / 2 + 1;
        write!(text, "{number}")?;
        text.push_str(". ")?;
        text.push_str(written)?;
    } else {
        text.push_str(" ")?;
        text.push_str(written)?;
        text.push_str("\n")?;
    }
    Ok(())
}

/// Appends a legal move after `plies` plies.
///
/// # Errors
///
/// `Memory` if out of memory.
pub fn push_ply(
    alloc: Global,
    text: &mut String,
    position: &DPos,
    plies: usize,
    played: &DMove,
) -> Result<(), Memory>
    requires { Legal position.now played.now }
    ensures { OnOk result
        (string_bytes text.new ≡ string_bytes text.old ++ ply_text plies (move_text position.now played.now)) }
{
    let written = text_of(alloc, position, played)?;
    push_ply_text(text, plies, written.as_str())
}

/// Appends the end of a game of `plies` plies: its result.
///
/// # Errors
///
/// `Memory` if out of memory.
pub fn push_end(text: &mut String, plies: usize, score: Option<Score>) -> Result<(), Memory>
    ensures { OnOk result (string_bytes text.new ≡ string_bytes text.old ++ end_text plies score) }
{
    if plies % 2 != 0 {
        text.push_str("\n")?;
    }
    text.push_str(result_text(score))?;
    text.push_str("\n")?;
    Ok(())
}
