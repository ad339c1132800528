//! A game printed for a person to read.

ghost use Rattle.std.specs.Prelude.{◌≡◌, ◌++◌, ◌<◌, ◌^◌, IfOk, OnOk, codes, decimal, map, string_bytes};
ghost use Rattle.club_lists.specs.Board.{board_text, filled_with, gap, heading, line_end, move_text};
ghost use Rattle.club_lists.specs.internal.Board.{board_by};
ghost use Rattle.club_lists.specs.Board.{moves_from, side_letter, standing_line, turn_line};
ghost use Rattle.club_lists.specs.internal.SummaryViews.{summary_of};

use crate::clock::{first_now, second_now};
use crate::game_entry::GameEntry;
use clocks::Moment;
use club_rules::GameKind;
use squares::Side;
use std::alloc::{AllocError, Global};

/// The data of a printed game that `GameEntry` does not have.
#[derive(Debug, Drop)]
pub struct BoardView {
    pub kind: GameKind,
    /// The name of the event.
    pub event: String,
    /// The name of the player who moves first.
    pub first: String,
    /// The name of the opponent.
    pub second: String,
    /// The diagram of the last position, as lines.
    pub diagram: String,
    /// The moves, in notation.
    pub moves: Vec<String>,
}

// The line with the game's id, event and players.
fn heading(alloc: Global, id: u32, view: &BoardView) -> Result<String, AllocError>
    ensures { IfOk result (λ line. string_bytes line ≡ heading id (board_by view.now)) }
{
    let event = view.event.as_str();
    let first = view.first.as_str();
    let second = view.second.as_str();
    format!(in alloc; "Game {id} {event}: {first} - {second}\n")
}

// The letter of a side. First is White in draughts and Black in shogi.
fn side_letter(kind: GameKind, side: Side) -> &'static str
    ensures { result.now ≡ side_letter kind side }
{
    match (kind, side) {
        (GameKind::Draughts, Side::First) => "W",
        (GameKind::Draughts, Side::Second) => "B",
        (GameKind::Shogi, Side::First) => "B",
        (GameKind::Shogi, Side::Second) => "W",
    }
}

// The line with the side to move and the seconds that each side has left.
fn turn_line(
    alloc: Global,
    game: &GameEntry,
    view: &BoardView,
    moment: Moment,
) -> Result<String, AllocError>
    ensures { IfOk result (λ line. string_bytes line ≡ turn_line moment (summary_of game.now) (board_by view.now)) }
{
    let side = side_letter(view.kind, game.turn);
    let plies = game.plies;
    let first = view.first.as_str();
    let second = view.second.as_str();
    let first_left = first_now(game, moment);
    let second_left = second_now(game, moment);
    format!(in alloc; "{side} to move, ply {plies}, {first} {first_left}, {second} {second_left}\n")
}

// The line with the state of a game: its end, or the side to move.
fn standing_line(
    alloc: Global,
    game: &GameEntry,
    view: &BoardView,
    moment: Moment,
) -> Result<String, AllocError>
    ensures { IfOk result (λ line. string_bytes line ≡
        standing_line moment (summary_of game.now) (board_by view.now) (summary_of game.now).over) }
{
    match &game.over {
        Some(over) => {
            let end = over.text(alloc)?;
            format!(in alloc; "ended {end}\n")
        }
        None => turn_line(alloc, game, view, moment),
    }
}

// A move after its number.
fn numbered(alloc: Global, number: usize, text: &str) -> Result<String, AllocError>
    ensures { IfOk result (λ numbered. string_bytes numbered ≡ decimal number ++ (codes ". " ++ text.now)) }
{
    format!(in alloc; "{number}. {text}")
}

// A move after `plies` plies, with its number if the notation has one.
fn move_text(alloc: Global, kind: GameKind, plies: usize, text: &str) -> Result<String, AllocError>
    requires { plies < 2 ^ 63 }
    ensures { IfOk result (λ shown. string_bytes shown ≡ move_text kind plies text.now) }
{
    match kind {
        GameKind::Draughts => {
            if plies % 2 == 0 {
                numbered(alloc, plies / 2 + 1, text)
            } else {
                String::from_str(alloc, text)
            }
        }
        GameKind::Shogi => numbered(alloc, plies + 1, text),
    }
}

// The separator before a text of `wide` columns in a line of `filled` columns.
fn gap(filled: usize, wide: usize) -> &'static str
    ensures { result.now ≡ gap filled wide }
{
    if filled == 0 {
        return "";
    }
    if wide < 72_usize.saturating_sub(filled) {
        return " ";
    }
    "\n"
}

// The columns of the line after the text is added.
fn filled_with(filled: usize, wide: usize) -> usize
    ensures { result ≡ filled_with filled wide }
{
    if filled == 0 {
        return wide;
    }
    if wide < 72_usize.saturating_sub(filled) {
        return filled + 1 + wide;
    }
    wide
}

// The newline of a line that is not empty.
fn line_end(filled: usize) -> &'static str
    ensures { result.now ≡ line_end filled }
{
    if filled == 0 {
        return "";
    }
    "\n"
}

// Appends the moves, in lines of at most 72 columns.
fn push_moves(
    alloc: Global,
    text: &mut String,
    kind: GameKind,
    moves: &[String],
) -> Result<(), AllocError>
    ensures { OnOk result (string_bytes text.new ≡
        string_bytes text.old ++ moves_from kind 0 0 (map (λ t. string_bytes t) moves.now)) }
{
    let mut filled: usize = 0;
    let mut plies: usize = 0;
    for made in moves {
        let shown = move_text(alloc, kind, plies, made.as_str())?;
        text.push_str(gap(filled, shown.len()))?;
        text.push_str(shown.as_str())?;
        filled = filled_with(filled, shown.len());
        plies += 1;
    }
    text.push_str(line_end(filled))?;
    Ok(())
}

/// A game at a timestamp: its id, event and players; the side to move and the clocks, or the end; the diagram; and the
/// moves.
///
/// # Errors
///
/// `AllocError` if out of memory.
pub fn board_text(
    alloc: Global,
    game: &GameEntry,
    view: &BoardView,
    moment: Moment,
) -> Result<String, AllocError>
    ensures { IfOk result (λ text. string_bytes text ≡ board_text moment (summary_of game.now) (board_by view.now)) }
{
    let heading = heading(alloc, game.id, view)?;
    let standing = standing_line(alloc, game, view, moment)?;
    let mut text = String::new(alloc);
    text.push_str(heading.as_str())?;
    text.push_str(standing.as_str())?;
    text.push_str(view.diagram.as_str())?;
    push_moves(alloc, &mut text, view.kind, &view.moves)?;
    Ok(text)
}
