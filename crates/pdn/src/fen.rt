//! Writer of positions as FEN.

ghost use Rattle.std.specs.Prelude.{◌≡◌, ◌++◌, OnOk, IfOk, string_bytes};
ghost use Rattle.std.specs.Option.{option_map};
ghost use Rattle.std.specs.FinMap as map;
ghost use Rattle.pdn.specs.FenText.{side_letter, piece_text, piece_of, pieces_text, fen_text};
ghost use Rattle.pdn.specs.internal.FenText.{next_text};

use crate::squares_text::push_square;
use draughts_moves::Memory;
use squares::{DPiece, DPos, Dsq, Side};
use std::alloc::Global;

// Appends a piece and its square: `K` for a king, and the square's number.
fn push_piece(text: &mut String, square: Dsq, piece: DPiece) -> Result<(), Memory>
    ensures { OnOk result
        (string_bytes text.new ≡ string_bytes text.old ++ piece_text square piece) }
{
    if piece.king {
        text.push_str("K")?;
    }
    push_square(text, square)?;
    Ok(())
}

// Appends a piece, after a comma unless it is the first.
fn push_next(text: &mut String, is_first: bool, square: Dsq, piece: DPiece) -> Result<(), Memory>
    ensures { OnOk result
        (string_bytes text.new
        ≡ string_bytes text.old ++ next_text is_first (piece_text square piece)) }
{
    if !is_first {
        text.push_str(",")?;
    }
    push_piece(text, square, piece)?;
    Ok(())
}

// Appends the pieces of a side, separated by commas.
fn push_pieces(text: &mut String, position: &DPos, side: Side) -> Result<(), Memory>
    ensures { OnOk result
        (string_bytes text.new ≡ string_bytes text.old ++ pieces_text side position.now.board) }
{
    let mut is_first = true;
    let mut rest = position.squares_of(side);
    while let Some(square) = rest.pop() {
        if let Some(piece) = own_piece(position, side, square) {
            push_next(text, is_first, square, piece)?;
            is_first = false;
        }
    }
    Ok(())
}

// The piece on a square, if it belongs to the side.
fn own_piece(position: &DPos, side: Side, square: Dsq) -> Option<DPiece>
    ensures { option_map (piece_text square) result ≡ piece_of side square (map.get position.now.board square) }
{
    match position.piece_at(square) {
        Some(piece) if piece.side == side => Some(piece),
        _ => None,
    }
}

// The initial capacity for the text of a position, in bytes; the longest text has 50 kings.
const TEXT_ROOM: usize = 256;

/// Writes a position as FEN: the side to move, then White's and Black's pieces in ascending order of squares, such as
/// `W:W28,K46:B7,8`.
///
/// # Errors
///
/// `Memory` if out of memory.
#[tactic(auto, unfolding(crate::specs::FenText::fen_text))]
pub fn write_fen(alloc: Global, position: &DPos) -> Result<String, Memory>
    ensures { IfOk result (λ text. string_bytes text ≡ fen_text position.now) }
{
    let mut text = String::with_capacity(alloc, TEXT_ROOM)?;
    text.push_str(letter(position.turn()))?;
    text.push_str(":W")?;
    push_pieces(&mut text, position, Side::First)?;
    text.push_str(":B")?;
    push_pieces(&mut text, position, Side::Second)?;
    Ok(text)
}

fn letter(side: Side) -> &'static str
    ensures { result.now ≡ side_letter side }
{
    match side {
        Side::First => "W",
        Side::Second => "B",
    }
}
