//! Writer of positions as SFEN.
ghost use Rattle.std.specs.Prelude.{◌≡◌, ◌++◌, ◌≤◌, OnOk, IfOk, string_bytes};
ghost use Rattle.std.specs.FinMap as map;
ghost use Rattle.squares.specs.ShogiGeometry.{shogi_number};
ghost use Rattle.squares.specs.internal.ShogiGeometry.{OnShogiBoard};
ghost use Rattle.sfen.specs.Letters.{piece_text};
ghost use Rattle.sfen.specs.internal.SfenGrammar.{IsSfenText};
ghost use Rattle.sfen.specs.SfenText.{gap_text, rank_text, board_text, held_text, kinds_text, hand_kinds, hands_text};
ghost use Rattle.sfen.specs.SfenText.{position_text};
ghost use Rattle.sfen.specs.internal.SfenText.{sfen_text};

use crate::letters::{letter, turn_letter};
use memory::Memory;
use squares::{Hand, HandKind, Hands, SBoard, SPiece, SPos, Side, Ssq};
use std::alloc::Global;

// Appends a piece on the board: a `+` if it is promoted, and its letter.
fn push_piece(text: &mut String, piece: SPiece) -> Result<(), Memory>
    ensures { OnOk result (string_bytes text.new ≡ string_bytes text.old ++ piece_text piece) }
{
    if piece.role.is_promoted() {
        text.push_str("+")?;
    }
    text.push(letter(piece.side, piece.role.kind()) as char)?;
    Ok(())
}

// Appends the length of a run of empty squares, unless it is 0.
fn push_gap(text: &mut String, gap: u8) -> Result<(), Memory>
    requires { gap ≤ 9 }
    ensures { OnOk result (string_bytes text.new ≡ string_bytes text.old ++ gap_text gap) }
{
    if gap > 0 {
        text.push((b'0' + gap) as char)?;
    }
    Ok(())
}

// The content of a square.
fn piece_at(board: &SBoard, file: u8, rank: u8) -> Option<SPiece>
    requires { OnShogiBoard file rank }
    ensures { result ≡ map.get board.now (shogi_number file rank) }
{
    match Ssq::new(file, rank) {
        Some(square) => board.piece_at(square),
        None => unreachable!(),
    }
}

// Appends a rank, from file 9 to file 1.
fn push_rank(text: &mut String, board: &SBoard, rank: u8) -> Result<(), Memory>
    requires low { 1 ≤ rank }
    requires high { rank ≤ 9 }
    ensures { OnOk result
        (string_bytes text.new ≡ string_bytes text.old ++ rank_text board.now rank) }
{
    let mut gap = 0;
    for past in 0..9 {
        match piece_at(board, 9 - past, rank) {
            Some(piece) => {
                push_gap(text, gap)?;
                push_piece(text, piece)?;
                gap = 0;
            }
            None => gap += 1,
        }
    }
    push_gap(text, gap)?;
    Ok(())
}

// Appends the nine ranks, separated by `/`.
fn push_board(text: &mut String, board: &SBoard) -> Result<(), Memory>
    ensures { OnOk result (string_bytes text.new ≡ string_bytes text.old ++ board_text board.now) }
{
    push_rank(text, board, 1)?;
    for rank in 2..10 {
        text.push_str("/")?;
        push_rank(text, board, rank)?;
    }
    Ok(())
}

// Appends the pieces of a kind in a side's hand: their count if it exceeds 1, and the letter.
fn push_held(text: &mut String, side: Side, kind: HandKind, count: u8) -> Result<(), Memory>
    ensures { OnOk result
        (string_bytes text.new ≡ string_bytes text.old ++ held_text side kind count) }
{
    if count == 0 {
        return Ok(());
    }
    if count > 1 {
        write!(text, "{count}")?;
    }
    text.push(letter(side, kind.kind()) as char)?;
    Ok(())
}

// Appends the pieces in a side's hand.
fn push_hand(text: &mut String, side: Side, hand: Hand) -> Result<(), Memory>
    ensures { OnOk result
        (string_bytes text.new ≡ string_bytes text.old ++ kinds_text side hand hand_kinds) }
{
    for kind in HandKind::ALL {
        push_held(text, side, kind, hand.count(kind))?;
    }
    Ok(())
}

// Appends the pieces in both hands, or a `-` if both are empty.
fn push_hands(text: &mut String, hands: Hands) -> Result<(), Memory>
    ensures { OnOk result (string_bytes text.new ≡ string_bytes text.old ++ hands_text hands) }
{
    let before = text.len();
    push_hand(text, Side::First, hands.first)?;
    push_hand(text, Side::Second, hands.second)?;
    if text.len() == before {
        text.push_str("-")?;
    }
    Ok(())
}

// The initial capacity for the text of a position, in bytes; few texts are longer.
const TEXT_ROOM: usize = 128;

/// Writes a position as SFEN without a move number: the ranks from the first, the side to move, and the hands, such as
/// `lnsgkgsnl/1r5b1/ppppppppp/9/9/9/PPPPPPPPP/1B5R1/LNSGKGSNL b -`.
///
/// # Errors
///
/// `Memory` if out of memory.
///
/// # Guarantees
///
/// `stands_for`: the text denotes the position with the move number 1.
pub fn write_position(alloc: Global, position: &SPos) -> Result<String, Memory>
    ensures text { IfOk result (λ text. string_bytes text ≡ position_text position.now) }
    ensures stands_for { IfOk result (λ text. IsSfenText (string_bytes text) position.now 1) }
{
    let mut text = String::with_capacity(alloc, TEXT_ROOM)?;
    push_board(&mut text, position.board())?;
    text.push_str(" ")?;
    text.push(turn_letter(position.turn()) as char)?;
    text.push_str(" ")?;
    push_hands(&mut text, position.hands())?;
    Ok(text)
}

/// Writes a position as SFEN with a move number from 1 to 9999, such as
/// `lnsgkgsnl/1r5b1/ppppppppp/9/9/9/PPPPPPPPP/1B5R1/LNSGKGSNL b - 1`.
///
/// # Errors
///
/// `Memory` if out of memory.
///
/// # Guarantees
///
/// `stands_for`: the text denotes the position and the move number.
pub fn write(alloc: Global, position: &SPos, number: u16) -> Result<String, Memory>
    requires low { 1 ≤ number }
    requires high { number ≤ 9999 }
    ensures text { IfOk result (λ text. string_bytes text ≡ sfen_text position.now number) }
    ensures stands_for { IfOk result (λ text. IsSfenText (string_bytes text) position.now number) }
{
    let mut text = write_position(alloc, position)?;
    write!(text, " {number}")?;
    Ok(text)
}
