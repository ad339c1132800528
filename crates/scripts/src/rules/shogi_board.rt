//! Questions about squares, pieces and boards of shogi.

use crate::rules::shogi_told::{told_board, told_piece, told_position, told_role, told_square};
use crate::rules::unanswered::Unanswered;
use crate::rules::words::{one_word, side};
use squares::{Hand, HandKind, Hands, Kind, SBoard, SPiece, SPos, Side, Ssq};
use std::alloc::Global;

// Parses a file and a rank; `None` if they are off the board.
fn square_at(file_and_rank: &str) -> Result<Option<Ssq>, Unanswered> {
    let number: u8 = file_and_rank.parse()?;
    Ok(Ssq::new(number / 10, number % 10))
}

/// Parses a file and a rank, such as `77`.
pub fn square(file_and_rank: &str) -> Result<Ssq, Unanswered> {
    Ok(square_at(file_and_rank)?.ok_or(Unanswered::Square)?)
}

fn kind(letter: &str) -> Result<Kind, Unanswered> {
    match letter {
        "K" => Ok(Kind::King),
        "R" => Ok(Kind::Rook),
        "B" => Ok(Kind::Bishop),
        "G" => Ok(Kind::Gold),
        "S" => Ok(Kind::Silver),
        "N" => Ok(Kind::Knight),
        "L" => Ok(Kind::Lance),
        "P" => Ok(Kind::Pawn),
        _ => Err(Unanswered::Piece),
    }
}

// Parses the letter of a kind of piece that can be in hand.
fn hand_kind(letter: &str) -> Result<HandKind, Unanswered> {
    Ok(kind(letter)?.to_hand_kind().ok_or(Unanswered::Piece)?)
}

/// Parses a piece, such as `bR` or `w+P`, or `None`.
pub fn piece(name: &str) -> Result<Option<SPiece>, Unanswered> {
    let (side, role) = match (name.strip_prefix('b'), name.strip_prefix('w')) {
        (Some(role), _) => (Side::First, role),
        (_, Some(role)) => (Side::Second, role),
        _ => return Err(Unanswered::Piece),
    };
    match role.strip_prefix('+') {
        Some(letter) => Ok(SPiece::new(side, kind(letter)?, true)),
        None => Ok(SPiece::new(side, kind(role)?, false)),
    }
}

// Parses a board: steps from an empty board that put a piece (`bR:28`) or clear a square.
fn board(steps: &str) -> Result<SBoard, Unanswered> {
    let mut board = SBoard::empty();
    for step in steps.split_whitespace() {
        let (what, place) = step.split_once(':').ok_or(Unanswered::Word)?;
        let place = square(place)?;
        if what == "clear" {
            board.clear(place);
        } else {
            board.put(place, piece(what)?.ok_or(Unanswered::Piece)?);
        }
    }
    Ok(board)
}

// A piece and the kind that it has in hand once captured.
fn told_named(alloc: Global, named: Option<SPiece>) -> Result<String, Unanswered> {
    let Some(piece) = named else {
        return one_word(alloc, "none");
    };
    let text = told_piece(alloc, piece)?;
    let promoted = if piece.role.is_promoted() {
        ", promoted"
    } else {
        ""
    };
    match piece.role.kind().to_hand_kind() {
        Some(taken) => {
            let letter = told_role(taken.kind().role());
            Ok(format!(in alloc; "{text}{promoted}, in hand {letter}")?)
        }
        None => Ok(format!(in alloc; "{text}{promoted}, in no hand")?),
    }
}

// The index of a square, counted from 0.
fn index(alloc: Global, square: Option<Ssq>) -> Result<String, Unanswered> {
    match square {
        Some(square) => Ok(format!(in alloc; "{}", square.index())?),
        None => one_word(alloc, "none"),
    }
}

// The square with an index, if it agrees with the list of all squares.
fn numbered(alloc: Global, number: u8) -> Result<String, Unanswered> {
    let all = Ssq::all();
    let listed = (&all[..]).get(number as usize).copied();
    let found = Ssq::from_number(number);
    if found == listed {
        return told_square(alloc, found);
    }
    one_word(alloc, "listed otherwise")
}

// The position of a board with `pawns` pawns in First's hand and First to move.
fn set_up(alloc: Global, board: SBoard, pawns: u8) -> Result<String, Unanswered> {
    let hands = Hands {
        first: Hand::default().with_count(HandKind::Pawn, pawns),
        second: Hand::default(),
    };
    match SPos::new(board, hands, Side::First) {
        Some(position) => told_position(alloc, &position),
        None => one_word(alloc, "none"),
    }
}

/// Answers a question about a square, a piece or a board.
pub fn answer(alloc: Global, asked: &str, parts: &[String]) -> Result<String, Unanswered> {
    match (asked, parts) {
        ("index", [place]) => index(alloc, square_at(place.as_str())?),
        ("number", [number]) => numbered(alloc, number.as_str().parse()?),
        ("piece", [name]) => told_named(alloc, piece(name.as_str())?),
        ("pieces", [steps]) => told_board(alloc, &board(steps.as_str())?),
        ("count", [steps, letter]) => {
            let count = board(steps.as_str())?.count_kind(hand_kind(letter.as_str())?);
            Ok(format!(in alloc; "{count}")?)
        }
        ("kings", [steps, letter]) => {
            let count = board(steps.as_str())?.count_kings(side(letter.as_str(), "b")?);
            Ok(format!(in alloc; "{count}")?)
        }
        ("position", [steps, pawns]) => set_up(
            alloc,
            board(steps.as_str())?,
            pawns.as_str().parse()?,
        ),
        _ => Err(Unanswered::Question),
    }
}
