//! Texts of pieces, moves and positions of shogi in answers.

use crate::rules::unanswered::Unanswered;
use crate::rules::words::{one_word, push_word};
use shogi_moves::Illegal;
use squares::{Hand, HandKind, Role, SBoard, SMove, SPiece, SPos, Side, Ssq};
use std::alloc::Global;

const HAND_KINDS: [HandKind; 7] = [
    HandKind::Rook,
    HandKind::Bishop,
    HandKind::Gold,
    HandKind::Silver,
    HandKind::Knight,
    HandKind::Lance,
    HandKind::Pawn,
];

/// The letter of a role, after a plus if it is promoted.
pub fn told_role(role: Role) -> &'static str {
    match role {
        Role::King => "K",
        Role::Rook => "R",
        Role::PromotedRook => "+R",
        Role::Bishop => "B",
        Role::PromotedBishop => "+B",
        Role::Gold => "G",
        Role::Silver => "S",
        Role::PromotedSilver => "+S",
        Role::Knight => "N",
        Role::PromotedKnight => "+N",
        Role::Lance => "L",
        Role::PromotedLance => "+L",
        Role::Pawn => "P",
        Role::PromotedPawn => "+P",
    }
}

// The letter of a side, as in SFEN.
fn told_side(side: Side) -> &'static str {
    match side {
        Side::First => "b",
        Side::Second => "w",
    }
}

/// A piece: its side and its role.
pub fn told_piece(alloc: Global, piece: SPiece) -> Result<String, Unanswered> {
    let (side, role) = (told_side(piece.side), told_role(piece.role));
    Ok(format!(in alloc; "{side}{role}")?)
}

/// A square: its file and its rank.
pub fn told_square(alloc: Global, square: Option<Ssq>) -> Result<String, Unanswered> {
    match square {
        Some(square) => Ok(format!(in alloc; "{}{}", square.file(), square.rank())?),
        None => one_word(alloc, "none"),
    }
}

/// The pieces on a board, each before its square, separated by spaces.
pub fn told_board(alloc: Global, board: &SBoard) -> Result<String, Unanswered> {
    let mut text = String::new(alloc);
    for square in &Ssq::all() {
        if let Some(piece) = board.piece_at(*square) {
            let (piece, place) = (
                told_piece(alloc, piece)?,
                told_square(alloc, Some(*square))?,
            );
            push_word(&mut text, format!(in alloc; "{piece}{place}")?.as_str())?;
        }
    }
    Ok(text)
}

// The count of each kind in a hand.
fn told_hand(alloc: Global, hand: Hand) -> Result<String, Unanswered> {
    let mut text = String::new(alloc);
    for kind in HAND_KINDS {
        push_word(
            &mut text,
            format!(in alloc; "{}", hand.count(kind))?.as_str(),
        )?;
    }
    Ok(text)
}

/// The side to move, the pieces, and the counts of rooks, bishops, golds, silvers, knights, lances and pawns in First's
/// hand and in Second's.
pub fn told_position(alloc: Global, position: &SPos) -> Result<String, Unanswered> {
    let (turn, hands) = (told_side(position.turn()), position.hands());
    let board = told_board(alloc, position.board())?;
    let first = told_hand(alloc, hands.hand(Side::First))?;
    let second = told_hand(alloc, hands.hand(Side::Second))?;
    Ok(format!(in alloc; "{turn} {board}, {first}, {second}")?)
}

// The name of a kind that can be in hand.
fn hand_name(kind: HandKind) -> &'static str {
    match kind {
        HandKind::Rook => "Rook",
        HandKind::Bishop => "Bishop",
        HandKind::Gold => "Gold",
        HandKind::Silver => "Silver",
        HandKind::Knight => "Knight",
        HandKind::Lance => "Lance",
        HandKind::Pawn => "Pawn",
    }
}

/// A move by files and ranks: `77-76` or, with a promotion, `88-22+`; a drop is `Pawn*55`.
pub fn told_move(alloc: Global, made: &SMove) -> Result<String, Unanswered> {
    match *made {
        SMove::Step { from, to, promote } => {
            let (left, leads) = (
                told_square(alloc, Some(from))?,
                told_square(alloc, Some(to))?,
            );
            let end = if promote { "+" } else { "" };
            Ok(format!(in alloc; "{left}-{leads}{end}")?)
        }
        SMove::Drop { kind, to } => {
            let (name, place) = (hand_name(kind), told_square(alloc, Some(to))?);
            Ok(format!(in alloc; "{name}*{place}")?)
        }
    }
}

/// Moves, separated by spaces.
pub fn told_moves(alloc: Global, moves: &[SMove]) -> Result<String, Unanswered> {
    let mut text = String::new(alloc);
    for made in moves {
        push_word(&mut text, told_move(alloc, made)?.as_str())?;
    }
    Ok(text)
}

/// The name of the reason why a move is illegal.
pub fn told_cause(cause: Illegal) -> &'static str {
    match cause {
        Illegal::NoSuchMove => "NoSuchMove",
        Illegal::NotInHand => "NotInHand",
        Illegal::MustPromote => "MustPromote",
        Illegal::DeadDrop => "DeadDrop",
        Illegal::TwoPawns => "TwoPawns",
        Illegal::KingAttacked => "KingAttacked",
        Illegal::DropMate => "DropMate",
    }
}
