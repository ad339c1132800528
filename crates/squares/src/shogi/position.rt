//! A shogi position: a board, the hands and the side to move.

ghost use Rattle.std.specs.Prelude.{◌≡◌, ◌↔◌, ◌≤◌, ◌+◌, ℕ, None, IsTrue, IsSome, IfSome};
ghost use Rattle.std.specs.FinMap as map;
ghost use Rattle.squares.specs.ShogiOpening.{opening};
ghost use Rattle.squares.specs.internal.ShogiSets.{IsShogiPosition, KeepsSets, HasKings, in_play};
ghost use Rattle.squares.specs.internal.ShogiSets.{set_size};

use crate::shogi::board::SBoard;
use crate::shogi::hand::Hands;
use crate::shogi::opening::{no_hands, opening_board};
use crate::shogi::piece::{HandKind, SPiece};
use crate::sides::Side;
use std::cmp::Ordering;
use std::marker::Model;

/// A shogi position: a board, the hands and the side to move.
///
/// Each side has one king. Board and hands together hold at most 18 pawns, 4 each of lances, knights, silvers and
/// golds, 2 bishops and 2 rooks. Positions are equal if board, hands and side to move are equal.
#[derive(Drop)]
pub struct SPos {
    board: SBoard,
    hands: Hands,
    turn: Side,
}

impl Model for SPos {
    ghost use Rattle.std.specs.Coded.{code_by, coded×, coded_ℕ};
    ghost use Rattle.std.specs.FinMap as finite_map;
    ghost use Rattle.std.specs.Prelude.{refl};
    ghost use Rattle.squares.specs.contracts.shogi.piece.SPiece as piece_type;
    ghost use Rattle.squares.specs.contracts.shogi.hand.Hands as hands_type;
    ghost use Rattle.squares.specs.contracts.sides.Side as side_type;
    ghost use Rattle.squares.specs.declared.sides.Side.{Side};
    ghost use Rattle.squares.specs.declared.shogi.hand.Hands.{Hands};
    ghost use Rattle.squares.specs.ShogiBoard.{ShogiBoard};
    ghost use Rattle.squares.specs.ShogiSets.{ShogiPosition};
    ghost use Rattle.squares.specs.internal.ShogiSets.{IsShogiPosition};

    ghost Value = { ShogiPosition };

    ghost coded = { code_by (ShogiBoard × (Hands × Side))
        (coded× (finite_map.code coded_ℕ piece_type.the_row.coded)
        (coded× hands_type.the_row.coded side_type.the_row.coded))
        (λ p. (p.board, (p.hands, p.turn))) (λ q. record { board = q.0; hands = q.1.0; turn = q.1.1 }) (λ _. refl) };

    ghost view = { λ p. record { board = p.board; hands = p.hands; turn = p.turn } };

    ghost invariant = { λ p. IsShogiPosition p.board p.hands };
}

impl SPos {
    /// The starting position.
    ///
    /// Each side has a king and two golds, silvers, knights and lances on its back rank. A rook and a bishop are in
    /// front of the knights, and nine pawns on the third rank. The hands are empty and First is to move.
    pub fn opening() -> SPos
        ensures { result ≡ opening }
    {
        SPos {
            board: opening_board(),
            hands: no_hands(),
            turn: Side::First,
        }
    }

    /// The position of a board, hands and a side to move.
    ///
    /// `None` if a side does not have exactly one king, or a kind has more pieces than a set contains.
    pub fn new(board: SBoard, hands: Hands, turn: Side) -> Option<SPos>
        ensures some { IsSome result ↔ IsShogiPosition board hands }
        ensures value { IfSome result (λ p. p ≡ record { board = board; hands = hands; turn = turn }) }
    {
        if !has_kings(&board) {
            return None;
        }
        if !keeps_sets(&board, hands) {
            return None;
        }
        Some(SPos { board, hands, turn })
    }

    /// The position of a board, hands and a side to move that satisfy `IsShogiPosition`.
    pub fn of_parts(board: SBoard, hands: Hands, turn: Side) -> SPos
        requires { IsShogiPosition board hands }
        ensures { result ≡ record { board = board; hands = hands; turn = turn } }
    {
        SPos { board, hands, turn }
    }

    /// A copy of the position.
    pub fn copy(&self) -> SPos
        ensures { result ≡ self.now }
    {
        SPos {
            board: self.board.copy(),
            hands: self.hands,
            turn: self.turn,
        }
    }

    /// The side to move.
    pub fn turn(&self) -> Side
        ensures { result ≡ self.now.turn }
    {
        self.turn
    }

    /// The hands of both sides.
    pub fn hands(&self) -> Hands
        ensures { result ≡ self.now.hands }
    {
        self.hands
    }

    /// The board of the position.
    ///
    /// # Guarantees
    ///
    /// `sound`: each side has one king and no kind has too many pieces. `squares`: pieces are only on squares 0 to 80.
    pub fn board(&self) -> &SBoard
        ensures value { result.now ≡ self.now.board }
        ensures sound { IsShogiPosition self.now.board self.now.hands }
        ensures squares { (n : ℕ) → 81 ≤ n → map.get self.now.board n ≡ None }
    {
        self.board.keeps_to_its_squares();
        &self.board
    }
}

impl SPos {
    ghost use Rattle.std.specs.Prelude.{Some, true};
    ghost use Rattle.masks.specs.Words.{has_bit};

    /// The bitboard of a piece: bit `9 * (file - 1) + (rank - 1)` is set if that square holds the piece.
    pub fn word(&self, piece: SPiece) -> u128
        ensures { (n : ℕ) → (has_bit result n ≡ true) ↔ (map.get self.now.board n ≡ Some piece) }
    {
        self.board.squares_of(piece).word()
    }
}

impl PartialEq for SPos {
    ghost use Rattle.squares.specs.ShogiSamePosition.{same_shogi_position};
    ghost use Rattle.squares.specs.internal.ShogiSamePosition.{same_shogi_position-partial};

    ghost eq = { same_shogi_position };

    ghost laws = { same_shogi_position-partial };

    fn eq(&self, other: &SPos) -> bool {
        if self.turn != other.turn {
            return false;
        }
        if self.hands != other.hands {
            return false;
        }
        self.board == other.board
    }
}

impl Eq for SPos {
    ghost use Rattle.squares.specs.internal.ShogiSamePosition.{same_shogi_position-equivalence};

    ghost laws = { same_shogi_position-equivalence };
}

impl PartialOrd for SPos {
    ghost use Rattle.std.specs.Ordering.{as_partial_cmp};
    ghost use Rattle.squares.specs.internal.ShogiOrder.{position_cmp};
    ghost use Rattle.squares.specs.internal.ShogiOrderLaws.{position_cmp-partial};

    ghost partial_cmp = { as_partial_cmp position_cmp };

    ghost laws = { position_cmp-partial };

    fn partial_cmp(&self, other: &SPos) -> Option<Ordering> {
        Some(self.cmp(other))
    }
}

impl Ord for SPos {
    ghost use Rattle.std.specs.Prelude.{refl};
    ghost use Rattle.squares.specs.internal.ShogiOrder.{position_cmp};
    ghost use Rattle.squares.specs.internal.ShogiOrderLaws.{position_cmp-total, position_cmp-tied};

    ghost cmp = { position_cmp };

    ghost total = { position_cmp-total };

    ghost matches_partial_cmp = { λ a b. refl };

    ghost matches_eq = { position_cmp-tied };

    fn cmp(&self, other: &SPos) -> Ordering {
        match self
            .turn
            .cmp(&other.turn)
            .then(self.hands.cmp(&other.hands))
        {
            Ordering::Less => Ordering::Less,
            Ordering::Equal => self.board.compare(&other.board),
            Ordering::Greater => Ordering::Greater,
        }
    }
}

fn has_kings(board: &SBoard) -> bool
    ensures { IsTrue result ↔ HasKings board.now }
{
    if board.count_kings(Side::First) != 1 {
        return false;
    }
    if board.count_kings(Side::Second) != 1 {
        return false;
    }
    true
}

// Whether board and hands together hold no more pieces of a kind than a set contains.
fn keeps_set(board: &SBoard, hands: Hands, kind: HandKind) -> bool
    ensures { IsTrue result ↔ (in_play kind board.now hands ≤ set_size kind) }
{
    let size = match kind {
        HandKind::Rook | HandKind::Bishop => 2,
        HandKind::Gold | HandKind::Silver | HandKind::Knight | HandKind::Lance => 4,
        HandKind::Pawn => 18,
    };
    let held = usize::from(hands.first.count(kind)) + usize::from(hands.second.count(kind));
    board.count_kind(kind) + held <= size
}

// Whether board and hands together hold no more pieces of any kind than a set contains.
fn keeps_sets(board: &SBoard, hands: Hands) -> bool
    ensures { IsTrue result ↔ KeepsSets board.now hands }
{
    for kind in HandKind::ALL {
        if !keeps_set(board, hands, kind) {
            return false;
        }
    }
    true
}
