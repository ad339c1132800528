//! The parts of a position on which move generation works, and the effect of a move on them.
ghost use Rattle.std.specs.Prelude.{◌≡◌, ℕ, true};
ghost use Rattle.std.specs.FinSet as set;
ghost use Rattle.squares.specs.internal.ShogiSets.{IsShogiPosition};
ghost use Rattle.shogi_moves.specs.Rules.{held, with_held, dropped_role, arrived, board_after};
ghost use Rattle.shogi_moves.specs.Rules.{play};
ghost use Rattle.squares.specs.declared.shogi.moves.SMove.TheVariants.{Step, Drop};
ghost use Rattle.shogi_moves.specs.internal.Search.{king_attacked};
ghost use Rattle.shogi_moves.specs.internal.Pins.{is_unpinned, exposes_nothing};

use crate::kings::is_king_attacked;
use crate::pins::unpinned_pieces;
use masks::Bitboard81;
use squares::{Hand, HandKind, Hands, Role, SBoard, SMove, SPiece, SPos, Side, Ssq};

/// The board, the hands and the side to move, with a cached flag for check and cached pieces that are not pinned.
#[derive(Drop)]
pub struct Layout {
    pub board: SBoard,
    pub hands: Hands,
    pub turn: Side,
    checked: bool,
    unpinned: Bitboard81,
    ghost is_known: { checked ≡ king_attacked board turn },
    ghost can_leave: { (n : ℕ) → set.contains unpinned n ≡ true → is_unpinned board turn n ≡ true },
}

impl Layout {
    ghost use Rattle.shogi_moves.specs.internal.Layouts.{position_of};

    /// The layout of a position.
    pub fn from_position(position: &SPos) -> Layout
        ensures value { position_of result ≡ position.now }
        ensures sound { IsShogiPosition position.now.board position.now.hands }
    {
        let board = position.board().copy();
        let turn = position.turn();
        let checked = is_king_attacked(&board, turn);
        let unpinned = unpinned_pieces(&board, turn, checked);
        Layout {
            board,
            hands: position.hands(),
            turn,
            checked,
            unpinned,
        }
    }

    /// The number of pieces of a kind in the hand of the side to move.
    pub fn count_in_hand(&self, kind: HandKind) -> u8
        ensures { result ≡ held self.now.hands self.now.turn kind }
    {
        self.hands.hand(self.turn).count(kind)
    }

    // Applies a step to a copy of the layout's board.
    fn make_step(&self, board: &mut SBoard, from: Ssq, to: Ssq, promote: bool)
        requires { board.old ≡ self.now.board }
        ensures { board.new ≡ board_after (position_of self.now) (Step from to promote) }
    {
        match self.board.piece_at(from) {
            None => {}
            Some(piece) => {
                board.clear(from);
                board.put(to, arrived(piece, promote));
            }
        }
    }

    // Applies a drop to a copy of the layout's board.
    fn make_drop(&self, board: &mut SBoard, kind: HandKind, to: Ssq)
        requires { board.old ≡ self.now.board }
        ensures { board.new ≡ board_after (position_of self.now) (Drop kind to) }
    {
        board.put(
            to,
            SPiece {
                side: self.turn,
                role: dropped_role(kind),
            },
        );
    }

    // Applies a move to a copy of the layout's board.
    fn make(&self, board: &mut SBoard, played: &SMove)
        requires { board.old ≡ self.now.board }
        ensures { board.new ≡ board_after (position_of self.now) played.now }
    {
        match played {
            SMove::Step { from, to, promote } => self.make_step(board, *from, *to, *promote),
            SMove::Drop { kind, to } => self.make_drop(board, *kind, *to),
        }
    }

    /// The board after a move.
    pub fn board_after(&self, played: &SMove) -> SBoard
        ensures { result ≡ board_after (position_of self.now) played.now }
    {
        let mut board = self.board.copy();
        self.make(&mut board, played);
        board
    }

    /// Whether the side to move is in check.
    pub fn is_checked(&self) -> bool
        ensures { result ≡ king_attacked self.now.board self.now.turn }
    {
        self.checked
    }

    // Whether a move is known to leave the king safe: a step of a piece that is not pinned, or a drop out of check.
    fn exposes_nothing(&self, played: &SMove) -> bool
        ensures { result ≡ exposes_nothing self.now.checked self.now.unpinned played.now }
    {
        match played {
            SMove::Step { from, .. } => self.unpinned.contains(from.number()),
            SMove::Drop { .. } => !self.checked,
        }
    }

    /// Whether the moving side's king is attacked after a move.
    pub fn is_checked_after(&self, played: &SMove) -> bool
        ensures { result ≡ king_attacked (board_after (position_of self.now) played.now) self.now.turn }
    {
        if self.exposes_nothing(played) {
            return false;
        }
        let mut board = self.board.copy();
        self.make(&mut board, played);
        is_king_attacked(&board, self.turn)
    }

    /// The layout after a drop.
    pub fn after_drop(&self, kind: HandKind, to: Ssq) -> Layout
        ensures { position_of result ≡ play (position_of self.now) (Drop kind to) }
    {
        let mut board = self.board.copy();
        self.make_drop(&mut board, kind, to);
        let turn = self.turn.other();
        let checked = is_king_attacked(&board, turn);
        let count = self.count_in_hand(kind).saturating_sub(1);
        Layout {
            board,
            hands: with_held(self.hands, self.turn, kind, count),
            turn,
            checked,
            unpinned: Bitboard81::new(),
        }
    }
}

/// The hands in which the side holds `count` pieces of a kind.
pub fn with_held(hands: Hands, side: Side, kind: HandKind, count: u8) -> Hands
    ensures { result ≡ with_held hands side kind count }
{
    match side {
        Side::First => Hands {
            first: hands.first.with_count(kind, count),
            second: hands.second,
        },
        Side::Second => Hands {
            first: hands.first,
            second: hands.second.with_count(kind, count),
        },
    }
}

/// The role of a dropped piece of a kind.
pub fn dropped_role(kind: HandKind) -> Role
    ensures { result ≡ dropped_role kind }
{
    kind.kind().role()
}

// The moved piece after the step, promoted if `promote` is true and the piece can be.
fn arrived(piece: SPiece, promote: bool) -> SPiece
    ensures { result ≡ arrived piece promote }
{
    if !promote {
        return piece;
    }
    match piece.role.kind().promoted_role() {
        None => piece,
        Some(role) => SPiece {
            side: piece.side,
            role,
        },
    }
}
