//! The position after a move.
ghost use Rattle.std.specs.Prelude.{◌≡◌, ◌+◌};
ghost use Rattle.squares.specs.internal.ShogiSets.{IsShogiPosition};
ghost use Rattle.shogi_moves.specs.internal.Layouts.{position_of};
ghost use Rattle.shogi_moves.specs.Rules.{Legal, held, taken_kind, hands_after, play};

use crate::layout::{Layout, with_held};
use squares::{HandKind, Hands, SMove, SPiece, SPos};

/// The position after a legal move.
///
/// A step moves the piece, promotes it or not, and puts a captured piece unpromoted into the hand. A drop takes the
/// piece from the hand. The turn passes. Allocates nothing.
pub fn play(position: &SPos, played: &SMove) -> SPos
    requires { Legal position.now played.now }
    ensures { result ≡ play position.now played.now }
{
    let layout = Layout::from_position(position);
    let board = layout.board_after(played);
    let hands = hands_after(&layout, played);
    SPos::of_parts(board, hands, layout.turn.other())
}

// The kind that a captured piece has in the hand.
fn taken_kind(there: Option<SPiece>) -> Option<HandKind>
    ensures { result ≡ taken_kind there }
{
    match there {
        None => None,
        Some(piece) => piece.role.kind().to_hand_kind(),
    }
}

// One more than the number of pieces of a kind in the hand of the side to move.
fn one_more(layout: &Layout, kind: HandKind) -> u8
    requires { IsShogiPosition layout.now.board layout.now.hands }
    ensures { result ≡ held layout.now.hands layout.now.turn kind + 1 }
{
    layout.count_in_hand(kind) + 1
}

fn hands_after(layout: &Layout, played: &SMove) -> Hands
    requires { IsShogiPosition layout.now.board layout.now.hands }
    ensures { result ≡ hands_after (position_of layout.now) played.now }
{
    match played {
        SMove::Step {
            from: _,
            to,
            promote: _,
        } => match taken_kind(layout.board.piece_at(*to)) {
            None => layout.hands,
            Some(kind) => with_held(layout.hands, layout.turn, kind, one_more(layout, kind)),
        },
        SMove::Drop { kind, to: _ } => with_held(
            layout.hands,
            layout.turn,
            *kind,
            layout.count_in_hand(*kind).saturating_sub(1),
        ),
    }
}
