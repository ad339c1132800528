//! Translation of written moves into moves of a position.
ghost use Rattle.std.specs.Prelude.{◌≡◌, ◌↔◌, IsTrue, IfSome, IfNone, Bool};
ghost use Rattle.squares.specs.declared.shogi.moves.SMove.{SMove};
ghost use Rattle.squares.specs.declared.shogi.piece.HandKind.{HandKind};
ghost use Rattle.shogi_moves.specs.Rules.{dropped_role};
ghost use Rattle.csa.specs.Moves.{CodedAs, StepsAs, Means};

use crate::statements::WrittenMove;
use squares::{HandKind, Role, SMove, SPiece, SPos, Side, Ssq};

fn is_same_role(one: Role, other: Role) -> bool
    ensures { IsTrue result ↔ (one ≡ other) }
{
    one == other
}

fn is_same_side(one: Side, other: Side) -> bool
    ensures { IsTrue result ↔ (one ≡ other) }
{
    one == other
}

// Whether a piece promotes in a step after which the record names it by this code; `None` if neither fits.
fn promotion_of(piece: SPiece, code: Role) -> Option<bool>
    ensures some { IfSome result (λ promote. CodedAs piece promote code) }
    ensures none { IfNone result ((promote : Bool) → CodedAs piece promote code → ⊥) }
{
    if is_same_role(code, piece.role) {
        return Some(false);
    }
    match piece.role.kind().promoted_role() {
        None => None,
        Some(promoted) => {
            if is_same_role(code, promoted) {
                return Some(true);
            }
            None
        }
    }
}

// Whether the step from a square promotes, by the code after it; `None` if no piece there matches the code.
fn step_promotes(position: &SPos, from: Ssq, code: Role) -> Option<bool>
    ensures some { IfSome result (λ promote. StepsAs position.now from promote code) }
    ensures none { IfNone result ((promote : Bool) → StepsAs position.now from promote code → ⊥) }
{
    match position.board().piece_at(from) {
        None => None,
        Some(piece) => promotion_of(piece, code),
    }
}

// The kind of piece in hand with this code.
fn kind_of(code: Role) -> Option<HandKind>
    ensures some { IfSome result (λ kind. code ≡ dropped_role kind) }
    ensures none { IfNone result ((kind : HandKind) → code ≡ dropped_role kind → ⊥) }
{
    match code {
        Role::Rook => Some(HandKind::Rook),
        Role::Bishop => Some(HandKind::Bishop),
        Role::Gold => Some(HandKind::Gold),
        Role::Silver => Some(HandKind::Silver),
        Role::Knight => Some(HandKind::Knight),
        Role::Lance => Some(HandKind::Lance),
        Role::Pawn => Some(HandKind::Pawn),
        _ => None,
    }
}

/// The move that a written move denotes in a position, if any. The move may be illegal.
pub fn move_in(position: &SPos, written: &WrittenMove) -> Option<SMove>
    ensures some { IfSome result (λ played. Means position.now written.now played) }
    ensures none { IfNone result ((played : SMove) → Means position.now written.now played → ⊥) }
{
    if !is_same_side(written.side, position.turn()) {
        return None;
    }
    match written.from {
        None => match kind_of(written.role) {
            None => None,
            Some(kind) => Some(SMove::Drop {
                kind,
                to: written.to,
            }),
        },
        Some(from) => match step_promotes(position, from, written.role) {
            None => None,
            Some(promote) => Some(SMove::Step {
                from,
                to: written.to,
                promote,
            }),
        },
    }
}
