//! Promotion zones, dead squares and squares on which a step may end.
ghost use Rattle.std.specs.Prelude.{◌≡◌};
ghost use Rattle.squares.specs.ShogiSets.{is_king};
ghost use Rattle.shogi_moves.specs.Rules.{far_rank, can_promote, may_promote, last_ranks, is_stuck, may_land};

use squares::{Role, SPiece, Side, Ssq};

// The rank as the side counts it from the enemy's edge: 1 is the farthest rank.
pub(crate) fn far_rank(side: Side, square: Ssq) -> u8
    ensures { result ≡ far_rank side square }
{
    match side {
        Side::First => square.rank(),
        Side::Second => 10 - square.rank(),
    }
}

fn can_promote(role: Role) -> bool
    ensures { result ≡ can_promote role }
{
    match role {
        Role::Rook | Role::Bishop | Role::Silver | Role::Knight | Role::Lance | Role::Pawn => true,
        _ => false,
    }
}

/// Whether a step from `from` to `to` may promote the piece.
pub fn may_promote(piece: SPiece, from: Ssq, to: Ssq) -> bool
    ensures { result ≡ may_promote piece from to }
{
    can_promote(piece.role) && (far_rank(piece.side, from) <= 3 || far_rank(piece.side, to) <= 3)
}

// The number of farthest ranks on which an unpromoted piece could never move again.
fn last_ranks(role: Role) -> u8
    ensures { result ≡ last_ranks role }
{
    match role {
        Role::Pawn | Role::Lance => 1,
        Role::Knight => 2,
        _ => 0,
    }
}

/// Whether a piece could never move from a square.
pub fn is_stuck(side: Side, role: Role, square: Ssq) -> bool
    ensures { result ≡ is_stuck side role square }
{
    far_rank(side, square) <= last_ranks(role)
}

/// Whether a step of the side may end on a square with this content: nothing, or an enemy other than the king.
pub fn may_land(side: Side, there: Option<SPiece>) -> bool
    ensures { result ≡ may_land side there }
{
    match there {
        None => true,
        Some(piece) => !(piece.side == side) && !is_king(piece.role),
    }
}

pub(crate) fn is_king(role: Role) -> bool
    ensures { result ≡ is_king role }
{
    match role {
        Role::King => true,
        _ => false,
    }
}
