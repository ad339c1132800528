//! Shogi pieces.

ghost use Rattle.std.specs.Prelude.{◌≡◌, ◌↔◌, IsSome, IfSome};
ghost use Rattle.squares.specs.ShogiPieces.{kind_of, is_promoted, demoted, promotes_to, hand_kind, on_board};
ghost use Rattle.squares.specs.internal.ShogiPieces.{CanBe};

use crate::sides::Side;

/// The kinds of pieces, regardless of promotion.
#[derive(Clone, Copy, Debug, PartialEq, Eq, PartialOrd, Ord, Hash)]
pub enum Kind {
    King,
    Rook,
    Bishop,
    Gold,
    Silver,
    Knight,
    Lance,
    Pawn,
}

/// The kinds of pieces that a hand can hold.
///
/// The order is that in which drops are listed and hands are written.
#[derive(Clone, Copy, Debug, PartialEq, Eq, PartialOrd, Ord, Hash)]
pub enum HandKind {
    Rook,
    Bishop,
    Gold,
    Silver,
    Knight,
    Lance,
    Pawn,
}

/// The kind of a piece on the board and whether it is promoted. Kings and golds do not promote.
#[derive(Clone, Copy, Debug, PartialEq, Eq, PartialOrd, Ord, Hash)]
pub enum Role {
    King,
    Rook,
    Bishop,
    Gold,
    Silver,
    Knight,
    Lance,
    Pawn,
    PromotedRook,
    PromotedBishop,
    PromotedSilver,
    PromotedKnight,
    PromotedLance,
    PromotedPawn,
}

/// A piece on the board: its side and role.
#[derive(Clone, Copy, Debug, PartialEq, Eq, PartialOrd, Ord, Hash)]
pub struct SPiece {
    pub side: Side,
    pub role: Role,
}

impl HandKind {
    /// All seven kinds, in order.
    pub const ALL: [HandKind; 7] = [
        HandKind::Rook,
        HandKind::Bishop,
        HandKind::Gold,
        HandKind::Silver,
        HandKind::Knight,
        HandKind::Lance,
        HandKind::Pawn,
    ];

    /// The same kind as a `Kind`.
    pub fn kind(self) -> Kind
        ensures { result ≡ on_board self }
    {
        match self {
            HandKind::Rook => Kind::Rook,
            HandKind::Bishop => Kind::Bishop,
            HandKind::Gold => Kind::Gold,
            HandKind::Silver => Kind::Silver,
            HandKind::Knight => Kind::Knight,
            HandKind::Lance => Kind::Lance,
            HandKind::Pawn => Kind::Pawn,
        }
    }
}

impl Kind {
    /// The kind as a `HandKind`, or `None` for the king.
    pub fn to_hand_kind(self) -> Option<HandKind>
        ensures { result ≡ hand_kind self }
    {
        match self {
            Kind::King => None,
            Kind::Rook => Some(HandKind::Rook),
            Kind::Bishop => Some(HandKind::Bishop),
            Kind::Gold => Some(HandKind::Gold),
            Kind::Silver => Some(HandKind::Silver),
            Kind::Knight => Some(HandKind::Knight),
            Kind::Lance => Some(HandKind::Lance),
            Kind::Pawn => Some(HandKind::Pawn),
        }
    }

    /// The role of an unpromoted piece of this kind.
    pub fn role(self) -> Role
        ensures { result ≡ demoted self }
    {
        match self {
            Kind::King => Role::King,
            Kind::Rook => Role::Rook,
            Kind::Bishop => Role::Bishop,
            Kind::Gold => Role::Gold,
            Kind::Silver => Role::Silver,
            Kind::Knight => Role::Knight,
            Kind::Lance => Role::Lance,
            Kind::Pawn => Role::Pawn,
        }
    }

    /// The role of a promoted piece of this kind, or `None` for kings and golds.
    pub fn promoted_role(self) -> Option<Role>
        ensures { result ≡ promotes_to self }
    {
        match self {
            Kind::King | Kind::Gold => None,
            Kind::Rook => Some(Role::PromotedRook),
            Kind::Bishop => Some(Role::PromotedBishop),
            Kind::Silver => Some(Role::PromotedSilver),
            Kind::Knight => Some(Role::PromotedKnight),
            Kind::Lance => Some(Role::PromotedLance),
            Kind::Pawn => Some(Role::PromotedPawn),
        }
    }
}

impl Role {
    /// The kind of the piece, regardless of promotion.
    pub fn kind(self) -> Kind
        ensures { result ≡ kind_of self }
    {
        match self {
            Role::King => Kind::King,
            Role::Rook | Role::PromotedRook => Kind::Rook,
            Role::Bishop | Role::PromotedBishop => Kind::Bishop,
            Role::Gold => Kind::Gold,
            Role::Silver | Role::PromotedSilver => Kind::Silver,
            Role::Knight | Role::PromotedKnight => Kind::Knight,
            Role::Lance | Role::PromotedLance => Kind::Lance,
            Role::Pawn | Role::PromotedPawn => Kind::Pawn,
        }
    }

    /// Whether the piece is promoted.
    pub fn is_promoted(self) -> bool
        ensures { result ≡ is_promoted self }
    {
        match self {
            Role::PromotedRook
            | Role::PromotedBishop
            | Role::PromotedSilver
            | Role::PromotedKnight
            | Role::PromotedLance
            | Role::PromotedPawn => true,
            _ => false,
        }
    }
}

impl SPiece {
    /// A piece of a side and a kind, promoted or not; `None` for a promoted king or gold.
    pub fn new(side: Side, kind: Kind, promoted: bool) -> Option<SPiece>
        ensures some { IsSome result ↔ CanBe kind promoted }
        ensures side { IfSome result (λ piece. piece.side ≡ side) }
        ensures kind { IfSome result (λ piece. kind_of piece.role ≡ kind) }
        ensures promoted { IfSome result (λ piece. is_promoted piece.role ≡ promoted) }
    {
        if !promoted {
            return Some(SPiece {
                side,
                role: kind.role(),
            });
        }
        match kind.promoted_role() {
            Some(role) => Some(SPiece { side, role }),
            None => None,
        }
    }
}
