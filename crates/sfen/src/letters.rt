//! The letters of pieces and sides.
ghost use Rattle.std.specs.Prelude.{◌≡◌, ◌<◌};
ghost use Rattle.sfen.specs.Letters.{capital, letter, turn_letter};

use squares::{Kind, Side};

/// The capital letter of a kind of piece, which denotes First's pieces.
pub fn capital(kind: Kind) -> u8
    ensures value { result ≡ capital kind }
    ensures range { result < 91 }
{
    match kind {
        Kind::King => b'K',
        Kind::Rook => b'R',
        Kind::Bishop => b'B',
        Kind::Gold => b'G',
        Kind::Silver => b'S',
        Kind::Knight => b'N',
        Kind::Lance => b'L',
        Kind::Pawn => b'P',
    }
}

/// The letter of a side's piece: a capital for First, a small letter for Second.
pub fn letter(side: Side, kind: Kind) -> u8
    ensures value { result ≡ letter side kind }
    ensures range { result < 123 }
{
    match side {
        Side::First => capital(kind),
        Side::Second => capital(kind) + (b'a' - b'A'),
    }
}

/// The letter of the side to move: `b` for First (Black), `w` for Second (White).
pub fn turn_letter(side: Side) -> u8
    ensures value { result ≡ turn_letter side }
    ensures range { result < 120 }
{
    match side {
        Side::First => b'b',
        Side::Second => b'w',
    }
}
