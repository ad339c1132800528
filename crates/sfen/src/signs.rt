//! Classification of the bytes of an SFEN text.
ghost use Rattle.std.specs.Prelude.{◌≡◌};
ghost use Rattle.sfen.specs.internal.Signs.{capital_kind, piece_sign, sign_of, IsSaneSign};

use squares::{Kind, Side};

/// The class of a byte. `b` is classified as Second's bishop; as the side to move it denotes First.
#[derive(Clone, Copy)]
pub enum Sign {
    Zero,
    /// A digit from 1 to 9.
    Digit(u8),
    /// The letter of a kind of piece, and its side.
    Piece(Side, Kind),
    /// `w`: Second (White) is to move.
    White,
    Plus,
    Minus,
    Slash,
    Blank,
    /// A byte that occurs in no SFEN text.
    Other,
}

// The kind of piece with this capital letter.
fn capital_kind(byte: u8) -> Option<Kind>
    ensures { result ≡ capital_kind byte }
{
    match byte {
        b'K' => Some(Kind::King),
        b'R' => Some(Kind::Rook),
        b'B' => Some(Kind::Bishop),
        b'G' => Some(Kind::Gold),
        b'S' => Some(Kind::Silver),
        b'N' => Some(Kind::Knight),
        b'L' => Some(Kind::Lance),
        b'P' => Some(Kind::Pawn),
        _ => None,
    }
}

fn piece_sign(side: Side, kind: Option<Kind>) -> Sign
    ensures { result ≡ piece_sign side kind }
{
    match kind {
        None => Sign::Other,
        Some(kind) => Sign::Piece(side, kind),
    }
}

/// The class of a byte.
pub fn sign_of(byte: u8) -> Sign
    ensures value { result ≡ sign_of byte }
    ensures sane { IsSaneSign result }
{
    match byte {
        b'0' => Sign::Zero,
        b'1'..=b'9' => Sign::Digit(byte - b'0'),
        b'+' => Sign::Plus,
        b'-' => Sign::Minus,
        b'/' => Sign::Slash,
        b' ' => Sign::Blank,
        b'w' => Sign::White,
        b'A'..=b'Z' => piece_sign(Side::First, capital_kind(byte)),
        b'a'..=b'z' => piece_sign(Side::Second, capital_kind(byte - 32)),
        _ => Sign::Other,
    }
}
