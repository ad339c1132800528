//! The two-letter codes of pieces, and squares as two digits.
ghost use Rattle.std.specs.Prelude.{◌≡◌, ◌<◌};
ghost use Rattle.csa.specs.Codes.{role_of, code_of, is_digit, is_place, square_of};

use squares::{Role, Ssq};

/// The role of a piece with this two-letter code.
pub fn role_of(first: u8, second: u8) -> Option<Role>
    ensures { result ≡ role_of first second }
{
    match (first, second) {
        (b'O', b'U') => Some(Role::King),
        (b'H', b'I') => Some(Role::Rook),
        (b'K', b'A') => Some(Role::Bishop),
        (b'K', b'I') => Some(Role::Gold),
        (b'G', b'I') => Some(Role::Silver),
        (b'K', b'E') => Some(Role::Knight),
        (b'K', b'Y') => Some(Role::Lance),
        (b'F', b'U') => Some(Role::Pawn),
        (b'R', b'Y') => Some(Role::PromotedRook),
        (b'U', b'M') => Some(Role::PromotedBishop),
        (b'N', b'G') => Some(Role::PromotedSilver),
        (b'N', b'K') => Some(Role::PromotedKnight),
        (b'N', b'Y') => Some(Role::PromotedLance),
        (b'T', b'O') => Some(Role::PromotedPawn),
        _ => None,
    }
}

/// The two-letter code of a piece's role.
pub fn code_of(role: Role) -> &'static str
    ensures { result.now ≡ code_of role }
{
    match role {
        Role::King => "OU",
        Role::Rook => "HI",
        Role::Bishop => "KA",
        Role::Gold => "KI",
        Role::Silver => "GI",
        Role::Knight => "KE",
        Role::Lance => "KY",
        Role::Pawn => "FU",
        Role::PromotedRook => "RY",
        Role::PromotedBishop => "UM",
        Role::PromotedSilver => "NG",
        Role::PromotedKnight => "NK",
        Role::PromotedLance => "NY",
        Role::PromotedPawn => "TO",
    }
}

/// Whether a byte is a decimal digit.
pub fn is_digit(byte: u8) -> bool
    ensures { result ≡ is_digit byte }
{
    byte >= b'0' && byte <= b'9'
}

/// Whether a byte is a digit from 1 to 9, as files and ranks are.
pub fn is_place(byte: u8) -> bool
    ensures { result ≡ is_place byte }
{
    byte >= b'1' && byte <= b'9'
}

/// The square with these digits of file and rank.
pub fn square_of(file: u8, rank: u8) -> Option<Ssq>
    ensures { result ≡ square_of file rank }
{
    match (file, rank) {
        (b'1'..=b'9', b'1'..=b'9') => Ssq::new(file - b'0', rank - b'0'),
        _ => None,
    }
}
