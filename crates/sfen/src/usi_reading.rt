//! Reader of moves in USI notation.
ghost use Rattle.std.specs.Prelude.{◌≡◌, ◌≤◌, IfOk, IfErr, length};
ghost use Rattle.sfen.specs.internal.UsiText.{IsUsiText, IsUsiRefused};
ghost use Rattle.sfen.specs.UsiReading.{square_reading, kind_reading, step_of, drop_of, usi_reading, fits, reach};
ghost use Rattle.sfen.specs.UsiReading.{usi_reach};

use crate::faults::SfenFault;
use squares::{HandKind, SMove, Ssq};

/// The kind of character that is expected at a place of a move's text.
#[derive(Clone, Copy)]
pub enum UsiField {
    File,
    Rank,
    Plus,
    Piece,
    Star,
}

// The places of a board move's text; the last is optional.
const STEP: [UsiField; 5] = [
    UsiField::File,
    UsiField::Rank,
    UsiField::File,
    UsiField::Rank,
    UsiField::Plus,
];

// The places of a drop's text.
const DROP: [UsiField; 4] = [
    UsiField::Piece,
    UsiField::Star,
    UsiField::File,
    UsiField::Rank,
];

// The square with this file digit and rank letter.
fn square_of(file: u8, rank: u8) -> Option<Ssq>
    ensures { result ≡ square_reading file rank }
{
    match (file, rank) {
        (b'1'..=b'9', b'a'..=b'i') => Ssq::new(file - b'0', rank - b'a' + 1),
        _ => None,
    }
}

// The kind of piece in hand with this capital letter.
fn kind_of(letter: u8) -> Option<HandKind>
    ensures { result ≡ kind_reading letter }
{
    match letter {
        b'R' => Some(HandKind::Rook),
        b'B' => Some(HandKind::Bishop),
        b'G' => Some(HandKind::Gold),
        b'S' => Some(HandKind::Silver),
        b'N' => Some(HandKind::Knight),
        b'L' => Some(HandKind::Lance),
        b'P' => Some(HandKind::Pawn),
        _ => None,
    }
}

// The board move between two squares, if both are on the board.
fn step_of(from: Option<Ssq>, to: Option<Ssq>, promote: bool) -> Option<SMove>
    ensures { result ≡ step_of from to promote }
{
    Some(SMove::Step {
        from: from?,
        to: to?,
        promote,
    })
}

// The drop of a piece, if its kind and its square are valid.
fn drop_of(kind: Option<HandKind>, to: Option<Ssq>) -> Option<SMove>
    ensures { result ≡ drop_of kind to }
{
    Some(SMove::Drop {
        kind: kind?,
        to: to?,
    })
}

// The move that a text denotes.
fn move_of(text: &[u8]) -> Option<SMove>
    ensures { result ≡ usi_reading text.now }
{
    match text {
        [kind, b'*', file, rank] => drop_of(kind_of(*kind), square_of(*file, *rank)),
        [file, rank, to_file, to_rank] => step_of(
            square_of(*file, *rank),
            square_of(*to_file, *to_rank),
            false,
        ),
        [file, rank, to_file, to_rank, b'+'] => step_of(
            square_of(*file, *rank),
            square_of(*to_file, *to_rank),
            true,
        ),
        _ => None,
    }
}

// Whether a byte is allowed at a place.
fn fits(place: UsiField, byte: u8) -> bool
    ensures { result ≡ fits place byte }
{
    match place {
        UsiField::File => (b'1'..=b'9').contains(&byte),
        UsiField::Rank => (b'a'..=b'i').contains(&byte),
        UsiField::Plus => byte == b'+',
        UsiField::Piece => kind_of(byte).is_some(),
        UsiField::Star => byte == b'*',
    }
}

// The number of leading bytes that match the places.
fn reach(places: &[UsiField], text: &[u8]) -> usize
    ensures value { result ≡ reach places.now text.now }
    ensures within { result ≤ length text.now }
{
    let mut rest = text;
    for place in places {
        match rest {
            [byte, more @ ..] if fits(*place, *byte) => rest = more,
            _ => break,
        }
    }
    text.len() - rest.len()
}

// The length of the longest prefix that can begin a move's text.
fn usi_reach(text: &[u8]) -> usize
    ensures { result ≡ usi_reach text.now }
{
    reach(&STEP, text).max(reach(&DROP, text))
}

/// Reads a move in USI notation: `7g7f` on the board, `8h2b+` with a promotion, `P*5e` for a drop. The move may be
/// illegal.
///
/// # Errors
///
/// `SfenFault::BadText` for a syntax error, with the length of the longest prefix that can begin a move's text.
pub fn read_usi(text: &str) -> Result<SMove, SfenFault>
    ensures played { IfOk result (λ played. IsUsiText text.now played) }
    ensures fault { IfErr result (λ fault. IsUsiRefused text.now fault) }
{
    let bytes = text.as_bytes();
    match move_of(bytes) {
        Some(played) => Ok(played),
        None => Err(SfenFault::BadText(usi_reach(bytes))),
    }
}
