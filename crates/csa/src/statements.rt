//! Parser of a statement.
ghost use Rattle.std.specs.Prelude.{◌≡◌};
ghost use Rattle.std.specs.List.{list_all};
ghost use Rattle.csa.specs.Codes.{is_digit};
ghost use Rattle.csa.specs.Statements.{source_of, move_of, parting, version, opening, pieces, row, seconds, signed};
ghost use Rattle.csa.specs.Statements.{statement_of};

use crate::codes::{is_digit, role_of, square_of};
use crate::end_words::{EndWord, end_word};
use crate::openings::{are_pieces, is_even_row, is_row};
use squares::{Role, Side, Ssq};

/// A move as written: its side, its origin (`None` for a drop), its destination, and the role of the piece after it.
#[derive(Clone, Copy, Debug, PartialEq, Eq)]
pub struct WrittenMove {
    pub side: Side,
    pub from: Option<Ssq>,
    pub to: Ssq,
    pub role: Role,
}

/// A statement of a CSA text.
#[derive(Clone, Copy, Debug, PartialEq, Eq)]
pub enum Statement {
    /// `/`, the separator of records.
    Parting,
    /// `V2`, `V2.1` or `V2.2`.
    Version,
    /// A player's name, or a `$` keyword line.
    Header,
    /// `PI`, the even initial position, without the pieces that it lists.
    Opening { without_pieces: bool },
    /// `P1` to `P9`: a rank of the board, and whether it is that of the even initial position.
    Row { rank: u8, even: bool },
    /// `P+` or `P-`: pieces of a side, or none.
    Pieces { none: bool },
    /// `+` or `-`: the side to move first.
    Turn(Side),
    Move(WrittenMove),
    /// `T`: the time of the preceding move or end.
    Seconds,
    /// `%`: the end of the game, or `None` if the keyword is unknown.
    End(Option<EndWord>),
    /// A syntax error.
    Formless,
}

// The origin of a move: a square, or the hand for `00`.
fn source_of(file: u8, rank: u8) -> Option<Option<Ssq>>
    ensures { result ≡ source_of file rank }
{
    if file == b'0' && rank == b'0' {
        return Some(None);
    }
    match square_of(file, rank) {
        None => None,
        Some(square) => Some(Some(square)),
    }
}

// The move of a side, if all its parts are valid.
fn move_of(side: Side, from: Option<Option<Ssq>>, to: Option<Ssq>, role: Option<Role>) -> Statement
    ensures { result ≡ move_of side from to role }
{
    match (from, to, role) {
        (Some(from), Some(to), Some(role)) => Statement::Move(WrittenMove {
            side,
            from,
            to,
            role,
        }),
        _ => Statement::Formless,
    }
}

// A statement that begins with `/`.
fn parting(more: &[u8]) -> Statement
    ensures { result ≡ parting more.now }
{
    match more {
        [] => Statement::Parting,
        _ => Statement::Formless,
    }
}

// A statement that begins with `V`.
fn version(more: &[u8]) -> Statement
    ensures { result ≡ version more.now }
{
    match more {
        [b'2'] => Statement::Version,
        [b'2', b'.', b'1' | b'2'] => Statement::Version,
        _ => Statement::Formless,
    }
}

// A statement that begins with `P+` or `P-`.
fn pieces(text: &[u8]) -> Statement
    ensures { result ≡ pieces text.now }
{
    if are_pieces(true, text) {
        return Statement::Pieces {
            none: text.is_empty(),
        };
    }
    Statement::Formless
}

// A statement that begins with `P` and a digit.
fn row(rank: u8, text: &[u8]) -> Statement
    ensures { result ≡ row rank text.now }
{
    if is_row(text) {
        return Statement::Row {
            rank,
            even: is_even_row(rank, text),
        };
    }
    Statement::Formless
}

// A statement that begins with `P`.
fn opening(more: &[u8]) -> Statement
    ensures { result ≡ opening more.now }
{
    match more {
        [b'I', text @ ..] if are_pieces(false, text) => Statement::Opening {
            without_pieces: text.is_empty(),
        },
        [b'+' | b'-', text @ ..] => pieces(text),
        [digit @ b'1'..=b'9', text @ ..] => row(*digit - b'0', text),
        _ => Statement::Formless,
    }
}

// A statement that begins with a side's sign.
fn signed(side: Side, more: &[u8]) -> Statement
    ensures { result ≡ signed side more.now }
{
    match more {
        [] => Statement::Turn(side),
        [file, rank, to_file, to_rank, first, second] => move_of(
            side,
            source_of(*file, *rank),
            square_of(*to_file, *to_rank),
            role_of(*first, *second),
        ),
        _ => Statement::Formless,
    }
}

fn are_digits(text: &[u8]) -> bool
    ensures { result ≡ list_all is_digit text.now }
{
    text.iter().all(|byte| is_digit(*byte))
}

// A statement that begins with `T`.
fn seconds(more: &[u8]) -> Statement
    ensures { result ≡ seconds more.now }
{
    if more.is_empty() {
        return Statement::Formless;
    }
    if are_digits(more) {
        return Statement::Seconds;
    }
    Statement::Formless
}

/// Parses a statement, the text between two commas.
pub fn statement_of(text: &[u8]) -> Statement
    ensures { result ≡ statement_of text.now }
{
    match text {
        [b'/', more @ ..] => parting(more),
        [b'V', more @ ..] => version(more),
        [b'P', more @ ..] => opening(more),
        [b'+', more @ ..] => signed(Side::First, more),
        [b'-', more @ ..] => signed(Side::Second, more),
        [b'T', more @ ..] => seconds(more),
        [b'%', ..] => Statement::End(end_word(text)),
        _ => Statement::Formless,
    }
}
