//! Parsers of the statements of the initial position: `PI`, ranks of the board, and pieces on squares.
ghost use Rattle.std.specs.Prelude.{◌≡◌, ◌≤◌, length};
ghost use Rattle.csa.specs.Openings.{is_cell, are_cells, are_blanks, is_piece, are_pieces, even_row, is_long_row};
ghost use Rattle.csa.specs.Openings.{is_row, is_even_row};

use crate::codes::{is_place, role_of};

// Whether three bytes are a cell of a rank: an empty square, or a side's sign and a piece's code.
fn is_cell(first: u8, second: u8, third: u8) -> bool
    ensures { result ≡ is_cell first second third }
{
    match first {
        b' ' => second == b'*' && third == b' ',
        b'+' | b'-' => role_of(second, third).is_some(),
        _ => false,
    }
}

// Whether a text is a sequence of cells. The last space may be missing.
fn are_cells(text: &[u8]) -> bool
    ensures { result ≡ are_cells text.now }
{
    let mut rest = text;
    while let [first, second, third, more @ ..] = rest {
        if !is_cell(*first, *second, *third) {
            return false;
        }
        rest = more;
    }
    match rest {
        [] => true,
        [first, second] => *first == b' ' && *second == b'*',
        _ => false,
    }
}

// Whether four bytes are a piece on a square, or in hand if `hand` allows it.
fn is_piece(hand: bool, file: u8, rank: u8, first: u8, second: u8) -> bool
    ensures { result ≡ is_piece hand file rank first second }
{
    let held = hand && file == b'0' && rank == b'0';
    (held || (is_place(file) && is_place(rank))) && role_of(first, second).is_some()
}

/// Whether a text is a sequence of pieces on squares, or in hand if `hand` allows it.
pub fn are_pieces(hand: bool, text: &[u8]) -> bool
    ensures { result ≡ are_pieces hand text.now }
{
    let mut rest = text;
    while let [file, rank, first, second, more @ ..] = rest {
        if !is_piece(hand, *file, *rank, *first, *second) {
            return false;
        }
        rest = more;
    }
    rest.is_empty()
}

// A rank of the even initial position, as nine cells.
fn even_row(rank: u8) -> &'static str
    ensures value { result.now ≡ even_row rank }
    ensures length { length result.now ≡ 27 }
{
    match rank {
        1 => "-KY-KE-GI-KI-OU-KI-GI-KE-KY",
        2 => " * -HI *  *  *  *  * -KA * ",
        3 => "-FU-FU-FU-FU-FU-FU-FU-FU-FU",
        7 => "+FU+FU+FU+FU+FU+FU+FU+FU+FU",
        8 => " * +KA *  *  *  *  * +HI * ",
        9 => "+KY+KE+GI+KI+OU+KI+GI+KE+KY",
        _ => " *  *  *  *  *  *  *  *  * ",
    }
}

fn are_blanks(text: &[u8]) -> bool
    ensures { result ≡ are_blanks text.now }
{
    text.iter().all(|byte| *byte == b' ')
}

// Whether a text is nine complete cells and trailing spaces.
fn is_long_row(text: &[u8]) -> bool
    requires { 27 ≤ length text.now }
    ensures { result ≡ is_long_row text.now }
{
    if !are_cells(&text[..27]) {
        return false;
    }
    are_blanks(&text[27..])
}

/// Whether a text is nine cells and trailing spaces. The space of the last cell may be missing.
pub fn is_row(text: &[u8]) -> bool
    ensures { result ≡ is_row text.now }
{
    if text.len() == 26 {
        return are_cells(text);
    }
    if text.len() < 27 {
        return false;
    }
    is_long_row(text)
}

/// Whether nine cells are those of a rank of the even initial position.
pub fn is_even_row(rank: u8, text: &[u8]) -> bool
    requires { 26 ≤ length text.now }
    ensures { result ≡ is_even_row rank text.now }
{
    let row = even_row(rank).as_bytes();
    if text.len() < 27 {
        return text == &row[..26];
    }
    &text[..27] == row
}
