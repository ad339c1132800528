//! Draughts diagrams of ten lines.
ghost use Rattle.std.specs.Prelude.{◌≡◌, ◌++◌, ◌∷◌, [], ◌<◌, OnOk, IfOk, string_bytes};
ghost use Rattle.diagrams.specs.Numbers.{number_text, tens_sign};
ghost use Rattle.diagrams.specs.DraughtsDiagram.{piece_letter, cell_sign, sign_at, cells_text, row_text, diagram_text};

use memory::Memory;
use squares::{DPiece, DPos, Dsq, Side};
use std::alloc::Global;

// The letter of a piece: lower case for a man, upper case for a king.
fn piece_letter(side: Side, king: bool) -> u8
    ensures value { result ≡ piece_letter side king }
    ensures range { result < 128 }
{
    match (side, king) {
        (Side::First, false) => b'w',
        (Side::First, true) => b'W',
        (Side::Second, false) => b'b',
        (Side::Second, true) => b'B',
    }
}

// The character for the content of a dark square.
fn cell_sign(cell: Option<DPiece>) -> u8
    ensures value { result ≡ cell_sign cell }
    ensures range { result < 128 }
{
    match cell {
        Some(piece) => piece_letter(piece.side, piece.king),
        None => b'.',
    }
}

// The character for the square at a row and a column; a space for a light square.
fn sign_at(position: &DPos, row: u8, column: u8) -> u8
    requires row_in { row < 10 }
    requires column_in { column < 10 }
    ensures value { result ≡ sign_at position.now.board row column }
    ensures range { result < 128 }
{
    if (row + column) % 2 == 0 {
        return b' ';
    }
    match Dsq::from_coords(row, column) {
        Some(square) => cell_sign(position.piece_at(square)),
        None => unreachable!(),
    }
}

// The tens digit of a number; a space if it is 0.
fn tens_sign(number: u8) -> u8
    requires { number < 100 }
    ensures value { result ≡ tens_sign number }
    ensures range { result < 128 }
{
    if number < 10 {
        b' '
    } else {
        b'0' + number / 10
    }
}

// Appends a number, right-aligned in two columns.
fn push_number(text: &mut String, number: u8) -> Result<(), Memory>
    requires { number < 100 }
    ensures { OnOk result (string_bytes text.new ≡ string_bytes text.old ++ number_text number) }
{
    text.push(tens_sign(number) as char)?;
    text.push((b'0' + number % 10) as char)?;
    Ok(())
}

// Appends a square's character, right-aligned in three columns.
fn push_cell(text: &mut String, sign: u8) -> Result<(), Memory>
    requires { sign < 128 }
    ensures { OnOk result
        (string_bytes text.new ≡ string_bytes text.old ++ (32 ∷ 32 ∷ sign ∷ [])) }
{
    text.push_str("  ")?;
    text.push(sign as char)?;
    Ok(())
}

fn push_cells(text: &mut String, position: &DPos, row: u8) -> Result<(), Memory>
    requires { row < 10 }
    ensures { OnOk result
        (string_bytes text.new ≡ string_bytes text.old ++ cells_text position.now.board row 0 10) }
{
    for column in 0..10 {
        push_cell(text, sign_at(position, row, column))?;
    }
    Ok(())
}

// Appends a row: its squares between the numbers of its first and its last dark square.
fn push_row(text: &mut String, position: &DPos, row: u8) -> Result<(), Memory>
    requires { row < 10 }
    ensures { OnOk result
        (string_bytes text.new ≡ string_bytes text.old ++ row_text position.now.board row) }
{
    push_number(text, 5 * row + 1)?;
    text.push_str(" ")?;
    push_cells(text, position, row)?;
    text.push_str(" ")?;
    push_number(text, 5 * row + 5)?;
    text.push_str("\n")?;
    Ok(())
}

/// The diagram of a draughts position.
///
/// It has ten lines from the top of the board, each with ten squares between the numbers of its first and its last dark
/// square. White's men are `w` and kings `W`; Black's are `b` and `B`. An empty dark square is `.`, a light one is
/// blank. The side to move is not shown.
///
/// # Errors
///
/// `Memory` if out of memory.
pub fn write_draughts(alloc: Global, position: &DPos) -> Result<String, Memory>
    ensures { IfOk result (λ text. string_bytes text ≡ diagram_text position.now.board) }
{
    let mut text = String::new(alloc);
    for row in 0..10 {
        push_row(&mut text, position, row)?;
    }
    Ok(text)
}
