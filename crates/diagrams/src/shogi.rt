//! Shogi diagrams with the letters of SFEN (http://hgm.nubati.net/usi.html).
ghost use Rattle.std.specs.Prelude.{◌≡◌, ◌++◌, ◌∷◌, [], ◌<◌, ◌≤◌, OnOk, IfOk, string_bytes};
ghost use Rattle.std.specs.FinMap as map;
ghost use Rattle.squares.specs.ShogiGeometry.{shogi_number};
ghost use Rattle.squares.specs.internal.ShogiGeometry.{OnShogiBoard};
ghost use Rattle.diagrams.specs.ShogiLetters.{capital, piece_letter, cell_mark, cell_letter};
ghost use Rattle.diagrams.specs.ShogiDiagram.{squares_text, rank_text, heading, board_text, held_text, kinds_text};
ghost use Rattle.diagrams.specs.ShogiDiagram.{hand_text, hand_line, shogi_text};
ghost use Rattle.diagrams.specs.ShogiLines.{hand_kinds};

use memory::Memory;
use squares::{Hand, HandKind, Kind, SBoard, SPiece, SPos, Side, Ssq};
use std::alloc::Global;

// The upper-case letter of a kind.
fn capital(kind: Kind) -> u8
    ensures value { result ≡ capital kind }
    ensures range { result < 91 }
{
    match kind {
        Kind::King => b'K',
        Kind::Rook => b'R',
        Kind::Bishop => b'B',
        Kind::Gold => b'G',
        Kind::Silver => b'S',
        Kind::Knight => b'N',
        Kind::Lance => b'L',
        Kind::Pawn => b'P',
    }
}

// The letter of a side's piece of a kind: upper case for Black, lower case for White.
fn piece_letter(side: Side, kind: Kind) -> u8
    ensures value { result ≡ piece_letter side kind }
    ensures range { result < 128 }
{
    match side {
        Side::First => capital(kind),
        Side::Second => capital(kind) + (b'a' - b'A'),
    }
}

// The mark before the letter of a square: `+` for a promoted piece.
fn cell_mark(cell: Option<SPiece>) -> u8
    ensures value { result ≡ cell_mark cell }
    ensures range { result < 128 }
{
    match cell {
        Some(piece) => { if piece.role.is_promoted() { b'+' } else { b' ' } }
        None => b' ',
    }
}

// The letter of the content of a square.
fn cell_letter(cell: Option<SPiece>) -> u8
    ensures value { result ≡ cell_letter cell }
    ensures range { result < 128 }
{
    match cell {
        Some(piece) => piece_letter(piece.side, piece.role.kind()),
        None => b'.',
    }
}

// Appends a space, a mark and a letter.
fn push_three(text: &mut String, mark: u8, letter: u8) -> Result<(), Memory>
    requires mark { mark < 128 }
    requires letter { letter < 128 }
    ensures { OnOk result
        (string_bytes text.new ≡ string_bytes text.old ++ (32 ∷ mark ∷ letter ∷ [])) }
{
    text.push_str(" ")?;
    text.push(mark as char)?;
    text.push(letter as char)?;
    Ok(())
}

// Appends the content of a square in three columns.
fn push_cell(text: &mut String, cell: Option<SPiece>) -> Result<(), Memory>
    ensures { OnOk result
        (string_bytes text.new ≡ string_bytes text.old ++ (32 ∷ cell_mark cell ∷ cell_letter cell ∷ [])) }
{
    push_three(text, cell_mark(cell), cell_letter(cell))?;
    Ok(())
}

// The piece at a file and a rank.
pub(crate) fn piece_at(board: &SBoard, file: u8, rank: u8) -> Option<SPiece>
    requires { OnShogiBoard file rank }
    ensures { result ≡ map.get board.now (shogi_number file rank) }
{
    match Ssq::new(file, rank) {
        Some(square) => board.piece_at(square),
        None => unreachable!(),
    }
}

// Appends the squares of a rank, from file 9 to file 1.
fn push_squares(text: &mut String, board: &SBoard, rank: u8) -> Result<(), Memory>
    requires low { 1 ≤ rank }
    requires high { rank ≤ 9 }
    ensures { OnOk result
        (string_bytes text.new ≡ string_bytes text.old ++ squares_text board.now rank 9) }
{
    for past in 0..9 {
        push_cell(text, piece_at(board, 9 - past, rank))?;
    }
    Ok(())
}

// Appends a rank: its squares, then its letter.
fn push_rank(text: &mut String, board: &SBoard, rank: u8) -> Result<(), Memory>
    requires low { 1 ≤ rank }
    requires high { rank ≤ 9 }
    ensures { OnOk result
        (string_bytes text.new ≡ string_bytes text.old ++ rank_text board.now rank) }
{
    push_squares(text, board, rank)?;
    text.push_str(" ")?;
    text.push((b'a' - 1 + rank) as char)?;
    text.push_str("\n")?;
    Ok(())
}

// Appends the line with the numbers of the files.
#[tactic(auto, unfolding(crate::specs::ShogiDiagram::heading))]
fn push_heading(text: &mut String) -> Result<(), Memory>
    ensures { OnOk result (string_bytes text.new ≡ string_bytes text.old ++ heading) }
{
    text.push_str("  9  8  7  6  5  4  3  2  1\n")?;
    Ok(())
}

// Appends the numbers of the files and the nine ranks.
fn push_board(text: &mut String, board: &SBoard) -> Result<(), Memory>
    ensures { OnOk result (string_bytes text.new ≡ string_bytes text.old ++ board_text board.now) }
{
    push_heading(text)?;
    for rank in 1..10 {
        push_rank(text, board, rank)?;
    }
    Ok(())
}

// Appends a letter and its count, if that is above 1; nothing if the count is 0.
fn push_held(text: &mut String, letter: u8, count: u8) -> Result<(), Memory>
    requires { letter < 128 }
    ensures { OnOk result
        (string_bytes text.new ≡ string_bytes text.old ++ held_text letter count) }
{
    if count == 0 {
        return Ok(());
    }
    text.push_str(" ")?;
    text.push(letter as char)?;
    if count == 1 {
        return Ok(());
    }
    write!(text, "{count}")?;
    Ok(())
}

fn push_kinds(text: &mut String, hand: Hand) -> Result<(), Memory>
    ensures { OnOk result
        (string_bytes text.new ≡ string_bytes text.old ++ kinds_text hand hand_kinds) }
{
    for kind in HandKind::ALL {
        push_held(text, capital(kind.kind()), hand.count(kind))?;
    }
    Ok(())
}

// Appends the pieces of a hand, or a hyphen if it is empty.
fn push_hand(text: &mut String, hand: Hand) -> Result<(), Memory>
    ensures { OnOk result (string_bytes text.new ≡ string_bytes text.old ++ hand_text hand) }
{
    let before = text.len();
    push_kinds(text, hand)?;
    if text.len() == before {
        text.push_str(" -")?;
    }
    Ok(())
}

fn push_line(text: &mut String, name: &str, hand: Hand) -> Result<(), Memory>
    ensures { OnOk result
        (string_bytes text.new ≡ string_bytes text.old ++ hand_line name.now hand) }
{
    text.push_str(name)?;
    push_hand(text, hand)?;
    text.push_str("\n")?;
    Ok(())
}

/// The diagram of a shogi position.
///
/// The lines are White's hand, the numbers of the files, the nine ranks from file 9 to file 1 with the rank's letter,
/// and Black's hand. A piece is its SFEN letter, upper case for Black and lower case for White, after a `+` if it is
/// promoted. An empty square is `.`. Hands look like `White: B P2`, or `Black: -` if empty. The side to move is not
/// shown.
///
/// # Errors
///
/// `Memory` if out of memory.
pub fn write_shogi(alloc: Global, position: &SPos) -> Result<String, Memory>
    ensures { IfOk result (λ text. string_bytes text ≡ shogi_text position.now) }
{
    let hands = position.hands();
    let mut text = String::new(alloc);
    push_line(&mut text, "White:", hands.second)?;
    push_board(&mut text, position.board())?;
    push_line(&mut text, "Black:", hands.first)?;
    Ok(text)
}
