//! Shogi diagrams in the BOD format of Japanese programs.
ghost use Rattle.std.specs.Prelude.{◌≡◌, ◌++◌, ◌<◌, ◌≤◌, OnOk, IfOk, string_bytes};
ghost use Rattle.diagrams.specs.BodNames.{side_mark, role_name, digit_name, count_name, cell_text};
ghost use Rattle.diagrams.specs.BodNames.{empty_square, ten, wide_blank, nothing};
ghost use Rattle.diagrams.specs.BodDiagram.{squares_text, rank_text, heading, border, ranks_text, held_text};
ghost use Rattle.diagrams.specs.BodDiagram.{kinds_text, hand_text, hand_line, board_text, bod_text, hand_name};
ghost use Rattle.diagrams.specs.BodDiagram.{turn_line};
ghost use Rattle.diagrams.specs.ShogiLines.{hand_kinds};

use crate::shogi::piece_at;
use memory::Memory;
use squares::{Hand, HandKind, Role, SBoard, SPiece, SPos, Side};
use std::alloc::Global;

// The mark before a side's piece.
fn side_mark(side: Side) -> &'static str
    ensures { result.now ≡ side_mark side }
{
    match side {
        Side::First => " ",
        Side::Second => "v",
    }
}

// The one-character name of a piece.
fn role_name(role: Role) -> &'static str
    ensures { result.now ≡ role_name role }
{
    match role {
        Role::King => "玉",
        Role::Rook => "飛",
        Role::Bishop => "角",
        Role::Gold => "金",
        Role::Silver => "銀",
        Role::Knight => "桂",
        Role::Lance => "香",
        Role::Pawn => "歩",
        Role::PromotedRook => "龍",
        Role::PromotedBishop => "馬",
        Role::PromotedSilver => "全",
        Role::PromotedKnight => "圭",
        Role::PromotedLance => "杏",
        Role::PromotedPawn => "と",
    }
}

// The Japanese numeral of a number from 1 to 9; empty for 0.
fn digit_name(number: u8) -> &'static str
    requires { number < 10 }
    ensures { result.now ≡ digit_name number }
{
    match number {
        0 => "",
        1 => "一",
        2 => "二",
        3 => "三",
        4 => "四",
        5 => "五",
        6 => "六",
        7 => "七",
        8 => "八",
        _ => "九",
    }
}

fn empty_square() -> &'static str
    ensures { result.now ≡ empty_square }
{
    " ・"
}

// The Japanese numeral of ten.
fn ten() -> &'static str
    ensures { result.now ≡ ten }
{
    "十"
}

// A space as wide as a Japanese character.
fn wide_blank() -> &'static str
    ensures { result.now ≡ wide_blank }
{
    "\u{3000}"
}

// The text for an empty hand.
fn nothing() -> &'static str
    ensures { result.now ≡ nothing }
{
    "なし"
}

// Appends the content of a square.
fn push_cell(text: &mut String, cell: Option<SPiece>) -> Result<(), Memory>
    ensures { OnOk result (string_bytes text.new ≡ string_bytes text.old ++ cell_text cell) }
{
    match cell {
        Some(piece) => {
            text.push_str(side_mark(piece.side))?;
            text.push_str(role_name(piece.role))?;
            Ok(())
        }
        None => {
            text.push_str(empty_square())?;
            Ok(())
        }
    }
}

// Appends the squares of a rank, from file 9 to file 1.
fn push_squares(text: &mut String, board: &SBoard, rank: u8) -> Result<(), Memory>
    requires low { 1 ≤ rank }
    requires high { rank ≤ 9 }
    ensures { OnOk result
        (string_bytes text.new ≡ string_bytes text.old ++ squares_text board.now rank 9) }
{
    for past in 0..9 {
        push_cell(text, piece_at(board, 9 - past, rank))?;
    }
    Ok(())
}

// Appends a rank: its squares between bars, and its numeral.
fn push_rank(text: &mut String, board: &SBoard, rank: u8) -> Result<(), Memory>
    requires low { 1 ≤ rank }
    requires high { rank ≤ 9 }
    ensures { OnOk result
        (string_bytes text.new ≡ string_bytes text.old ++ rank_text board.now rank) }
{
    text.push_str("|")?;
    push_squares(text, board, rank)?;
    text.push_str("|")?;
    text.push_str(digit_name(rank))?;
    text.push_str("\n")?;
    Ok(())
}

// The line with the numbers of the files.
fn heading() -> &'static str
    ensures { result.now ≡ heading }
{
    "  ９ ８ ７ ６ ５ ４ ３ ２ １\n"
}

// The edge of the board.
#[tactic(auto, unfolding(crate::specs::BodDiagram::border))]
fn border() -> &'static str
    ensures { result.now ≡ border }
{
    "+---------------------------+\n"
}

fn push_ranks(text: &mut String, board: &SBoard) -> Result<(), Memory>
    ensures { OnOk result
        (string_bytes text.new ≡ string_bytes text.old ++ ranks_text board.now 1 9) }
{
    for rank in 1..10 {
        push_rank(text, board, rank)?;
    }
    Ok(())
}

// Appends the numbers of the files and the nine ranks between the edges.
fn push_board(text: &mut String, board: &SBoard) -> Result<(), Memory>
    ensures { OnOk result (string_bytes text.new ≡ string_bytes text.old ++ board_text board.now) }
{
    text.push_str(heading())?;
    text.push_str(border())?;
    push_ranks(text, board)?;
    text.push_str(border())?;
    Ok(())
}

// Appends a count below 20; nothing for 1.
fn push_count(text: &mut String, count: u8) -> Result<(), Memory>
    ensures { OnOk result (string_bytes text.new ≡ string_bytes text.old ++ count_name count) }
{
    if count == 1 {
        return Ok(());
    }
    if count < 10 {
        text.push_str(digit_name(count % 10))?;
        return Ok(());
    }
    text.push_str(ten())?;
    text.push_str(digit_name(count % 10))?;
    Ok(())
}

// Appends the kind, the count and a space; nothing if the count is 0.
fn push_held(text: &mut String, kind: HandKind, count: u8) -> Result<(), Memory>
    ensures { OnOk result
        (string_bytes text.new ≡ string_bytes text.old ++ held_text kind count) }
{
    if count == 0 {
        return Ok(());
    }
    text.push_str(role_name(kind.kind().role()))?;
    push_count(text, count)?;
    text.push_str(wide_blank())?;
    Ok(())
}

fn push_kinds(text: &mut String, hand: Hand) -> Result<(), Memory>
    ensures { OnOk result
        (string_bytes text.new ≡ string_bytes text.old ++ kinds_text hand hand_kinds) }
{
    for kind in HandKind::ALL {
        push_held(text, kind, hand.count(kind))?;
    }
    Ok(())
}

// Appends the pieces of a hand, or that it is empty.
fn push_hand(text: &mut String, hand: Hand) -> Result<(), Memory>
    ensures { OnOk result (string_bytes text.new ≡ string_bytes text.old ++ hand_text hand) }
{
    let before = text.len();
    push_kinds(text, hand)?;
    if text.len() == before {
        text.push_str(nothing())?;
    }
    Ok(())
}

// The label of a side's hand.
fn hand_name(side: Side) -> &'static str
    ensures { result.now ≡ hand_name side }
{
    match side {
        Side::First => "先手の持駒：",
        Side::Second => "後手の持駒：",
    }
}

// Appends the line of a side's hand.
fn push_line(text: &mut String, side: Side, hand: Hand) -> Result<(), Memory>
    ensures { OnOk result (string_bytes text.new ≡ string_bytes text.old ++ hand_line side hand) }
{
    text.push_str(hand_name(side))?;
    push_hand(text, hand)?;
    text.push_str("\n")?;
    Ok(())
}

// The last line: White is to move; empty if Black is.
fn turn_line(side: Side) -> &'static str
    ensures { result.now ≡ turn_line side }
{
    match side {
        Side::First => "",
        Side::Second => "後手番\n",
    }
}

/// The BOD diagram of a shogi position, in UTF-8.
///
/// The lines are White's hand, the numbers of the files, the nine ranks from file 9 to file 1, and Black's hand. A
/// piece is one character, after a `v` if it is White's. A count above 1 follows the kind. A last line says that White
/// is to move; it is missing if Black is.
///
/// # Errors
///
/// `Memory` if out of memory.
pub fn write_bod(alloc: Global, position: &SPos) -> Result<String, Memory>
    ensures { IfOk result (λ text. string_bytes text ≡ bod_text position.now) }
{
    let hands = position.hands();
    let mut text = String::new(alloc);
    push_line(&mut text, Side::Second, hands.second)?;
    push_board(&mut text, position.board())?;
    push_line(&mut text, Side::First, hands.first)?;
    text.push_str(turn_line(position.turn()))?;
    Ok(text)
}
