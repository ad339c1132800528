//! Writer of moves in USI notation.
ghost use Rattle.std.specs.Prelude.{◌≡◌, ◌++◌, OnOk, IfOk, string_bytes};
ghost use Rattle.sfen.specs.UsiText.{square_text, promotion_text, usi_text};

use crate::letters::capital;
use memory::Memory;
use squares::{SMove, Ssq};
use std::alloc::Global;

// Appends a square: its file digit and its rank letter.
fn push_square(text: &mut String, square: Ssq) -> Result<(), Memory>
    ensures { OnOk result (string_bytes text.new ≡ string_bytes text.old ++ square_text square) }
{
    text.push((b'0' + square.file()) as char)?;
    text.push((b'a' - 1 + square.rank()) as char)?;
    Ok(())
}

// Appends a `+` if the piece promotes.
fn push_promotion(text: &mut String, promote: bool) -> Result<(), Memory>
    ensures { OnOk result (string_bytes text.new ≡ string_bytes text.old ++ promotion_text promote) }
{
    if promote {
        text.push_str("+")?;
    }
    Ok(())
}

/// Writes a move in USI notation: `7g7f` on the board, `8h2b+` with a promotion, `P*5e` for a drop. The move may be
/// illegal.
///
/// # Errors
///
/// `Memory` if out of memory.
pub fn write_usi(alloc: Global, played: &SMove) -> Result<String, Memory>
    ensures { IfOk result (λ text. string_bytes text ≡ usi_text played.now) }
{
    let mut text = String::new(alloc);
    match *played {
        SMove::Step { from, to, promote } => {
            push_square(&mut text, from)?;
            push_square(&mut text, to)?;
            push_promotion(&mut text, promote)?;
        }
        SMove::Drop { kind, to } => {
            text.push(capital(kind.kind()) as char)?;
            text.push_str("*")?;
            push_square(&mut text, to)?;
        }
    }
    Ok(text)
}
