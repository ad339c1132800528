//! Writer of moves.
ghost use Rattle.std.specs.Prelude.{◌≡◌, ◌++◌, OnOk, IfOk, string_bytes, IsTrue, ◌↔◌};
ghost use Rattle.std.specs.List.{list_any};
ghost use Rattle.draughts_moves.specs.Legal.{Legal};
ghost use Rattle.pdn.specs.MoveText.{HasRival, IsMoveText, is_like, quiet_text, landing_text, landings_text};
ghost use Rattle.pdn.specs.MoveText.{capture_text};

use crate::squares_text::push_square;
use draughts_moves::{Memory, legal, routes};
use squares::{DMove, DPos, Dsq};
use std::alloc::{AllocError, Global};

// The text of a quiet move.
fn write_quiet(alloc: Global, from: Dsq, to: Dsq) -> Result<String, AllocError>
    ensures { IfOk result (λ text. string_bytes text ≡ quiet_text from to) }
{
    let mut text = String::new(alloc);
    push_square(&mut text, from)?;
    text.push_str("-")?;
    push_square(&mut text, to)?;
    Ok(text)
}

// Appends an `x` and a landing square.
fn push_landing(text: &mut String, to: Dsq) -> Result<(), AllocError>
    ensures { OnOk result (string_bytes text.new ≡ string_bytes text.old ++ landing_text to) }
{
    text.push_str("x")?;
    push_square(text, to)?;
    Ok(())
}

// Appends landing squares, each after an `x`.
fn push_landings(text: &mut String, landings: &[Dsq]) -> Result<(), AllocError>
    ensures { OnOk result
        (string_bytes text.new ≡ string_bytes text.old ++ landings_text landings.now) }
{
    for to in landings {
        push_landing(text, *to)?;
    }
    Ok(())
}

// The text of a capture with these landing squares.
fn write_capture(alloc: Global, from: Dsq, landings: &[Dsq]) -> Result<String, AllocError>
    ensures { IfOk result (λ text. string_bytes text ≡ capture_text from landings.now) }
{
    let mut text = String::new(alloc);
    push_square(&mut text, from)?;
    push_landings(&mut text, landings)?;
    Ok(text)
}

// Whether another move has the same origin and destination, but captures other pieces.
fn is_like(played: &DMove, other: &DMove) -> bool
    ensures { result ≡ is_like played.now other.now }
{
    other.from == played.from && other.to == played.to && other.taken != played.taken
}

fn has_like(played: &DMove, moves: &[DMove]) -> bool
    ensures { result ≡ list_any (is_like played.now) moves.now }
{
    moves.iter().any(|other| is_like(played, other))
}

// Whether another legal move has the same origin and destination.
fn has_rival(alloc: Global, position: &DPos, played: &DMove) -> Result<bool, Memory>
    ensures { IfOk result (λ found. IsTrue found ↔ HasRival position.now played.now) }
{
    let moves = legal(alloc, position)?;
    Ok(has_like(played, moves.as_slice()))
}

/// Writes a legal move: `32-28` for a quiet move, `28x19` for a capture. If another legal move has the same origin and
/// destination, all landing squares are written, those of the lexicographically first route.
///
/// # Errors
///
/// `Memory` if out of memory.
pub fn write_move(alloc: Global, position: &DPos, played: &DMove) -> Result<String, Memory>
    requires { Legal position.now played.now }
    ensures { IfOk result (λ text. IsMoveText position.now played.now (string_bytes text)) }
{
    if played.taken.is_empty() {
        return Ok(write_quiet(alloc, played.from, played.to)?);
    }
    if !has_rival(alloc, position, played)? {
        return Ok(write_capture(alloc, played.from, &[played.to])?);
    }
    let found = routes(alloc, position, played)?;
    match found.as_slice().first() {
        Some(landings) => Ok(write_capture(alloc, played.from, landings.as_slice())?),
        None => unreachable!(),
    }
}
