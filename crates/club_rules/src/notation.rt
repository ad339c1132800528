//! The notation of several moves.

ghost use Rattle.std.specs.Prelude.{◌≡◌, Ok, Contains, IfOk, map, string_bytes};

use crate::Rules;
use memory::Memory;
use std::alloc::Global;

/// The notation of each move of a position, in their order.
///
/// # Errors
///
/// `Memory` if out of memory.
pub fn write_moves<R: Rules>(
    alloc: Global,
    position: &R::Position,
    moves: &[R::Move],
) -> Result<Vec<String>, Memory>
    requires { (m : R.Move) → Contains moves.now m → R.rules.check position.now m ≡ Ok tt }
    ensures { IfOk result (λ texts. map (λ t. string_bytes t) texts.items
        ≡ map (R.rules.write_move position.now) moves.now) }
{
    let mut texts = Vec::new(alloc);
    for made in moves {
        texts.push(R::write_move(alloc, position, made)?)?;
    }
    Ok(texts)
}
