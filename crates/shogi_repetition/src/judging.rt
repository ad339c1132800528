//! Judging a whole game.
ghost use Rattle.std.specs.Prelude.{IfOk, IfErr, length};
ghost use Rattle.shogi_repetition.specs.Ends.{EndsSo};
ghost use Rattle.shogi_repetition.specs.Faults.{IsPlayed};
ghost use Rattle.shogi_repetition.specs.internal.Faults.{HasFault};

use crate::ends::SEnd;
use crate::faults::SLineFault;
use crate::marks::Marks;
use squares::{SMove, SPos};
use std::alloc::Global;

/// The end of the game after a sequence of moves, if the last ply ends it.
///
/// Without moves the result is the end of the starting position itself, if it is one. Only positions of this sequence
/// count for repetition.
///
/// # Errors
///
/// The fault of the first ply that breaks the rules:
///
/// - `AfterEnd`: the game had already ended. It takes precedence over `Illegal`.
/// - `Illegal`: the move is illegal.
/// - `Memory`: out of memory.
pub fn judge(alloc: Global, start: &SPos, moves: &[SMove]) -> Result<Option<SEnd>, SLineFault>
    ensures played { IfOk result (λ _. IsPlayed start.now moves.now (length moves.now)) }
    ensures end { IfOk result (λ end. EndsSo start.now moves.now end) }
    ensures fault { IfErr result (λ fault. HasFault start.now moves.now fault) }
{
    let mut marks = Marks::start(alloc, start)?;
    for played in moves {
        marks.push(played)?;
    }
    Ok(marks.end())
}
