//! Judging a whole game.
ghost use Rattle.std.specs.Prelude.{◌≡◌, IfOk, IfErr, length};
ghost use Rattle.draughts_draws.specs.Ends.{end_of};
ghost use Rattle.draughts_draws.specs.Faults.{IsPlayed};
ghost use Rattle.draughts_draws.specs.internal.Faults.{HasFault};

use crate::counts::DrawCounts;
use crate::ends::DEnd;
use crate::faults::DLineFault;
use squares::{DMove, DPos};
use std::alloc::Global;

/// The end of the game after a sequence of moves, if the last ply ends it.
///
/// Without moves the result is the end of the starting position itself, if it is one.
///
/// # Errors
///
/// The fault of the first ply that breaks the rules:
///
/// - `AfterEnd`: the game had already ended. It takes precedence over `Illegal`.
/// - `Illegal`: the move is illegal.
/// - `Memory`: out of memory.
pub fn judge(alloc: Global, start: &DPos, moves: &[DMove]) -> Result<Option<DEnd>, DLineFault>
    ensures played { IfOk result (λ _. IsPlayed start.now moves.now (length moves.now)) }
    ensures end { IfOk result (λ end. end ≡ end_of start.now moves.now) }
    ensures fault { IfErr result (λ fault. HasFault start.now moves.now fault) }
{
    let mut counts = DrawCounts::start(alloc, start)?;
    for played in moves {
        counts.push(played)?;
    }
    Ok(counts.end())
}
