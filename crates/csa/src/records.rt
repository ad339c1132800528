//! Reader of one record.
ghost use Rattle.std.specs.Prelude.{◌≡◌, true, IfOk, IfErr};
ghost use Rattle.squares.specs.ShogiOpening.{opening};
ghost use Rattle.csa.specs.Moves.{MeanAll};
ghost use Rattle.csa.specs.Replays.{written_moves};
ghost use Rattle.csa.specs.internal.Replaying.{IsConsistent};
ghost use Rattle.csa.specs.Records.{is_even, begins_even, end_in, RecordFails};
ghost use Rattle.csa.specs.internal.Records.{IsRecordOf};

use crate::end_words::EndWord;
use crate::endings::{ending, says_declared};
use crate::faults::CsaFault;
use crate::game::CsaGame;
use crate::lines::NumberedStatement;
use crate::replay::{CsaReplay, replay_of};
use crate::statements::Statement;
use squares::Side;
use std::alloc::Global;

// Whether a statement agrees with the even initial position, in which Black moves first.
fn is_even(statement: Statement) -> bool
    ensures { result ≡ is_even statement }
{
    match statement {
        Statement::Opening { without_pieces } => without_pieces,
        Statement::Row { rank: _, even } => even,
        Statement::Pieces { none } => none,
        Statement::Turn(side) => match side {
            Side::First => true,
            Side::Second => false,
        },
        _ => true,
    }
}

// Whether a record begins from the even initial position.
fn begins_even(placed: &[NumberedStatement]) -> bool
    ensures { result ≡ begins_even placed.now }
{
    placed.iter().all(|each| is_even(each.statement))
}

// The end that a record states.
fn end_in(placed: &[NumberedStatement]) -> Option<EndWord>
    ensures { result ≡ end_in placed.now }
{
    for each in placed {
        match each.statement {
            Statement::End(word) => return word,
            _ => {}
        }
    }
    None
}

// The game of a record whose moves are replayed, if its end agrees.
fn game_of(placed: &[NumberedStatement], replay: CsaReplay) -> Result<CsaGame, CsaFault>
    requires stands { IsConsistent replay }
    requires even { begins_even placed.now ≡ true }
    requires mean { MeanAll opening (written_moves placed.now) replay.moves.items }
    ensures game { IfOk result (IsRecordOf placed.now) }
    ensures fault { IfErr result (RecordFails placed.now) }
{
    let end = replay.marks.end();
    let word = end_in(placed);
    match ending(word, &replay.position, end) {
        Err(fault) => Err(fault),
        Ok(score) => Ok(CsaGame {
            moves: replay.moves,
            score,
            declared: says_declared(word),
        }),
    }
}

/// Reads the game of a record.
///
/// # Errors
///
/// `CsaFault::OtherOpening`; the fault of its first refused move; `CsaFault::Unfinished`; `CsaFault::ResultDiffers`; or
/// `CsaFault::Memory` if out of memory.
pub fn read_record(alloc: Global, placed: &[NumberedStatement]) -> Result<CsaGame, CsaFault>
    ensures game { IfOk result (IsRecordOf placed.now) }
    ensures fault { IfErr result (RecordFails placed.now) }
{
    if !begins_even(placed) {
        return Err(CsaFault::OtherOpening);
    }
    let replay = replay_of(alloc, placed)?;
    game_of(placed, replay)
}
