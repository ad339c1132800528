//! Replay of the moves of a record, ply by ply.
ghost use Rattle.std.specs.Prelude.{[], ◌∷◌, ◌++◌, ◌≡◌, IfOk, IfErr, OnOk};
ghost use Rattle.squares.specs.ShogiOpening.{opening};
ghost use Rattle.csa.specs.Moves.{Means, MeanAll};
ghost use Rattle.csa.specs.Replays.{written_moves, RefusesNext};
ghost use Rattle.csa.specs.internal.Replays.{RefusesMoves};
ghost use Rattle.csa.specs.internal.Replaying.{IsConsistent, GrowsBy, GrowsWith, RefusesMade, RefusesWritten};
ghost use Rattle.csa.specs.internal.Replaying.{RefusesIn};
ghost use Rattle.csa.specs.internal.Replaying.{fault_of};
ghost use Rattle.squares.specs.declared.shogi.moves.SMove.{SMove};

use crate::faults::CsaFault;
use crate::lines::NumberedStatement;
use crate::moves::move_in;
use crate::statements::{Statement, WrittenMove};
use shogi_moves::laws::check_is;
use shogi_moves::{Illegal, play};
use shogi_repetition::laws::each_line_has_one_end;
use shogi_repetition::{Marks, SLineFault};
use squares::{SMove, SPos};
use std::alloc::Global;

/// The moves of a record so far, played from the initial position.
#[derive(Drop)]
pub struct CsaReplay {
    pub position: SPos,
    pub marks: Marks,
    pub moves: Vec<SMove>,
}

// A replay without moves.
fn beginning(alloc: Global) -> Result<CsaReplay, CsaFault>
    ensures stands { IfOk result IsConsistent }
    ensures bare { IfOk result (λ replay. replay.moves.items ≡ []) }
    ensures fault { IfErr result (λ fault. fault ≡ CsaFault.Memory) }
{
    let position = SPos::opening();
    match Marks::start(alloc, &position) {
        Err(_) => Err(CsaFault::Memory),
        Ok(marks) => Ok(CsaReplay {
            position,
            marks,
            moves: Vec::new(alloc),
        }),
    }
}

// The error for a written move that denotes no move of the position.
fn no_move(replay: &CsaReplay, written: &WrittenMove) -> CsaFault
    requires stands { IsConsistent replay.now }
    requires none { (m : SMove) → Means replay.now.position written.now m → ⊥ }
    ensures { RefusesNext replay.now.moves.items written.now result }
{
    let ply = replay.moves.len() + 1;
    match replay.marks.end() {
        Some(_) => CsaFault::AfterEnd { ply },
        None => CsaFault::Illegal {
            ply,
            cause: Illegal::NoSuchMove,
        },
    }
}

// The error for a move that the legality check or the repetition count refuses.
fn fault_of(fault: SLineFault) -> CsaFault
    ensures { result ≡ fault_of fault }
{
    match fault {
        SLineFault::Memory => CsaFault::Memory,
        SLineFault::Illegal { ply, cause } => CsaFault::Illegal { ply, cause },
        SLineFault::AfterEnd { ply } => CsaFault::AfterEnd { ply },
    }
}

// Plays a move.
fn push_move(replay: &mut CsaReplay, played: SMove) -> Result<(), CsaFault>
    requires { IsConsistent replay.old }
    ensures stands { OnOk result (IsConsistent replay.new) }
    ensures grown { OnOk result (replay.new.moves.items ≡ replay.old.moves.items ++ played ∷ []) }
    ensures fault { IfErr result (RefusesMade replay.old.moves.items played) }
{
    check_is();
    each_line_has_one_end();
    match replay.marks.push(&played) {
        Ok(()) => {}
        Err(fault) => return Err(fault_of(fault)),
    }
    let next = play(&replay.position, &played);
    replay.moves.push(played)?;
    replay.position = next;
    Ok(())
}

// Plays a written move. It fails if the game has ended, or if the text denotes no legal move.
fn push(replay: &mut CsaReplay, written: &WrittenMove) -> Result<(), CsaFault>
    requires { IsConsistent replay.old }
    ensures stands { OnOk result (IsConsistent replay.new) }
    ensures grown { OnOk result (GrowsBy written.now replay.old.moves.items replay.new.moves.items) }
    ensures fault { IfErr result (RefusesWritten replay.old.moves.items written.now) }
{
    match move_in(&replay.position, written) {
        None => Err(no_move(replay, written)),
        Some(played) => push_move(replay, played),
    }
}

// Plays the move of a statement, if it is one.
fn push_statement(replay: &mut CsaReplay, statement: Statement) -> Result<(), CsaFault>
    requires { IsConsistent replay.old }
    ensures stands { OnOk result (IsConsistent replay.new) }
    ensures grown { OnOk result (GrowsWith statement replay.old.moves.items replay.new.moves.items) }
    ensures fault { IfErr result (RefusesIn replay.old.moves.items statement) }
{
    match statement {
        Statement::Move(written) => push(replay, &written),
        _ => Ok(()),
    }
}

/// Replays the moves of a record.
///
/// # Errors
///
/// The fault of the first move that is refused; `CsaFault::Memory` if out of memory.
pub fn replay_of(alloc: Global, placed: &[NumberedStatement]) -> Result<CsaReplay, CsaFault>
    ensures stands { IfOk result IsConsistent }
    ensures mean { IfOk result (λ replay. MeanAll opening (written_moves placed.now) replay.moves.items) }
    ensures fault { IfErr result (RefusesMoves (written_moves placed.now)) }
{
    let mut replay = beginning(alloc)?;
    for each in placed {
        push_statement(&mut replay, each.statement)?;
    }
    Ok(replay)
}
