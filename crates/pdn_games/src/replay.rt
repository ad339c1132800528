//! Replay of the moves of a game's text, ply by ply.
ghost use Rattle.std.specs.Prelude.{[], ◌∷◌, ◌++◌, ◌≡◌, None, IfOk, IfErr, OnOk};
ghost use Rattle.squares.specs.DraughtsOpening.{opening};
ghost use Rattle.draughts_moves.specs.Legal.{Legal};
ghost use Rattle.draughts_draws.specs.Ends.{end_of};
ghost use Rattle.pdn.specs.ReadMove.{IsRead, HasReadFault};
ghost use Rattle.pdn_games.specs.Contents.{move_texts};
ghost use Rattle.pdn_games.specs.Moves.{MeanAll};
ghost use Rattle.pdn_games.specs.internal.Moves.{RefusesMoves};
ghost use Rattle.pdn_games.specs.internal.Replaying.{IsMoveForm, HasItsForm, HaveForms, IsConsistent, GrowsBy};
ghost use Rattle.pdn_games.specs.internal.Replaying.{GrowsWith};
ghost use Rattle.pdn_games.specs.internal.Replaying.{RefusesText};
ghost use Rattle.pdn_games.specs.internal.Replaying.{RefusesIn, at_ply, fault_of};
ghost use Rattle.pdn_games.specs.internal.TokenValues.{token_of, all_placed};

use crate::faults::PdnFault;
use crate::tokens::{PlacedToken, Token};
use draughts_draws::{DLineFault, DrawCounts};
use draughts_moves::laws::check_is;
use draughts_moves::play;
use pdn::laws::forms_are_texts;
use pdn::{MoveFault, read_move};
use squares::{DMove, DPos};
use std::alloc::Global;

/// The moves of a text so far, played from the initial position.
#[derive(Drop)]
pub struct PdnReplay {
    pub position: DPos,
    pub counts: DrawCounts,
    pub moves: Vec<DMove>,
}

// A replay without moves.
fn beginning(alloc: Global) -> Result<PdnReplay, PdnFault>
    ensures stands { IfOk result IsConsistent }
    ensures bare { IfOk result (λ replay. replay.moves.items ≡ []) }
    ensures fault { IfErr result (λ fault. fault ≡ PdnFault.Memory) }
{
    let position = DPos::opening();
    match DrawCounts::start(alloc, &position) {
        Err(_) => Err(PdnFault::Memory),
        Ok(counts) => Ok(PdnReplay {
            position,
            counts,
            moves: Vec::new(alloc),
        }),
    }
}

// The error of a move's text, with its ply.
fn at_ply(ply: usize, fault: MoveFault) -> PdnFault
    ensures { result ≡ at_ply ply fault }
{
    match fault {
        MoveFault::Memory => PdnFault::Memory,
        MoveFault::BadText(offset) => PdnFault::BadText(offset),
        MoveFault::Ambiguous => PdnFault::Ambiguous(ply),
        MoveFault::Illegal(cause) => PdnFault::Illegal { ply, cause },
    }
}

// The error for a move that the repetition and draw counts refuse.
fn fault_of(fault: DLineFault) -> PdnFault
    ensures { result ≡ fault_of fault }
{
    match fault {
        DLineFault::Memory => PdnFault::Memory,
        DLineFault::Illegal { ply, cause } => PdnFault::Illegal { ply, cause },
        DLineFault::AfterEnd { ply } => PdnFault::AfterEnd(ply),
    }
}

// The legal move that a text denotes.
fn read_text(alloc: Global, position: &DPos, text: &[u8]) -> Result<DMove, MoveFault>
    requires { IsMoveForm text.now }
    ensures read { IfOk result (λ m. IsRead position.now text.now m) }
    ensures fault { IfErr result (λ fault. HasReadFault position.now text.now fault) }
{
    match str::from_utf8(text) {
        Ok(text) => read_move(alloc, position, text),
        Err(_) => unreachable!(),
    }
}

// Plays a legal move of a game that has not ended.
fn push_move(replay: &mut PdnReplay, played: DMove) -> Result<(), PdnFault>
    requires stands { IsConsistent replay.old }
    requires unended { end_of opening replay.old.moves.items ≡ None }
    requires legal { Legal replay.old.position played }
    ensures stands { OnOk result (IsConsistent replay.new) }
    ensures grown { OnOk result (replay.new.moves.items ≡ replay.old.moves.items ++ played ∷ []) }
    ensures fault { IfErr result (λ fault. fault ≡ PdnFault.Memory) }
{
    check_is();
    match replay.counts.push(&played) {
        Ok(()) => {}
        Err(fault) => return Err(fault_of(fault)),
    }
    let next = play(&replay.position, &played);
    replay.moves.push(played)?;
    replay.position = next;
    Ok(())
}

// Reads and plays one move. It fails if the game has ended, or if the text denotes no legal move.
fn push(alloc: Global, replay: &mut PdnReplay, text: &[u8]) -> Result<(), PdnFault>
    requires stands { IsConsistent replay.old }
    requires form { IsMoveForm text.now }
    ensures stands { OnOk result (IsConsistent replay.new) }
    ensures grown { OnOk result (GrowsBy text.now replay.old.moves.items replay.new.moves.items) }
    ensures fault { IfErr result (RefusesText replay.old.moves.items text.now) }
{
    forms_are_texts();
    let ply = replay.moves.len() + 1;
    match replay.counts.end() {
        Some(_) => return Err(PdnFault::AfterEnd(ply)),
        None => {}
    }
    match read_text(alloc, &replay.position, text) {
        Ok(played) => push_move(replay, played),
        Err(fault) => Err(at_ply(ply, fault)),
    }
}

// Plays the move of a token, if it is one.
fn push_token(alloc: Global, replay: &mut PdnReplay, token: Token<'_>) -> Result<(), PdnFault>
    requires stands { IsConsistent replay.old }
    requires form { HasItsForm (token_of token) }
    ensures stands { OnOk result (IsConsistent replay.new) }
    ensures grown { OnOk result
        (GrowsWith (token_of token.entry) replay.old.moves.items replay.new.moves.items) }
    ensures fault { IfErr result (RefusesIn replay.old.moves.items (token_of token.entry)) }
{
    match token {
        Token::Move(text) => push(alloc, replay, text),
        _ => Ok(()),
    }
}

/// Replays the moves of a text.
///
/// # Errors
///
/// The fault of the first move that is refused; `PdnFault::Memory` if out of memory.
pub fn replay_of(alloc: Global, placed: &[PlacedToken<'_>]) -> Result<PdnReplay, PdnFault>
    requires { HaveForms (all_placed placed.now) }
    ensures stands { IfOk result IsConsistent }
    ensures mean { IfOk result
        (λ replay. MeanAll opening (move_texts (all_placed placed.now)) replay.moves.items) }
    ensures fault { IfErr result (RefusesMoves (move_texts (all_placed placed.now))) }
{
    let mut replay = beginning(alloc)?;
    for i in 0..placed.len() {
        push_token(alloc, &mut replay, placed[i].token)?;
    }
    Ok(replay)
}
