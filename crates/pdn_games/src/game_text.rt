//! Writer of a whole game.
ghost use Rattle.std.specs.Prelude.{◌≡◌, ◌++◌, IfOk, OnOk, length, string_bytes};
ghost use Rattle.squares.specs.DraughtsOpening.{opening};
ghost use Rattle.draughts_draws.specs.Faults.{IsPlayed};
ghost use Rattle.pdn_games.specs.Writing.{plies_text, game_text};

use crate::head::PdnHead;
use crate::writing::{push_end, push_head, push_ply};
use draughts_moves::{Memory, play};
use squares::{DMove, DPos};
use std::alloc::Global;

// Appends the moves of a game from the initial position.
fn push_plies(alloc: Global, text: &mut String, moves: &[DMove]) -> Result<(), Memory>
    requires { IsPlayed opening moves.now (length moves.now) }
    ensures { OnOk result (string_bytes text.new ≡ string_bytes text.old ++ plies_text opening 0 moves.now) }
{
    let mut position = DPos::opening();
    for i in 0..moves.len() {
        let played = moves[i];
        push_ply(alloc, text, &position, i, &played)?;
        position = play(&position, &played);
    }
    Ok(())
}

/// Writes a game as PDN, one line for each pair of moves.
///
/// # Errors
///
/// `Memory` if out of memory.
pub fn write_game(alloc: Global, head: &PdnHead, moves: &[DMove]) -> Result<String, Memory>
    requires { IsPlayed opening moves.now (length moves.now) }
    ensures { IfOk result (λ text. string_bytes text
        ≡ game_text head.now.event.now head.now.date head.now.white.now head.now.black.now head.now.score moves.now) }
{
    let mut text = String::new(alloc);
    push_head(alloc, &mut text, head)?;
    push_plies(alloc, &mut text, moves)?;
    push_end(&mut text, moves.len(), head.score)?;
    Ok(text)
}
