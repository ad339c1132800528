//! Writer of a whole game.
ghost use Rattle.std.specs.Prelude.{◌≡◌, ◌++◌, IfOk, OnOk, length, map, string_bytes};
ghost use Rattle.squares.specs.ShogiOpening.{opening};
ghost use Rattle.shogi_repetition.specs.Line.{last_position};
ghost use Rattle.shogi_repetition.specs.Faults.{IsPlayed};
ghost use Rattle.csa.specs.Writing.{entries_text};
ghost use Rattle.csa.specs.WrittenGame.{IsGameText};
ghost use Rattle.csa.specs.internal.WrittenGame.{FitsEnd};

use crate::head::CsaHead;
use crate::writing::{push_end, push_entry, push_head};
use clocks::civil;
use shogi_moves::{Memory, play};
use squares::{SMove, SPos, Side};
use std::alloc::Global;

// Appends moves with their times in seconds; returns the side to move after them.
fn push_entries(text: &mut String, entries: &[(SMove, u64)]) -> Result<Side, Memory>
    requires { IsPlayed opening (map (λ e. e.0) entries.now) (length entries.now) }
    ensures written { OnOk result
        (string_bytes text.new ≡ string_bytes text.old ++ entries_text opening entries.now) }
    ensures turn { IfOk result
        (λ turn. turn ≡ (last_position opening (map (λ e. e.0) entries.now)).turn) }
{
    let mut position = SPos::opening();
    for i in 0..entries.len() {
        let (played, seconds) = entries[i];
        push_entry(text, &position, &played, seconds)?;
        position = play(&position, &played);
    }
    Ok(position.turn())
}

/// Writes a game as CSA text; each entry is a move and the time that it took, in seconds.
///
/// # Errors
///
/// `Memory` if out of memory.
pub fn write_game(alloc: Global, head: &CsaHead, entries: &[(SMove, u64)]) -> Result<String, Memory>
    requires played { IsPlayed opening (map (λ e. e.0) entries.now) (length entries.now) }
    requires end { FitsEnd head.now.end (map (λ e. e.0) entries.now) }
    ensures { IfOk result (λ text. IsGameText head.now.event.now head.now.black.now head.now.white.now
        head.now.start head.now.end entries.now (string_bytes text)) }
{
    let mut text = String::new(alloc);
    push_head(&mut text, head, &civil(head.start))?;
    let turn = push_entries(&mut text, entries)?;
    push_end(&mut text, head.end, turn)?;
    Ok(text)
}
