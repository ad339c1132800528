//! The legal moves of a game in notation.

ghost use Rattle.std.specs.Prelude.{IfOk, map, string_bytes};
ghost use Rattle.club_core.specs.Game.{Game};
ghost use Rattle.club_core.specs.View.{Shows};
ghost use Rattle.club_rows.specs.Listed.{AreLegalTexts};

use club_core::GameView;
use club_rules::{Memory, Rules, write_moves};
use std::alloc::Global;

/// Returns the legal moves of the game in notation, in the order of the rules; empty if the game has ended.
///
/// # Errors
///
/// `Memory` if out of memory.
pub fn legal_texts<R: Rules>(alloc: Global, view: &GameView<R>) -> Result<Vec<String>, Memory>
    ensures { IfOk result (λ texts. (game : Game R.Move) → Shows R.rules game view.now →
        AreLegalTexts R.rules game (map (λ t. string_bytes t) texts.items)) }
{
    if view.row.end.is_some() {
        return Ok(Vec::new(alloc));
    }
    let moves = R::legal(alloc, &view.position)?;
    write_moves::<R>(alloc, &view.position, &moves)
}
