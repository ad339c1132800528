//! The rows of an imported game's moves.

ghost use Rattle.std.specs.Prelude.{◌≡◌, ◌≤◌, ◌<◌, ◌+◌, ◌^◌, [], ◌∷◌, map, length, Ok, IfOk, IsTrue};
ghost use Rattle.std.specs.Prelude.{string_bytes};
ghost use Rattle.sqlite_value.specs.declared.value.Value.TheVariants.{Text};
ghost use Rattle.club_rules.specs.Line.{IsLegalLine};
ghost use Rattle.club_requests.specs.Limits.{most_plies, is_budget, is_increment};
ghost use Rattle.club_rows.specs.internal.Replay.{terms_given};
ghost use Rattle.club_rows.specs.Tables.{number};
ghost use Rattle.store_tables.specs.Cells.{move_cells};
ghost use Rattle.club_changes.specs.internal.AtOnce.{rows_at_once};

use clocks::Moment;
use club_imports::rows::RemainingTimes;
use club_rows::Terms;
use club_rows::numbers::to_i64;
use club_rules::{Memory, Rules};
use std::alloc::Global;
use store_tables::MoveRow;

// The notation of a ply: its move, and the position after it.
#[derive(Drop)]
struct PlyTexts {
    text: String,
    position: String,
}

fn ply_texts<R: Rules>(
    alloc: Global,
    before: &R::Position,
    made: &R::Move,
    after: &R::Position,
) -> Result<PlyTexts, Memory>
    requires { R.rules.check before.now made.now ≡ Ok tt }
    ensures text { IfOk result (λ texts. string_bytes texts.text ≡ R.rules.write_move before.now made.now) }
    ensures position { IfOk result (λ texts. string_bytes texts.position ≡ R.rules.write_position after.now) }
{
    let text = R::write_move(alloc, before, made)?;
    let position = R::write_position(alloc, after)?;
    Ok(PlyTexts { text, position })
}

// The row of one ply; `left` is the mover's remaining time in seconds.
fn ply_row(game: u32, ply: usize, texts: PlyTexts, moment: Moment, left: u64) -> MoveRow
    requires few { ply ≤ most_plies }
    requires left { left < 2 ^ 63 }
    ensures { move_cells result ≡ number game ∷ number ply ∷ Text (string_bytes texts.text)
        ∷ number moment ∷ number left ∷ Text (string_bytes texts.position) ∷ [] }
{
    MoveRow {
        game: i64::from(game),
        ply: to_i64(ply as u64),
        text: texts.text,
        moment: to_i64(moment.seconds()),
        left: to_i64(left),
        position: texts.position,
    }
}

/// Returns the rows of moves that all have the timestamp `moment`.
///
/// # Errors
///
/// `Memory` if out of memory.
pub fn move_rows<R: Rules>(
    alloc: Global,
    game: u32,
    terms: Terms,
    moment: Moment,
    moves: &[R::Move],
) -> Result<Vec<MoveRow>, Memory>
    requires line { IsLegalLine R.rules R.rules.start moves.now }
    requires few { length moves.now ≤ most_plies }
    requires budget { IsTrue (is_budget terms.budget) }
    requires increment { IsTrue (is_increment terms.increment) }
    ensures { IfOk result (λ rows. map move_cells rows.items
        ≡ rows_at_once R.rules (terms_given terms) game moment moves.now) }
{
    let mut rows = Vec::new(alloc);
    let mut position = R::start();
    let mut left = RemainingTimes {
        first: terms.budget,
        second: terms.budget,
    };
    for i in 0..moves.len() {
        let made = &moves[i];
        let turn = R::turn(&position);
        let after = R::play(&position, made);
        left = left.with_increment(turn, terms.increment);
        let texts = ply_texts::<R>(alloc, &position, made, &after)?;
        rows.push(ply_row(game, i + 1, texts, moment, left.seconds_of(turn)))?;
        position = after;
    }
    Ok(rows)
}
