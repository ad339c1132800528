//! The line of a stored game after so many of its plies.

ghost use Rattle.std.specs.Prelude.{◌≡◌, ◌≤◌, [], IfOk, IfSome, is_ok, length, map, string_bytes};
ghost use Rattle.sqlite.specs.State.{HasCleanDisk};
ghost use Rattle.sqlite.specs.Held.{state};
ghost use Rattle.store_tables.specs.Contents.{Content};
ghost use Rattle.store_tables.specs.internal.Over.{HasRows};
ghost use Rattle.store_tables.specs.Reading.{Reads};
ghost use Rattle.club_rules.specs.Line.{IsPlayedLine, position_after};
ghost use Rattle.club_core.specs.Game.{Game};
ghost use Rattle.club_analysis.specs.internal.Line.{IsLine};
ghost use Rattle.club_rows.specs.Rulings.{ArePossible};
ghost use Rattle.club_rows.specs.internal.Replay.{terms_given};
ghost use Rattle.club_rows.specs.internal.Rulings.{rulings_given};
ghost use Rattle.club_changes.specs.Steps.{IsRecordOf};
ghost use Rattle.club_changes.specs.internal.Steps.{TellsLine};
ghost use Rattle.club_answers.specs.internal.Analyses.{IsLineAt};
ghost use Rattle.club_analysis.specs.Tried.{notation_from};

use crate::viewed::{line, texts};
use club_analysis::{Line, line_of_moves};
use club_changes::StoredGame;
use club_core::GivenRuling;
use club_reads::LookupFault;
use club_rows::Opening;
use club_rows::numbers::to_moment;
use club_rows::replay::{Replayed, replay};
use club_rules::Rules;
use sqlite::{Alter, Connection};
use std::alloc::Global;
use store_tables::MoveRow;

// The game after these first rows of its moves.
fn replayed<R: Rules>(
    alloc: Global,
    stored: &StoredGame,
    rulings: &[GivenRuling],
    rows: &[MoveRow],
) -> Result<Replayed<R>, LookupFault>
    requires { ArePossible (rulings_given rulings.now) }
    ensures played { IfOk result (λ game. IsPlayedLine R.rules R.rules.start game.line.items) }
    ensures position { IfOk result (λ game. game.position
        ≡ position_after R.rules R.rules.start game.line.items) }
    ensures few { IfOk result (λ game. length game.line.items ≤ 600) }
    ensures texts { IfOk result (λ game. map (λ r. string_bytes r.text) rows.now
        ≡ notation_from R.rules R.rules.start game.line.items) }
{
    let Some(start) = to_moment(stored.row.start) else {
        return Err(LookupFault::Store);
    };
    let opening = Opening {
        id: stored.id,
        start,
        terms: stored.terms,
    };
    match replay::<R>(alloc, opening, rulings, rows)? {
        Some(game) => Ok(game),
        None => Err(LookupFault::Store),
    }
}

/// The line of a stored game after so many of its plies; `None` if it has fewer.
pub(crate) fn line_at<R: Rules, S: Alter>(
    alloc: Global,
    conn: &mut Connection<S>,
    stored: &StoredGame,
    ply: u64,
    rulings: &[GivenRuling],
) -> Result<Option<Line<R>>, LookupFault>
    requires { ArePossible (rulings_given rulings.now) }
    ensures reads { Reads (is_ok result) (state S.Store conn.old) (state S.Store conn.new) }
    ensures is_line { IfOk result (λ found. IfSome found (IsLine R.rules)) }
    ensures start { IfOk result (λ found. IfSome found (λ line. line.start ≡ R.rules.start)) }
    ensures tried { IfOk result (λ found. IfSome found (λ line. line.tried.items ≡ [])) }
    ensures few { IfOk result (λ found. IfSome found (λ line. length line.moves.items ≤ 600)) }
    ensures moves { HasCleanDisk (state S.Store conn.new) → IfOk result (λ found. (content : Content)
        (game : Game R.Move) → HasRows content (state S.Store conn.old) →
        TellsLine R.rules (terms_given stored.now.terms) stored.now.id game content →
        IsRecordOf R.rules (terms_given stored.now.terms) stored.now.id stored.now.row game →
        IsLineAt R.rules game ply found) }
{
    let rows = line::<R, S>(alloc, conn, stored.id)?;
    // Only rows in the order of plies are a game's.
    texts(alloc, &rows)?;
    if ply > rows.len() as u64 {
        return Ok(None);
    }
    let played = replayed::<R>(alloc, stored, rulings, &rows[..ply as usize])?;
    Ok(Some(line_of_moves(alloc, played.line, played.position)))
}
