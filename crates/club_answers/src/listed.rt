//! The legal moves of a stored game.

ghost use Rattle.std.specs.Prelude.{◌<◌, map, IfOk, is_ok};
ghost use Rattle.std.specs.Prelude.{string_bytes};
ghost use Rattle.club_core.specs.Game.{Game};
ghost use Rattle.club_reads.specs.internal.Rulings.{FindsVerdict};
ghost use Rattle.club_rows.specs.Listed.{AreLegalTexts};
ghost use Rattle.club_rows.specs.internal.Replay.{terms_given};
ghost use Rattle.sqlite.specs.State.{HasCleanDisk};
ghost use Rattle.sqlite.specs.Held.{state};
ghost use Rattle.store_tables.specs.internal.Over.{HasRows};
ghost use Rattle.store_tables.specs.Contents.{Content};
ghost use Rattle.store_tables.specs.Reading.{Reads};
ghost use Rattle.club_changes.specs.Steps.{IsRecordOf};
ghost use Rattle.club_changes.specs.internal.Steps.{FindsSeenRows};

use club_changes::StoredGame;
use club_reads::{LookupFault, view};
use club_rows::legal_texts;
use club_rules::Rules;
use sqlite::{Alter, Connection};
use std::alloc::Global;

/// The legal moves of a stored game, in the notation of its rules.
pub(crate) fn legal<R: Rules, S: Alter>(
    alloc: Global,
    conn: &mut Connection<S>,
    stored: &StoredGame,
) -> Result<Vec<String>, LookupFault>
    ensures reads { Reads (is_ok result) (state S.Store conn.old) (state S.Store conn.new) }
    ensures legal { HasCleanDisk (state S.Store conn.new) →
        IfOk result (λ texts. (content : Content) (game : Game R.Move) →
        HasRows content (state S.Store conn.old) → FindsSeenRows R.rules stored.now.id game content →
        FindsVerdict stored.now.id game content (state S.Store conn.old) →
        IsRecordOf R.rules (terms_given stored.now.terms) stored.now.id stored.now.row game →
        AreLegalTexts R.rules game (map (λ t. string_bytes t) texts.items)) }
{
    let view = view::<R, S>(alloc, conn, stored)?;
    let texts = legal_texts(alloc, &view)?;
    Ok(texts)
}
