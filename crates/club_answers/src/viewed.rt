//! A game as its players and spectators see it.

ghost use Rattle.std.specs.Prelude.{◌≡◌, ◌+◌, ◌<◌, ◌^◌, ℕ, pos, true, map, IfOk, is_ok, Some, slice_get, string_bytes};
ghost use Rattle.std.specs.Option.{option_map};
ghost use Rattle.club_core.specs.Events as core;
ghost use Rattle.club_core.specs.Game.{Game};
ghost use Rattle.club_core.specs.Legal.{IsLegalGame};
ghost use Rattle.club_core.specs.View.{Shows, terms_of};
ghost use Rattle.club_reads.specs.internal.Rulings.{FindsVerdict};
ghost use Rattle.club_rows.specs.internal.Replay.{terms_given};
ghost use Rattle.club_rows.specs.Tables.{move_rows};
ghost use Rattle.sqlite.specs.State.{HasCleanDisk};
ghost use Rattle.sqlite.specs.Held.{state};
ghost use Rattle.store_tables.specs.Cells.{move_cells};
ghost use Rattle.store_tables.specs.internal.Over.{HasRows};
ghost use Rattle.store_tables.specs.Contents.{Content};
ghost use Rattle.store_tables.specs.Reading.{Reads};
ghost use Rattle.store_tables.specs.declared.rows.MoveRow as row_of;
ghost use Rattle.club_changes.specs.Steps.{HaveSame, IsRecordOf};
ghost use Rattle.club_changes.specs.internal.Steps.{TellsLine, FindsSeenRows};
ghost use Rattle.club_answers.specs.Viewed.{IsPlayed, named};

use club_changes::StoredGame;
use club_core::{GameEnd, GameView, Offer};
use club_reads::{LookupFault, view};
use club_requests::values::MOST_PLIES;
use club_rows::numbers::to_i64;
use club_rules::{EndName, Rules};
use sqlite::{Alter, Connection};
use squares::{Score, Side};
use std::alloc::Global;
use store_sql::find_by_first;
use store_tables::MoveRow;

/// The state of a game: moves, clocks, position, draw offer and result.
#[derive(Drop)]
pub struct GameProgress {
    /// The number of plies.
    pub ply: u32,
    /// The remaining time of the first player in seconds, as of that player's last move.
    pub left_first: u64,
    /// The remaining time of the second player in seconds, as of that player's last move.
    pub left_second: u64,
    /// The current position in the notation of the rules.
    pub position: String,
    /// The moves, each in the notation for the position in which it was made.
    pub moves: Vec<String>,
    /// The player whose draw offer is open.
    pub offer: Option<Side>,
    /// How the game ended; `None` while it is running.
    pub end: Option<GameEnd<EndName>>,
    /// The score; `None` while the game is running, and if it is void.
    pub result: Option<Score>,
}

/// A game with the names of its event and of its players.
#[derive(Drop)]
pub struct ViewedGame {
    pub event: String,
    /// The player with the first move.
    pub first: String,
    /// The other player.
    pub second: String,
    pub played: GameProgress,
}

/// The rows of a game's moves.
pub(crate) fn line<R: Rules, S: Alter>(
    alloc: Global,
    conn: &mut Connection<S>,
    game: u32,
) -> Result<Vec<MoveRow>, LookupFault>
    ensures reads { Reads (is_ok result) (state S.Store conn.old) (state S.Store conn.new) }
    ensures rows { HasCleanDisk (state S.Store conn.new) → IfOk result (λ rows. (content : Content) (terms : core.Terms)
        (old : Game R.Move) → HasRows content (state S.Store conn.old) → TellsLine R.rules terms game old content →
        HaveSame (map move_cells rows.items) (move_rows R.rules terms game old)) }
{
    let number = i64::from(game);
    let rows = find_by_first::<MoveRow, S>(alloc, conn, &number)?;
    Ok(rows)
}

// Whether the row is of the next ply after `plies`.
fn is_next(row: &MoveRow, plies: usize) -> bool
    requires { plies + 1 < 2 ^ 63 }
    ensures { result ≡ true → row.now.ply ≡ pos (1 + plies) }
{
    row.ply == to_i64(plies as u64 + 1)
}

/// The texts of the moves, whose rows must be in the order of plies.
pub(crate) fn texts(alloc: Global, rows: &[MoveRow]) -> Result<Vec<String>, LookupFault>
    ensures order { IfOk result (λ texts. (n : ℕ) (row : row_of.MoveRow) → slice_get rows.now n ≡ Some row →
        row.ply ≡ pos (1 + n)) }
    ensures texts { IfOk result (λ texts.
        map (λ t. string_bytes t) texts.items ≡ map (λ r. string_bytes r.text) rows.now) }
{
    if rows.len() > MOST_PLIES as usize {
        return Err(LookupFault::Store);
    }
    let mut texts = Vec::new(alloc);
    for row in rows {
        if !is_next(row, texts.len()) {
            return Err(LookupFault::Store);
        }
        texts.push(row.text.clone()?)?;
    }
    Ok(texts)
}

fn offering(offer: Option<Offer>) -> Option<Side>
    ensures { result ≡ option_map (λ o. o.side) offer }
{
    match offer {
        Some(offer) => Some(offer.side),
        None => None,
    }
}

// An end, with the name that the rules have for it.
fn named<R: Rules>(end: Option<GameEnd<R::End>>) -> Option<GameEnd<EndName>>
    ensures { result ≡ option_map (named R.rules) end }
{
    match end {
        Some(GameEnd::Rule(end)) => Some(GameEnd::Rule(R::end_name(&end))),
        Some(GameEnd::Verdict(verdict)) => Some(GameEnd::Verdict(verdict)),
        Some(GameEnd::Outside(end)) => Some(GameEnd::Outside(end)),
        None => None,
    }
}

// The state of a game, from its view and the rows of its moves.
fn played_by<R: Rules>(
    alloc: Global,
    view: GameView<R>,
    rows: &[MoveRow],
) -> Result<GameProgress, LookupFault>
    ensures { IfOk result (λ played. (terms : core.Terms) (id : ℕ) (game : Game R.Move) → terms_of view ≡ terms →
        IsLegalGame R.rules terms game → Shows R.rules game view →
        HaveSame (map move_cells rows.now) (move_rows R.rules terms id game) → IsPlayed R.rules terms game played) }
{
    let moves = texts(alloc, rows)?;
    let row = view.row;
    Ok(GameProgress {
        ply: row.plies,
        left_first: row.left_first,
        left_second: row.left_second,
        position: row.position,
        moves,
        offer: offering(row.offer),
        end: named::<R>(row.end),
        result: row.result,
    })
}

/// The state of a stored game.
pub(crate) fn make_played<R: Rules, S: Alter>(
    alloc: Global,
    conn: &mut Connection<S>,
    stored: &StoredGame,
) -> Result<GameProgress, LookupFault>
    ensures reads { Reads (is_ok result) (state S.Store conn.old) (state S.Store conn.new) }
    ensures played { HasCleanDisk (state S.Store conn.new) → IfOk result (λ played. (content : Content)
        (game : Game R.Move) → HasRows content (state S.Store conn.old) →
        FindsSeenRows R.rules stored.now.id game content →
        TellsLine R.rules (terms_given stored.now.terms) stored.now.id game content →
        FindsVerdict stored.now.id game content (state S.Store conn.old) →
        IsRecordOf R.rules (terms_given stored.now.terms) stored.now.id stored.now.row game →
        IsPlayed R.rules (terms_given stored.now.terms) game played) }
{
    let view = view::<R, S>(alloc, conn, stored)?;
    let rows = line::<R, S>(alloc, conn, stored.id)?;
    let played = played_by(alloc, view, &rows)?;
    Ok(played)
}
