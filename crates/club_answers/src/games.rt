//! The entries of games in lists, from their rows.

ghost use Rattle.std.specs.Prelude.{◌≡◌, ℕ, map, IfOk, string_bytes};
ghost use Rattle.squares.specs.Sides.{score_text};
ghost use Rattle.std.specs.Option.{option_map};
ghost use Rattle.club_core.specs.LegalState.{IsLegalIn};
ghost use Rattle.club_rows.specs.Club.{ClubGame, ClubState, IsClub, both_games};
ghost use Rattle.club_rows.specs.Tables.{numbered_from};
ghost use Rattle.club_changes.specs.internal.Steps.{game_in};
ghost use Rattle.store_tables.specs.Cells.{game_cells};
ghost use Rattle.club_lists.specs.internal.SummaryViews.{summaries_of, over_by, summary_of};
ghost use Rattle.club_answers.specs.Games.{game_summaries, game_summary_of};
ghost use Rattle.club_answers.specs.internal.Games.{over_with};

use club_changes::swept::late::side_after;
use club_core::Offer;
use club_lists::{GameEntry, GameOver};
use club_reads::LookupFault;
use club_rows::columns::stored_game;
use club_rows::records::to_owned_text;
use club_rules::Memory;
use squares::{Score, Side};
use std::alloc::Global;
use store_tables::GameTableRow;

fn offering(offer: Option<Offer>) -> Option<Side>
    ensures { result ≡ option_map (λ o. o.side) offer }
{
    match offer {
        Some(offer) => Some(offer.side),
        None => None,
    }
}

// The text of a score; a void game has none.
fn score_text(alloc: Global, score: Option<Score>) -> Result<Option<String>, Memory>
    ensures { IfOk result (λ text. option_map (λ t. string_bytes t) text ≡ option_map score_text score) }
{
    match score {
        Some(score) => Ok(Some(String::from_str(alloc, score.text())?)),
        None => Ok(None),
    }
}

// The end of a game with this end and score; `None` if it is running.
fn over_with(
    alloc: Global,
    end: Option<&str>,
    score: Option<Score>,
) -> Result<Option<GameOver>, Memory>
    ensures { IfOk result (λ over. option_map over_by over ≡ over_with (option_map (λ s. s.now) end.entry) score) }
{
    let Some(end) = end else {
        return Ok(None);
    };
    Ok(Some(GameOver {
        end: String::from_str(alloc, end)?,
        result: score_text(alloc, score)?,
    }))
}

/// The entry of a game, from its row.
pub(crate) fn entry_of(alloc: Global, row: &GameTableRow) -> Result<GameEntry, LookupFault>
    ensures { IfOk result (λ told. (s : ClubState) (id : ℕ) (game : ClubGame) → IsLegalIn both_games s game →
        game_cells row.now ≡ game_in s id game → summary_of told ≡ game_summary_of s id game) }
{
    let Some(game) = stored_game(row) else {
        return Err(LookupFault::Store);
    };
    let key = to_owned_text(alloc, game.key)?;
    let over = over_with(alloc, game.end, game.result)?;
    Ok(GameEntry {
        id: game.id,
        event: game.event,
        first: game.first,
        second: game.second,
        key,
        plies: game.plies,
        turn: side_after(game.plies),
        left_first: game.left_first,
        left_second: game.left_second,
        since: game.since,
        offer: offering(game.offer),
        over,
    })
}

/// The entries of all games, from their rows.
pub(crate) fn entries_of(
    alloc: Global,
    rows: &[GameTableRow],
) -> Result<Vec<GameEntry>, LookupFault>
    ensures { IfOk result (λ games. (s : ClubState) → IsClub s →
        map game_cells rows.now ≡ numbered_from (game_in s) 1 s.games → summaries_of games.items ≡ game_summaries s) }
{
    let mut games = Vec::new(alloc);
    for row in rows {
        games.push(entry_of(alloc, row)?)?;
    }
    Ok(games)
}
