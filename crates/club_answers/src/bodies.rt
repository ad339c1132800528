//! A game and its legal moves as JSON.

ghost use Rattle.std.specs.Prelude.{◌≡◌, IfOk, is_ok, string_bytes};
ghost use Rattle.std.specs.Option.{option_map};
ghost use Rattle.sqlite.specs.State.{HasCleanDisk};
ghost use Rattle.sqlite.specs.Held.{state};
ghost use Rattle.store_tables.specs.Reading.{Reads};
ghost use Rattle.club_rows.specs.Club.{ClubState, IsClub, StoresClub};
ghost use Rattle.serde_json.specs.Written.{compact_text};
ghost use Rattle.club_lists.specs.Bodies.{game_data};
ghost use Rattle.club_lists.specs.internal.ShownViews.{game_view};
ghost use Rattle.club_answers.specs.internal.Found.{IsFoundAs};
ghost use Rattle.club_answers.specs.AnswerTexts.{IsNoGame};
ghost use Rattle.club_answers.specs.GameBodies.{IsGameBody, IsMovesBody, named, shown_of};

use crate::found::Shown;
use crate::{ViewedGame, legal_of, view_of};
use club_lists::{GameShown, game_text, moves_text};
use club_reads::LookupFault;
use club_requests::Refusal;
use sqlite::{Alter, Connection};
use squares::Side;
use std::alloc::{AllocError, Global};

// The name of the player whose draw offer is open.
fn offering(
    alloc: Global,
    viewed: &ViewedGame,
    offer: Option<Side>,
) -> Result<Option<String>, AllocError>
    ensures { IfOk result (λ name. option_map string_bytes name ≡ option_map (named viewed.now) offer) }
{
    match offer {
        Some(Side::First) => {
            let name = viewed.first.clone()?;
            Ok(Some(name))
        }
        Some(Side::Second) => {
            let name = viewed.second.clone()?;
            Ok(Some(name))
        }
        None => Ok(None),
    }
}

fn with_offer(viewed: ViewedGame, offer: Option<String>) -> GameShown
    ensures { option_map string_bytes offer ≡ option_map (named viewed) viewed.played.offer →
        game_view result ≡ shown_of viewed }
{
    let ViewedGame {
        event,
        first,
        second,
        played,
    } = viewed;
    GameShown {
        event,
        first,
        second,
        moves: played.moves,
        position: played.position,
        left_first: played.left_first,
        left_second: played.left_second,
        offer,
        end: played.end,
        result: played.result,
    }
}

/// The game as the JSON writer takes it.
pub(crate) fn game_shown(alloc: Global, viewed: ViewedGame) -> Result<GameShown, AllocError>
    ensures { IfOk result (λ game. game_view game ≡ shown_of viewed) }
{
    let offer = offering(alloc, &viewed, viewed.played.offer)?;
    Ok(with_offer(viewed, offer))
}

// The text of a viewed game with this id, as JSON.
fn body_text(alloc: Global, game: u64, viewed: ViewedGame) -> Result<String, AllocError>
    ensures { IfOk result (λ text. string_bytes text ≡ compact_text (game_data game (shown_of viewed))) }
{
    let shown = game_shown(alloc, viewed)?;
    game_text(alloc, game, shown)
}

/// A game as JSON.
pub(crate) fn game_body<S: Alter>(
    alloc: Global,
    conn: &mut Connection<S>,
    game: u64,
) -> Result<Shown, LookupFault>
    ensures reads { Reads (is_ok result) (state S.Store conn.old) (state S.Store conn.new) }
    ensures found { HasCleanDisk (state S.Store conn.new) → IfOk result (λ found. (s : ClubState) → IsClub s →
        StoresClub s (state S.Store conn.old) → IsFoundAs (IsGameBody s game) (IsNoGame s game) found) }
{
    match view_of(alloc, conn, game)? {
        Some(viewed) => {
            let text = body_text(alloc, game, viewed)?;
            Ok(Shown::Text(text))
        }
        None => Ok(Shown::Refused(Refusal::UnknownGame)),
    }
}

/// The legal moves of a game as JSON.
pub(crate) fn moves_body<S: Alter>(
    alloc: Global,
    conn: &mut Connection<S>,
    game: u64,
) -> Result<Shown, LookupFault>
    ensures reads { Reads (is_ok result) (state S.Store conn.old) (state S.Store conn.new) }
    ensures found { HasCleanDisk (state S.Store conn.new) → IfOk result (λ found. (s : ClubState) → IsClub s →
        StoresClub s (state S.Store conn.old) → IsFoundAs (IsMovesBody s game) (IsNoGame s game) found) }
{
    match legal_of(alloc, conn, game)? {
        Some(rows) => {
            let text = moves_text(alloc, rows)?;
            Ok(Shown::Text(text))
        }
        None => Ok(Shown::Refused(Refusal::UnknownGame)),
    }
}
