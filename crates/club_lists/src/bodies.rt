//! JSON of a game and of its legal moves.
ghost use Rattle.std.specs.Prelude.{◌≡◌, IfOk, length, option_map, string_bytes};
ghost use Rattle.serde_json.specs.View.{view};
ghost use Rattle.serde_json.specs.Written.{compact_text};
ghost use Rattle.squares.specs.Sides.{score_text};
ghost use Rattle.club_lists.specs.Bodies.{game_data, moves_data};
ghost use Rattle.club_lists.specs.GameShown.{end_name};
ghost use Rattle.club_lists.specs.ShownViews.{texts_view};
ghost use Rattle.club_lists.specs.internal.ShownViews.{game_view};
ghost use Rattle.club_lists.specs.Values.{number_data, seconds_pair, text_or_null};

use crate::shown::{GameShown, end_name};
use crate::values::{text_array, text_or_null};
use club_core::GameEnd;
use club_rules::EndName;
use serde_json::{Value, json};
use squares::Score;
use std::alloc::{AllocError, Global};

fn moves_value(alloc: Global, rows: &[String]) -> Result<Value, AllocError>
    ensures { IfOk result (λ value. view value ≡ moves_data (texts_view rows.now)) }
{
    json!(in alloc; {"moves": text_array(alloc, rows)?})
}

/// The legal moves of a game as a JSON object, in the order of the list.
///
/// # Errors
///
/// `AllocError` if out of memory.
#[tactic(auto, using(crate::proofs::FloatLemmas::moves_float))]
pub fn moves_text(alloc: Global, rows: Vec<String>) -> Result<String, AllocError>
    ensures { IfOk result (λ text. string_bytes text ≡ compact_text (moves_data (texts_view rows.items))) }
{
    let value = moves_value(alloc, &rows)?;
    value.to_string(alloc)
}

// The name of an end, or null.
fn end_or_null(alloc: Global, end: Option<GameEnd<EndName>>) -> Result<Value, AllocError>
    ensures { IfOk result (λ value. view value ≡ text_or_null (option_map end_name end)) }
{
    match end {
        Some(end) => Value::try_from_str(alloc, end_name(end)),
        None => Ok(Value::Null),
    }
}

fn score_or_null(alloc: Global, score: Option<Score>) -> Result<Value, AllocError>
    ensures { IfOk result (λ value. view value ≡ text_or_null (option_map score_text score)) }
{
    match score {
        Some(score) => Value::try_from_str(alloc, score.text()),
        None => Ok(Value::Null),
    }
}

#[tactic(auto, using(crate::proofs::ValueLemmas::count_of))]
fn ply_value(moves: &Vec<String>) -> Value
    ensures { view result ≡ number_data (length (texts_view moves.now.items)) }
{
    Value::from(moves.len())
}

fn seconds_pair(alloc: Global, first: u64, second: u64) -> Result<Value, AllocError>
    ensures { IfOk result (λ value. view value ≡ seconds_pair first second) }
{
    json!(in alloc; [first, second])
}

/// The object of the game with this id.
#[tactic(auto, unfolding(crate::specs::Bodies::game_data))]
pub(crate) fn game_value(alloc: Global, id: u64, game: &GameShown) -> Result<Value, AllocError>
    ensures { IfOk result (λ value. view value ≡ game_data id (game_view game.now)) }
{
    json!(in alloc; {
        "end": end_or_null(alloc, game.end)?,
        "event": game.event.as_str(),
        "first": game.first.as_str(),
        "game": id,
        "left": seconds_pair(alloc, game.left_first, game.left_second)?,
        "moves": text_array(alloc, &game.moves)?,
        "offer": text_or_null(alloc, &game.offer)?,
        "ply": ply_value(&game.moves),
        "position": game.position.as_str(),
        "result": score_or_null(alloc, game.result)?,
        "second": game.second.as_str()
    })
}

/// A game with this id, as a JSON object.
///
/// # Errors
///
/// `AllocError` if out of memory.
#[tactic(auto, using(crate::proofs::FloatLemmas::game_float))]
pub fn game_text(alloc: Global, id: u64, game: GameShown) -> Result<String, AllocError>
    ensures { IfOk result (λ text. string_bytes text ≡ compact_text (game_data id (game_view game))) }
{
    let value = game_value(alloc, id, &game)?;
    value.to_string(alloc)
}
