//! Parsing of the body of a request for an analysis. Unknown keys of an object are ignored.
ghost use Rattle.std.specs.Prelude.{◌≡◌, IfOk, map, option_map, string_bytes};
ghost use Rattle.serde_json.specs.Find.{as_str, get};
ghost use Rattle.serde_json.specs.View.{items_view, view};
ghost use Rattle.club_requests.specs.Analysis.{analysis_view, start_of, position};
ghost use Rattle.http_bodies.specs.Analyses.{analysis_in, analysis_of, place_in, count_of, start_in, strings_of};
ghost use Rattle.http_bodies.specs.Analyses.{texts_in};

use crate::asks::json_of;
use club_requests::{Analysis, AnalysisStart};
use club_rules::GameKind;
use serde_json::Value;
use std::alloc::{AllocError, Global};

fn field<'v>(value: &'v Value, key: &str) -> Option<&'v Value>
    ensures { option_map (λ v. view v.now) result ≡ get key.now (view value.now) }
{
    value.get(key)
}

// The strings of an array; `None` if it has something else.
fn strings_of(alloc: Global, values: &[Value]) -> Result<Option<Vec<String>>, AllocError>
    ensures { IfOk result (λ texts.
        option_map (λ t. map (λ s. string_bytes s) t.items) texts ≡ strings_of (items_view values.now)) }
{
    let mut texts = Vec::new(alloc);
    for value in values {
        let Some(text) = value.as_str() else {
            return Ok(None);
        };
        texts.push(String::from_str(alloc, text)?)?;
    }
    Ok(Some(texts))
}

fn texts_in(alloc: Global, value: &Value, key: &str) -> Result<Option<Vec<String>>, AllocError>
    ensures { IfOk result (λ texts.
        option_map (λ t. map (λ s. string_bytes s) t.items) texts ≡ texts_in key.now (view value.now)) }
{
    match field(value, key).and_then(Value::as_array) {
        Some(values) => strings_of(alloc, values),
        None => Ok(None),
    }
}

fn position_start(alloc: Global, value: &Value) -> Result<Option<AnalysisStart>, AllocError>
    ensures { IfOk result (λ start.
        option_map start_of start ≡ option_map position (as_str (view value.now))) }
{
    match value.as_str() {
        Some(text) => Ok(Some(AnalysisStart::Position(String::from_str(alloc, text)?))),
        None => Ok(None),
    }
}

fn game_start(game: &Value, ply: &Value) -> Option<AnalysisStart>
    ensures { option_map start_of result ≡ place_in (count_of (view game.now)) (count_of (view ply.now)) }
{
    match (game.as_u64(), ply.as_u64()) {
        (Some(game), Some(ply)) => Some(AnalysisStart::Game { game, ply }),
        _ => None,
    }
}

// The start that an object states.
fn start_in(alloc: Global, value: &Value) -> Result<Option<AnalysisStart>, AllocError>
    ensures { IfOk result (λ start. option_map start_of start ≡ start_in (view value.now)) }
{
    match (
        field(value, "position"),
        field(value, "game"),
        field(value, "ply"),
    ) {
        (None, None, None) => Ok(Some(AnalysisStart::Opening)),
        (Some(text), None, None) => position_start(alloc, text),
        (None, Some(game), Some(ply)) => Ok(game_start(game, ply)),
        _ => Ok(None),
    }
}

// The analysis that a JSON value states.
fn analysis_in(alloc: Global, kind: GameKind, value: &Value) -> Result<Option<Analysis>, AllocError>
    ensures { IfOk result (λ a. option_map analysis_view a ≡ analysis_in kind (view value.now)) }
{
    let Some(start) = start_in(alloc, value)? else {
        return Ok(None);
    };
    let Some(moves) = texts_in(alloc, value, "moves")? else {
        return Ok(None);
    };
    Ok(Some(Analysis { kind, start, moves }))
}

/// The analysis by the rules of a game that a JSON body states; `None` if the body is malformed.
///
/// # Errors
///
/// `AllocError` if out of memory.
#[tactic(auto, unfolding(crate::specs::Analyses::analysis_of))]
pub fn analysis_of(
    alloc: Global,
    kind: GameKind,
    body: &[u8],
) -> Result<Option<Analysis>, AllocError>
    ensures { IfOk result (λ a. option_map analysis_view a ≡ analysis_of kind body.now) }
{
    match json_of(alloc, body)? {
        None => Ok(None),
        Some(value) => analysis_in(alloc, kind, &value),
    }
}
