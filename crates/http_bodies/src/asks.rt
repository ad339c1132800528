//! Parsing of request bodies. Unknown keys of an object are ignored.
ghost use Rattle.std.specs.Prelude.{◌≡◌, ◌↔◌, IsTrue, IfOk, option_map, string_bytes};
ghost use Rattle.serde_json.specs.View.{view};
ghost use Rattle.serde_json.specs.Errors.{IsMemory};
ghost use Rattle.club_core.specs.Answer.{command_of};
ghost use Rattle.http_bodies.specs.Bodies.{json_of, text_in, bool_in, move_text, challenge_in, challenge_of};
ghost use Rattle.http_bodies.specs.Bodies.{answer_in, answer_of};

use club_requests::{AnswerChallenge, Command, OpenChallenge};
use serde_json::{Category, Error, Value};
use std::alloc::{AllocError, Global};

// Whether a parser error means out of memory.
fn is_memory(error: &Error) -> bool
    ensures { IsTrue result ↔ IsMemory error.now }
{
    matches!(error.classify(), Category::Memory)
}

// The body as JSON; `None` if it is malformed.
pub(crate) fn json_of(alloc: Global, body: &[u8]) -> Result<Option<Value>, AllocError>
    ensures { IfOk result (λ v. option_map view v ≡ json_of body.now) }
{
    match Value::from_slice(alloc, body) {
        Ok(value) => Ok(Some(value)),
        Err(error) => {
            if is_memory(&error) {
                Err(AllocError)
            } else {
                Ok(None)
            }
        }
    }
}

fn text_in<'v>(value: &'v Value, key: &str) -> Option<&'v str>
    ensures { option_map (λ t. t.now) result ≡ text_in key.now (view value.now) }
{
    value.get(key).and_then(Value::as_str)
}

fn bool_in(value: &Value, key: &str) -> Option<bool>
    ensures { result ≡ bool_in key.now (view value.now) }
{
    value.get(key).and_then(Value::as_bool)
}

/// The text of a move in a JSON body; `None` if the body is malformed.
///
/// # Errors
///
/// `AllocError` if out of memory.
#[tactic(auto, unfolding(crate::specs::Bodies::move_text))]
pub fn move_text(alloc: Global, body: &[u8]) -> Result<Option<String>, AllocError>
    ensures { IfOk result (λ t. option_map string_bytes t ≡ move_text body.now) }
{
    match json_of(alloc, body)? {
        None => Ok(None),
        Some(value) => match text_in(&value, "move") {
            None => Ok(None),
            Some(text) => Ok(Some(String::from_str(alloc, text)?)),
        },
    }
}

// The challenge that a JSON value describes.
fn challenge_in(alloc: Global, number: u32, value: &Value) -> Result<Option<Command>, AllocError>
    ensures { IfOk result (λ c. option_map command_of c ≡ challenge_in number (view value.now)) }
{
    let Some(event) = text_in(value, "event") else {
        return Ok(None);
    };
    let Some(other) = text_in(value, "other") else {
        return Ok(None);
    };
    let Some(first) = bool_in(value, "first") else {
        return Ok(None);
    };
    let event = String::from_str(alloc, event)?;
    let other = String::from_str(alloc, other)?;
    Ok(Some(Command::Challenge(OpenChallenge {
        number: u64::from(number),
        event,
        other,
        first,
    })))
}

/// The command that opens a challenge, from its number and a JSON body; `None` if the body is malformed.
///
/// # Errors
///
/// `AllocError` if out of memory.
#[tactic(auto, unfolding(crate::specs::Bodies::challenge_of))]
pub fn challenge_of(alloc: Global, number: u32, body: &[u8]) -> Result<Option<Command>, AllocError>
    ensures { IfOk result (λ c. option_map command_of c ≡ challenge_of number body.now) }
{
    match json_of(alloc, body)? {
        None => Ok(None),
        Some(value) => challenge_in(alloc, number, &value),
    }
}

// The answer to a challenge that a JSON value describes.
fn answer_in(
    alloc: Global,
    challenger: &str,
    number: u32,
    value: &Value,
) -> Result<Option<Command>, AllocError>
    ensures { IfOk result (λ c. option_map command_of c ≡ answer_in challenger.now number (view value.now)) }
{
    let Some(accept) = bool_in(value, "accept") else {
        return Ok(None);
    };
    let challenger = String::from_str(alloc, challenger)?;
    Ok(Some(Command::Answer(AnswerChallenge {
        challenger,
        number: u64::from(number),
        accept,
    })))
}

/// The command that accepts or refuses a member's challenge, from a JSON body; `None` if the body is malformed.
///
/// # Errors
///
/// `AllocError` if out of memory.
#[tactic(auto, unfolding(crate::specs::Bodies::answer_of))]
pub fn answer_of(
    alloc: Global,
    challenger: &str,
    number: u32,
    body: &[u8],
) -> Result<Option<Command>, AllocError>
    ensures { IfOk result (λ c. option_map command_of c ≡ answer_of challenger.now number body.now) }
{
    match json_of(alloc, body)? {
        None => Ok(None),
        Some(value) => answer_in(alloc, challenger, number, &value),
    }
}
