//! JSON bodies of replies to commands.
ghost use Rattle.std.specs.Prelude.{◌≡◌, IfOk, option_map, codes, string_bytes};
ghost use Rattle.serde_json.specs.View.{view};
ghost use Rattle.serde_json.specs.Written.{compact_text};
ghost use Rattle.squares.specs.Sides.{score_text};
ghost use Rattle.club_rules.specs.EndName.{end_text};
ghost use Rattle.club_requests.specs.OutsideEnd.{outside_text};
ghost use Rattle.club_core.specs.Answer.{move_reply_of, reply_of};
ghost use Rattle.club_lists.specs.Values.{text_or_null};
ghost use Rattle.http_bodies.specs.Bodies.{moved_data, offered_data, ended_data, added_data};
ghost use Rattle.http_bodies.specs.Bodies.{swept_data, reply_data, challenge_data, closed_data, started_data};

use crate::reply::text_of;
use club_requests::{Answer, MoveAnswer, OutsideEnd};
use club_rules::EndName;
use serde_json::{Value, json};
use squares::Score;
use std::alloc::{AllocError, Global};

fn rule_end_or_null(alloc: Global, end: Option<EndName>) -> Result<Value, AllocError>
    ensures { IfOk result (λ v. view v ≡ text_or_null (option_map end_text end)) }
{
    match end {
        None => Ok(Value::Null),
        Some(end) => Value::try_from_str(alloc, end.name()),
    }
}

fn moved_value(alloc: Global, id: u32, moved: MoveAnswer) -> Result<Value, AllocError>
    ensures { IfOk result (λ v. view v ≡ moved_data id (move_reply_of moved)) }
{
    let end = rule_end_or_null(alloc, moved.end)?;
    let left = moved.left;
    let text = Value::String(moved.text);
    let ply = moved.ply;
    let position = Value::String(moved.position);
    json!(in alloc; {"end": end, "game": id, "left": left, "move": text, "ply": ply, "position": position})
}

fn offered_value(alloc: Global, id: u32, ply: u32) -> Result<Value, AllocError>
    ensures { IfOk result (λ v. view v ≡ offered_data id ply) }
{
    json!(in alloc; {"draw": "offered", "game": id, "ply": ply})
}

fn ended_value(alloc: Global, id: u32, end: OutsideEnd, score: Score) -> Result<Value, AllocError>
    ensures { IfOk result (λ v. view v ≡ ended_data id (outside_text end) (score_text score)) }
{
    let end = end.name();
    let score = score.text();
    json!(in alloc; {"end": end, "game": id, "result": score})
}

fn member_value(alloc: Global, id: u32) -> Result<Value, AllocError>
    ensures { IfOk result (λ v. view v ≡ added_data (codes "member") id) }
{
    json!(in alloc; {"member": id})
}

fn event_value(alloc: Global, id: u32) -> Result<Value, AllocError>
    ensures { IfOk result (λ v. view v ≡ added_data (codes "event") id) }
{
    json!(in alloc; {"event": id})
}

fn seated_value(alloc: Global, id: u32) -> Result<Value, AllocError>
    ensures { IfOk result (λ v. view v ≡ added_data (codes "game") id) }
{
    json!(in alloc; {"game": id})
}

fn swept_value(alloc: Global, count: u32) -> Result<Value, AllocError>
    ensures { IfOk result (λ v. view v ≡ swept_data count) }
{
    json!(in alloc; {"swept": count})
}

fn challenge_value(alloc: Global, number: u32, state: &str) -> Result<Value, AllocError>
    ensures { IfOk result (λ v. view v ≡ challenge_data number state.now) }
{
    json!(in alloc; {"challenge": number, "state": state})
}

fn started_value(alloc: Global, number: u32, game: u32) -> Result<Value, AllocError>
    ensures { IfOk result (λ v. view v ≡ started_data number game) }
{
    json!(in alloc; {"challenge": number, "game": game, "state": "accepted"})
}

fn key_value(alloc: Global, number: u64) -> Result<Value, AllocError>
    ensures { IfOk result (λ v. view v ≡ added_data (codes "key") number) }
{
    json!(in alloc; {"key": number})
}

fn ruling_value(alloc: Global, number: u64) -> Result<Value, AllocError>
    ensures { IfOk result (λ v. view v ≡ added_data (codes "ruling") number) }
{
    json!(in alloc; {"ruling": number})
}

fn closed_value(alloc: Global) -> Result<Value, AllocError>
    ensures { IfOk result (λ v. view v ≡ closed_data) }
{
    json!(in alloc; {"open": false})
}

// The answer to a command as JSON. `id` is the number of the game, if it was a command on a game.
fn answer_value(alloc: Global, id: u32, answer: Answer) -> Result<Value, AllocError>
    ensures { IfOk result (λ v. view v ≡ reply_data id (reply_of answer)) }
{
    match answer {
        Answer::Moved(moved) => moved_value(alloc, id, moved),
        Answer::Offered { ply } => offered_value(alloc, id, ply),
        Answer::Ended { end, result } => ended_value(alloc, id, end, result),
        Answer::Member(added) => member_value(alloc, added),
        Answer::Event(added) => event_value(alloc, added),
        Answer::Game(added) => seated_value(alloc, added),
        Answer::Swept { count } => swept_value(alloc, count),
        Answer::ChallengeOpened { number } => challenge_value(alloc, number, "open"),
        Answer::ChallengeWithdrawn { number } => challenge_value(alloc, number, "withdrawn"),
        Answer::ChallengeRefused { number } => challenge_value(alloc, number, "refused"),
        Answer::ChallengeAccepted { number, game } => started_value(alloc, number, game),
        Answer::KeyGiven { number } => key_value(alloc, number),
        Answer::EventClosed => closed_value(alloc),
        Answer::RulingGiven { number } => ruling_value(alloc, number),
    }
}

/// The answer to a command as JSON text. `id` is the number of the game, if it was a command on a game.
///
/// # Errors
///
/// `AllocError` if out of memory.
#[tactic(auto, using(crate::proofs::BodyLemmas::reply_float))]
pub fn answer_text(alloc: Global, id: u32, answer: Answer) -> Result<String, AllocError>
    ensures { IfOk result (λ t. string_bytes t ≡ compact_text (reply_data id (reply_of answer))) }
{
    let value = answer_value(alloc, id, answer)?;
    text_of(alloc, &value)
}
