//! The rulings on a game as lines of text and as JSON.

ghost use Rattle.std.specs.Prelude.{◌≡◌, IfOk, map, string_bytes};
ghost use Rattle.serde_json.specs.View.{view};
ghost use Rattle.club_lists.specs.RulingTexts.{AreRulingLines, IsRulingLine, award_data, grant_data, ruling_data_of};
ghost use Rattle.club_lists.specs.RulingTexts.{ruling_line, rulings_data, rulings_from, rulings_json, void_data};
ghost use Rattle.club_lists.specs.internal.RulingViews.{given_by, rulings_by};

use crate::dates::date_text;
use club_core::GivenRuling;
use club_requests::{Ruling, side_text};
use serde_json::{Value, json};
use squares::{Score, Side};
use std::alloc::{AllocError, Global};

// A ruling's line, given its date.
fn line_of(
    alloc: Global,
    number: usize,
    date: &str,
    given: &GivenRuling,
) -> Result<String, AllocError>
    ensures { IfOk result (λ line. string_bytes line ≡ ruling_line number date.now (given_by given.now)) }
{
    let plies = given.plies;
    let ruling = given.ruling;
    format!(in alloc; "ruling {number} {date} ply {plies} {ruling}\n")
}

fn ruling_line(alloc: Global, number: usize, given: &GivenRuling) -> Result<String, AllocError>
    ensures { IfOk result (λ line. IsRulingLine number (given_by given.now) (string_bytes line)) }
{
    let date = date_text(alloc, given.moment)?;
    line_of(alloc, number, date.as_str(), given)
}

/// The rulings on a game, one per line, numbered from 1.
///
/// # Errors
///
/// `AllocError` if out of memory.
pub fn rulings_text(alloc: Global, rulings: &[GivenRuling]) -> Result<String, AllocError>
    ensures { IfOk result (λ text. AreRulingLines 1 (rulings_by rulings.now) (string_bytes text)) }
{
    let mut text = String::new(alloc);
    let mut number: usize = 0;
    for given in rulings {
        number += 1;
        let line = ruling_line(alloc, number, given)?;
        text.push_str(line.as_str())?;
    }
    Ok(text)
}

#[tactic(auto, unfolding(crate::specs::RulingTexts::grant_data))]
fn grant_value(
    alloc: Global,
    number: usize,
    given: &GivenRuling,
    side: Side,
    seconds: u64,
) -> Result<Value, AllocError>
    ensures { IfOk result (λ value. view value ≡ grant_data number (given_by given.now) side seconds) }
{
    json!(in alloc; {
        "kind": "grant",
        "moment": given.moment.seconds(),
        "number": number,
        "ply": given.plies,
        "seconds": seconds,
        "side": side_text(side)
    })
}

#[tactic(auto, unfolding(crate::specs::RulingTexts::award_data))]
fn award_value(
    alloc: Global,
    number: usize,
    given: &GivenRuling,
    score: Score,
) -> Result<Value, AllocError>
    ensures { IfOk result (λ value. view value ≡ award_data number (given_by given.now) score) }
{
    json!(in alloc; {
        "kind": "award",
        "moment": given.moment.seconds(),
        "number": number,
        "ply": given.plies,
        "result": score.text()
    })
}

#[tactic(auto, unfolding(crate::specs::RulingTexts::void_data))]
fn void_value(alloc: Global, number: usize, given: &GivenRuling) -> Result<Value, AllocError>
    ensures { IfOk result (λ value. view value ≡ void_data number (given_by given.now)) }
{
    json!(in alloc; {
        "kind": "void",
        "moment": given.moment.seconds(),
        "number": number,
        "ply": given.plies
    })
}

fn ruling_value(alloc: Global, number: usize, given: &GivenRuling) -> Result<Value, AllocError>
    ensures { IfOk result (λ value. view value ≡
        ruling_data_of number (given_by given.now) (given_by given.now).ruling) }
{
    match given.ruling {
        Ruling::Grant { side, seconds } => grant_value(alloc, number, given, side, seconds),
        Ruling::Award(score) => award_value(alloc, number, given, score),
        Ruling::Void => void_value(alloc, number, given),
    }
}

// The rulings, numbered from 1.
fn ruling_values(alloc: Global, rulings: &[GivenRuling]) -> Result<Vec<Value>, AllocError>
    ensures { IfOk result (λ values. map view values.items ≡ rulings_from 1 (rulings_by rulings.now)) }
{
    let mut values = Vec::new(alloc);
    for given in rulings {
        let number = values.len() + 1;
        values.push(ruling_value(alloc, number, given)?)?;
    }
    Ok(values)
}

#[tactic(auto, unfolding(crate::specs::RulingTexts::rulings_data))]
fn rulings_value(alloc: Global, rulings: &[GivenRuling]) -> Result<Value, AllocError>
    ensures { IfOk result (λ value. view value ≡ rulings_data (rulings_by rulings.now)) }
{
    json!(in alloc; {"rulings": ruling_values(alloc, rulings)?})
}

/// The rulings on a game, numbered from 1, as a JSON object.
///
/// # Errors
///
/// `AllocError` if out of memory.
#[tactic(auto, using(crate::proofs::FloatLemmas::rulings_float))]
pub fn rulings_json(alloc: Global, rulings: &[GivenRuling]) -> Result<String, AllocError>
    ensures { IfOk result (λ text. string_bytes text ≡ rulings_json (rulings_by rulings.now)) }
{
    let value = rulings_value(alloc, rulings)?;
    value.to_string(alloc)
}
