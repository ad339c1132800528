//! JSON of an analysis.

ghost use Rattle.std.specs.Prelude.{◌≡◌, IfOk, option_map, string_bytes};
ghost use Rattle.serde_json.specs.View.{view};
ghost use Rattle.serde_json.specs.Written.{compact_text};
ghost use Rattle.club_rules.specs.EndName.{end_text};
ghost use Rattle.club_lists.specs.Analysis.{analysis_data};
ghost use Rattle.club_lists.specs.ShownViews.{texts_view};
ghost use Rattle.club_lists.specs.Values.{text_or_null};

use crate::values::text_array;
use club_rules::EndName;
use serde_json::{Value, json};
use std::alloc::{AllocError, Global};

// The name of an end by the rules, or null.
fn end_or_null(alloc: Global, end: Option<EndName>) -> Result<Value, AllocError>
    ensures { IfOk result (λ value. view value ≡ text_or_null (option_map end_text end)) }
{
    match end {
        Some(end) => Value::try_from_str(alloc, end.name()),
        None => Ok(Value::Null),
    }
}

#[tactic(auto, unfolding(crate::specs::Analysis::analysis_data))]
fn analysis_value(
    alloc: Global,
    end: Option<EndName>,
    legal: &[String],
    moves: &[String],
    position: &str,
) -> Result<Value, AllocError>
    ensures { IfOk result (λ value. view value
        ≡ analysis_data end (texts_view legal.now) (texts_view moves.now) position.now) }
{
    json!(in alloc; {
        "end": end_or_null(alloc, end)?,
        "legal": text_array(alloc, legal)?,
        "moves": text_array(alloc, moves)?,
        "position": position
    })
}

/// The end of a line, the legal moves after it, the moves that were tried, and the last position, as a JSON object.
///
/// # Errors
///
/// `AllocError` if out of memory.
#[tactic(auto, using(crate::proofs::FloatLemmas::analysis_float))]
pub fn analysis_text(
    alloc: Global,
    end: Option<EndName>,
    legal: &[String],
    moves: &[String],
    position: &str,
) -> Result<String, AllocError>
    ensures { IfOk result (λ text. string_bytes text
        ≡ compact_text (analysis_data end (texts_view legal.now) (texts_view moves.now) position.now)) }
{
    let value = analysis_value(alloc, end, legal, moves, position)?;
    value.to_string(alloc)
}
