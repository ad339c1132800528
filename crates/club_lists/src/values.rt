//! JSON values that several texts have.

ghost use Rattle.std.specs.Prelude.{◌≡◌, IfOk, option_map, string_bytes};
ghost use Rattle.serde_json.specs.View.{view};
ghost use Rattle.club_lists.specs.ShownViews.{texts_view};
ghost use Rattle.club_lists.specs.Values.{text_array, text_or_null};

use serde_json::Value;
use std::alloc::{AllocError, Global};

/// A string, or null.
pub(crate) fn text_or_null(alloc: Global, text: &Option<String>) -> Result<Value, AllocError>
    ensures { IfOk result (λ value. view value ≡ text_or_null (option_map string_bytes text.now)) }
{
    match text {
        Some(text) => Value::try_from_str(alloc, text.as_str()),
        None => Ok(Value::Null),
    }
}

/// An array of strings.
pub(crate) fn text_array(alloc: Global, texts: &[String]) -> Result<Value, AllocError>
    ensures { IfOk result (λ value. view value ≡ text_array (texts_view texts.now)) }
{
    let mut values = Vec::new(alloc);
    for text in texts {
        values.push(Value::try_from_str(alloc, text.as_str())?)?;
    }
    Ok(Value::from(values))
}
