//! Formats values as text.

use std::alloc::Global;
use std::fmt::Display;
use std::test::Fail;

/// The text of a value.
pub(crate) fn text_of<D: Display>(alloc: Global, value: &D) -> Result<String, Fail> {
    Ok(format!(in alloc; "{value}")?)
}
