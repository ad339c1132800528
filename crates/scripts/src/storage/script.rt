//! Parses a script into lines and groups of lines.

use std::alloc::{AllocError, Global};

/// A line of a script.
#[derive(Clone, Copy)]
pub struct ScriptLine<'a> {
    /// Its number, from 1.
    pub number: usize,
    /// The whole line.
    pub text: &'a str,
    /// Its first word, after `alone`, which says what it does.
    pub word: &'a str,
    /// Whether it begins with `alone`.
    pub is_alone: bool,
    /// The text between that word and the expected result.
    pub asked: &'a str,
    /// The expected result; no result is the empty text.
    pub wanted: &'a str,
}

// The first word of a text, and the rest.
fn parted(text: &str) -> (&str, &str) {
    match text.split_once(' ') {
        Some((word, rest)) => (word, rest.trim()),
        None => (text, ""),
    }
}

// The text before its last `=`, and the expected result after it.
fn asked_and_wanted(text: &str) -> (&str, &str) {
    match text.rsplit_once("= ") {
        Some((asked, wanted)) => (asked.trim(), wanted.trim()),
        None => (text, ""),
    }
}

impl<'a> ScriptLine<'a> {
    fn read(number: usize, text: &'a str) -> ScriptLine<'a> {
        let (first, rest) = parted(text);
        let is_alone = first == "alone";
        let (word, rest) = if is_alone {
            parted(rest)
        } else {
            (first, rest)
        };
        let (asked, wanted) = match word {
            "club" | "database" | "again" | "sql" => (rest, "done"),
            _ => asked_and_wanted(rest),
        };
        ScriptLine {
            number,
            text,
            word,
            is_alone,
            asked,
            wanted,
        }
    }

    /// Whether the line is a request: it begins with a timestamp.
    pub fn is_request(&self) -> bool {
        self.word.parse::<u64>().is_ok()
    }

    // Whether the line can be executed by one call with others.
    fn is_shared(&self) -> bool {
        !self.is_alone && self.is_request()
    }
}

// Whether a line joins the group of the one before it.
fn is_with_last(groups: &[Vec<ScriptLine<'_>>], line: &ScriptLine<'_>) -> bool {
    let last = groups.last().and_then(|group| group.first());
    line.is_shared() && last.is_some_and(|before| before.is_shared())
}

/// The lines of a script in order, without empty lines and those that begin with `#`. Consecutive requests are one
/// group; any other line, and a request that is `alone`, is a group by itself.
pub fn groups(alloc: Global, script: &str) -> Result<Vec<Vec<ScriptLine<'_>>>, AllocError> {
    let mut groups: Vec<Vec<ScriptLine<'_>>> = Vec::new(alloc);
    for (index, text) in script.lines().enumerate() {
        let text = text.trim();
        if text.is_empty() || text.starts_with('#') {
            continue;
        }
        let line = ScriptLine::read(index.saturating_add(1), text);
        if !is_with_last(&groups, &line) {
            groups.push(Vec::new(alloc))?;
        }
        if let Some(group) = groups.last_mut() {
            group.push(line)?;
        }
    }
    Ok(groups)
}
