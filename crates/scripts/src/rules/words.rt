//! The words and arguments of questions and answers.

use crate::rules::unanswered::Unanswered;
use squares::{Score, Side};
use std::alloc::Global;

/// The first word of a text, and the rest of the text.
pub fn first_word(text: &str) -> (&str, &str) {
    match text.split_once(' ') {
        Some((word, rest)) => (word, rest),
        None => (text, ""),
    }
}

// The character that an escape sequence denotes.
fn escaped(sign: char) -> char {
    match sign {
        'n' => '\n',
        'r' => '\r',
        't' => '\t',
        's' => ' ',
        other => other,
    }
}

/// Replaces the escapes `\n`, `\r`, `\t`, `\s` (a space) and `\\`.
pub fn unescape(alloc: Global, written: &str) -> Result<String, Unanswered> {
    let mut text = String::new(alloc);
    let mut after_backslash = false;
    for sign in written.chars() {
        if after_backslash {
            text.push(escaped(sign))?;
            after_backslash = false;
        } else if sign == '\\' {
            after_backslash = true;
        } else {
            text.push(sign)?;
        }
    }
    Ok(text)
}

/// The arguments of a question, which are separated by `|`.
pub fn parts_of(alloc: Global, question: &str) -> Result<Vec<String>, Unanswered> {
    let mut parts = Vec::new(alloc);
    for part in question.split('|') {
        parts.push(unescape(alloc, part.trim())?)?;
    }
    Ok(parts)
}

/// Appends a word, after a space unless it is the first.
pub fn push_word(text: &mut String, word: &str) -> Result<(), Unanswered> {
    if !text.is_empty() {
        text.push(' ')?;
    }
    text.push_str(word)?;
    Ok(())
}

/// An answer of one word.
pub fn one_word(alloc: Global, word: &str) -> Result<String, Unanswered> {
    Ok(String::from_str(alloc, word)?)
}

/// `yes` or `no`.
pub fn yes(holds: bool) -> &'static str {
    if holds { "yes" } else { "no" }
}

/// The side of a letter, `w` or `b`; `first` is the letter of the side that moves first.
pub fn side(letter: &str, first: &str) -> Result<Side, Unanswered> {
    match letter {
        "w" | "b" if letter == first => Ok(Side::First),
        "w" | "b" => Ok(Side::Second),
        _ => Err(Unanswered::Word),
    }
}

/// A score as both formats write it.
pub fn told_score(score: Score) -> &'static str {
    match score {
        Score::FirstWins => "2-0",
        Score::Draw => "1-1",
        Score::SecondWins => "0-2",
    }
}
