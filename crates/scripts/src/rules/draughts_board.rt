//! Questions about squares of draughts and sets of squares.

use crate::rules::unanswered::Unanswered;
use crate::rules::words::{one_word, push_word, yes};
use squares::{DSet, Direction, Dsq, Numbers};
use std::alloc::Global;
use std::cmp::Ordering;

/// Parses the number of a square.
pub fn square(number: &str) -> Result<Dsq, Unanswered> {
    Ok(Dsq::new(number.parse()?).ok_or(Unanswered::Square)?)
}

// Parses a set of squares.
fn set(numbers: &str) -> Result<DSet, Unanswered> {
    let mut squares = DSet::new();
    for number in numbers.split_whitespace() {
        squares = squares.with(square(number)?);
    }
    Ok(squares)
}

/// The numbers of the squares of a set, separated by spaces.
pub fn told_set(alloc: Global, squares: DSet) -> Result<String, Unanswered> {
    if squares.is_empty() {
        return one_word(alloc, "none");
    }
    let mut text = String::new(alloc);
    for number in Numbers::from_set(squares).as_slice() {
        push_word(&mut text, format!(in alloc; "{number}")?.as_str())?;
    }
    Ok(text)
}

// The number of a square, or `none`.
fn told(alloc: Global, square: Option<Dsq>) -> Result<String, Unanswered> {
    match square {
        Some(square) => Ok(format!(in alloc; "{}", square.number())?),
        None => one_word(alloc, "none"),
    }
}

fn direction(name: &str) -> Result<Direction, Unanswered> {
    match name {
        "up-left" => Ok(Direction::UpLeft),
        "up-right" => Ok(Direction::UpRight),
        "down-left" => Ok(Direction::DownLeft),
        "down-right" => Ok(Direction::DownRight),
        _ => Err(Unanswered::Word),
    }
}

// The row and the column of a square.
fn place(alloc: Global, number: &str) -> Result<String, Unanswered> {
    match Dsq::new(number.parse()?) {
        Some(square) => Ok(format!(in alloc; "{} {}", square.row(), square.column())?),
        None => one_word(alloc, "none"),
    }
}

// The square with a row and a column.
fn at(alloc: Global, row_and_column: &str) -> Result<String, Unanswered> {
    let (row, column) = row_and_column.split_once(' ').ok_or(Unanswered::Number)?;
    told(alloc, Dsq::from_coords(row.parse()?, column.parse()?))
}

// The numbers of all squares.
fn all(alloc: Global) -> Result<String, Unanswered> {
    let mut text = String::new(alloc);
    for square in &Dsq::all() {
        push_word(
            &mut text,
            format!(in alloc; "{}", square.number())?.as_str(),
        )?;
    }
    Ok(text)
}

// The number of squares in a set.
fn size(alloc: Global, squares: DSet) -> Result<String, Unanswered> {
    if squares.is_empty() {
        return one_word(alloc, "none");
    }
    Ok(format!(in alloc; "{}", squares.len())?)
}

// The relation of two sets.
fn compared(one: DSet, other: DSet) -> &'static str {
    if one == other {
        return "the same";
    }
    match one.compare(other) {
        Ordering::Less => "before",
        Ordering::Equal => "level",
        Ordering::Greater => "after",
    }
}

fn of_one(alloc: Global, asked: &str, value: &str) -> Result<String, Unanswered> {
    match asked {
        "place" => place(alloc, value),
        "at" => at(alloc, value),
        "all" => all(alloc),
        "set" => told_set(alloc, set(value)?),
        "size" => size(alloc, set(value)?),
        "least" => told(alloc, set(value)?.least()),
        "greatest" => told(alloc, set(value)?.greatest()),
        _ => Err(Unanswered::Question),
    }
}

fn of_two(alloc: Global, asked: &str, one: &str, other: &str) -> Result<String, Unanswered> {
    match asked {
        "step" => told(alloc, square(one)?.step(direction(other)?)),
        "line" => told_set(alloc, square(one)?.line(direction(other)?)),
        "contains" => one_word(alloc, yes(set(one)?.contains(square(other)?))),
        "without" => told_set(alloc, set(one)?.without(square(other)?)),
        "compare" => one_word(alloc, compared(set(one)?, set(other)?)),
        _ => Err(Unanswered::Question),
    }
}

/// Answers a question about squares or sets of squares.
pub fn answer(alloc: Global, asked: &str, parts: &[String]) -> Result<String, Unanswered> {
    match parts {
        [value] => of_one(alloc, asked, value.as_str()),
        [one, other] => of_two(alloc, asked, one.as_str(), other.as_str()),
        [start, toward, squares] if asked == "first" => {
            let start = square(start.as_str())?;
            told(
                alloc,
                start.first_on(direction(toward.as_str())?, set(squares.as_str())?),
            )
        }
        _ => Err(Unanswered::Question),
    }
}
