//! Splitting of a text into statements, line by line.
ghost use Rattle.std.specs.Prelude.{◌≡◌, ◌+◌, ◌++◌, ◌<◌, ◌==◌, IfOk, OnOk, map, length};
ghost use Rattle.std.specs.List.{slice_split};
ghost use Rattle.std.specs.Str.Lines.{strip_carriage_return, lines_of_parts};
ghost use Rattle.csa.specs.Lines.{is_comment, is_header, placed_of, placed_all, statements_from};
ghost use Rattle.csa.specs.internal.Lines.{line_at};
ghost use Rattle.csa.specs.Lines.{statements_on, text_statements};

use crate::statements::{Statement, statement_of};
use shogi_moves::Memory;
use std::alloc::{AllocError, Global};

/// A statement and its line, counted from 1.
#[derive(Clone, Copy, Debug, PartialEq, Eq)]
pub struct NumberedStatement {
    pub line: usize,
    pub statement: Statement,
}

// Splits a text at a byte.
fn parts_of(alloc: Global, text: &[u8], byte: u8) -> Result<Vec<&[u8]>, AllocError>
    ensures { IfOk result (λ parts. map (λ x. x.now) parts.items ≡ slice_split (λ b. b == byte) text.now) }
{
    text.split(|b| *b == byte).collect(alloc)
}

// The line without the carriage return at its end, if it has one.
fn without_return(line: &[u8]) -> &[u8]
    ensures { result.now ≡ strip_carriage_return line.now }
{
    match line {
        [start @ .., b'\r'] => start,
        _ => line,
    }
}

// Whether a line is a comment.
fn is_comment(line: &[u8]) -> bool
    ensures { result ≡ is_comment line.now }
{
    match line {
        [b'\'', ..] => true,
        _ => false,
    }
}

// Whether a line is a header: a player's name or a `$` keyword.
fn is_header(line: &[u8]) -> bool
    ensures { result ≡ is_header line.now }
{
    match line {
        [b'$', ..] => true,
        [b'N', b'+' | b'-', ..] => true,
        _ => false,
    }
}

// Appends the statement of a part of a line; an empty part has none.
fn push_part(placed: &mut Vec<NumberedStatement>, line: usize, part: &[u8]) -> Result<(), Memory>
    ensures { OnOk result (placed.new.items ≡ placed.old.items ++ placed_of line part.now) }
{
    if part.is_empty() {
        return Ok(());
    }
    placed.push(NumberedStatement {
        line,
        statement: statement_of(part),
    })?;
    Ok(())
}

// Appends the statements of the parts of a line.
fn push_parts(
    placed: &mut Vec<NumberedStatement>,
    line: usize,
    parts: &[&[u8]],
) -> Result<(), Memory>
    ensures { OnOk result (placed.new.items
        ≡ placed.old.items ++ placed_all line (map (λ x. x.now) parts.now)) }
{
    for i in 0..parts.len() {
        push_part(placed, line, parts[i])?;
    }
    Ok(())
}

// Appends the statements of a line.
fn push_line(
    alloc: Global,
    placed: &mut Vec<NumberedStatement>,
    line: usize,
    text: &[u8],
) -> Result<(), Memory>
    ensures { OnOk result (placed.new.items ≡ placed.old.items ++ statements_on line text.now) }
{
    if is_comment(text) {
        return Ok(());
    }
    if is_header(text) {
        placed.push(NumberedStatement {
            line,
            statement: Statement::Header,
        })?;
        return Ok(());
    }
    let parts = parts_of(alloc, text, b',')?;
    push_parts(placed, line, &parts)?;
    Ok(())
}

// The line of a part between line feeds. The last part has no line feed, so its carriage return stays.
fn line_at<'a>(parts: &[&'a [u8]], i: usize) -> &'a [u8]
    requires { i < length parts.now }
    ensures { result.now ≡ line_at (map (λ x. x.now) parts.now) i }
{
    if i + 1 < parts.len() {
        return without_return(parts[i]);
    }
    parts[i]
}

// Appends the statements of lines.
fn push_lines(
    alloc: Global,
    placed: &mut Vec<NumberedStatement>,
    parts: &[&[u8]],
) -> Result<(), Memory>
    ensures { OnOk result (placed.new.items
        ≡ placed.old.items ++ statements_from 1 (lines_of_parts (map (λ x. x.now) parts.now))) }
{
    for i in 0..parts.len() {
        push_line(alloc, placed, i + 1, line_at(parts, i))?;
    }
    Ok(())
}

/// Splits a text into statements with their lines.
///
/// # Errors
///
/// `Memory` if out of memory.
pub fn statements_of(alloc: Global, text: &[u8]) -> Result<Vec<NumberedStatement>, Memory>
    ensures { IfOk result (λ placed. placed.items ≡ text_statements text.now) }
{
    let parts = parts_of(alloc, text, b'\n')?;
    let mut placed = Vec::new(alloc);
    push_lines(alloc, &mut placed, &parts)?;
    Ok(placed)
}
