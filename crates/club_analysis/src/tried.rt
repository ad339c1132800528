//! Moves that are tried after a line.

ghost use Rattle.std.specs.Prelude.{◌≡◌, ◌<◌, ◌+◌, ◌++◌, ◌∷◌, ◌^◌, [], length, map, IfOk, IfErr};
ghost use Rattle.std.specs.Prelude.{None, Ok, Some, string_bytes};
ghost use Rattle.std.specs.Option.{option_map};
ghost use Rattle.club_analysis.specs.Tried.{AreMovesAfter, IsAnalysis, IsRefusedLine, refusal_after};
ghost use Rattle.club_analysis.specs.internal.Line.{Grows, HasTried, IsLine, IsTriedAs};

use crate::lines::{Line, ShownLine};
use club_core::read_legal;
use club_requests::Refusal;
use club_rules::{EndName, Memory, Rules, write_moves};
use std::alloc::Global;

// Adds a legal move to a line that has no end.
fn with_move<R: Rules>(alloc: Global, line: Line<R>, made: R::Move) -> Result<Line<R>, Memory>
    requires line { IsLine R.rules line }
    requires running { R.rules.judge line.start line.moves.items ≡ None }
    requires legal { R.rules.check line.last made ≡ Ok tt }
    ensures is_line { IfOk result (IsLine R.rules) }
    ensures start { IfOk result (λ new. new.start ≡ line.start) }
    ensures moves { IfOk result (λ new. new.moves.items ≡ line.moves.items ++ made ∷ []) }
    ensures tried { IfOk result (λ new. map (λ t. string_bytes t) new.tried.items
        ≡ map (λ t. string_bytes t) line.tried.items ++ R.rules.write_move line.last made ∷ []) }
{
    let text = R::write_move(alloc, &line.last, &made)?;
    let last = R::play(&line.last, &made);
    let Line {
        start,
        mut moves,
        last: _,
        mut tried,
    } = line;
    moves.push(made)?;
    tried.push(text)?;
    Ok(Line {
        start,
        moves,
        last,
        tried,
    })
}

// The number of the ply after so many.
fn ply_after(plies: usize) -> u32
    requires { plies < 2 ^ 31 }
    ensures { result ≡ plies + 1 }
{
    plies as u32 + 1
}

// Tries the move of a text.
fn try_text<R: Rules>(
    alloc: Global,
    line: Line<R>,
    text: &str,
) -> Result<Result<Line<R>, Refusal>, Memory>
    requires line { IsLine R.rules line }
    requires few { length line.moves.items < 2 ^ 31 }
    ensures grows { IfOk result (λ next. IfOk next (Grows R.rules line text.now)) }
    ensures refused { IfOk result (λ next. IfErr next (λ refusal.
        refusal_after R.rules line.start line.moves.items text.now ≡ Some refusal)) }
{
    if R::judge(alloc, &line.start, &line.moves)?.is_some() {
        return Ok(Err(Refusal::GameOver));
    }
    match read_legal::<R>(alloc, &line.last, text)? {
        Ok(made) => Ok(Ok(with_move(alloc, line, made)?)),
        Err(refusal) => Ok(Err(Refusal::Play {
            ply: ply_after(line.moves.len()),
            refusal,
        })),
    }
}

// Tries the moves of texts, one after another.
fn try_texts<R: Rules>(
    alloc: Global,
    line: Line<R>,
    texts: &[String],
) -> Result<Result<Line<R>, Refusal>, Memory>
    requires line { IsLine R.rules line }
    requires untried { line.tried.items ≡ [] }
    requires few { length line.moves.items + length texts.now < 2 ^ 31 }
    ensures tried { IfOk result (λ next. IfOk next (HasTried R.rules line.start line.moves.items
        (map (λ t. string_bytes t) texts.now))) }
    ensures refused { IfOk result (λ next. IfErr next (IsRefusedLine R.rules line.start line.moves.items
        (map (λ t. string_bytes t) texts.now))) }
{
    let mut tried = line;
    for text in texts {
        tried = match try_text::<R>(alloc, tried, text.as_str())? {
            Ok(next) => next,
            Err(refusal) => return Ok(Err(refusal)),
        };
    }
    Ok(Ok(tried))
}

fn end_named<R: Rules>(end: Option<R::End>) -> Option<EndName>
    ensures { result ≡ option_map R.rules.end_name end }
{
    match end {
        Some(end) => Some(R::end_name(&end)),
        None => None,
    }
}

// The legal moves after a line with this end.
fn moves_after<R: Rules>(
    alloc: Global,
    line: &Line<R>,
    end: Option<R::End>,
) -> Result<Vec<String>, Memory>
    requires line { IsLine R.rules line.now }
    requires end { end ≡ R.rules.judge line.now.start line.now.moves.items }
    ensures { IfOk result (λ texts. AreMovesAfter R.rules line.now.start line.now.moves.items
        (map (λ t. string_bytes t) texts.items)) }
{
    if end.is_some() {
        return Ok(Vec::new(alloc));
    }
    let moves = R::legal(alloc, &line.last)?;
    write_moves::<R>(alloc, &line.last, &moves)
}

// What is shown of a line.
fn shown_of<R: Rules>(alloc: Global, line: Line<R>) -> Result<ShownLine, Memory>
    requires line { IsLine R.rules line }
    ensures position { IfOk result (λ shown. string_bytes shown.position ≡ R.rules.write_position line.last) }
    ensures moves { IfOk result (λ shown. shown.moves ≡ line.tried) }
    ensures legal { IfOk result (λ shown. AreMovesAfter R.rules line.start line.moves.items
        (map (λ t. string_bytes t) shown.legal.items)) }
    ensures end { IfOk result (λ shown. shown.end
        ≡ option_map R.rules.end_name (R.rules.judge line.start line.moves.items)) }
{
    let end = R::judge(alloc, &line.start, &line.moves)?;
    let legal = moves_after::<R>(alloc, &line, end)?;
    let position = R::write_position(alloc, &line.last)?;
    Ok(ShownLine {
        position,
        moves: line.tried,
        legal,
        end: end_named::<R>(end),
    })
}

/// Tries moves after a line, and returns what is shown then, or the refusal of the first text that is refused.
///
/// # Errors
///
/// `Memory` if out of memory.
///
/// # Guarantees
///
/// `answered`: the position, the moves, the legal moves and the end are the rules'; or the refusal is that of the first
/// text that is no legal move or follows the end of the line.
pub fn analyse<R: Rules>(
    alloc: Global,
    line: Line<R>,
    texts: &[String],
) -> Result<Result<ShownLine, Refusal>, Memory>
    requires line { IsLine R.rules line }
    requires untried { line.tried.items ≡ [] }
    requires few { length line.moves.items + length texts.now < 2 ^ 31 }
    ensures answered { IfOk result (IsTriedAs
        (IsAnalysis R.rules line.start line.moves.items (map (λ t. string_bytes t) texts.now))
        (IsRefusedLine R.rules line.start line.moves.items (map (λ t. string_bytes t) texts.now))) }
{
    match try_texts::<R>(alloc, line, texts)? {
        Ok(tried) => Ok(Ok(shown_of(alloc, tried)?)),
        Err(refusal) => Ok(Err(refusal)),
    }
}
