//! Lines of moves from a position.

ghost use Rattle.std.specs.Prelude.{◌≡◌, ◌≢◌, [], IfOk, IfSome, List, None};
ghost use Rattle.club_rules.specs.Line.{IsLegalLine, IsPlayedLine, position_after};
ghost use Rattle.club_analysis.specs.internal.Line.{IsLine};

use club_rules::{EndName, Memory, Rules};
use std::alloc::Global;

/// A line of moves that was played by the rules.
#[derive(Drop)]
pub struct Line<R: Rules> {
    /// The position before the first move.
    pub start: R::Position,
    /// All moves.
    pub moves: Vec<R::Move>,
    /// The position after the last move.
    pub last: R::Position,
    /// The notation of the moves that were tried. They are the last ones.
    pub tried: Vec<String>,
}

/// What is shown of a line.
#[derive(Drop)]
pub struct ShownLine {
    /// The last position in the notation of the game.
    pub position: String,
    /// The notation of the moves that were tried.
    pub moves: Vec<String>,
    /// The legal moves in notation, in the order of the rules. Empty if the line has an end.
    pub legal: Vec<String>,
    /// The end that the rules give to the line.
    pub end: Option<EndName>,
}

/// The line without moves from the initial position.
pub fn line_from_opening<R: Rules>(alloc: Global) -> Line<R>
    ensures is_line { IsLine R.rules result }
    ensures start { result.start ≡ R.rules.start }
    ensures moves { result.moves.items ≡ [] }
    ensures tried { result.tried.items ≡ [] }
{
    Line {
        start: R::start(),
        moves: Vec::new(alloc),
        last: R::start(),
        tried: Vec::new(alloc),
    }
}

/// The line without moves from the position of a text; `None` if the text is not that of a position as the rules write
/// it.
///
/// # Errors
///
/// `Memory` if out of memory.
pub fn line_from_text<R: Rules>(alloc: Global, text: &str) -> Result<Option<Line<R>>, Memory>
    ensures is_line { IfOk result (λ found. IfSome found (IsLine R.rules)) }
    ensures start { IfOk result (λ found. IfSome found (λ line. text.now ≡ R.rules.write_position line.start)) }
    ensures moves { IfOk result (λ found. IfSome found (λ line. line.moves.items ≡ [])) }
    ensures tried { IfOk result (λ found. IfSome found (λ line. line.tried.items ≡ [])) }
    ensures none { IfOk result (λ found. found ≡ None → (ms : List R.Move) → IsLegalLine R.rules R.rules.start ms →
        text.now ≢ R.rules.write_position (position_after R.rules R.rules.start ms)) }
{
    // A position cannot be copied, so it is read twice: as the first and as the last one.
    let Some(start) = R::read_position(alloc, text)? else {
        return Ok(None);
    };
    let Some(last) = R::read_position(alloc, text)? else {
        return Ok(None);
    };
    if R::write_position(alloc, &start)?.as_str() != text {
        return Ok(None);
    }
    Ok(Some(Line {
        start,
        moves: Vec::new(alloc),
        last,
        tried: Vec::new(alloc),
    }))
}

/// The line of these moves from the initial position, which lead to the position `last`.
pub fn line_of_moves<R: Rules>(alloc: Global, moves: Vec<R::Move>, last: R::Position) -> Line<R>
    requires played { IsPlayedLine R.rules R.rules.start moves.items }
    requires last_is { last ≡ position_after R.rules R.rules.start moves.items }
    ensures is_line { IsLine R.rules result }
    ensures start { result.start ≡ R.rules.start }
    ensures moves { result.moves ≡ moves }
    ensures tried { result.tried.items ≡ [] }
{
    Line {
        start: R::start(),
        moves,
        last,
        tried: Vec::new(alloc),
    }
}
