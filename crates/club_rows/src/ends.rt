//! Ends, sides and scores as values of the table of games.

ghost use Rattle.std.specs.Prelude.{◌≡◌, ◌≢◌, Option, Some, None, IfSome, pos, string_bytes};
ghost use Rattle.std.specs.Option.{option_map};
ghost use Rattle.squares.specs.declared.sides.Side.{Side};
ghost use Rattle.squares.specs.declared.sides.Score.{Score};
ghost use Rattle.squares.specs.Sides.{score_text};
ghost use Rattle.club_core.specs.Game.{side_after};
ghost use Rattle.club_rows.specs.Tables.{side_number, end_name_text};

use club_core::GameEnd;
use club_rules::Rules;
use squares::{Score, Side};

/// The number of a side: 0 First, 1 Second.
pub fn side_number(side: Side) -> i64
    ensures { result ≡ pos (side_number side) }
{
    match side {
        Side::First => 0,
        Side::Second => 1,
    }
}

/// The side with this number. None if there is none.
pub fn side_of(number: i64) -> Option<Side>
    ensures found { (side : Side) → number ≡ pos (side_number side) → result ≡ Some side }
    ensures only { IfSome result (λ side. number ≡ pos (side_number side)) }
{
    match number {
        0 => Some(Side::First),
        1 => Some(Side::Second),
        _ => None,
    }
}

/// The name of an end in the table.
pub fn end_name<R: Rules>(end: &GameEnd<R::End>) -> &'static str
    ensures { result.now ≡ end_name_text R.rules end.now }
{
    match end {
        GameEnd::Rule(end) => R::end_name(end).name(),
        GameEnd::Verdict(verdict) => verdict.name(),
        GameEnd::Outside(end) => end.name(),
    }
}

/// The side to move after so many plies.
pub fn side_after(plies: u64) -> Side
    ensures { result ≡ side_after plies }
{
    if plies % 2 == 0 {
        Side::First
    } else {
        Side::Second
    }
}

/// Parses a score, as in `2-0`. None if the text is not a score.
pub fn score_of(text: &str) -> Option<Score>
    ensures found { (score : Score) → text.now ≡ score_text score → result ≡ Some score }
    ensures only { IfSome result (λ score. text.now ≡ score_text score) }
{
    match text {
        "2-0" => Some(Score::FirstWins),
        "1-1" => Some(Score::Draw),
        "0-2" => Some(Score::SecondWins),
        _ => None,
    }
}

/// Parses an optional score; Some(None) if there is no text. None if the text is not a score.
pub fn optional_score(text: &Option<String>) -> Option<Option<Score>>
    ensures some { IfSome result (λ score. option_map (λ s. string_bytes s) text.now ≡ option_map score_text score) }
    ensures none { result ≡ None → (score : Option Score) → option_map (λ s. string_bytes s) text.now
        ≢ option_map score_text score }
{
    match text {
        Some(text) => {
            let score = score_of(text.as_str())?;
            Some(Some(score))
        }
        None => Some(None),
    }
}
