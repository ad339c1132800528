//! Ends of games, by their rules or for outside reasons, and their scores.

ghost use Rattle.std.specs.Prelude.{◌≡◌};
ghost use Rattle.std.specs.Option.{option_map};
ghost use Rattle.club_core.specs.declared.rows.GameEnd.TheVariants.{Rule};
ghost use Rattle.club_core.specs.Game.{score_with};
ghost use Rattle.club_core.specs.internal.View.{rule_in};
ghost use Rattle.club_core.specs.Step.{is_ended_by};

use crate::rows::GameEnd;
use club_requests::OutsideEnd;
use club_rules::{EndName, Rules};
use squares::{Score, Side};

/// The end that the rules gave, if any.
pub fn rule_in<E: Copy>(end: &Option<GameEnd<E>>) -> Option<E>
    ensures { result ≡ rule_in end.now }
{
    match end {
        Some(GameEnd::Rule(e)) => Some(*e),
        _ => None,
    }
}

/// Whether the game ended for this outside reason.
pub fn is_ended_by(outside: Option<OutsideEnd>, way: OutsideEnd) -> bool
    ensures { result ≡ is_ended_by way outside }
{
    match outside {
        Some(end) => end == way,
        None => false,
    }
}

/// Wraps the end that the rules gave.
pub fn game_end<E>(end: Option<E>) -> Option<GameEnd<E>>
    ensures { result ≡ option_map Rule end }
{
    match end {
        Some(e) => Some(GameEnd::Rule(e)),
        None => None,
    }
}

/// The score of an end by the rules, given the side to move.
pub fn score_of_end<R: Rules>(end: Option<R::End>, turn: Side) -> Option<Score>
    ensures { result ≡ score_with R.rules (option_map Rule end) turn }
{
    match &end {
        Some(e) => Some(R::outcome(e, turn)),
        None => None,
    }
}

/// The name of an end, if there is one.
pub fn name_of_end<R: Rules>(end: Option<R::End>) -> Option<EndName>
    ensures { result ≡ option_map R.rules.end_name end }
{
    match &end {
        Some(e) => Some(R::end_name(e)),
        None => None,
    }
}
