//! The score of a game by its text and by the rules.
ghost use Rattle.std.specs.Prelude.{◌≡◌};
ghost use Rattle.pdn_games.specs.Results as results;
ghost use Rattle.pdn_games.specs.Reading.{score_of_result, agrees, score_by_rules, settled};

use crate::faults::PdnFault;
use crate::results::{ResultWord, result_word};
use draughts_draws::DEnd;
use squares::{Score, Side};

/// The score of a result, if there is one and it is not `*`.
pub fn score_of_result(word: Option<ResultWord>) -> Option<Score>
    ensures { result ≡ score_of_result word }
{
    match word {
        None => None,
        Some(word) => word.score(),
    }
}

/// The score that the value of a `Result` tag states.
pub fn parse_score(value: &[u8]) -> Option<Score>
    ensures { result ≡ score_of_result (results.result_word value.now) }
{
    score_of_result(result_word(value))
}

// Whether a score equals another one, if that is known.
fn agrees(score: Score, other: Option<Score>) -> bool
    ensures { result ≡ agrees score other }
{
    match other {
        None => true,
        Some(other) => score == other,
    }
}

/// The score by the rules if they ended the game; `turn` is the side to move after the last move.
pub fn score_by_rules(end: Option<DEnd>, turn: Side) -> Option<Score>
    ensures { result ≡ score_by_rules end turn }
{
    match end {
        None => None,
        Some(end) => Some(end.outcome(turn)),
    }
}

/// The score of the text's result, if it agrees with the rules and with the text's own `Result` tag.
///
/// # Errors
///
/// `PdnFault::Unfinished` without a score; `PdnFault::ResultDiffers` if it disagrees.
pub fn settle(
    claim: Option<Score>,
    by_rule: Option<Score>,
    by_tag: Option<Score>,
) -> Result<Score, PdnFault>
    ensures { result ≡ settled claim by_rule by_tag }
{
    match claim {
        None => Err(PdnFault::Unfinished),
        Some(claim) => {
            if agrees(claim, by_rule) && agrees(claim, by_tag) {
                return Ok(claim);
            }
            Err(PdnFault::ResultDiffers)
        }
    }
}
