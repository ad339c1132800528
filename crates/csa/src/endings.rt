//! The score of a game by the end of its record and by the rules.
ghost use Rattle.std.specs.Prelude.{◌≡◌};
ghost use Rattle.csa.specs.Endings.{claimed, fits_rules, agrees, settled, ending, says_declared};

use crate::end_words::EndWord;
use crate::faults::CsaFault;
use shogi_moves::can_declare;
use shogi_repetition::SEnd;
use squares::{SPos, Score, Side};

// The score that an end claims; `turn` is the side to move. An interrupted game has none.
fn claimed(word: EndWord, turn: Side) -> Option<Score>
    ensures { result ≡ claimed word turn }
{
    match word {
        EndWord::Resigned | EndWord::TimeUp | EndWord::IllegalMove | EndWord::Mate => {
            Some(Score::lost_by(turn))
        }
        EndWord::Declared => Some(Score::lost_by(turn.other())),
        EndWord::Repetition | EndWord::Impasse | EndWord::Draw => Some(Score::Draw),
        EndWord::BlackIllegal => Some(Score::lost_by(Side::First)),
        EndWord::WhiteIllegal => Some(Score::lost_by(Side::Second)),
        EndWord::Interrupted => None,
    }
}

// Whether an end agrees with the rules: a mate or a repetition must be the rules' end, and a declared win must be
// allowed in the position.
fn fits_rules(word: EndWord, position: &SPos, end: Option<SEnd>) -> bool
    ensures { result ≡ fits_rules word position.now end }
{
    match word {
        EndWord::Mate => match end {
            Some(SEnd::NoMove) => true,
            _ => false,
        },
        EndWord::Repetition => match end {
            Some(SEnd::Fourfold) => true,
            _ => false,
        },
        EndWord::Declared => can_declare(position),
        _ => true,
    }
}

// Whether the score equals that of the rules, if they ended the game.
fn agrees(score: Score, turn: Side, end: Option<SEnd>) -> bool
    ensures { result ≡ agrees score turn end }
{
    match end {
        None => true,
        Some(end) => score == end.outcome(turn),
    }
}

// The claimed score, if it agrees with the rules.
fn settle(
    word: EndWord,
    score: Score,
    position: &SPos,
    end: Option<SEnd>,
) -> Result<Score, CsaFault>
    ensures { result ≡ settled word score position.now end }
{
    if fits_rules(word, position, end) && agrees(score, position.turn(), end) {
        return Ok(score);
    }
    Err(CsaFault::ResultDiffers)
}

/// Whether a record ends with a declared win.
pub fn says_declared(word: Option<EndWord>) -> bool
    ensures { result ≡ says_declared word }
{
    match word {
        Some(EndWord::Declared) => true,
        _ => false,
    }
}

/// The score of a record, given its last position and the end by the rules.
///
/// # Errors
///
/// `CsaFault::Unfinished` without a score; `CsaFault::ResultDiffers` if it disagrees with the rules.
pub fn ending(word: Option<EndWord>, position: &SPos, end: Option<SEnd>) -> Result<Score, CsaFault>
    ensures { result ≡ ending word position.now end }
{
    match word {
        None => Err(CsaFault::Unfinished),
        Some(word) => match claimed(word, position.turn()) {
            None => Err(CsaFault::Unfinished),
            Some(score) => settle(word, score, position, end),
        },
    }
}
