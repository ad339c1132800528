//! Comparison of a stored game with a record.

ghost use Rattle.std.specs.Prelude.{◌≡◌, Option};
ghost use Rattle.club_rules.specs.internal.Records.{recorded_of, reading_of};
ghost use Rattle.club_core.specs.Game.{Game};
ghost use Rattle.club_core.specs.Imports.{has_score, same_moves, is_record_of, reads_record_of};
ghost use Rattle.club_imports.specs.internal.Importing.{IsPlayedOf, ShowsPlayed};

use club_core::StoredGames;
use club_rules::{RecordReading, RecordedGame, Rules};
use squares::Score;

/// The moves of a stored game, and its result without the arbiter's verdict: `None` if only a verdict has ended it, or
/// nothing.
#[derive(Drop)]
pub struct PlayedGame<M> {
    pub moves: Vec<M>,
    pub result: Option<Score>,
}

/// The stored games with which an import is compared. `played` are the moves and the result of the game under the key,
/// if it is of the import's kind.
#[derive(Drop)]
pub struct ComparedGames<M> {
    pub stored: StoredGames,
    pub played: Option<PlayedGame<M>>,
}

fn has_score(ended: Option<Score>, score: Score) -> bool
    ensures { result ≡ has_score ended score }
{
    match ended {
        None => false,
        Some(ended) => ended == score,
    }
}

/// Whether two lists of moves are equal.
fn are_same<R: Rules>(moves: &[R::Move], others: &[R::Move]) -> bool
    ensures { result ≡ same_moves R.rules moves.now others.now }
{
    if moves.len() != others.len() {
        return false;
    }
    for i in 0..moves.len() {
        if !R::is_same_move(&moves[i], &others[i]) {
            return false;
        }
    }
    true
}

/// Whether the game has the record's moves and the record's score.
fn is_record_of<R: Rules>(played: &PlayedGame<R::Move>, recorded: &RecordedGame<R::Move>) -> bool
    ensures { (game : Game R.Move) → IsPlayedOf R.rules game played.now →
        result ≡ is_record_of R.rules game (recorded_of recorded.now) }
{
    has_score(played.result, recorded.score)
        && are_same::<R>(played.moves.as_slice(), recorded.moves.as_slice())
}

/// Whether a record was read and equals the stored game.
pub fn reads_record_of<R: Rules>(
    played: &Option<PlayedGame<R::Move>>,
    reading: &RecordReading<R::Move>,
) -> bool
    ensures { (old : Option (Game R.Move)) → ShowsPlayed R.rules old played.now →
        result ≡ reads_record_of R.rules old (reading_of reading.now) }
{
    match played {
        None => false,
        Some(played) => match reading {
            RecordReading::Game(recorded) => is_record_of::<R>(played, recorded),
            RecordReading::NoPart => false,
            RecordReading::Refused(_) => false,
        },
    }
}
