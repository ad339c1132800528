//! Theorems about the reader and the writers of this crate, for use by other crates.
ghost use Rattle.csa.specs.internal.BackLaws.{WrittenIsRead, RunningIsRefused};
ghost use Rattle.csa.specs.internal.ReadingLaws.{TextsAreOfOne, TextsOfGamesAreRead};
ghost use Rattle.csa.specs.internal.Writer.{LinesBeginGames, MovesBeginGames};

use shogi_moves::laws::{can_declare_is, check_is};
use shogi_repetition::laws::each_line_has_one_end;

/// A text is the text of at most one list of games, and the text of games is read unless the reader is out of memory.
pub fn texts_are_read_in_one_way()
    ensures one { TextsAreOfOne }
    ensures read { TextsOfGamesAreRead }
{
    check_is();
    each_line_has_one_end();
}

/// The text written for a finished game, with names of one line each, is read as its moves, its score and whether it
/// ended by a declared win. The text written for a running game is refused as unfinished.
pub fn written_games_are_read()
    ensures ended { WrittenIsRead }
    ensures running { RunningIsRefused }
{
    can_declare_is();
    check_is();
    each_line_has_one_end();
}

/// Incremental writing yields a prefix of the game's whole text, wherever it stops.
pub fn written_moves_begin_games()
    ensures lines { LinesBeginGames }
    ensures moves { MovesBeginGames }
{}
