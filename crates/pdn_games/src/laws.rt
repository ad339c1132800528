//! Theorems about the reader and the writers of this crate, for use by other crates.
ghost use Rattle.pdn_games.specs.internal.BackLaws.{WrittenIsRead};
ghost use Rattle.pdn_games.specs.internal.Longest.{MovesAreLongest};
ghost use Rattle.pdn_games.specs.internal.ReadingLaws.{TextsAreOfOne, TextsOfGamesAreRead};
ghost use Rattle.pdn_games.specs.internal.SkipGrammar.{SkipsFollowGrammar};
ghost use Rattle.pdn_games.specs.internal.TagGrammar.{TagsFollowGrammar};
ghost use Rattle.pdn_games.specs.internal.Writer.{TagsBeginGames, MovesBeginGames};

use pdn::laws::reads_one_move;

/// A text is the text of at most one game, and the text of a game is read unless the reader is out of memory.
pub fn texts_are_read_in_one_way()
    ensures one { TextsAreOfOne }
    ensures read { TextsOfGamesAreRead }
{
    reads_one_move();
}

/// The text written for a finished game is read as its moves and its score, if its names have no quotes or backslashes.
pub fn written_games_are_read()
    ensures { WrittenIsRead }
{}

/// The lexer takes the longest prefix that is a move's text.
pub fn moves_are_longest()
    ensures { MovesAreLongest }
{}

/// The lexer skips exactly what the grammar allows between tokens: blanks, comments, annotation glyphs, variations,
/// marks and comment lines.
pub fn skips_follow_grammar()
    ensures { SkipsFollowGrammar }
{}

/// The lexer reads a tag exactly if the grammar does, part by part.
pub fn tags_follow_grammar()
    ensures { TagsFollowGrammar }
{}

/// Incremental writing yields a prefix of the game's whole text, wherever it stops.
pub fn written_moves_begin_games()
    ensures tags { TagsBeginGames }
    ensures moves { MovesBeginGames }
{}
