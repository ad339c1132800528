//! Theorems about the writers and the USI reader, for use by other crates.
ghost use Rattle.sfen.specs.internal.WritingLaws.{WritesPositions, WritesPositionsAlone, WritesGreatestRuns};
ghost use Rattle.sfen.specs.internal.WritingLaws.{ReadsMovesBack};
ghost use Rattle.sfen.specs.internal.WritingLaws.{ReadsMoveTexts, HasOneMove, HasOneOffset};

/// The text written for a position with a move number denotes both.
pub fn writes_positions()
    ensures { WritesPositions }
{}

/// The text written for a position without a move number denotes the position with the number 1.
pub fn writes_positions_alone()
    ensures { WritesPositionsAlone }
{}

/// A rank is written with maximal runs of empty squares.
pub fn writes_greatest_runs()
    ensures { WritesGreatestRuns }
{}

/// The text written for a move is read as that move.
pub fn reads_moves_back()
    ensures { ReadsMovesBack }
{}

/// A text is read as a move exactly if it is that move's text.
pub fn reads_move_texts()
    ensures { ReadsMoveTexts }
{}

/// A text denotes at most one move.
pub fn has_one_move()
    ensures { HasOneMove }
{}

/// A text that denotes no move is refused at exactly one offset.
pub fn has_one_offset()
    ensures { HasOneOffset }
{}
