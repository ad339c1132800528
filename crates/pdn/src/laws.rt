//! Theorems about the writers and readers of this crate, for use by other crates.
ghost use Rattle.pdn.specs.internal.Beginnings.{OffsetsAreLongestBeginnings, SaysLongestBeginning};
ghost use Rattle.pdn.specs.internal.FenBeginnings.{FenOffsetsAreLongestBeginnings};
ghost use Rattle.pdn.specs.internal.FenGrammar.{FenFormsAreTexts};
ghost use Rattle.pdn.specs.internal.Grammar.{FormsAreTexts};
ghost use Rattle.pdn.specs.internal.Laws.{ReadsBack, ReadsOneMove, WritesOneText, ReadsByRules, ReadsOnePosition};
ghost use Rattle.pdn.specs.internal.Laws.{ReadsPositionBack};

/// The text written for a legal move is read as that move.
pub fn reads_back()
    ensures { ReadsBack }
{}

/// A text is read as at most one move, and a text that is read has no fault.
pub fn reads_one_move()
    ensures { ReadsOneMove }
{}

/// The written text of a move is unique, and equals the result of a function of the position and the move.
pub fn writes_one_text()
    ensures { WritesOneText }
{}

/// The reader's result is a function of the position and the text, and it meets the specification of reading.
pub fn reads_by_rules()
    ensures { ReadsByRules }
{}

/// A text is read as at most one position, and a text that is read has no fault.
pub fn reads_one_position()
    ensures { ReadsOnePosition }
{}

/// The text written for a position is read as that position.
pub fn reads_position_back()
    ensures { ReadsPositionBack }
{}

/// The offset of a syntax error is the length of the longest prefix that can begin a move's text.
pub fn says_longest_beginning()
    ensures { SaysLongestBeginning }
{}

/// A text has a form exactly if the grammar of moves gives it that form.
pub fn forms_are_texts()
    ensures { FormsAreTexts }
{}

/// The parser of moves refuses exactly the texts without a form. Its offset is the length of the text's longest prefix
/// that can begin a move's text.
pub fn offsets_are_longest_beginnings()
    ensures { OffsetsAreLongestBeginnings }
{}

/// A text has a form as FEN exactly if the grammar gives it that form.
pub fn fen_forms_are_texts()
    ensures { FenFormsAreTexts }
{}

/// The parser of FEN refuses exactly the texts without a form. Its offset is the length of the text's longest prefix
/// that can begin a FEN text.
pub fn fen_offsets_are_longest_beginnings()
    ensures { FenOffsetsAreLongestBeginnings }
{}
