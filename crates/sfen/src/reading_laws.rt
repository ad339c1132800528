//! Theorems about the SFEN reader, for use by other crates.
ghost use Rattle.sfen.specs.internal.ReadingLaws.{IsRefusedOnce, StandsForOne};
ghost use Rattle.sfen.specs.internal.SfenGrammar.{HasOneForm};

/// The grammar of SFEN is unambiguous: a text has at most one board, side to move, list of pieces in hand and number.
pub fn has_one_form()
    ensures { HasOneForm }
{}

/// A text denotes at most one position and move number.
pub fn stands_for_one()
    ensures { StandsForOne }
{}

/// A text that is refused denotes no position, and its fault is unique.
pub fn is_refused_once()
    ensures { IsRefusedOnce }
{}
