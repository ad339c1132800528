//! The head and the end of a record that is written.

use clocks::Moment;
use shogi_repetition::SEnd;
use squares::Score;

/// The end of a game.
#[derive(Clone, Copy, Debug, PartialEq, Eq)]
pub enum CsaEnd {
    /// By the rules.
    Rule(SEnd),
    /// The side to move resigned.
    Resigned,
    /// The side to move ran out of time.
    Time,
    /// The side to move declared a win.
    Declared,
    /// The score that an imported record states.
    Recorded(Score),
}

/// The content of a record except its moves: event, players, start time (Unix seconds), and end (`None` while the game
/// is running).
#[derive(Clone, Copy)]
pub struct CsaHead<'a> {
    pub event: &'a str,
    pub black: &'a str,
    pub white: &'a str,
    pub start: Moment,
    pub end: Option<CsaEnd>,
}
