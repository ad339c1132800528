//! The tags of a record.

use clocks::CivilTime;
use squares::Score;

/// The content of a record's tags: event, start date, players, and score (`None` while the game is running).
#[derive(Clone, Copy)]
pub struct PdnHead<'a> {
    pub event: &'a str,
    pub date: CivilTime,
    pub white: &'a str,
    pub black: &'a str,
    pub score: Option<Score>,
}
