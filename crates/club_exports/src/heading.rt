//! The header data of a record.

use clocks::Moment;
use club_core::GameEnd;
use squares::Score;

/// The header data of a record: the names of the event and the players, the timestamp of the start, and the end and the
/// score, which are `None` while the game is running.
#[derive(Drop)]
pub struct RecordHeader<'a, E> {
    pub event: &'a str,
    pub first: &'a str,
    pub second: &'a str,
    pub start: Moment,
    pub end: Option<GameEnd<E>>,
    pub result: Option<Score>,
}
