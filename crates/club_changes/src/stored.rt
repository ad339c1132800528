//! A stored game with its event's kind and terms.

use club_rows::Terms;
use club_rules::GameKind;
use store_tables::GameTableRow;

/// The row of a game with the kind and the terms of its event.
#[derive(Drop)]
pub struct StoredGame {
    /// The id of the game, from 1.
    pub id: u32,
    /// The kind of game of its event.
    pub kind: GameKind,
    /// The terms of its event.
    pub terms: Terms,
    /// The row in `games`.
    pub row: GameTableRow,
}
