//! The decision on a command to one game.

use crate::rows::{GameRow, Made};
use club_requests::{Answer, Refusal};
use club_rules::Rules;

/// The decision on a command to one game: the new row, the move (if it is one) and the answer; a repeat; or a refusal.
///
/// After a move the row and the answer have no end until `conclude` adds it.
#[derive(Drop)]
pub enum Decision<R: Rules> {
    Accepted {
        row: GameRow<R::End>,
        made: Option<Made<R>>,
        answer: Answer,
    },
    Repeated(Answer),
    Refused(Refusal),
}
