//! The order of the statements in a record, as a state machine.
ghost use Rattle.std.specs.Prelude.{◌≡◌};
ghost use Rattle.csa.specs.declared.order.RecordStage.TheVariants as place;
ghost use Rattle.csa.specs.Order.{after_header, after_version, after_opening, after_row, after_pieces, after_turn};
ghost use Rattle.csa.specs.Order.{after_move, after_seconds, after_end, next, first_stray};

use crate::lines::NumberedStatement;
use crate::statements::Statement;

/// The state of the order check within a record.
#[derive(Clone, Copy, Debug, PartialEq, Eq)]
pub enum RecordStage {
    /// At the start of a record; only headers so far.
    Start,
    /// After the version, if there is one, and before the initial position.
    Versioned,
    /// After this many ranks of the initial position, 1 to 8.
    Rows(u8),
    /// After the initial position.
    Opened,
    /// After the side to move first.
    Sided,
    /// After a move.
    Moved,
    /// After the end.
    Ended,
}

// The state after a header; headers come before the first move.
fn after_header(place: RecordStage) -> Option<RecordStage>
    ensures { result ≡ after_header place }
{
    match place {
        RecordStage::Moved | RecordStage::Ended => None,
        _ => Some(place),
    }
}

// The state after a version, which comes first.
fn after_version(place: RecordStage) -> Option<RecordStage>
    ensures { result ≡ after_version place }
{
    match place {
        RecordStage::Start => Some(RecordStage::Versioned),
        _ => None,
    }
}

// The state after `PI`; no other initial position comes before it.
fn after_opening(place: RecordStage) -> Option<RecordStage>
    ensures { result ≡ after_opening place }
{
    match place {
        RecordStage::Start | RecordStage::Versioned => Some(RecordStage::Opened),
        _ => None,
    }
}

// The state after a rank; the nine ranks come in order, with no other initial position before them.
fn after_row(place: RecordStage, rank: u8) -> Option<RecordStage>
    ensures { result ≡ after_row place rank }
{
    match place {
        RecordStage::Start | RecordStage::Versioned if rank == 1 => Some(RecordStage::Rows(1)),
        RecordStage::Rows(8) if rank == 9 => Some(RecordStage::Opened),
        RecordStage::Rows(passed) if passed < 8 && rank == passed + 1 => Some(RecordStage::Rows(
            rank,
        )),
        _ => None,
    }
}

// The state after pieces, which come before the side to move first.
fn after_pieces(place: RecordStage) -> Option<RecordStage>
    ensures { result ≡ after_pieces place }
{
    match place {
        RecordStage::Start => Some(RecordStage::Versioned),
        RecordStage::Versioned | RecordStage::Rows(_) | RecordStage::Opened => Some(place),
        _ => None,
    }
}

// The state after the side to move first; without an initial position the even one is used.
fn after_turn(place: RecordStage) -> Option<RecordStage>
    ensures { result ≡ after_turn place }
{
    match place {
        RecordStage::Start | RecordStage::Versioned | RecordStage::Opened => Some(
            RecordStage::Sided,
        ),
        _ => None,
    }
}

// The state after a move, which follows the side to move first or another move.
fn after_move(place: RecordStage) -> Option<RecordStage>
    ensures { result ≡ after_move place }
{
    match place {
        RecordStage::Sided | RecordStage::Moved => Some(RecordStage::Moved),
        _ => None,
    }
}

// The state after a time, which follows a move, the end or another time.
fn after_seconds(place: RecordStage) -> Option<RecordStage>
    ensures { result ≡ after_seconds place }
{
    match place {
        RecordStage::Moved | RecordStage::Ended => Some(place),
        _ => None,
    }
}

// The state after the end, which follows the side to move first or a move.
fn after_end(place: RecordStage) -> Option<RecordStage>
    ensures { result ≡ after_end place }
{
    match place {
        RecordStage::Sided | RecordStage::Moved => Some(RecordStage::Ended),
        _ => None,
    }
}

// The state after a statement, or `None` if it is malformed or misplaced.
fn next(place: RecordStage, statement: Statement) -> Option<RecordStage>
    ensures { result ≡ next place statement }
{
    match statement {
        Statement::Parting => Some(RecordStage::Start),
        Statement::Version => after_version(place),
        Statement::Header => after_header(place),
        Statement::Opening { without_pieces: _ } => after_opening(place),
        Statement::Row { rank, even: _ } => after_row(place, rank),
        Statement::Pieces { none: _ } => after_pieces(place),
        Statement::Turn(_) => after_turn(place),
        Statement::Move(_) => after_move(place),
        Statement::Seconds => after_seconds(place),
        Statement::End(_) => after_end(place),
        Statement::Formless => None,
    }
}

/// The line of the first malformed or misplaced statement.
pub fn first_stray(placed: &[NumberedStatement]) -> Option<usize>
    ensures { result ≡ first_stray place.Start placed.now }
{
    let mut place = RecordStage::Start;
    for each in placed {
        match next(place, each.statement) {
            Some(after) => place = after,
            None => return Some(each.line),
        }
    }
    None
}
