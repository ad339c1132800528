//! Parses the values of a SELECT's rows into row types.

ghost use Rattle.std.specs.Prelude.{◌≡◌, ◌<◌, IfOk, IfErr, All, map, length, string_bytes};
ghost use Rattle.sqlite_value.specs.declared.value.Value.TheVariants.{Int, Text};
ghost use Rattle.sqlite.specs.Values.{IsInt, or_null};
ghost use Rattle.sqlite.specs.Order.{Row as Cells, column};
ghost use Rattle.store_tables.specs.declared.parse.RowError.TheVariants.{WrongType};
ghost use Rattle.store_tables.specs.Cells.{event_cells, move_cells, ruling_cells};
ghost use Rattle.store_tables.specs.internal.Cells.{meta_cells, member_cells, challenge_cells};
ghost use Rattle.store_tables.specs.Cells.{game_cells, seen_cells};
ghost use Rattle.store_tables.specs.internal.Cells.{event_rule_cells, score_cells};
ghost use Rattle.store_tables.specs.internal.Cells.{closing_cells, key_cells};
ghost use Rattle.store_tables.specs.Cells.{IsClosing, IsKey, IsRuling};
ghost use Rattle.store_tables.specs.Cells.{IsText, OrNull, IsMember, IsEvent, IsChallenge, IsMove, IsGame};
ghost use Rattle.store_tables.specs.internal.Cells.{IsMeta};
ghost use Rattle.store_tables.specs.Cells.{IsEventRule, IsSeen, IsScore};

use crate::rows::{
    ChallengeRow, ClosingRow, EventRow, EventRuleRow, GameTableRow, KeyRow, MemberRow, MetaRow,
    MoveRow, RulingRow, ScoreRow, SeenRow,
};
use sqlite::types::FromSql;
use sqlite::{Error, ErrorCode, Row};
use std::alloc::Global;

/// Why a row cannot be parsed.
#[derive(Debug, Clone, Copy, PartialEq, Eq, Drop)]
pub enum RowError {
    /// The row has another number of columns, or a value has another type than its column.
    WrongType,
    /// Out of memory.
    Memory,
}

/// A row type that is parsed from the values of a table's columns.
pub trait TableRow: Sized + Drop {
    // the values of the row in the order of the table's columns
    ghost cells: { Self → Cells };

    // whether the values have the types of the columns
    ghost IsTyped: { Cells → Type 0 };

    /// Parses the values of a row.
    ///
    /// # Errors
    ///
    /// - `WrongType` if the number of columns or the type of a value is wrong.
    /// - `Memory` if out of memory.
    fn parse(row: &Row) -> Result<Self, RowError>
        ensures shows { IfOk result (λ r. row.now ≡ cells r) }
        ensures mistyped { IfErr result (λ e. e ≡ WrongType → ¬ IsTyped row.now) };
}

/// Reads the value in a column (counted from 0).
///
/// # Errors
///
/// - `WrongType` if the value has another type.
/// - `Memory` if out of memory.
pub(crate) fn read<T: FromSql>(row: &Row, at: usize) -> Result<T, RowError>
    requires { at < length row.now }
    ensures reads { IfOk result (λ x. T.FromSql.reads_as (column row.now at) x) }
    ensures mistyped { IfErr result (λ e. e ≡ WrongType → ¬ T.FromSql.is_readable (column row.now at)) }
{
    match row.get(at) {
        Ok(value) => Ok(value),
        Err(Error::SqliteFailure(ErrorCode::OutOfMemory)) => Err(RowError::Memory),
        Err(_) => Err(RowError::WrongType),
    }
}

/// Reads an integer column that may be NULL.
fn read_integer(row: &Row, at: usize) -> Result<Option<i64>, RowError>
    requires { at < length row.now }
    ensures reads { IfOk result (λ o. column row.now at ≡ or_null Int o) }
    ensures mistyped { IfErr result (λ e. e ≡ WrongType → ¬ OrNull IsInt (column row.now at)) }
{
    read(row, at)
}

/// Reads a text column that may be NULL.
fn read_text(row: &Row, at: usize) -> Result<Option<String>, RowError>
    requires { at < length row.now }
    ensures reads { IfOk result (λ o. column row.now at ≡ or_null (λ s. Text (string_bytes s)) o) }
    ensures mistyped { IfErr result (λ e. e ≡ WrongType → ¬ OrNull IsText (column row.now at)) }
{
    read(row, at)
}

/// Parses all rows, in the same order.
///
/// # Errors
///
/// - `WrongType` if a row has another number of columns or a value of another type.
/// - `Memory` if out of memory.
pub fn parse_all<T: TableRow>(alloc: Global, rows: &[Row]) -> Result<Vec<T>, RowError>
    ensures shows { IfOk result (λ found. rows.now ≡ map T.cells found.items) }
    ensures mistyped { IfErr result (λ e. e ≡ WrongType → ¬ All T.IsTyped rows.now) }
{
    let mut found = Vec::new(alloc);
    'rows: for row in rows {
        let parsed = T::parse(row)?;
        if found.push(parsed).is_err() {
            return Err(RowError::Memory);
        }
    }
    Ok(found)
}

impl TableRow for MetaRow {
    ghost cells = { meta_cells };

    ghost IsTyped = { IsMeta };

    fn parse(row: &Row) -> Result<MetaRow, RowError> {
        if row.column_count() != 3 {
            return Err(RowError::WrongType);
        }
        Ok(MetaRow {
            id: read(row, 0)?,
            schema: read(row, 1)?,
            last: read(row, 2)?,
        })
    }
}

impl TableRow for MemberRow {
    ghost cells = { member_cells };

    ghost IsTyped = { IsMember };

    fn parse(row: &Row) -> Result<MemberRow, RowError> {
        if row.column_count() != 3 {
            return Err(RowError::WrongType);
        }
        Ok(MemberRow {
            id: read(row, 0)?,
            name: read(row, 1)?,
            key: read(row, 2)?,
        })
    }
}

impl TableRow for EventRow {
    ghost cells = { event_cells };

    ghost IsTyped = { IsEvent };

    fn parse(row: &Row) -> Result<EventRow, RowError> {
        if row.column_count() != 5 {
            return Err(RowError::WrongType);
        }
        Ok(EventRow {
            id: read(row, 0)?,
            name: read(row, 1)?,
            game: read(row, 2)?,
            budget: read(row, 3)?,
            increment: read(row, 4)?,
        })
    }
}

impl TableRow for EventRuleRow {
    ghost cells = { event_rule_cells };

    ghost IsTyped = { IsEventRule };

    fn parse(row: &Row) -> Result<EventRuleRow, RowError> {
        if row.column_count() != 2 {
            return Err(RowError::WrongType);
        }
        Ok(EventRuleRow {
            event: read(row, 0)?,
            declares: read(row, 1)?,
        })
    }
}

impl TableRow for ChallengeRow {
    ghost cells = { challenge_cells };

    ghost IsTyped = { IsChallenge };

    fn parse(row: &Row) -> Result<ChallengeRow, RowError> {
        if row.column_count() != 7 {
            return Err(RowError::WrongType);
        }
        Ok(ChallengeRow {
            member: read(row, 0)?,
            number: read(row, 1)?,
            event: read(row, 2)?,
            other: read(row, 3)?,
            first: read(row, 4)?,
            state: read(row, 5)?,
            game: read_integer(row, 6)?,
        })
    }
}

impl TableRow for MoveRow {
    ghost cells = { move_cells };

    ghost IsTyped = { IsMove };

    fn parse(row: &Row) -> Result<MoveRow, RowError> {
        if row.column_count() != 6 {
            return Err(RowError::WrongType);
        }
        Ok(MoveRow {
            game: read(row, 0)?,
            ply: read(row, 1)?,
            text: read(row, 2)?,
            moment: read(row, 3)?,
            left: read(row, 4)?,
            position: read(row, 5)?,
        })
    }
}

impl TableRow for GameTableRow {
    ghost cells = { game_cells };

    ghost IsTyped = { IsGame };

    fn parse(row: &Row) -> Result<GameTableRow, RowError> {
        if row.column_count() != 17 {
            return Err(RowError::WrongType);
        }
        Ok(GameTableRow {
            id: read(row, 0)?,
            key: read_text(row, 1)?,
            event: read(row, 2)?,
            first: read(row, 3)?,
            second: read(row, 4)?,
            start: read(row, 5)?,
            since: read(row, 6)?,
            plies: read(row, 7)?,
            left1: read(row, 8)?,
            left2: read(row, 9)?,
            offer_side: read_integer(row, 10)?,
            offer_ply: read_integer(row, 11)?,
            end: read_text(row, 12)?,
            result: read_text(row, 13)?,
            position: read(row, 14)?,
            track_a: read(row, 15)?,
            track_b: read(row, 16)?,
        })
    }
}

impl TableRow for SeenRow {
    ghost cells = { seen_cells };

    ghost IsTyped = { IsSeen };

    fn parse(row: &Row) -> Result<SeenRow, RowError> {
        if row.column_count() != 4 {
            return Err(RowError::WrongType);
        }
        Ok(SeenRow {
            game: read(row, 0)?,
            position: read(row, 1)?,
            count: read(row, 2)?,
            first_ply: read(row, 3)?,
        })
    }
}

impl TableRow for ScoreRow {
    ghost cells = { score_cells };

    ghost IsTyped = { IsScore };

    fn parse(row: &Row) -> Result<ScoreRow, RowError> {
        if row.column_count() != 7 {
            return Err(RowError::WrongType);
        }
        Ok(ScoreRow {
            event: read(row, 0)?,
            member: read(row, 1)?,
            opponent: read(row, 2)?,
            points: read(row, 3)?,
            wins: read(row, 4)?,
            draws: read(row, 5)?,
            losses: read(row, 6)?,
        })
    }
}

impl TableRow for KeyRow {
    ghost cells = { key_cells };

    ghost IsTyped = { IsKey };

    fn parse(row: &Row) -> Result<KeyRow, RowError> {
        if row.column_count() != 3 {
            return Err(RowError::WrongType);
        }
        let key = read(row, 2)?;
        Ok(KeyRow {
            member: read(row, 0)?,
            number: read(row, 1)?,
            key,
        })
    }
}

impl TableRow for RulingRow {
    ghost cells = { ruling_cells };

    ghost IsTyped = { IsRuling };

    fn parse(row: &Row) -> Result<RulingRow, RowError> {
        if row.column_count() != 9 {
            return Err(RowError::WrongType);
        }
        Ok(RulingRow {
            game: read(row, 0)?,
            number: read(row, 1)?,
            moment: read(row, 2)?,
            ply: read(row, 3)?,
            kind: read(row, 4)?,
            seconds: read(row, 5)?,
            result: read_text(row, 6)?,
            beneath: read_text(row, 7)?,
            beneath_result: read_text(row, 8)?,
        })
    }
}

impl TableRow for ClosingRow {
    ghost cells = { closing_cells };

    ghost IsTyped = { IsClosing };

    fn parse(row: &Row) -> Result<ClosingRow, RowError> {
        if row.column_count() != 2 {
            return Err(RowError::WrongType);
        }
        Ok(ClosingRow {
            event: read(row, 0)?,
            moment: read(row, 1)?,
        })
    }
}
