//! Queries for at most one row, by a whole key or by a UNIQUE column.

ghost use Rattle.std.specs.Prelude.{◌≡◌, ℕ, List, [], ◌∷◌, IfOk, is_ok, map};
ghost use Rattle.sqlite.specs.Order.{Row as Cells};
ghost use Rattle.sqlite.specs.State.{HasCleanDisk};
ghost use Rattle.sqlite.specs.Held.{state};
ghost use Rattle.sqlite.specs.declared.types.Value.TheVariants.{Null, Int, Text};
ghost use Rattle.store_tables.specs.internal.Contents.{AreThose};
ghost use Rattle.store_tables.specs.Over.{HasRowsIn};
ghost use Rattle.store_tables.specs.Reading.{Reads};

use crate::fault::TableFault;
use crate::read::parse_shown_rows;
use crate::texts::Select;
use sqlite::{Alter, Connection, Error, Row, params};
use std::alloc::Global;
use store_tables::{
    ChallengeRow, EventRow, GameTableRow, KeyRow, MemberRow, MoveRow, ScoreRow, SeenRow,
};

const MEMBERS_BY_NAME: &str = "SELECT id, name, key FROM members WHERE name = ?1";

const MEMBERS_BY_KEY: &str = "SELECT id, name, key FROM members WHERE key = ?1";

const EVENTS_BY_NAME: &str = "SELECT id, name, game, budget, increment FROM events WHERE name = ?1";

const GAMES_BY_KEY: &str =
    "SELECT id, key, event, first, second, start, since, plies, left1, left2, offer_side, offer_ply, end, result, position, track_a, track_b FROM games WHERE key = ?1";

const CHALLENGES_BY_NUMBER: &str =
    "SELECT member, number, event, other, first, state, game FROM challenges WHERE member = ?1 AND number = ?2";

const MOVES_BY_PLY: &str =
    "SELECT game, ply, text, moment, left, position FROM moves WHERE game = ?1 AND ply = ?2";

const SEEN_BY_POSITION: &str =
    "SELECT game, position, count, first_ply FROM seen WHERE game = ?1 AND position = ?2";

const SCORES_BY_PAIR: &str =
    "SELECT event, member, opponent, points, wins, draws, losses FROM scores WHERE event = ?1 AND member = ?2 AND opponent = ?3";

const KEYS_BY_KEY: &str = "SELECT member, number, key FROM keys WHERE key = ?1";

/// A query for the row with given values in columns that are a key or UNIQUE.
pub trait UniqueKey {
    /// The type of the row.
    type Row: Select;

    // the columns and the wanted values; NULL in columns that are not part of the key
    ghost columns: { List ℕ };

    ghost wanted: { Self → Cells };

    /// Runs the query; returns the row as values.
    ///
    /// # Errors
    ///
    /// `sqlite::Error` if a call of the database fails.
    fn show<S: Alter>(&self, conn: &mut Connection<S>) -> Result<Vec<Row>, Error>
        ensures reads { Reads (is_ok result) (state S.Store conn.old) (state S.Store conn.new) }
        ensures rows { HasCleanDisk (state S.Store conn.new) → IfOk result (λ shown. (content : _) →
            HasRowsIn Self.Row.since content (state S.Store conn.old) →
            AreThose columns (wanted self.now) (content Self.Row.table.tree) shown.items) };
}

/// A query for the member with this name.
#[derive(Debug, Clone, Copy)]
pub struct MemberName<'a> {
    pub name: &'a str,
}

impl UniqueKey for MemberName<'_> {
    type Row = MemberRow;

    ghost columns = { 1 ∷ [] };

    ghost wanted = { λ q. Null ∷ Text q.name.now ∷ [] };

    fn show<S: Alter>(&self, conn: &mut Connection<S>) -> Result<Vec<Row>, Error> {
        conn.query_all(MEMBERS_BY_NAME, params![self.name])
    }
}

/// A query for the member with this secret key.
#[derive(Debug, Clone, Copy)]
pub struct MemberKey<'a> {
    pub key: &'a str,
}

impl UniqueKey for MemberKey<'_> {
    type Row = MemberRow;

    ghost columns = { 2 ∷ [] };

    ghost wanted = { λ q. Null ∷ Null ∷ Text q.key.now ∷ [] };

    fn show<S: Alter>(&self, conn: &mut Connection<S>) -> Result<Vec<Row>, Error> {
        conn.query_all(MEMBERS_BY_KEY, params![self.key])
    }
}

/// A query for the event with this name.
#[derive(Debug, Clone, Copy)]
pub struct EventName<'a> {
    pub name: &'a str,
}

impl UniqueKey for EventName<'_> {
    type Row = EventRow;

    ghost columns = { 1 ∷ [] };

    ghost wanted = { λ q. Null ∷ Text q.name.now ∷ [] };

    fn show<S: Alter>(&self, conn: &mut Connection<S>) -> Result<Vec<Row>, Error> {
        conn.query_all(EVENTS_BY_NAME, params![self.name])
    }
}

/// A query for the game that was seated or imported under this key.
#[derive(Debug, Clone, Copy)]
pub struct GameKey<'a> {
    pub key: &'a str,
}

impl UniqueKey for GameKey<'_> {
    type Row = GameTableRow;

    ghost columns = { 1 ∷ [] };

    ghost wanted = { λ q. Null ∷ Text q.key.now ∷ [] };

    fn show<S: Alter>(&self, conn: &mut Connection<S>) -> Result<Vec<Row>, Error> {
        conn.query_all(GAMES_BY_KEY, params![self.key])
    }
}

/// A query for a member's challenge by the member's number for it.
#[derive(Debug, Clone, Copy)]
pub struct ChallengeNumber {
    pub member: i64,
    pub number: i64,
}

impl UniqueKey for ChallengeNumber {
    type Row = ChallengeRow;

    ghost columns = { 0 ∷ 1 ∷ [] };

    ghost wanted = { λ q. Int q.member ∷ Int q.number ∷ [] };

    fn show<S: Alter>(&self, conn: &mut Connection<S>) -> Result<Vec<Row>, Error> {
        conn.query_all(CHALLENGES_BY_NUMBER, params![self.member, self.number])
    }
}

/// A query for the move of a game at a ply (from 1).
#[derive(Debug, Clone, Copy)]
pub struct MovePly {
    pub game: i64,
    pub ply: i64,
}

impl UniqueKey for MovePly {
    type Row = MoveRow;

    ghost columns = { 0 ∷ 1 ∷ [] };

    ghost wanted = { λ q. Int q.game ∷ Int q.ply ∷ [] };

    fn show<S: Alter>(&self, conn: &mut Connection<S>) -> Result<Vec<Row>, Error> {
        conn.query_all(MOVES_BY_PLY, params![self.game, self.ply])
    }
}

/// A query for a position of a game.
#[derive(Debug, Clone, Copy)]
pub struct SeenPosition<'a> {
    pub game: i64,
    pub position: &'a str,
}

impl UniqueKey for SeenPosition<'_> {
    type Row = SeenRow;

    ghost columns = { 0 ∷ 1 ∷ [] };

    ghost wanted = { λ q. Int q.game ∷ Text q.position.now ∷ [] };

    fn show<S: Alter>(&self, conn: &mut Connection<S>) -> Result<Vec<Row>, Error> {
        conn.query_all(SEEN_BY_POSITION, params![self.game, self.position])
    }
}

/// A query for a member's score against an opponent in an event.
#[derive(Debug, Clone, Copy)]
pub struct ScoreKey {
    pub event: i64,
    pub member: i64,
    pub opponent: i64,
}

impl UniqueKey for ScoreKey {
    type Row = ScoreRow;

    ghost columns = { 0 ∷ 1 ∷ 2 ∷ [] };

    ghost wanted = { λ q. Int q.event ∷ Int q.member ∷ Int q.opponent ∷ [] };

    fn show<S: Alter>(&self, conn: &mut Connection<S>) -> Result<Vec<Row>, Error> {
        conn.query_all(
            SCORES_BY_PAIR,
            params![self.event, self.member, self.opponent],
        )
    }
}

/// A query for the later key of a member that is this secret key.
#[derive(Debug, Clone, Copy)]
pub struct LaterKey<'a> {
    pub key: &'a str,
}

impl UniqueKey for LaterKey<'_> {
    type Row = KeyRow;

    ghost columns = { 2 ∷ [] };

    ghost wanted = { λ q. Null ∷ Null ∷ Text q.key.now ∷ [] };

    fn show<S: Alter>(&self, conn: &mut Connection<S>) -> Result<Vec<Row>, Error> {
        conn.query_all(KEYS_BY_KEY, params![self.key])
    }
}

/// Returns the row with these values: one, or none.
///
/// # Errors
///
/// - `Store` if a call of the database fails, or a value has another type than its column.
/// - `Memory` if out of memory.
///
/// # Guarantees
///
/// `rows`: exactly the rows of the table with these values; `reads`: nothing is written.
pub fn find<Q: UniqueKey, S: Alter>(
    alloc: Global,
    conn: &mut Connection<S>,
    question: &Q,
) -> Result<Vec<Q::Row>, TableFault>
    ensures reads { Reads (is_ok result) (state S.Store conn.old) (state S.Store conn.new) }
    ensures rows { HasCleanDisk (state S.Store conn.new) → IfOk result (λ found. (content : _) →
        HasRowsIn Q.Row.since content (state S.Store conn.old) →
        AreThose Q.columns (Q.wanted question.now) (content Q.Row.table.tree) (map Q.Row.cells found.items)) }
{
    match question.show(conn) {
        Ok(shown) => parse_shown_rows(alloc, &shown),
        Err(_) => Err(TableFault::Store),
    }
}
