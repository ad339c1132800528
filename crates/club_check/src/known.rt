//! Rows of games in which a value has the wrong type for its column.
//! Challenges and moves are reported before games, so they are checked by the values that can be read.

ghost use Rattle.std.specs.Prelude.{◌≡◌, negsuc, true, false, IfOk, IfErr, All, is_ok, map};
ghost use Rattle.sqlite.specs.Held.{state};
ghost use Rattle.sqlite.specs.Order.{column};
ghost use Rattle.sqlite.specs.State.{HasCleanDisk};
ghost use Rattle.sqlite_value.specs.Value.{owned};
ghost use Rattle.store_sql.specs.internal.Read.{IsReadAs};
ghost use Rattle.store_tables.specs.Placed.{HasClubTables};
ghost use Rattle.store_tables.specs.Cells.{IsGame, game_cells};
ghost use Rattle.store_tables.specs.Reading.{Reads};
ghost use Rattle.store_tables.specs.Tables.{games};
ghost use Rattle.store_tables.specs.Tables.{standing};
ghost use Rattle.store_tables.specs.declared.names.Table.TheVariants.{Games};
ghost use Rattle.club_check.specs.ReasonIsRight.{NamesTable};
ghost use Rattle.club_check.specs.internal.KnownGames.{AreGamesKnown, AreJudged, IsJudged, game_seat, known, row_seat};
ghost use Rattle.club_check.specs.internal.RightTables.{IsUnheld};

use crate::fault::OpenFault;
use crate::games::count_of;
use crate::read::fault_of;
use sqlite::types::ValueRef;
use sqlite::{Alter, Connection, Row};
use std::alloc::Global;
use store_sql::show_all;
use store_tables::{GameTableRow, RowError, Table, TableRow, parse_all};

/// The integer value, or -1, which is no id, if the value is not an integer.
fn whole(value: ValueRef<'_>) -> i64
    ensures { result ≡ known (owned value.entry) }
{
    match value {
        ValueRef::Int(number) => number,
        ValueRef::Null | ValueRef::Real(_) | ValueRef::Text(_) | ValueRef::Blob(_) => -1,
    }
}

/// The integer in a column, or -1.
fn whole_at(row: &Row, at: usize) -> i64
    ensures { result ≡ known (column row.now at) }
{
    match row.get_ref(at) {
        Ok(value) => whole(value),
        Err(_) => -1,
    }
}

/// The id, event and players of a game whose row may have values of wrong types; the other columns are placeholders.
fn known_game(alloc: Global, row: &Row) -> GameTableRow
    ensures { game_seat result ≡ row_seat row.now }
{
    GameTableRow {
        id: whole_at(row, 0),
        key: None,
        event: whole_at(row, 2),
        first: whole_at(row, 3),
        second: whole_at(row, 4),
        start: 0,
        since: 0,
        plies: 0,
        left1: 0,
        left2: 0,
        offer_side: None,
        offer_ply: None,
        end: None,
        result: None,
        position: String::new(alloc),
        track_a: 0,
        track_b: 0,
    }
}

fn known_games(alloc: Global, shown: &[Row]) -> Result<Vec<GameTableRow>, OpenFault>
    ensures known { IfOk result (λ games. map game_seat games.items ≡ map row_seat shown.now) }
    ensures memory { IfErr result (λ e. e ≡ OpenFault.Memory) }
{
    let mut games = Vec::new(alloc);
    'rows: for row in shown {
        if games.push(known_game(alloc, row)).is_err() {
            return Err(OpenFault::Memory);
        }
    }
    Ok(games)
}

/// A game with the id of this row and no valid event.
fn nameless(alloc: Global, row: &Row) -> GameTableRow
    ensures id { result.id ≡ known (column row.now 0) }
    ensures event { result.event ≡ negsuc 0 }
{
    GameTableRow {
        id: whole_at(row, 0),
        key: None,
        event: -1,
        first: 0,
        second: 0,
        start: 0,
        since: 0,
        plies: 0,
        left1: 0,
        left2: 0,
        offer_side: None,
        offer_ply: None,
        end: None,
        result: None,
        position: String::new(alloc),
        track_a: 0,
        track_b: 0,
    }
}

/// The game of a row; if a value has the wrong type, one with the row's id and no valid event.
fn judged_game(alloc: Global, row: &Row) -> Result<GameTableRow, OpenFault>
    ensures judged { IfOk result (IsJudged row.now) }
    ensures memory { IfErr result (λ e. e ≡ OpenFault.Memory) }
{
    let why = match GameTableRow::parse(row) {
        Ok(game) => return Ok(game),
        Err(why) => why,
    };
    match why {
        RowError::WrongType => Ok(nameless(alloc, row)),
        RowError::Memory => Err(OpenFault::Memory),
    }
}

/// The games of all rows, by `judged_game`.
fn judged_games(alloc: Global, shown: &[Row]) -> Result<Vec<GameTableRow>, OpenFault>
    ensures judged { IfOk result (λ games. AreJudged shown.now games.items) }
    ensures memory { IfErr result (λ e. e ≡ OpenFault.Memory) }
{
    let mut games = Vec::new(alloc);
    'rows: for row in shown {
        let game = match judged_game(alloc, row) {
            Ok(game) => game,
            Err(fault) => return Err(fault),
        };
        if games.push(game).is_err() {
            return Err(OpenFault::Memory);
        }
    }
    Ok(games)
}

/// The games that were read, and whether each value has the type of its column.
/// If not, `games` has ids, events and players only, and `judged` has the games by which the moves are checked.
#[derive(Drop)]
pub(crate) struct GameRows {
    pub games: Vec<GameTableRow>,
    pub judged: Vec<GameTableRow>,
    pub are_typed: bool,
}

/// The games of rows of which some value has the wrong type.
fn untyped_games(alloc: Global, shown: &[Row]) -> Result<GameRows, OpenFault>
    ensures known { IfOk result (λ found. (map game_seat found.games.items ≡ map row_seat shown.now) ×
        AreJudged shown.now found.judged.items) }
    ensures untyped { IfOk result (λ found. found.are_typed ≡ false) }
    ensures memory { IfErr result (λ e. e ≡ OpenFault.Memory) }
{
    let games = match known_games(alloc, shown) {
        Ok(games) => games,
        Err(fault) => return Err(fault),
    };
    match judged_games(alloc, shown) {
        Ok(judged) => Ok(GameRows {
            games,
            judged,
            are_typed: false,
        }),
        Err(fault) => Err(fault),
    }
}

/// The games of these rows.
fn games_of(alloc: Global, shown: &[Row]) -> Result<GameRows, OpenFault>
    ensures typed { IfOk result (λ found. found.are_typed ≡ true → shown.now ≡ map game_cells found.games.items) }
    ensures known { IfOk result (λ found. found.are_typed ≡ false → (¬ All IsGame shown.now) ×
        ((map game_seat found.games.items ≡ map row_seat shown.now) × AreJudged shown.now found.judged.items)) }
    ensures memory { IfErr result (λ e. e ≡ OpenFault.Memory) }
{
    let why = match parse_all::<GameTableRow>(alloc, shown) {
        Ok(games) => {
            return Ok(GameRows {
                games,
                judged: Vec::new(alloc),
                are_typed: true,
            });
        }
        Err(why) => why,
    };
    match why {
        RowError::WrongType => match untyped_games(alloc, shown) {
            Ok(found) => Ok(found),
            Err(fault) => Err(fault),
        },
        RowError::Memory => Err(OpenFault::Memory),
    }
}

/// Reads all rows of games, also if a value has the wrong type for its column.
pub(crate) fn read_games<S: Alter>(
    alloc: Global,
    conn: &mut Connection<S>,
) -> Result<GameRows, OpenFault>
    ensures reads { Reads (is_ok result) (state S.Store conn.old) (state S.Store conn.new) }
    ensures rows { HasCleanDisk (state S.Store conn.new) → IfOk result (λ found. found.are_typed ≡ true →
        HasClubTables (state S.Store conn.old).now.schema → IsReadAs (standing Games) 1
        (map game_cells found.games.items) (state S.Store conn.old) (state S.Store conn.new)) }
    ensures known { HasCleanDisk (state S.Store conn.new) → IfOk result (λ found. found.are_typed ≡ false →
        HasClubTables (state S.Store conn.old).now.schema → AreGamesKnown found.games.items
        found.judged.items (state S.Store conn.old) (state S.Store conn.new)) }
    ensures reason_is_right { HasCleanDisk (state S.Store conn.new) → IfErr result (λ e.
        HasClubTables (state S.Store conn.old).now.schema → NamesTable (state S.Store conn.old).now e) }
    ensures torn { HasCleanDisk (state S.Store conn.new) → IfErr result (λ e. (t : Table) → e ≡ OpenFault.Damaged t →
        HasClubTables (state S.Store conn.old).now.schema → IsUnheld (state S.Store conn.old).now) }
{
    match count_of::<GameTableRow, S>(alloc, conn, Table::Games) {
        Ok(_) => {}
        Err(fault) => return Err(fault),
    }
    let shown = match show_all::<GameTableRow, S>(conn) {
        Ok(shown) => shown,
        Err(error) => return Err(fault_of(error)),
    };
    match games_of(alloc, &shown) {
        Ok(found) => Ok(found),
        Err(fault) => Err(fault),
    }
}
