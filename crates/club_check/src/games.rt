//! Checks the games of a club one at a time: the game's row with its rows of moves and of positions.
//! Only the moves and positions of one game are in memory at once.

ghost use Rattle.std.specs.Prelude.{◌≡◌, ◌≢◌, ◌⊎◌, ◌<◌, None, Some, IsTrue, IfOk, IfErr, IfSome, is_ok, map};
ghost use Rattle.std.specs.Prelude.{length, slice_get};
ghost use Rattle.sqlite.specs.State.{HasCleanDisk, IsUnchanged};
ghost use Rattle.sqlite.specs.Held.{state};
ghost use Rattle.store_tables.specs.Placed.{HasClubTables, HasTableAt, club_trees};
ghost use Rattle.store_tables.specs.Reading.{Reads};
ghost use Rattle.store_tables.specs.Cells.{IsRuling, seen_cells, ruling_cells};
ghost use Rattle.store_tables.specs.declared.names.Version.{Version};
ghost use Rattle.store_sql.specs.Read.{beginning_with};
ghost use Rattle.std.specs.List.{AllByRecursion};
ghost use Rattle.store_tables.specs.Content.{AreApart};
ghost use Rattle.store_tables.specs.Tables as tables;
ghost use Rattle.store_tables.specs.Tables.{standing};
ghost use Rattle.store_tables.specs.declared.names.Table.TheVariants.{Seen};
ghost use Rattle.store_sql.specs.internal.Read.{AreCounted, AreReadOf};
ghost use Rattle.club_check.specs.ReasonIsRight.{NamesTable};
ghost use Rattle.club_check.specs.internal.ReasonIsRight.{ReasonIsRight};
ghost use Rattle.club_audit.specs.FirstWrong.{order};
ghost use Rattle.club_audit.specs.internal.FirstWrong.{IsFirstWrong};
ghost use Rattle.club_audit.specs.internal.GameAudit.{IsRightAt};
ghost use Rattle.club_audit.specs.internal.Audit.{AreApartGames, HasPeople};
ghost use Rattle.club_check.specs.internal.Places.{IsMomentOf, IsNoRegister};
ghost use Rattle.club_check.specs.internal.RightTables.{IsLater, IsUntyped, NamesPlayed};
ghost use Rattle.club_rows.specs.Club.{ClubState};
ghost use Rattle.club_check.specs.internal.Examined.{AreGamesFound, IsAfter, IsGameFound, IsOneOf, NamesLeft};
ghost use Rattle.club_check.specs.internal.Examined.{NamesPlay};
ghost use Rattle.club_check.specs.internal.ReasonIsRight.{AreRulingsRead};
ghost use Rattle.club_check.specs.internal.RightMoves.{HasRulingCount, moves_in, rulings_at, seen_in};

use crate::fault::OpenFault;
use crate::read::fault_in;
use clocks::Moment;
use club_audit::{GameRows, wrong_game};
use sqlite::{Alter, Connection};
use std::alloc::Global;
use store_sql::{ReadFault, Select, check_rowids, read_by_first};
use store_tables::{GameTableRow, MoveRow, Rows, RulingRow, SeenRow, Table};

/// The numbers of rows of moves, of rulings and of positions.
#[derive(Clone, Copy, Drop)]
pub(crate) struct RowCounts {
    pub moves: usize,
    pub rulings: usize,
    pub seen: usize,
}

/// The result for one game: its numbers of rows, and the first wrong table, if any.
#[derive(Clone, Copy, Drop)]
struct Found {
    own: RowCounts,
    wrong: Option<Table>,
}

/// The rank of a table in the order in which wrong tables are reported.
fn order_of(table: Table) -> u8
    ensures { result ≡ order table }
{
    match table {
        Table::Members => 0,
        Table::Keys => 1,
        Table::Events => 2,
        Table::EventRules => 3,
        Table::Closings => 4,
        Table::Challenges => 5,
        Table::Moves => 6,
        Table::Rulings => 7,
        Table::Games => 8,
        Table::Seen => 9,
        Table::Scores => 10,
        Table::Meta => 11,
    }
}

/// The one of two wrong tables that is reported first.
fn first_of(one: Option<Table>, other: Option<Table>) -> Option<Table>
    ensures { IsOneOf one other result }
{
    let first = match one {
        Some(first) => first,
        None => return other,
    };
    let second = match other {
        Some(second) => second,
        None => return Some(first),
    };
    if order_of(second) < order_of(first) {
        Some(second)
    } else {
        Some(first)
    }
}

/// The table, as wrong, if `count` of its rows belong to no game.
fn left_over(count: usize, table: Table) -> Option<Table>
    ensures { NamesLeft table count result }
{
    if count > 0 { Some(table) } else { None }
}

/// Counts the rows of a table and checks its rowids. An error names `table`.
pub(crate) fn count_of<T: Select, S: Alter>(
    alloc: Global,
    conn: &mut Connection<S>,
    table: Table,
) -> Result<usize, OpenFault>
    ensures reads { Reads (is_ok result) (state S.Store conn.old) (state S.Store conn.new) }
    ensures counted { HasCleanDisk (state S.Store conn.new) → IfOk result (λ count.
        HasTableAt (state S.Store conn.old).now.schema T.which → AreCounted T.table.tree count
        (state S.Store conn.old) (state S.Store conn.new)) }
    ensures reason_is_right { HasCleanDisk (state S.Store conn.new) → IfErr result (λ e.
        HasTableAt (state S.Store conn.old).now.schema T.which → ReasonIsRight table T.table T.IsTyped
        (state S.Store conn.old) e) }
    ensures apart { HasCleanDisk (state S.Store conn.new) → IfErr result (λ e. (t : _) → e ≡ OpenFault.Damaged t →
        HasTableAt (state S.Store conn.old).now.schema T.which →
        ¬ AreApart (club_trees (state S.Store conn.old).now T.table.tree)) }
{
    match check_rowids::<T, S>(alloc, conn) {
        Ok(count) => Ok(count),
        Err(fault) => Err(fault_in(table, fault)),
    }
}

/// Reads the rows of a table whose first column is the id of the game. An error names `table`.
fn read_of<T: Select, S: Alter>(
    alloc: Global,
    conn: &mut Connection<S>,
    table: Table,
    game: &GameTableRow,
) -> Result<Vec<T>, OpenFault>
    ensures reads { Reads (is_ok result) (state S.Store conn.old) (state S.Store conn.new) }
    ensures rows { HasCleanDisk (state S.Store conn.new) → IfOk result (λ found.
        HasTableAt (state S.Store conn.old).now.schema T.which → AreReadOf T.table T.width game.now.id
        (map T.cells found.items) (state S.Store conn.old) (state S.Store conn.new)) }
    ensures reason_is_right { HasCleanDisk (state S.Store conn.new) → IfErr result (λ e.
        HasTableAt (state S.Store conn.old).now.schema T.which → ReasonIsRight table T.table T.IsTyped
        (state S.Store conn.old) e) }
{
    match read_by_first(alloc, conn, &game.id) {
        Ok(found) => Ok(found),
        Err(fault) => Err(fault_in(table, fault)),
    }
}

/// Reads the rows of positions of the game; `None` if a value has the wrong type for its column.
fn read_seen<S: Alter>(
    alloc: Global,
    conn: &mut Connection<S>,
    game: &GameTableRow,
) -> Result<Option<Vec<SeenRow>>, OpenFault>
    ensures reads { Reads (is_ok result) (state S.Store conn.old) (state S.Store conn.new) }
    ensures rows { HasCleanDisk (state S.Store conn.new) → IfOk result (λ o. IfSome o (λ found.
        HasClubTables (state S.Store conn.old).now.schema → AreReadOf (standing Seen) 2 game.now.id
        (map seen_cells found.items) (state S.Store conn.old) (state S.Store conn.new))) }
    ensures untyped { HasCleanDisk (state S.Store conn.new) → IfOk result (λ o. o ≡ None →
        HasClubTables (state S.Store conn.old).now.schema →
        IsUnchanged (state S.Store conn.old) (state S.Store conn.new) ×
        IsUntyped Table.Seen (state S.Store conn.old).now) }
    ensures reason_is_right { HasCleanDisk (state S.Store conn.new) → IfErr result (λ e.
        HasClubTables (state S.Store conn.old).now.schema → (e ≡ OpenFault.Store) ⊎ (e ≡ OpenFault.Memory)) }
{
    let fault = match read_by_first::<SeenRow, S>(alloc, conn, &game.id) {
        Ok(found) => return Ok(Some(found)),
        Err(fault) => fault,
    };
    match fault {
        ReadFault::WrongType => Ok(None),
        other => Err(fault_in(Table::Seen, other)),
    }
}

/// Reads the rows of rulings of the game; `None` if a value has the wrong type for its column. Nothing is read if the
/// club has none.
fn read_rulings<S: Alter>(
    alloc: Global,
    conn: &mut Connection<S>,
    game: &GameTableRow,
    all: usize,
) -> Result<Option<Vec<RulingRow>>, OpenFault>
    ensures reads { Reads (is_ok result) (state S.Store conn.old) (state S.Store conn.new) }
    ensures rows { HasCleanDisk (state S.Store conn.new) → IfOk result (λ o. IfSome o (λ found. (version : Version) →
        HasRulingCount version all (state S.Store conn.old).now → IsTrue (state S.Store conn.old).is_open →
        AreRulingsRead version game.now.id (map ruling_cells found.items) (state S.Store conn.old)
        (state S.Store conn.new))) }
    ensures untyped { HasCleanDisk (state S.Store conn.new) → IfOk result (λ o. o ≡ None → (version : Version) →
        HasRulingCount version all (state S.Store conn.old).now →
        IsUnchanged (state S.Store conn.old) (state S.Store conn.new) × (¬ AllByRecursion IsRuling
        (beginning_with game.now.id (rulings_at version (club_trees (state S.Store conn.old).now))))) }
    ensures reason_is_right { HasCleanDisk (state S.Store conn.new) → IfErr result (λ e. (version : Version) →
        HasRulingCount version all (state S.Store conn.old).now → (e ≡ OpenFault.Store) ⊎ (e ≡ OpenFault.Memory)) }
{
    if all == 0 {
        return Ok(Some(Vec::new(alloc)));
    }
    let fault = match read_by_first::<RulingRow, S>(alloc, conn, &game.id) {
        Ok(found) => return Ok(Some(found)),
        Err(fault) => fault,
    };
    match fault {
        ReadFault::WrongType => Ok(None),
        other => Err(fault_in(Table::Rulings, other)),
    }
}

fn given(last: &Option<Moment>) -> Option<Moment>
    ensures { result ≡ last.now }
{
    match last {
        Some(last) => Some(*last),
        None => None,
    }
}

/// Checks the rows of the game at index `place` (from 0), up to the last timestamp if there is one.
fn found_of(
    alloc: Global,
    rows: &Rows,
    place: usize,
    own: &GameRows<'_>,
    last: &Option<Moment>,
) -> Result<Found, OpenFault>
    ensures moves { IfOk result (λ found. found.own.moves ≡ length own.now.moves.now) }
    ensures rulings { IfOk result (λ found. found.own.rulings ≡ length own.now.rulings.now) }
    ensures seen { IfOk result (λ found. found.own.seen ≡ length own.now.seen.now) }
    ensures first { IfOk result (λ found. (s : ClubState) → HasPeople s rows.now →
        IsFirstWrong (IsRightAt s rows.now place own.now.game.now own.now.moves.now own.now.rulings.now
        own.now.seen.now last.now) found.wrong) }
    ensures memory { IfErr result (λ e. e ≡ OpenFault.Memory) }
{
    match wrong_game(alloc, rows, place, own, given(last)) {
        Ok(wrong) => Ok(Found {
            own: RowCounts {
                moves: own.moves.len(),
                rulings: own.rulings.len(),
                seen: own.seen.len(),
            },
            wrong,
        }),
        Err(_) => Err(OpenFault::Memory),
    }
}

/// The result for a game of which a ruling has a value of the wrong type: only its moves are counted.
fn untyped_rulings(moves: usize) -> Found
    ensures moves { result.own.moves ≡ moves }
    ensures rulings { result.own.rulings ≡ 0 }
    ensures seen { result.own.seen ≡ 0 }
    ensures wrong { result.wrong ≡ Some Table.Rulings }
{
    Found {
        own: RowCounts {
            moves,
            rulings: 0,
            seen: 0,
        },
        wrong: Some(Table::Rulings),
    }
}

/// Reads all rows of the game at index `place` (from 0) and checks that they are those of a legal game, up to the last
/// timestamp if there is one. `all` is the number of rulings on all games.
/// If a ruling has a value of the wrong type, the moves are not checked, since they cannot be without the rulings. If a
/// position has one, the moves, the rulings and the game are still checked, since they are reported before positions.
fn examine_game<S: Alter>(
    alloc: Global,
    conn: &mut Connection<S>,
    rows: &Rows,
    place: usize,
    game: &GameTableRow,
    last: &Option<Moment>,
    all: usize,
) -> Result<Found, OpenFault>
    requires last { IsMomentOf rows.now.meta.last last.now }
    requires at { slice_get rows.now.games.items place ≡ Some game.now }
    ensures reads { Reads (is_ok result) (state S.Store conn.old) (state S.Store conn.new) }
    ensures found { HasCleanDisk (state S.Store conn.new) → IfOk result (λ found. (version : Version) →
        HasRulingCount version all (state S.Store conn.old).now →
        IsUnchanged (state S.Store conn.old) (state S.Store conn.new) × IsGameFound rows.now last.now place game.now
        found.own.moves found.own.rulings found.own.seen found.wrong version (state S.Store conn.old).now) }
    ensures reason_is_right { HasCleanDisk (state S.Store conn.new) → IfErr result (λ e. (version : Version) →
        HasRulingCount version all (state S.Store conn.old).now →
        NamesTable (state S.Store conn.old).now e ⊎ NamesPlay rows.now version (state S.Store conn.old).now e) }
    ensures later { IfOk result (λ found. (s : ClubState) → HasPeople s rows.now → IsLater found.wrong) }
    ensures later_fault { HasCleanDisk (state S.Store conn.new) → IfErr result (λ e. (version : Version) →
        HasRulingCount version all (state S.Store conn.old).now →
        NamesPlayed rows.now version (state S.Store conn.old).now e) }
{
    let moves = match read_of::<MoveRow, S>(alloc, conn, Table::Moves, game) {
        Ok(moves) => moves,
        Err(fault) => return Err(fault),
    };
    let rulings = match read_rulings(alloc, conn, game, all) {
        Ok(Some(rulings)) => rulings,
        Ok(None) => return Ok(untyped_rulings(moves.len())),
        Err(fault) => return Err(fault),
    };
    match read_seen(alloc, conn, game) {
        Ok(Some(seen)) => {
            let own = GameRows {
                game,
                moves: &moves,
                rulings: &rulings,
                seen: &seen,
            };
            match found_of(alloc, rows, place, &own, last) {
                Ok(found) => Ok(found),
                Err(fault) => Err(fault),
            }
        }
        Ok(None) => {
            let none: Vec<SeenRow> = Vec::new(alloc);
            let own = GameRows {
                game,
                moves: &moves,
                rulings: &rulings,
                seen: &none,
            };
            match found_of(alloc, rows, place, &own, last) {
                Ok(found) => Ok(Found {
                    own: found.own,
                    wrong: first_of(found.wrong, Some(Table::Seen)),
                }),
                Err(fault) => Err(fault),
            }
        }
        Err(fault) => Err(fault),
    }
}

/// Checks the rows of all games, one game at a time, and that no row of moves, rulings or positions belongs to no game.
/// `all` are the numbers of rows in these tables. Returns the first wrong table: one found here, or `known`, whichever
/// is reported first.
pub(crate) fn examine_games<S: Alter>(
    alloc: Global,
    conn: &mut Connection<S>,
    rows: &Rows,
    last: Option<Moment>,
    all: RowCounts,
    known: Option<Table>,
) -> Result<Option<Table>, OpenFault>
    requires last { IsMomentOf rows.now.meta.last last }
    requires known { (t : _) → known ≡ Some t → IsNoRegister rows.now }
    requires known_moves { known ≢ Some Table.Moves }
    requires known_rulings { known ≢ Some Table.Rulings }
    requires known_games { known ≡ Some Table.Games → ¬ AreApartGames rows.now.games.items }
    requires known_seen { known ≢ Some Table.Seen }
    ensures reads { Reads (is_ok result) (state S.Store conn.old) (state S.Store conn.new) }
    ensures found { HasCleanDisk (state S.Store conn.new) → IfOk result (λ wrong. (version : Version) →
        HasRulingCount version all.rulings (state S.Store conn.old).now → IsTrue (state S.Store conn.old).is_open →
        all.moves ≡ length (moves_in (club_trees (state S.Store conn.old).now)) →
        all.seen ≡ length (seen_in (club_trees (state S.Store conn.old).now)) →
        IsUnchanged (state S.Store conn.old) (state S.Store conn.new) ×
        AreGamesFound rows.now last wrong version (state S.Store conn.old).now) }
    ensures known { IfOk result (λ wrong. wrong ≡ None → known ≡ None) }
    ensures known_after { IfOk result (λ wrong. (u : Table) → IsAfter u wrong → IsAfter u known) }
    ensures reason_is_right { HasCleanDisk (state S.Store conn.new) → IfErr result (λ e. (version : Version) →
        HasRulingCount version all.rulings (state S.Store conn.old).now → IsTrue (state S.Store conn.old).is_open →
        all.moves ≡ length (moves_in (club_trees (state S.Store conn.old).now)) →
        all.seen ≡ length (seen_in (club_trees (state S.Store conn.old).now)) →
        NamesTable (state S.Store conn.old).now e ⊎ NamesPlay rows.now version (state S.Store conn.old).now e) }
    ensures later { IfOk result (λ wrong. (s : ClubState) → HasPeople s rows.now → IsLater known → IsLater wrong) }
    ensures later_fault { HasCleanDisk (state S.Store conn.new) → IfErr result (λ e. (version : Version) →
        HasRulingCount version all.rulings (state S.Store conn.old).now → IsTrue (state S.Store conn.old).is_open →
        all.moves ≡ length (moves_in (club_trees (state S.Store conn.old).now)) →
        all.seen ≡ length (seen_in (club_trees (state S.Store conn.old).now)) →
        NamesPlayed rows.now version (state S.Store conn.old).now e) }
{
    let mut moves = all.moves;
    let mut rulings = all.rulings;
    let mut seen = all.seen;
    let mut wrong = known;
    for (place, game) in rows.games.iter().enumerate() {
        let found = match examine_game(alloc, conn, rows, place, game, &last, all.rulings) {
            Ok(found) => found,
            Err(fault) => return Err(fault),
        };
        moves = moves.saturating_sub(found.own.moves);
        rulings = rulings.saturating_sub(found.own.rulings);
        seen = seen.saturating_sub(found.own.seen);
        wrong = first_of(wrong, found.wrong);
    }
    let with_moves = first_of(wrong, left_over(moves, Table::Moves));
    let with_rulings = first_of(with_moves, left_over(rulings, Table::Rulings));
    Ok(first_of(with_rulings, left_over(seen, Table::Seen)))
}
