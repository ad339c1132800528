//! The check of a whole database: `check_database` and `check_schemas`.

ghost use Rattle.std.specs.Prelude.{◌≡◌, ◌≢◌, ◌≤◌, ◌⊎◌, true, false, None, Some, IfErr, IfOk, OnOk, is_ok};
ghost use Rattle.sqlite.specs.State.{HasCleanDisk, IsUnchanged};
ghost use Rattle.sqlite.specs.Effect.{IsDatabase};
ghost use Rattle.sqlite.specs.Held.{state};
ghost use Rattle.store_tables.specs.Placed.{HasClubTables, HasTablesOf};
ghost use Rattle.store_tables.specs.Reading.{Reads};
ghost use Rattle.store_tables.specs.internal.Rows.{HaveIds};
ghost use Rattle.store_tables.specs.Tables.{IsServed, schema_number};
ghost use Rattle.store_tables.specs.declared.names.Version.TheVariants.{V1, V2};
ghost use Rattle.schema_match.specs.Shapes.{is_of_club};
ghost use Rattle.club_check.specs.ReasonIsRight.{IsRightFault, NamesTable};
ghost use Rattle.club_check.specs.Versions.{HasClub, HasToldTables, HoldsRows};
ghost use Rattle.club_rows.specs.Tables.{version_of};
ghost use Rattle.club_check.specs.Versions.{IsOpenedAt};
ghost use Rattle.club_check.specs.internal.Versions.{IsExactlyClub};
ghost use Rattle.club_check.specs.internal.Examined.{AreExamined, AreScoresExamined, IsAfter, IsPlayExamined};
ghost use Rattle.club_check.specs.internal.Examined.{NamesPlay};
ghost use Rattle.club_rows.specs.FirstSchema.{IsClubOf, tables_at};
ghost use Rattle.club_rows.specs.Club.{ClubState, IsClub, tables};
ghost use Rattle.club_audit.specs.internal.Audit.{AreApartGames, HasPeople};
ghost use Rattle.club_check.specs.internal.Places.{IsMomentOf, IsNoRegister, IsRegisterOf};
ghost use Rattle.club_check.specs.internal.KnownGames.{NamesUntyped};
ghost use Rattle.club_check.specs.RightTables.{NamesFirstDamaged};
ghost use Rattle.club_check.specs.internal.RightMoves.{HasRulingCount};
ghost use Rattle.club_check.specs.internal.RightTables.{IsLater, NamesExamined, NamesPlayed, NamesScores};

use crate::audit::audit;
use crate::fault::OpenFault;
use crate::games::{RowCounts, count_of, examine_games};
use crate::read::{Register, RegisterRows, read, read_rows};
use clocks::Moment;
use club_audit::are_scores;
use club_rows::numbers::to_moment;
use sqlite::{Alter, Connection};
use std::alloc::Global;
use store_tables::{GameTableRow, MoveRow, Rows, ScoreRow, SeenRow, Table, Version};

/// Checks the moves, rulings and positions against the games, which were read. `rulings` is the number of rulings.
/// Returns the first wrong table: one found here, or `known`, whichever is reported first.
fn examine_play<S: Alter>(
    alloc: Global,
    conn: &mut Connection<S>,
    rows: &Rows,
    last: Option<Moment>,
    rulings: usize,
    known: Option<Table>,
) -> Result<Option<Table>, OpenFault>
    requires last { IsMomentOf rows.now.meta.last last }
    requires known { (t : _) → known ≡ Some t → IsNoRegister rows.now }
    requires known_moves { known ≢ Some Table.Moves }
    requires known_rulings { known ≢ Some Table.Rulings }
    requires known_games { known ≡ Some Table.Games → ¬ AreApartGames rows.now.games.items }
    requires known_seen { known ≢ Some Table.Seen }
    ensures reads { Reads (is_ok result) (state S.Store conn.old) (state S.Store conn.new) }
    ensures found { HasCleanDisk (state S.Store conn.new) → IfOk result (λ wrong. (version : Version) →
        HasRulingCount version rulings (state S.Store conn.old).now →
        IsPlayExamined rows.now last wrong version (state S.Store conn.old) (state S.Store conn.new)) }
    ensures known { IfOk result (λ wrong. wrong ≡ None → known ≡ None) }
    ensures known_after { IfOk result (λ wrong. (u : Table) → IsAfter u wrong → IsAfter u known) }
    ensures reason_is_right { HasCleanDisk (state S.Store conn.new) → IfErr result (λ e. (version : Version) →
        HasRulingCount version rulings (state S.Store conn.old).now →
        NamesTable (state S.Store conn.old).now e ⊎ NamesPlay rows.now version (state S.Store conn.old).now e) }
    ensures later { IfOk result (λ wrong. (s : ClubState) → HasPeople s rows.now → IsLater known → IsLater wrong) }
    ensures later_fault { HasCleanDisk (state S.Store conn.new) → IfErr result (λ e. (version : Version) →
        HasRulingCount version rulings (state S.Store conn.old).now →
        NamesPlayed rows.now version (state S.Store conn.old).now e) }
{
    let moves = match count_of::<MoveRow, S>(alloc, conn, Table::Moves) {
        Ok(count) => count,
        Err(fault) => return Err(fault),
    };
    let seen = match count_of::<SeenRow, S>(alloc, conn, Table::Seen) {
        Ok(count) => count,
        Err(fault) => return Err(fault),
    };
    let all = RowCounts {
        moves,
        rulings,
        seen,
    };
    match examine_games(alloc, conn, rows, last, all, known) {
        Ok(wrong) => Ok(wrong),
        Err(fault) => Err(fault),
    }
}

/// The error if a row of games has a value of the wrong type: wrong moves are reported first, then wrong rulings, then
/// the games.
fn named_by(wrong: Option<Table>) -> OpenFault
    ensures moves { wrong ≡ Some Table.Moves → result ≡ OpenFault.Damaged Table.Moves }
    ensures rulings { wrong ≡ Some Table.Rulings → result ≡ OpenFault.Damaged Table.Rulings }
    ensures games { wrong ≢ Some Table.Moves → wrong ≢ Some Table.Rulings → result ≡ OpenFault.Damaged Table.Games }
{
    match wrong {
        Some(Table::Moves) => OpenFault::Damaged(Table::Moves),
        Some(Table::Rulings) => OpenFault::Damaged(Table::Rulings),
        _ => OpenFault::Damaged(Table::Games),
    }
}

/// The error if a row of games has a value of the wrong type and reading the moves returned this error.
fn named_for(fault: OpenFault) -> OpenFault
    ensures moves { fault ≡ OpenFault.Damaged Table.Moves → result ≡ OpenFault.Damaged Table.Moves }
    ensures rulings { fault ≡ OpenFault.Damaged Table.Rulings → result ≡ OpenFault.Damaged Table.Rulings }
    ensures games { (t : Table) → fault ≡ OpenFault.Damaged t → t ≢ Table.Moves → t ≢ Table.Rulings →
        result ≡ OpenFault.Damaged Table.Games }
    ensures other { ((t : Table) → fault ≢ OpenFault.Damaged t) → result ≡ fault }
{
    match fault {
        OpenFault::Damaged(table) => named_by(Some(table)),
        OpenFault::Foreign | OpenFault::Schema(_) | OpenFault::Store | OpenFault::Memory => fault,
    }
}

fn with_games(rows: Rows, judged: Vec<GameTableRow>) -> Rows
    ensures { result ≡ record rows { games = judged } }
{
    let Rows {
        meta,
        members,
        keys,
        events,
        event_rules,
        closings,
        challenges,
        games: _known,
    } = rows;
    Rows {
        meta,
        members,
        keys,
        events,
        event_rules,
        closings,
        challenges,
        games: judged,
    }
}

/// The error if a row of games has a value of the wrong type: challenges that are wrong by the ids, events and players
/// that were read; else wrong moves; else wrong rulings; else the games. `rulings` is the number of rulings.
pub(crate) fn name_untyped<S: Alter>(
    alloc: Global,
    conn: &mut Connection<S>,
    rows: Rows,
    judged: Vec<GameTableRow>,
    rulings: usize,
) -> OpenFault
    ensures reads { Reads false (state S.Store conn.old) (state S.Store conn.new) }
    ensures first_damaged { HasCleanDisk (state S.Store conn.new) → (version : Version) →
        HasRulingCount version rulings (state S.Store conn.old).now →
        (s : ClubState) → HasPeople s rows → HaveIds (record rows { games = judged }) →
        NamesUntyped rows (record rows { games = judged }) version (state S.Store conn.old).now result }
    ensures faults { HasCleanDisk (state S.Store conn.new) → (version : Version) →
        HasRulingCount version rulings (state S.Store conn.old).now →
        (result ≡ OpenFault.Store) ⊎ ((result ≡ OpenFault.Memory) ⊎
        ((t : Table) × (result ≡ OpenFault.Damaged t))) }
{
    match audit(alloc, &rows) {
        Ok(_) => {}
        Err(fault) => return fault,
    }
    let rows = with_games(rows, judged);
    match examine_play(alloc, conn, &rows, to_moment(rows.meta.last), rulings, None) {
        Ok(wrong) => named_by(wrong),
        Err(fault) => named_for(fault),
    }
}

/// Checks the scores against the games, which were read.
fn examine_scores<S: Alter>(
    alloc: Global,
    conn: &mut Connection<S>,
    rows: &Rows,
) -> Result<(), OpenFault>
    ensures reads { Reads (is_ok result) (state S.Store conn.old) (state S.Store conn.new) }
    ensures found { HasCleanDisk (state S.Store conn.new) → OnOk result (
        HasClubTables (state S.Store conn.old).now.schema →
        AreScoresExamined rows.now (state S.Store conn.old) (state S.Store conn.new)) }
    ensures reason_is_right { HasCleanDisk (state S.Store conn.new) → IfErr result (λ e. (version : Version) →
        HasClubTables (state S.Store conn.old).now.schema →
        NamesTable (state S.Store conn.old).now e ⊎ NamesPlay rows.now version (state S.Store conn.old).now e) }
    ensures scores { HasCleanDisk (state S.Store conn.new) → IfErr result (λ e.
        HasClubTables (state S.Store conn.old).now.schema →
        NamesScores rows.now (state S.Store conn.old).now e) }
{
    let scores = match read::<ScoreRow, S>(alloc, conn, Table::Scores) {
        Ok(scores) => scores,
        Err(fault) => return Err(fault),
    };
    match are_scores(alloc, &rows.games, &scores) {
        Ok(true) => Ok(()),
        Ok(false) => Err(OpenFault::Damaged(Table::Scores)),
        Err(_) => Err(OpenFault::Memory),
    }
}

/// The wrong table, if it is reported before the scores.
fn before_scores(wrong: Option<Table>) -> Option<Table>
    ensures some { (t : _) → result ≡ Some t → wrong ≡ Some t }
    ensures none { result ≡ None → (wrong ≡ None) ⊎ (wrong ≡ Some Table.Meta) }
    ensures meta { wrong ≡ Some Table.Meta → result ≡ None }
{
    match wrong {
        Some(Table::Meta) => None,
        Some(table) => Some(table),
        None => None,
    }
}

/// Checks that the database holds a legal club of schema 2 or 3, and returns the version. Changes nothing.
/// Wrong tables are reported in the order members, keys, events, event rules, closings, challenges, moves, rulings,
/// games, positions, scores, `meta`.
///
/// # Errors
///
/// - `OpenFault::Foreign`: a table or column is missing, the schema number does not fit the tables, or they answer
///   queries differently from a club's.
/// - `OpenFault::Schema`: `meta` has another schema number, for example 1; or number 3, and tables of schema 3 are
///   missing.
/// - `OpenFault::Damaged`: the first table with wrong rows.
/// - `OpenFault::Store`: a call of the database failed.
/// - `OpenFault::Memory`: out of memory.
///
/// # Guarantees
///
/// `held`: a database that passes holds a legal club of the version. `accepts_sound`, `standing`: a legal club passes
/// with its version, unless a call fails or memory runs out. `reason_is_right`, `first`: the error is true of the rows,
/// and a damaged table is the first wrong one.
pub fn check_database<S: Alter>(
    alloc: Global,
    conn: &mut Connection<S>,
) -> Result<Version, OpenFault>
    ensures reads { Reads (is_ok result) (state S.Store conn.old) (state S.Store conn.new) }
    ensures served { IfOk result (λ version. IsServed version) }
    // A connection that was just opened over only the tables of this version has exactly those of a legal club.
    ensures found { HasCleanDisk (state S.Store conn.new) → IfOk result (λ version.
        IsOpenedAt version (state S.Store conn.old) →
        (s : _) × IsClubOf version s × IsExactlyClub version s (state S.Store conn.new)) }
    // The schema is equivalent to a club's, whatever `CREATE` statements made it.
    ensures shape { IfOk result (λ version. is_of_club version (state S.Store conn.old).now.schema ≡ true) }
    // If the tables of the version exist, alone or beside foreign tables, nothing was changed and their rows are those
    // of a legal club.
    ensures stays { HasCleanDisk (state S.Store conn.new) → IfOk result (λ version.
        HasToldTables (state S.Store conn.old).now → HasTablesOf version (state S.Store conn.old).now.schema ×
        IsUnchanged (state S.Store conn.old) (state S.Store conn.new)) }
    ensures held { HasCleanDisk (state S.Store conn.new) → IfOk result (λ version.
        HasToldTables (state S.Store conn.old).now → IsDatabase (state S.Store conn.old).now →
        (s : _) × IsClubOf version s × HasClub version (state S.Store conn.new).now s) }
    ensures reason_is_right { HasCleanDisk (state S.Store conn.new) → IfErr result (λ e.
        HasToldTables (state S.Store conn.old).now → IsRightFault V2 (state S.Store conn.old).now e) }
    ensures first { HasCleanDisk (state S.Store conn.new) → IfErr result (λ e.
        HasToldTables (state S.Store conn.old).now → NamesFirstDamaged (state S.Store conn.old).now e) }
    // A legal club, alone or beside foreign tables, is accepted.
    ensures accepts_sound { HasCleanDisk (state S.Store conn.new) → IfErr result (λ e. (s : ClubState) → IsClub s →
        HoldsRows (version_of s) (tables s) (state S.Store conn.old).now →
        is_of_club (version_of s) (state S.Store conn.old).now.schema ≡ true →
        (e ≡ OpenFault.Store) ⊎ (e ≡ OpenFault.Memory)) }
    ensures standing { HasCleanDisk (state S.Store conn.new) → IfOk result (λ version. (s : ClubState) → IsClub s →
        HoldsRows (version_of s) (tables s) (state S.Store conn.old).now → version ≡ version_of s) }
{
    match check_since(alloc, conn, Version::V2) {
        Ok(register) => Ok(register.version),
        Err(fault) => Err(fault),
    }
}

/// Checks that the database holds a legal club of schema 1, 2 or 3, and returns the version and the rows that are read
/// whole. Changes nothing. Wrong tables are reported in the order of `check_database`.
///
/// # Errors
///
/// As `check_database`, but schema 1 is accepted.
///
/// # Guarantees
///
/// `held`: the rows returned are those of the legal club in the database. `accepts_sound`: a legal club of any version
/// passes, unless a call fails or memory runs out.
pub fn check_schemas<S: Alter>(
    alloc: Global,
    conn: &mut Connection<S>,
) -> Result<Register, OpenFault>
    ensures reads { Reads (is_ok result) (state S.Store conn.old) (state S.Store conn.new) }
    ensures shape { IfOk result (λ found. is_of_club found.version (state S.Store conn.old).now.schema ≡ true) }
    ensures found { HasCleanDisk (state S.Store conn.new) → IfOk result (λ found.
        IsOpenedAt found.version (state S.Store conn.old) → (s : _) × IsClubOf found.version s ×
        IsRegisterOf s found.rows × IsExactlyClub found.version s (state S.Store conn.new)) }
    ensures rows { HasCleanDisk (state S.Store conn.new) → IfOk result (λ found. (version : _) (s : ClubState) →
        IsClubOf version s → HoldsRows version (tables_at version s) (state S.Store conn.old).now →
        IsRegisterOf s found.rows) }
    // If the tables of the version exist, alone or beside foreign tables, nothing was changed, and the rows returned
    // are those of the legal club in them.
    ensures stays { HasCleanDisk (state S.Store conn.new) → IfOk result (λ found.
        HasToldTables (state S.Store conn.old).now →
        HasTablesOf found.version (state S.Store conn.old).now.schema ×
        IsUnchanged (state S.Store conn.old) (state S.Store conn.new)) }
    ensures held { HasCleanDisk (state S.Store conn.new) → IfOk result (λ found.
        HasToldTables (state S.Store conn.old).now → IsDatabase (state S.Store conn.old).now →
        (s : _) × IsClubOf found.version s × IsRegisterOf s found.rows ×
        HasClub found.version (state S.Store conn.new).now s) }
    ensures reason_is_right { HasCleanDisk (state S.Store conn.new) → IfErr result (λ e.
        HasToldTables (state S.Store conn.old).now → IsRightFault V1 (state S.Store conn.old).now e) }
    ensures first { HasCleanDisk (state S.Store conn.new) → IfErr result (λ e.
        HasToldTables (state S.Store conn.old).now → NamesFirstDamaged (state S.Store conn.old).now e) }
    // A legal club of any version, alone or beside foreign tables, is accepted.
    ensures accepts_sound { HasCleanDisk (state S.Store conn.new) → IfErr result (λ e. (version : _) (s : ClubState) →
        IsClubOf version s → HoldsRows version (tables_at version s) (state S.Store conn.old).now →
        is_of_club version (state S.Store conn.old).now.schema ≡ true →
        (e ≡ OpenFault.Store) ⊎ (e ≡ OpenFault.Memory)) }
    ensures newer { HasCleanDisk (state S.Store conn.new) → IfOk result (λ found.
        HasTablesOf V2 (state S.Store conn.old).now.schema → IsServed found.version) }
    ensures standing { HasCleanDisk (state S.Store conn.new) → IfOk result (λ found. (version : _) (s : ClubState) →
        IsClubOf version s → HoldsRows version (tables_at version s) (state S.Store conn.old).now →
        found.version ≡ version) }
{
    match check_since(alloc, conn, Version::V1) {
        Ok(found) => Ok(found),
        Err(fault) => Err(fault),
    }
}

/// As `check_schemas`, for the versions from `oldest` on, which is schema 1 or 2.
fn check_since<S: Alter>(
    alloc: Global,
    conn: &mut Connection<S>,
    oldest: Version,
) -> Result<Register, OpenFault>
    requires { schema_number oldest ≤ schema_number V2 }
    ensures reads { Reads (is_ok result) (state S.Store conn.old) (state S.Store conn.new) }
    ensures taken { IfOk result (λ found. schema_number oldest ≤ schema_number found.version) }
    ensures shape { IfOk result (λ found. is_of_club found.version (state S.Store conn.old).now.schema ≡ true) }
    ensures found { HasCleanDisk (state S.Store conn.new) → IfOk result (λ found.
        IsOpenedAt found.version (state S.Store conn.old) → (s : _) × IsClubOf found.version s ×
        IsRegisterOf s found.rows × IsExactlyClub found.version s (state S.Store conn.new)) }
    ensures rows { HasCleanDisk (state S.Store conn.new) → IfOk result (λ found. (version : _) (s : ClubState) →
        IsClubOf version s → HoldsRows version (tables_at version s) (state S.Store conn.old).now →
        IsRegisterOf s found.rows) }
    // If the tables of the version exist, alone or beside foreign tables, nothing was changed, and the rows returned
    // are those of the legal club in them.
    ensures stays { HasCleanDisk (state S.Store conn.new) → IfOk result (λ found.
        HasToldTables (state S.Store conn.old).now →
        HasTablesOf found.version (state S.Store conn.old).now.schema ×
        IsUnchanged (state S.Store conn.old) (state S.Store conn.new)) }
    ensures held { HasCleanDisk (state S.Store conn.new) → IfOk result (λ found.
        HasToldTables (state S.Store conn.old).now → IsDatabase (state S.Store conn.old).now →
        (s : _) × IsClubOf found.version s × IsRegisterOf s found.rows ×
        HasClub found.version (state S.Store conn.new).now s) }
    ensures reason_is_right { HasCleanDisk (state S.Store conn.new) → IfErr result (λ e.
        HasToldTables (state S.Store conn.old).now → IsRightFault oldest (state S.Store conn.old).now e) }
    ensures first { HasCleanDisk (state S.Store conn.new) → IfErr result (λ e.
        HasToldTables (state S.Store conn.old).now → NamesFirstDamaged (state S.Store conn.old).now e) }
    // A legal club of an accepted version, alone or beside foreign tables, is accepted.
    ensures accepts_sound { HasCleanDisk (state S.Store conn.new) → IfErr result (λ e. (version : _) (s : ClubState) →
        IsClubOf version s → HoldsRows version (tables_at version s) (state S.Store conn.old).now →
        is_of_club version (state S.Store conn.old).now.schema ≡ true →
        schema_number oldest ≤ schema_number version → (e ≡ OpenFault.Store) ⊎ (e ≡ OpenFault.Memory)) }
    ensures newer { HasCleanDisk (state S.Store conn.new) → IfOk result (λ found.
        HasTablesOf V2 (state S.Store conn.old).now.schema → IsServed found.version) }
    ensures standing { HasCleanDisk (state S.Store conn.new) → IfOk result (λ found. (version : _) (s : ClubState) →
        IsClubOf version s → HoldsRows version (tables_at version s) (state S.Store conn.old).now →
        found.version ≡ version) }
{
    let RegisterRows { register, rulings } = match read_rows(alloc, conn, oldest) {
        Ok(found) => found,
        Err(fault) => return Err(fault),
    };
    match examine_rows(alloc, conn, &register.rows, rulings) {
        Ok(()) => Ok(register),
        Err(fault) => Err(fault),
    }
}

/// Checks these rows, which were read, with the moves, rulings, positions and scores, which are read here. `rulings` is
/// the number of rulings.
fn examine_rows<S: Alter>(
    alloc: Global,
    conn: &mut Connection<S>,
    rows: &Rows,
    rulings: usize,
) -> Result<(), OpenFault>
    ensures reads { Reads (is_ok result) (state S.Store conn.old) (state S.Store conn.new) }
    ensures found { HasCleanDisk (state S.Store conn.new) → OnOk result ((version : Version) →
        HasRulingCount version rulings (state S.Store conn.old).now →
        AreExamined rows.now version (state S.Store conn.old) (state S.Store conn.new)) }
    ensures reason_is_right { HasCleanDisk (state S.Store conn.new) → IfErr result (λ e. (version : Version) →
        HasRulingCount version rulings (state S.Store conn.old).now →
        NamesTable (state S.Store conn.old).now e ⊎ NamesPlay rows.now version (state S.Store conn.old).now e) }
    ensures examined { HasCleanDisk (state S.Store conn.new) → IfErr result (λ e. (version : Version) →
        HasRulingCount version rulings (state S.Store conn.old).now → (s : ClubState) → HasPeople s rows.now →
        HaveIds rows.now → NamesExamined rows.now version (state S.Store conn.old).now e) }
{
    let known = match audit(alloc, rows) {
        Ok(known) => known,
        Err(fault) => return Err(fault),
    };
    let last = to_moment(rows.meta.last);
    let wrong = match examine_play(alloc, conn, rows, last, rulings, known) {
        Ok(wrong) => wrong,
        Err(fault) => return Err(fault),
    };
    match before_scores(wrong) {
        Some(table) => return Err(OpenFault::Damaged(table)),
        None => {}
    }
    match examine_scores(alloc, conn, rows) {
        Ok(()) => {}
        Err(fault) => return Err(fault),
    }
    match wrong {
        Some(table) => Err(OpenFault::Damaged(table)),
        None => Ok(()),
    }
}
