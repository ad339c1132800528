//! The migration of a club to schema 2, or to schema 3, which has an arbiter.

ghost use Rattle.std.specs.Prelude.{◌≡◌, ◌≢◌, ◌≤◌, ◌<◌, ◌⊎◌, ◌++◌, ◌∷◌, [], false, true, pos, IfOk, IfErr};
ghost use Rattle.sqlite.specs.State.{HasCleanDisk, IsLive, Opens};
ghost use Rattle.sqlite.specs.Held.{state};
ghost use Rattle.sqlite_trees.specs.View.{doubt};
ghost use Rattle.sqlite.specs.declared.types.Value.TheVariants.{Int};
ghost use Rattle.sqlite_catalog.specs.Change.{is_used};
ghost use Rattle.store_tables.specs.Names.{table_name};
ghost use Rattle.store_tables.specs.Placed.{HasTablesOf};
ghost use Rattle.store_tables.specs.internal.Cells.{meta_cells};
ghost use Rattle.store_tables.specs.Club.{IsExactly};
ghost use Rattle.store_tables.specs.Migrations.{HoldsInVersion, LeavesInVersion};
ghost use Rattle.store_tables.specs.Over.{HoldsClubAmong, LeavesBeside};
ghost use Rattle.store_tables.specs.Reading.{KeepsMay, OnlyReads};
ghost use Rattle.schema_match.specs.Shapes.{is_of_club};
ghost use Rattle.store_tables.specs.declared.names.Version.TheVariants.{V1, V2};
ghost use Rattle.store_tables.specs.Tables.{IsServed, schema_number};
ghost use Rattle.club_check.specs.ReasonIsRight.{IsRightFault};
ghost use Rattle.club_check.specs.RightTables.{NamesFirstDamaged};
ghost use Rattle.club_check.specs.Versions.{HasToldTables, HoldsRows, IsOpenedAt};
ghost use Rattle.club_rows.specs.Club.{ClubState, IsClub, tables};
ghost use Rattle.club_rows.specs.FirstSchema.{IsClubOf, tables_at, upgraded_to};
ghost use Rattle.store.specs.Histories.{IsHistory, IsReachable, IsReachableIn, upgraded};
ghost use Rattle.store.specs.Upgrades.{IsNameTaken, uses_names_of, version_found, version_left};

use crate::club::Unopened;
use crate::upgrade_result::Upgrade;
use club_check::{OpenFault, check_schemas};
use club_reads::LookupFault;
use schema_match::versions_of;
use sqlite::{Alter, Connection, Row};
use sqlite_catalog::layout::is_used;
use sqlite_schema::schema::Schema;
use std::alloc::Global;
use store_sql::{migrate, show_all};
use store_tables::{EventRuleRow, MetaRow, RowError, Table, TableRow, Version};

// The row of `meta` after a migration to this version.
fn meta_in(to: Version, meta: &MetaRow) -> MetaRow
    ensures { meta_cells result ≡ Int (pos 1) ∷ Int (pos (schema_number to)) ∷ Int meta.now.last ∷ [] }
{
    MetaRow {
        id: 1,
        schema: to.number(),
        last: meta.last,
    }
}

// The rows of `event_rules` to write: those of a club of schema 1, which has no such table.
fn rules_to_write(from: Version, rules: &[EventRuleRow]) -> &[EventRuleRow]
    ensures first { from ≡ V1 → result.now ≡ rules.now }
    ensures later { from ≢ V1 → result.now ≡ [] }
{
    match from {
        Version::V1 => rules,
        Version::V2 => &rules[..0],
        Version::V3 => &rules[..0],
    }
}

// Whether a club of the found version needs no migration to the requested one.
fn is_reached(found: Version, to: Version) -> bool
    ensures reached { result ≡ true → schema_number to ≤ schema_number found }
    ensures before { result ≡ false → schema_number found < schema_number to }
{
    found.number() >= to.number()
}

fn is_name_used(schema: &Schema, table: Table) -> bool
    ensures { result ≡ is_used schema.now (table_name table) }
{
    is_used(schema, table.name().as_bytes())
}

// Whether a table, an index or a view has the name of a table that the version has and schema 2 has not.
fn uses_names_of(to: Version, schema: &Schema) -> bool
    ensures { result ≡ uses_names_of to schema.now }
{
    match to {
        Version::V1 => false,
        Version::V2 => false,
        Version::V3 => {
            is_name_used(schema, Table::Keys)
                || (is_name_used(schema, Table::Rulings) || is_name_used(schema, Table::Closings))
        }
    }
}

// The schema number, if there is exactly one row, with id 1.
fn number_in(shown: &[Row]) -> Result<Option<i64>, LookupFault> {
    if shown.len() != 1 {
        return Ok(None);
    }
    match MetaRow::parse(&shown[0]) {
        Ok(meta) => {
            if meta.id == 1 {
                Ok(Some(meta.schema))
            } else {
                Ok(None)
            }
        }
        Err(RowError::WrongType) => Ok(None),
        Err(RowError::Memory) => Err(LookupFault::Memory),
    }
}

// Whether the rows are judged as those of schema 3: by the schema number, or, without one, by the tables.
fn is_third<S: Alter>(alloc: Global, conn: &mut Connection<S>) -> Result<bool, LookupFault>
    ensures { OnlyReads (state S.Store conn.old) (state S.Store conn.new) }
{
    let shapes = match versions_of(alloc, conn) {
        Ok(shapes) => shapes,
        Err(_) => return Err(LookupFault::Memory),
    };
    let shown = match show_all::<MetaRow, S>(conn) {
        Ok(shown) => shown,
        Err(_) => return Err(LookupFault::Store),
    };
    match number_in(&shown)? {
        Some(number) => Ok(number == Version::V3.number()),
        None => Ok(shapes.has(Version::V3)),
    }
}

// The reason of a refused upgrade: a name that is used comes before rows that are wrong.
fn reason_of<S: Alter>(
    alloc: Global,
    conn: &mut Connection<S>,
    is_used: bool,
    fault: OpenFault,
) -> OpenFault
    ensures reads { OnlyReads (state S.Store conn.old) (state S.Store conn.new) }
    ensures reason { (result ≡ fault) ⊎ ((((result ≡ OpenFault.Store) ⊎ (result ≡ OpenFault.Memory))
        ⊎ ((result ≡ OpenFault.Foreign) × (is_used ≡ true)))
        × ((t : _) × (fault ≡ OpenFault.Damaged t))) }
{
    match fault {
        OpenFault::Damaged(_) => {}
        OpenFault::Foreign | OpenFault::Schema(_) | OpenFault::Store | OpenFault::Memory => {
            return fault;
        }
    }
    if !is_used {
        return fault;
    }
    match is_third(alloc, conn) {
        Ok(true) => fault,
        Ok(false) => OpenFault::Foreign,
        Err(LookupFault::Store) => OpenFault::Store,
        Err(LookupFault::Memory) => OpenFault::Memory,
    }
}

/// Migrates a club to schema 2 or schema 3, with the same state, in one transaction with one commit; a club of the
/// requested schema or a later one stays as it is. Schema 3 gives the club an arbiter.
/// Every row is checked first, as by `adopt`. Events of schema 1 do not allow declarations.
///
/// # Errors
///
/// The errors of `check_schemas`, with the connection; `OpenFault::Store` also if the migration fails.
/// `OpenFault::Foreign` also if the upgrade to schema 3 finds an earlier schema beside a table, an index or a view with
/// the name of a table that only schema 3 has. It comes before `OpenFault::Damaged`.
///
/// # Guarantees
///
/// `done`, `already`: the connection holds the same state in the requested schema, or in the later one that was found.
/// `history`: the result names the schema that was found. `fault`, `after_crash`: after an error or a crash the file is
/// of the schema that was found or of the requested one, with the same state. `kept`: only `Store` may leave a changed
/// file. `shape`: a file that is no club's is rejected. `beside`: where such a name is used, nothing is migrated.
pub fn upgrade<S: Alter>(
    alloc: Global,
    conn: Connection<S>,
    to: Version,
) -> Result<(Connection<S>, Upgrade), Unopened<S>>
    requires idle { conn.in_transaction ≡ false }
    requires served { IsServed to }
    ensures idle { IfOk result (λ done. done.0.in_transaction ≡ false) }
    ensures given_back { IfErr result (λ u. u.conn.in_transaction ≡ false) }
    ensures clean { IfOk result (λ done. doubt (state S.Store conn).is_clean ≤ doubt (state S.Store done.0).is_clean) }
    ensures known { IfErr result (λ u. doubt (state S.Store conn).is_clean ≤ doubt (state S.Store u.conn).is_clean) }
    // Beside foreign tables, too, which keep their rows.
    ensures done { IfOk result (λ done. HasCleanDisk (state S.Store done.0) → (from : _) (them : _) (s : ClubState) →
        IsClubOf from s → schema_number from < schema_number to → them.version ≡ to →
        HoldsInVersion from them (tables_at from s) (state S.Store conn) →
        (done.1 ≡ Upgrade.Done from) × HoldsClubAmong them (tables (upgraded_to to s)) (state S.Store done.0)) }
    ensures already { IfOk result (λ done. HasCleanDisk (state S.Store done.0) → (version : _) (them : _)
        (s : ClubState) → IsClubOf version s → schema_number to ≤ schema_number version → them.version ≡ version →
        HoldsClubAmong them (tables s) (state S.Store conn) →
        (done.1 ≡ Upgrade.Already version) × HoldsClubAmong them (tables s) (state S.Store done.0)) }
    ensures unchanged { IfOk result (λ done. HasCleanDisk (state S.Store done.0) → (version : _) →
        done.1 ≡ Upgrade.Already version → KeepsMay (state S.Store conn) (state S.Store done.0)) }
    ensures beside { IfOk result (λ done. uses_names_of to (state S.Store conn).now.schema ≡ true →
        done.1 ≡ Upgrade.Already to) }
    // The schema was equivalent to that of a club of the version found, whatever `CREATE` statements made it.
    ensures shape { IfOk result (λ done. is_of_club (version_found done.1) (state S.Store conn).now.schema ≡ true) }
    ensures found { IfOk result (λ done. HasCleanDisk (state S.Store done.0) →
        IsOpenedAt (version_found done.1) (state S.Store conn) → (s : _) × IsClubOf (version_found done.1) s ×
        IsExactly (version_left to done.1) (tables (upgraded_to (version_left to done.1) s)) (state S.Store done.0)) }
    ensures fault { IfErr result (λ u. HasCleanDisk (state S.Store u.conn) → (from : _) (them : _) (s : ClubState) →
        IsClubOf from s → schema_number from < schema_number to → them.version ≡ to →
        HoldsInVersion from them (tables_at from s) (state S.Store conn) →
        (db : _) → (state S.Store u.conn).may_leave db →
        LeavesInVersion from them (tables_at from s) db ⊎ LeavesBeside them (tables (upgraded_to to s)) db) }
    ensures kept { IfErr result (λ u. u.fault ≢ OpenFault.Store →
        OnlyReads (state S.Store conn) (state S.Store u.conn)) }
    ensures untouched { IfErr result (λ u. uses_names_of to (state S.Store conn).now.schema ≡ true →
        OnlyReads (state S.Store conn) (state S.Store u.conn)) }
    ensures stays { IfErr result (λ u. HasCleanDisk (state S.Store u.conn) → to ≡ V2 →
        HasTablesOf V2 (state S.Store conn).now.schema →
        OnlyReads (state S.Store conn) (state S.Store u.conn)) }
    ensures accepts_sound { IfErr result (λ u. HasCleanDisk (state S.Store u.conn) → (version : _) (s : ClubState) →
        IsClubOf version s → HoldsRows version (tables_at version s) (state S.Store conn).now →
        is_of_club version (state S.Store conn).now.schema ≡ true →
        (u.fault ≡ OpenFault.Store) ⊎ ((u.fault ≡ OpenFault.Memory) ⊎ ((u.fault ≡ OpenFault.Foreign) ×
        (uses_names_of to (state S.Store conn).now.schema ≡ true) × (schema_number version < schema_number to)))) }
    ensures reason_is_right { IfErr result (λ u. HasCleanDisk (state S.Store u.conn) →
        HasToldTables (state S.Store conn).now → IsRightFault V1 (state S.Store conn).now u.fault ⊎
        IsNameTaken to (state S.Store conn).now u.fault) }
    ensures first_damaged { IfErr result (λ u. HasCleanDisk (state S.Store u.conn) →
        HasToldTables (state S.Store conn).now → NamesFirstDamaged (state S.Store conn).now u.fault) }
    ensures history { IfOk result (λ done. HasCleanDisk (state S.Store done.0) → Opens (state S.Store conn) →
        IsLive (state S.Store conn) → (from version : _) (them : _) (chapters : _) →
        them.version ≡ version_left to done.1 →
        IsReachable from version them chapters (state S.Store conn).committed.trees →
        (version ≡ version_found done.1) × IsHistory from (version_left to done.1) them
        (chapters ++ upgraded (version_left to done.1) true ∷ []) (state S.Store done.0)) }
    ensures after_crash { IfErr result (λ u. HasCleanDisk (state S.Store u.conn) → Opens (state S.Store conn) →
        IsLive (state S.Store conn) → (from version : _) (them : _) (chapters : _) →
        them.version ≡ to → schema_number version ≤ schema_number to →
        IsReachable from version them chapters (state S.Store conn).committed.trees →
        (db : _) → (state S.Store u.conn).may_leave db →
        IsReachableIn from (version ∷ to ∷ []) them (chapters ++ upgraded to false ∷ []) db) }
{
    let mut conn = conn;
    let is_used = uses_names_of(to, conn.schema());
    let found = match check_schemas(alloc, &mut conn) {
        Ok(found) => found,
        Err(fault) => {
            let fault = reason_of(alloc, &mut conn, is_used, fault);
            return Err(Unopened { fault, conn });
        }
    };
    if is_reached(found.version, to) {
        return Ok((conn, Upgrade::Already(found.version)));
    }
    if is_used {
        return Err(Unopened {
            fault: OpenFault::Foreign,
            conn,
        });
    }
    let meta = meta_in(to, &found.rows.meta);
    let rules = rules_to_write(found.version, &found.rows.event_rules);
    match migrate(&mut conn, found.version, to, rules, &meta) {
        Ok(()) => Ok((conn, Upgrade::Done(found.version))),
        Err(_) => Err(Unopened {
            fault: OpenFault::Store,
            conn,
        }),
    }
}
