//! Checks which tables of a club are in a schema, exactly or in an equivalent form.

ghost use Rattle.std.specs.Prelude.{◌≡◌, ◌==◌, ◌≤◌, ℕ, nat_le, Ok, IfOk, length, take};
ghost use Rattle.sqlite.specs.Held.{state};
ghost use Rattle.sqlite.specs.Compile.{table_defined_by};
ghost use Rattle.sqlite_schema.specs.declared.schema.Table as made;
ghost use Rattle.store_tables.specs.Tables.{made_as};
ghost use Rattle.store_tables.specs.declared.names.Version.{Version};
ghost use Rattle.schema_match.specs.Shapes as spec;
ghost use Rattle.schema_match.specs.internal.TableVersions.{has_version};

use crate::columns::{has_columns_as, key_name};
use crate::keys::has_keys_as;
use sqlite::{Alter, Connection};
use sqlite_resolve::define_table;
use sqlite_schema::code::Terms;
use sqlite_schema::names::same_name;
use sqlite_schema::schema::{Schema, Table};
use std::alloc::{AllocError, Global};
use store_tables::Version;

/// Whether the list of terms (the CHECK constraints) is empty.
fn are_none(alloc: Global, terms: &Terms) -> Result<bool, AllocError>
    ensures { IfOk result (λ none. none ≡ (length terms.now == 0)) }
{
    let lent = terms.lend(alloc)?;
    Ok(lent.roots.len() == 0)
}

/// Whether the table has no CHECK constraint and no foreign key, and its rowid column has the same name as ours.
fn is_plain_as(alloc: Global, ours: &Table, theirs: &Table) -> Result<bool, AllocError>
    ensures { IfOk result (λ plain. plain ≡ spec.is_plain_as ours.now theirs.now) }
{
    let free = are_none(alloc, &theirs.checks)?;
    Ok(free && theirs.references.len() == 0 && same_name(key_name(ours), key_name(theirs)))
}

/// Whether `theirs` can be used in place of `ours`.
fn answers_as(
    alloc: Global,
    schema: &Schema,
    ours: &Table,
    theirs: &Table,
) -> Result<bool, AllocError>
    ensures { IfOk result (λ answers. answers ≡ spec.answers_as schema.now ours.now theirs.now) }
{
    let plain = is_plain_as(alloc, ours, theirs)?;
    Ok(
        same_name(ours.name.as_slice(), theirs.name.as_slice())
            && plain
            && has_columns_as(ours, theirs)
            && has_keys_as(schema, ours, theirs),
    )
}

/// Whether some table of the schema can be used in place of `ours`.
fn has_table(alloc: Global, schema: &Schema, ours: &Table) -> Result<bool, AllocError>
    ensures { IfOk result (λ has. has ≡ spec.has_table schema.now ours.now) }
{
    for theirs in schema.tables.as_slice() {
        if answers_as(alloc, schema, ours, theirs)? {
            return Ok(true);
        }
    }
    Ok(false)
}

/// Whether the schema has the table that this CREATE TABLE statement creates, or an equivalent one.
fn has_table_made_by(alloc: Global, schema: &Schema, sql: &str) -> Result<bool, AllocError>
    ensures { IfOk result (λ has_club_table. (ours : made.Table) → table_defined_by sql.now ≡ Ok ours →
        has_club_table ≡ spec.has_table schema.now ours) }
{
    let ours = match define_table(alloc, sql.as_bytes()) {
        Ok(ours) => ours,
        Err(_) => return Err(AllocError),
    };
    has_table(alloc, schema, &ours)
}

/// Whether the schema has this table of a club, or an equivalent one.
fn has_club_table(
    alloc: Global,
    schema: &Schema,
    table: store_tables::Table,
) -> Result<bool, AllocError>
    ensures { IfOk result (λ has_club_table. has_club_table ≡ spec.has_table schema.now (made_as table 0)) }
{
    has_table_made_by(alloc, schema, table.create())
}

/// How many of these tables the schema has, or equivalent ones, up to the first that it does not have.
fn count_tables(
    alloc: Global,
    schema: &Schema,
    tables: &[store_tables::Table],
) -> Result<usize, AllocError>
    ensures { IfOk result (λ count. (n : ℕ) → n ≤ length tables.now →
        nat_le n count ≡ spec.have_tables schema.now (take n tables.now)) }
{
    let mut count = 0;
    for table in tables {
        if !has_club_table(alloc, schema, *table)? {
            return Ok(count);
        }
        count += 1;
    }
    Ok(count)
}

/// The tables of a club that a database has, exactly or in an equivalent form.
#[derive(Debug, Clone, Copy, PartialEq, Eq)]
pub struct Versions {
    /// How many of `Table::ALL` there are, up to the first that is missing.
    pub count: usize,
}

impl Versions {
    /// Whether the tables match this version.
    pub fn has(self, version: Version) -> bool
        ensures { result ≡ has_version self version }
    {
        version.table_count() <= self.count
    }
}

/// Returns the schema versions of a club whose tables are in the database, exactly or in an equivalent form. Foreign
/// tables are ignored; no row is read.
///
/// # Errors
///
/// `AllocError` if out of memory.
pub fn versions_of<S: Alter>(alloc: Global, conn: &Connection<S>) -> Result<Versions, AllocError>
    ensures { IfOk result (λ found. (version : Version) →
        has_version found version ≡ spec.is_of_club version (state S.Store conn.now).now.schema) }
{
    let count = count_tables(alloc, conn.schema(), &store_tables::Table::ALL)?;
    Ok(Versions { count })
}
