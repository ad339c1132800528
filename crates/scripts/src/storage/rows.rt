//! Reads the rows of a database.

use anyhow::{Context, Result, bail};
use sqlite::types::ValueRef;
use sqlite::{Alter, Connection, MemStore, Row};
use std::alloc::Global;
use store_sql::{Select, TableFault, list};
use store_tables::{Changes, MetaRow, Version};

/// All rows of a club, and the schema that they are in.
#[derive(PartialEq, Drop)]
pub struct StoredRows {
    pub version: Version,
    pub rows: Changes,
}

// The rows of a table; none where the schema has no such table.
fn list_if<T: Select, S: Alter>(
    alloc: Global,
    conn: &mut Connection<S>,
    is_there: bool,
) -> Result<Vec<T>, TableFault> {
    if is_there {
        list(alloc, conn)
    } else {
        Ok(Vec::new(alloc))
    }
}

// All rows of a club of schema 2, or of schema 3 with an arbiter; `last` is the timestamp in `meta`.
fn listed<S: Alter>(
    alloc: Global,
    conn: &mut Connection<S>,
    has_arbiter: bool,
    last: i64,
) -> Result<Changes, TableFault> {
    Ok(Changes {
        members: list(alloc, conn)?,
        events: list(alloc, conn)?,
        event_rules: list(alloc, conn)?,
        challenges: list(alloc, conn)?,
        games: list(alloc, conn)?,
        moves: list(alloc, conn)?,
        seen: list(alloc, conn)?,
        scores: list(alloc, conn)?,
        keys: list_if(alloc, conn, has_arbiter)?,
        rulings: list_if(alloc, conn, has_arbiter)?,
        closings: list_if(alloc, conn, has_arbiter)?,
        last: Some(last),
    })
}

/// All rows of a club's tables, each table in the order of its key.
pub fn rows_of<S: Alter>(alloc: Global, conn: &mut Connection<S>) -> Result<StoredRows> {
    let meta = only_meta_row(alloc, conn)?;
    let version = Version::from_number(meta.schema).context("no such schema")?;
    match listed(alloc, conn, version == Version::V3, meta.last) {
        Ok(rows) => Ok(StoredRows { version, rows }),
        Err(_) => bail!("the rows cannot be read"),
    }
}

fn only_meta_row<S: Alter>(alloc: Global, conn: &mut Connection<S>) -> Result<MetaRow> {
    match list::<MetaRow, _>(alloc, conn) {
        Ok(rows) => rows.into_iter().next().context("`meta` is empty"),
        Err(_) => bail!("`meta` cannot be read"),
    }
}

fn add_cell(alloc: Global, value: ValueRef<'_>, told: &mut String) -> Result<()> {
    match value {
        ValueRef::Null => told.push_str("NULL")?,
        ValueRef::Int(number) => told.push_str(format!(in alloc; "{number}")?.as_str())?,
        ValueRef::Text(bytes) => told.push_str(std::str::from_utf8(bytes)?)?,
        ValueRef::Real(_) | ValueRef::Blob(_) => bail!("a value that no column has"),
    }
    Ok(())
}

fn add_row(alloc: Global, row: &Row, told: &mut String) -> Result<()> {
    for column in 0..row.column_count() {
        if column > 0 {
            told.push_str("|")?;
        }
        add_cell(alloc, row.get_ref(column)?, told)?;
    }
    Ok(())
}

/// The rows of a query, separated by `;`, their columns by `|`; `none` if there are none.
pub fn select_text(alloc: Global, conn: &mut Connection<MemStore>, sql: &str) -> Result<String> {
    let mut told = String::new(alloc);
    for row in &conn.query_all(sql, &[])? {
        if !told.is_empty() {
            told.push_str(";")?;
        }
        add_row(alloc, row, &mut told)?;
    }
    if told.is_empty() {
        told.push_str("none")?;
    }
    Ok(told)
}
