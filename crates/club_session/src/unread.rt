//! Why the kit's `sqlite` did not open the files: a feature of the file, an object or rows that it does not read.
//!
//! The header and the rows of `sqlite_schema` are those of SQLite: <https://www.sqlite.org/fileformat2.html>

ghost use Rattle.club_orders.specs.Report.{IsNotOpened};

use crate::preflight::{beginning_of, page_bytes, remove_empty_log};
use club_orders::{FileFault, ObjectKind, Report, UnreadObject};
use sqlite::{Error, ErrorCode, FileFrom, Leftover, Options};
use sqlite_disk::{Disk, Files, Start};
use sqlite_pager::Pager;
use sqlite_resolve::{CompileError, define_table, define_view};
use sqlite_store::Unopened;
use sqlite_value::row::Row;
use sqlite_value::value::ValueRef;
use sqlite_wal::PageSize;
use std::alloc::{AllocError, Global};

// The length of the header, in bytes.
const HEADER_BYTES: u64 = 100;

// The place of the number of reserved bytes of each page.
const RESERVED_BYTES: usize = 20;

// The place of the largest root page, four bytes, which are 0 without auto_vacuum.
const AUTO_VACUUM: usize = 52;

// The place of the last of the four bytes of the encoding of texts, and the number of UTF-8. A new file has 0.
const ENCODING: usize = 59;

const UTF_8: u8 = 1;

// The columns of a row of `sqlite_schema`: its rowid comes first, and the root page before the statement.
const KIND: usize = 1;

const NAME: usize = 2;

const TABLE_NAME: usize = 3;

const SQL: usize = 5;

// The kinds of objects in `sqlite_schema`.
const TABLE: &[u8] = b"table";

const VIEW: &[u8] = b"view";

const TRIGGER: &[u8] = b"trigger";

// SQLite writes the first words of each statement so.
const CREATE_VIRTUAL: &[u8] = b"CREATE VIRTUAL TABLE ";

// The word of a foreign key.
const REFERENCES: &[u8] = b"references";

// The feature of a whole file that is not read, by its header.
fn header_fault(header: &[u8]) -> Option<FileFault> {
    if header
        .get(ENCODING)
        .is_some_and(|encoding| *encoding > UTF_8)
    {
        return Some(FileFault::Utf16);
    }
    if header
        .get(AUTO_VACUUM..AUTO_VACUUM + 4)
        .is_some_and(|root| root.iter().any(|byte| *byte != 0))
    {
        return Some(FileFault::AutoVacuum);
    }
    match header.get(RESERVED_BYTES) {
        Some(0) | None => None,
        Some(_) => Some(FileFault::ReservedBytes),
    }
}

// The text in a column of a row; empty if there is none.
fn text_at(row: &Row, column: usize) -> &[u8] {
    match row.get(column) {
        ValueRef::Text(text) => text,
        _ => &[],
    }
}

// Whether a row is of an object of this kind with this name.
fn is_named(row: &Row, kind: &[u8], name: &[u8]) -> bool {
    text_at(row, KIND) == kind && text_at(row, NAME).eq_ignore_ascii_case(name)
}

fn has_object(rows: &[Row], kind: &[u8], name: &[u8]) -> bool {
    rows.iter().any(|row| is_named(row, kind, name))
}

fn mentions(text: &[u8], word: &[u8]) -> bool {
    text.windows(word.len().max(1))
        .any(|part| part.eq_ignore_ascii_case(word))
}

// Whether the kit reads the statement of a table.
fn is_table_read(alloc: Global, sql: &[u8]) -> bool {
    match define_table(alloc, sql) {
        Ok(_) | Err(CompileError::OutOfMemory) => true,
        Err(_) => false,
    }
}

// Whether the kit reads the statement of a view.
fn is_view_read(alloc: Global, sql: &[u8]) -> bool {
    match define_view(alloc, sql) {
        Ok(_) | Err(CompileError::OutOfMemory) => true,
        Err(_) => false,
    }
}

fn table_unread(alloc: Global, sql: &[u8]) -> Option<ObjectKind> {
    if sql.starts_with(CREATE_VIRTUAL) {
        return Some(ObjectKind::VirtualTable);
    }
    if mentions(sql, REFERENCES) && !is_table_read(alloc, sql) {
        return Some(ObjectKind::Table);
    }
    None
}

fn trigger_unread(row: &Row, rows: &[Row]) -> Option<ObjectKind> {
    let name = text_at(row, NAME);
    if has_object(rows, VIEW, text_at(row, TABLE_NAME)) {
        return Some(ObjectKind::ViewTrigger);
    }
    if has_object(rows, TABLE, name) || has_object(rows, VIEW, name) {
        return Some(ObjectKind::Namesake);
    }
    None
}

// The kind of the object of a row, if no file with it is opened.
fn kind_unread(alloc: Global, row: &Row, rows: &[Row]) -> Option<ObjectKind> {
    let (kind, sql) = (text_at(row, KIND), text_at(row, SQL));
    if kind == TABLE {
        return table_unread(alloc, sql);
    }
    if kind == TRIGGER {
        return trigger_unread(row, rows);
    }
    if kind == VIEW && !is_view_read(alloc, sql) {
        return Some(ObjectKind::View);
    }
    None
}

// A name with `?` for each control character, and for bytes that are not UTF-8.
fn printed_name(alloc: Global, name: &[u8]) -> Result<String, AllocError> {
    let mut printed = String::new(alloc);
    for letter in std::str::from_utf8(name).unwrap_or("?").chars() {
        printed.push(if letter.is_control() { '?' } else { letter })?;
    }
    Ok(printed)
}

// The first object because of which no file with these objects is opened.
fn first_unread(alloc: Global, rows: &[Row]) -> Result<Option<UnreadObject>, AllocError> {
    for row in rows {
        if let Some(kind) = kind_unread(alloc, row, rows) {
            let name = printed_name(alloc, text_at(row, NAME))?;
            return Ok(Some(UnreadObject { kind, name }));
        }
    }
    Ok(None)
}

// The rows of `sqlite_schema`, if they can be read, and the files.
fn objects_of<D: Disk + Drop>(
    alloc: Global,
    files: Files<D>,
    size: PageSize,
) -> (Vec<Row>, Files<D>) {
    let none = Vec::new(alloc);
    if !files.may_be_used() {
        return (none, files);
    }
    let pager = match Pager::new(alloc, files, size, Options::new(0)) {
        Ok(pager) => pager,
        Err(failed) => return (none, failed.value),
    };
    let mut unopened = match Unopened::with_sums(alloc, pager, &[], false) {
        Ok(unopened) => unopened,
        Err(failed) => return (none, failed.value.close()),
    };
    let rows = match unopened.read_catalog() {
        Ok(rows) => rows,
        Err(_) => none,
    };
    (rows, unopened.close())
}

// The report on a file that is no sound database, by what was read of its objects. `breaks_rules`: its pages are sound.
fn report_on(alloc: Global, rows: &[Row], breaks_rules: bool) -> Report
    ensures { IsNotOpened result }
{
    match first_unread(alloc, rows) {
        Ok(Some(object)) => Report::Unread(object),
        Ok(None) if breaks_rules && !rows.is_empty() => Report::NotOpened(FileFault::BrokenRules),
        Ok(None) => Report::NotOpened(FileFault::Malformed),
        Err(_) => Report::NotOpened(FileFault::Failed),
    }
}

// The report on files that are no sound database, and the files.
fn unsound<D: Disk + Drop>(
    rt: &HostRuntime,
    file: &str,
    files: Files<D>,
    breaks_rules: bool,
) -> (Report, Files<D>)
    ensures { IsNotOpened result.0 }
{
    if let Some(fault) = header_fault(beginning_of(rt, file, HEADER_BYTES).as_slice()) {
        return (Report::NotOpened(fault), files);
    }
    let Some(size) = PageSize::new(page_bytes(rt, file) as usize) else {
        return (Report::NotOpened(FileFault::Malformed), files);
    };
    let (rows, files) = objects_of(rt.alloc(), files, size);
    (report_on(rt.alloc(), rows.as_slice(), breaks_rules), files)
}

/// The report on files that the kit's `sqlite` did not open, by its error. If they hold no sound database, a log
/// without a frame is removed while they are still locked, so that an opening that fails leaves none where there was
/// none.
pub(crate) fn unopened_report<S: Start>(
    rt: &HostRuntime,
    file: &str,
    error: &Error,
    left: Leftover<FileFrom<S>>,
) -> Report
    ensures { IsNotOpened result }
{
    let breaks_rules = match error {
        Error::SqliteFailure(ErrorCode::NotADatabase) => true,
        Error::SqliteFailure(ErrorCode::DatabaseCorrupt) => false,
        _ => return Report::NotOpened(FileFault::Failed),
    };
    let (report, files) = unsound(rt, file, left.into_files(), breaks_rules);
    let _removed = remove_empty_log(rt, file);
    drop(files);
    report
}
