//! Checks that the columns of a table store, compare and reject values like those of a club's table.
//! `ours` is the club's table as it is created today, `theirs` the table in the database.

ghost use Rattle.std.specs.Prelude.{◌≡◌, slice_get, codes};
ghost use Rattle.std.specs.List.{list_all, list_any};
ghost use Rattle.schema_match.specs.Columns as spec;

use sqlite_schema::names::same_name;
use sqlite_schema::schema::{Column, Kind, Table};
use sqlite_value::keys::Collation;
use sqlite_value::value::Value;

/// The name of a column; empty if there is no such column.
fn name_of(columns: &[Column], at: usize) -> &[u8]
    ensures { result.now ≡ spec.name_of (slice_get columns.now at) }
{
    match columns.get(at) {
        Some(column) => column.name.as_slice(),
        None => &[],
    }
}

/// The name of the INTEGER PRIMARY KEY column (the rowid); empty if the table has none.
pub(crate) fn key_name(table: &Table) -> &[u8]
    ensures { result.now ≡ spec.key_name table.now }
{
    match table.key {
        Some(at) => name_of(table.columns.as_slice(), at),
        None => &[],
    }
}

/// The name of the column at a place in a row; place 0 is the rowid.
pub(crate) fn name_at(table: &Table, place: usize) -> &[u8]
    ensures { result.now ≡ spec.name_at table.now place }
{
    if place == 0 {
        key_name(table)
    } else {
        name_of(table.columns.as_slice(), place - 1)
    }
}

fn is_named(name: &[u8], column: &Column) -> bool
    ensures { result ≡ spec.is_named name.now column.now }
{
    same_name(column.name.as_slice(), name)
}

fn has_name(table: &Table, name: &[u8]) -> bool
    ensures { result ≡ spec.has_name table.now name.now }
{
    table
        .columns
        .as_slice()
        .iter()
        .any(|column| is_named(name, column))
}

fn is_integer(kind: Kind) -> bool
    ensures { result ≡ spec.is_integer kind }
{
    match kind {
        Kind::Integer => true,
        Kind::Real => false,
        Kind::Text => false,
        Kind::Blob => false,
        Kind::Any => false,
    }
}

fn is_text(kind: Kind) -> bool
    ensures { result ≡ spec.is_text kind }
{
    match kind {
        Kind::Integer => false,
        Kind::Real => false,
        Kind::Text => true,
        Kind::Blob => false,
        Kind::Any => false,
    }
}

/// Whether a column of type or affinity `theirs` stores the values of `ours` unchanged.
fn keeps_values(ours: Kind, theirs: Kind) -> bool
    ensures { result ≡ spec.keeps_values ours theirs }
{
    match theirs {
        Kind::Integer => is_integer(ours),
        Kind::Real => false,
        Kind::Text => is_text(ours),
        Kind::Blob => false,
        Kind::Any => true,
    }
}

fn compares_bytes(collation: Collation) -> bool
    ensures { result ≡ spec.compares_bytes collation }
{
    match collation {
        Collation::Binary => true,
        Collation::NoCase => false,
        Collation::RTrim => false,
    }
}

/// Whether `theirs` accepts NULL exactly if `ours` does. On the rowid column NOT NULL has no effect.
fn takes_null_as(key: &[u8], ours: &Column, theirs: &Column) -> bool
    ensures { result ≡ spec.takes_null_as key.now ours.now theirs.now }
{
    if ours.not_null {
        theirs.not_null
    } else {
        !theirs.not_null || same_name(key, ours.name.as_slice())
    }
}

/// Whether `theirs` has the name of `ours`, and stores, compares and rejects the same values.
fn is_column_as(key: &[u8], ours: &Column, theirs: &Column) -> bool
    ensures { result ≡ spec.is_column_as key.now ours.now theirs.now }
{
    same_name(ours.name.as_slice(), theirs.name.as_slice())
        && keeps_values(ours.kind, theirs.kind)
        && compares_bytes(theirs.collation)
        && takes_null_as(key, ours, theirs)
}

fn has_column(ours: &Table, theirs: &Table, column: &Column) -> bool
    ensures { result ≡ spec.has_column ours.now theirs.now column.now }
{
    let key = key_name(ours);
    theirs
        .columns
        .as_slice()
        .iter()
        .any(|other| is_column_as(key, column, other))
}

/// Whether the column accepts its default, which it gets in an INSERT that omits it. A STRICT column rejects other
/// types.
fn takes_default(column: &Column, default: &Value) -> bool
    ensures { result ≡ spec.takes_default column.now default.now }
{
    match default {
        Value::Null => !column.not_null,
        Value::Int(_) => !column.is_strict || is_integer(column.kind),
        Value::Real(_) => !column.is_strict,
        Value::Text(_) => !column.is_strict || is_text(column.kind),
        Value::Blob(_) => !column.is_strict,
    }
}

/// Whether an INSERT may omit the column, and its name does not hide the rowid.
fn can_be_omitted(column: &Column) -> bool
    ensures { result ≡ spec.can_be_omitted column.now }
{
    takes_default(column, &column.default) && !same_name(column.name.as_slice(), b"rowid")
}

/// Whether the column is one of ours, or an INSERT may omit it.
fn may_be_left_out(ours: &Table, column: &Column) -> bool
    ensures { result ≡ spec.may_be_left_out ours.now column.now }
{
    can_be_omitted(column) || has_name(ours, column.name.as_slice())
}

/// Whether the column at this place, whose default is an expression, is one of ours.
fn is_computed_in(ours: &Table, theirs: &Table, place: usize) -> bool
    ensures { result ≡ spec.is_computed_in ours.now theirs.now place }
{
    has_name(ours, name_at(theirs, place))
}

fn has_each_column(ours: &Table, theirs: &Table) -> bool
    ensures { result ≡ spec.has_each_column ours.now theirs.now }
{
    ours.columns
        .as_slice()
        .iter()
        .all(|column| has_column(ours, theirs, column))
}

fn leaves_out(ours: &Table, theirs: &Table) -> bool
    ensures { result ≡ list_all (spec.may_be_left_out ours.now) theirs.now.columns }
{
    theirs
        .columns
        .as_slice()
        .iter()
        .all(|column| may_be_left_out(ours, column))
}

fn computes_own(ours: &Table, theirs: &Table) -> bool
    ensures { result ≡ list_all (spec.is_computed_in ours.now theirs.now) theirs.now.computed }
{
    theirs
        .computed
        .as_slice()
        .iter()
        .all(|place| is_computed_in(ours, theirs, *place))
}

fn wants_no_other(ours: &Table, theirs: &Table) -> bool
    ensures { result ≡ spec.wants_no_other ours.now theirs.now }
{
    leaves_out(ours, theirs) && computes_own(ours, theirs)
}

/// Whether `theirs` has each column of `ours`, and an INSERT may omit all others.
pub(crate) fn has_columns_as(ours: &Table, theirs: &Table) -> bool
    ensures { result ≡ spec.has_columns_as ours.now theirs.now }
{
    has_each_column(ours, theirs) && wants_no_other(ours, theirs)
}
