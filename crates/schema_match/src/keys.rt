//! Checks that the unique keys of a table reject the same duplicate rows as those of a club's table.

ghost use Rattle.std.specs.Prelude.{◌≡◌, ◌||◌};
ghost use Rattle.std.specs.List.{list_any};
ghost use Rattle.schema_match.specs.Keys as spec;

use crate::columns::name_at;
use sqlite_schema::names::same_name;
use sqlite_schema::schema::{Index, Schema, Table};

fn is_at(theirs: &Table, name: &[u8], place: usize) -> bool
    ensures { result ≡ spec.is_at theirs.now name.now place }
{
    same_name(name, name_at(theirs, place))
}

fn is_in_key(theirs: &Table, key: &[usize], name: &[u8]) -> bool
    ensures { result ≡ spec.is_in_key theirs.now key.now name.now }
{
    key.iter().any(|place| is_at(theirs, name, *place))
}

fn is_place_of(ours: &Table, theirs: &Table, other: &[usize], place: usize) -> bool
    ensures { result ≡ spec.is_place_of ours.now theirs.now other.now place }
{
    is_in_key(theirs, other, name_at(ours, place))
}

/// Whether the key `other` of `theirs` has each column of the key `mine` of `ours`.
fn has_places(ours: &Table, mine: &[usize], theirs: &Table, other: &[usize]) -> bool
    ensures { result ≡ spec.has_places ours.now mine.now theirs.now other.now }
{
    mine.iter()
        .all(|place| is_place_of(ours, theirs, other, *place))
}

/// Whether two keys have the same columns, in any order.
fn is_key_as(ours: &Table, mine: &[usize], theirs: &Table, other: &[usize]) -> bool
    ensures { result ≡ spec.is_key_as ours.now mine.now theirs.now other.now }
{
    mine.len() == other.len() && has_places(ours, mine, theirs, other)
}

fn is_unique_on(theirs: &Table, index: &Index) -> bool
    ensures { result ≡ spec.is_unique_on theirs.now index.now }
{
    index.is_unique && index.table == theirs.tree
}

/// Whether the index uses collation BINARY in all columns, in any sort direction.
fn is_by_bytes(index: &Index) -> bool
    ensures { result ≡ spec.is_by_bytes index.now }
{
    index.order.undirected().digits == 0
}

fn is_index_for(ours: &Table, theirs: &Table, mine: &[usize], index: &Index) -> bool
    ensures { result ≡ spec.is_index_for ours.now theirs.now mine.now index.now }
{
    is_unique_on(theirs, index) && is_key_as(ours, mine, theirs, index.columns.as_slice())
}

/// Whether a unique index of `theirs` has exactly the columns of this key of `ours`.
fn has_key(schema: &Schema, ours: &Table, theirs: &Table, mine: &[usize]) -> bool
    ensures { result ≡ spec.has_key schema.now ours.now theirs.now mine.now }
{
    schema
        .indexes
        .as_slice()
        .iter()
        .any(|index| is_index_for(ours, theirs, mine, index))
}

fn is_within(ours: &Table, theirs: &Table, index: &Index, mine: &[usize]) -> bool
    ensures { result ≡ spec.is_within ours.now theirs.now index.now mine.now }
{
    has_places(ours, mine, theirs, index.columns.as_slice())
}

fn has_unique_within(ours: &Table, theirs: &Table, index: &Index) -> bool
    ensures { result ≡ list_any (spec.is_within ours.now theirs.now index.now) ours.now.uniques }
{
    ours.uniques
        .as_slice()
        .iter()
        .any(|mine| is_within(ours, theirs, index, mine.as_slice()))
}

fn has_key_within(ours: &Table, theirs: &Table, index: &Index) -> bool
    ensures { result ≡ (spec.is_within ours.now theirs.now index.now ours.now.primary
        || list_any (spec.is_within ours.now theirs.now index.now) ours.now.uniques) }
{
    is_within(ours, theirs, index, ours.primary.as_slice())
        || has_unique_within(ours, theirs, index)
}

/// Whether a key of `ours` already rejects the duplicates that the index rejects.
fn is_own_key(ours: &Table, theirs: &Table, index: &Index) -> bool
    ensures { result ≡ spec.is_own_key ours.now theirs.now index.now }
{
    is_by_bytes(index) && has_key_within(ours, theirs, index)
}

fn refuses_no_more(ours: &Table, theirs: &Table, index: &Index) -> bool
    ensures { result ≡ spec.refuses_no_more ours.now theirs.now index.now }
{
    !is_unique_on(theirs, index) || is_own_key(ours, theirs, index)
}

fn has_each_key(schema: &Schema, ours: &Table, theirs: &Table) -> bool
    ensures { result ≡ spec.has_each_key schema.now ours.now theirs.now }
{
    ours.uniques
        .as_slice()
        .iter()
        .all(|mine| has_key(schema, ours, theirs, mine.as_slice()))
}

fn has_no_other_key(schema: &Schema, ours: &Table, theirs: &Table) -> bool
    ensures { result ≡ spec.has_no_other_key schema.now ours.now theirs.now }
{
    schema
        .indexes
        .as_slice()
        .iter()
        .all(|index| refuses_no_more(ours, theirs, index))
}

/// Whether `theirs` has each unique key of `ours`, and no other that rejects more rows.
pub(crate) fn has_keys_as(schema: &Schema, ours: &Table, theirs: &Table) -> bool
    ensures { result ≡ spec.has_keys_as schema.now ours.now theirs.now }
{
    has_each_key(schema, ours, theirs) && has_no_other_key(schema, ours, theirs)
}
