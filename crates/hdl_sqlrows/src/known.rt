//! Whether a database has the tables of the layout.

ghost use Rattle.std.specs.Prelude.{◌≡◌, ◌↔◌, [], ◌∷◌, None, codes, false, true, IsTrue};
ghost use Rattle.sqlite_value.specs.Keys.{plain};
ghost use Rattle.sqlite.specs.Held.{state};
ghost use Rattle.hdl_sqlrows.specs.Layout.{no_schema, layout, handles, handle_columns, entries, entry_columns, cell_columns, opened_table, to_handles, guard, guards, required_column, keyed_table, no_stamps};

use sqlite::{Alter, Connection};
use sqlite_items::Items;
use sqlite_schema::code::Terms;
use sqlite_schema::schema::{Action, Column, Index, Kind, Reference, Schema, Stamps, Table};
use sqlite_value::keys::{Collation, Order};
use sqlite_value::value::{Bytes, Value};

/// What an existing database is.
#[derive(Clone, Copy, PartialEq, Eq, Drop)]
pub enum FoundDatabase {
    /// Without a table, like a new file.
    Nothing,
    /// The tables of the layout, and nothing else.
    Tables,
    /// Any other database.
    Other,
}

/// Whether a database has the tables of the layout and no other, or no table at all.
pub fn tables_of<S: Alter>(conn: &Connection<S>) -> FoundDatabase
    ensures nothing { (result ≡ FoundDatabase.Nothing) ↔ ((state S.Store conn.now).now.schema ≡ no_schema) }
    ensures tables { (result ≡ FoundDatabase.Tables) ↔ ((state S.Store conn.now).now.schema ≡ layout) }
{
    let schema = conn.schema();
    if is_layout(schema) {
        FoundDatabase::Tables
    } else if is_empty(schema) {
        FoundDatabase::Nothing
    } else {
        FoundDatabase::Other
    }
}

fn is_empty(schema: &Schema) -> bool
    ensures { IsTrue result ↔ (schema.now ≡ no_schema) }
{
    schema.tables.is_empty() && schema.indexes.is_empty() && schema.views.is_empty()
}

#[tactic(auto, using(crate::proofs::Guards::guards_are))]
fn is_layout(schema: &Schema) -> bool
    ensures { IsTrue result ↔ (schema.now ≡ layout) }
{
    are_tables(schema.tables.as_slice())
        && are_indexes(schema.indexes.as_slice())
        && schema.views.is_empty()
}

fn are_tables(tables: &[Table]) -> bool
    ensures { IsTrue result ↔ (tables.now ≡ layout.tables) }
{
    match tables {
        [first, second, third] => is_handles(first) && is_entries(second) && is_opened(third),
        _ => false,
    }
}

fn are_indexes(indexes: &[Index]) -> bool
    ensures { IsTrue result ↔ (indexes.now ≡ guards) }
{
    match indexes {
        [first, second, third] => {
            is_guard(first, b"sqlite_autoindex_handles_1", 1, 0, &[1])
                && is_guard(second, b"sqlite_autoindex_entries_1", 3, 2, &[1, 2])
                && is_guard(third, b"sqlite_autoindex_opened_1", 5, 4, &[1])
        }
        _ => false,
    }
}

fn is_handles(table: &Table) -> bool
    ensures { IsTrue result ↔ (table.now ≡ handles) }
{
    is_keyed(table, b"handles", 0, &[1])
        && are_handle_columns(table.columns.as_slice())
        && table.references.is_empty()
}

fn are_handle_columns(columns: &[Column]) -> bool
    ensures { IsTrue result ↔ (columns.now ≡ handle_columns) }
{
    match columns {
        [name, authority] => {
            is_required(name, b"name", Kind::Blob)
                && is_required(authority, b"authority", Kind::Blob)
        }
        _ => false,
    }
}

fn is_entries(table: &Table) -> bool
    ensures { IsTrue result ↔ (table.now ≡ entries) }
{
    is_keyed(table, b"entries", 2, &[1, 2])
        && are_entry_columns(table.columns.as_slice())
        && refer_to_handles(table.references.as_slice())
}

fn are_entry_columns(columns: &[Column]) -> bool
    ensures { IsTrue result ↔ (columns.now ≡ entry_columns) }
{
    match columns {
        [name, index, cells @ ..] => {
            is_required(name, b"name", Kind::Blob)
                && is_required(index, b"idx", Kind::Integer)
                && are_cells(cells)
        }
        _ => false,
    }
}

fn are_cells(columns: &[Column]) -> bool
    ensures { IsTrue result ↔ (columns.now ≡ cell_columns) }
{
    match columns {
        [kind, bytes, ttl, permissions, timestamp, refs] => {
            is_required(kind, b"kind", Kind::Blob)
                && is_required(bytes, b"bytes", Kind::Blob)
                && is_required(ttl, b"ttl", Kind::Blob)
                && is_required(permissions, b"perm", Kind::Integer)
                && is_required(timestamp, b"stamp", Kind::Blob)
                && is_required(refs, b"refs", Kind::Blob)
        }
        _ => false,
    }
}

fn is_opened(table: &Table) -> bool
    ensures { IsTrue result ↔ (table.now ≡ opened_table) }
{
    is_keyed(table, b"opened", 4, &[1])
        && are_names(table.columns.as_slice())
        && table.references.is_empty()
}

/// Whether there is exactly one column, `name`.
fn are_names(columns: &[Column]) -> bool
    ensures { IsTrue result ↔ (columns.now ≡ required_column (codes "name") Kind.Blob ∷ []) }
{
    match columns {
        [only] => is_required(only, b"name", Kind::Blob),
        _ => false,
    }
}

fn refer_to_handles(references: &[Reference]) -> bool
    ensures { IsTrue result ↔ (references.now ≡ to_handles ∷ []) }
{
    match references {
        [only] => is_to_handles(only),
        _ => false,
    }
}

fn is_to_handles(reference: &Reference) -> bool
    ensures { IsTrue result ↔ (reference.now ≡ to_handles) }
{
    reference.columns.as_slice() == [1].as_slice()
        && reference.parent.as_slice() == b"handles".as_slice()
        && is_name(reference.parent_columns.as_slice())
        && reference.on_delete == Action::Cascade
        && reference.on_update == Action::NoAction
        && !reference.is_deferred
}

/// Whether these are exactly one name, `name`.
fn is_name(columns: &[Bytes]) -> bool
    ensures { IsTrue result ↔ (columns.now ≡ codes "name" ∷ []) }
{
    match columns {
        [only] => is_text(only, b"name"),
        _ => false,
    }
}

fn is_text(name: &Bytes, text: &[u8]) -> bool
    ensures { IsTrue result ↔ (name.now ≡ text.now) }
{
    name.as_slice() == text
}

/// Whether a table has this name, tree and key, without checks on its rows and without computed values.
fn is_keyed(table: &Table, name: &[u8], tree: u32, key: &[usize]) -> bool
    ensures { IsTrue result ↔ (table.now ≡ keyed_table name.now tree table.now.columns key.now table.now.references) }
{
    table.name.as_slice() == name && table.tree == tree && has_key(table, key) && is_bare(table)
}

fn has_key(table: &Table, key: &[usize]) -> bool
    ensures { IsTrue result ↔ ((table.now.primary ≡ key.now) × (table.now.uniques ≡ key.now ∷ []) × (table.now.orders ≡ plain ∷ [])) }
{
    is_key(&table.primary, key)
        && is_only_key(table.uniques.as_slice(), key)
        && is_plain(table.orders.as_slice())
}

/// Whether the only key is ascending and compares octets.
fn is_plain(orders: &[Order]) -> bool
    ensures { IsTrue result ↔ (orders.now ≡ plain ∷ []) }
{
    match orders {
        [only] => *only == Order::PLAIN,
        _ => false,
    }
}

fn is_only_key(uniques: &[Items<usize>], key: &[usize]) -> bool
    ensures { IsTrue result ↔ (uniques.now ≡ key.now ∷ []) }
{
    match uniques {
        [only] => is_key(only, key),
        _ => false,
    }
}

fn is_key(places: &Items<usize>, key: &[usize]) -> bool
    ensures { IsTrue result ↔ (places.now ≡ key.now) }
{
    places.as_slice() == key
}

fn is_bare(table: &Table) -> bool
    ensures { IsTrue result ↔ ((table.now.key ≡ None) × (table.now.checks ≡ []) × (table.now.computed ≡ []) × (table.now.stamps ≡ no_stamps) × (table.now.is_counted ≡ false)) }
{
    table.key.is_none()
        && is_without(&table.checks)
        && table.computed.is_empty()
        && are_no_stamps(&table.stamps)
        && !table.is_counted
}

fn are_no_stamps(stamps: &Stamps) -> bool
    ensures { IsTrue result ↔ (stamps.now ≡ no_stamps) }
{
    stamps.places.is_empty() && is_without(&stamps.terms) && stamps.formats.is_empty()
}

/// Whether there is no expression.
fn is_without(terms: &Terms) -> bool
    ensures { IsTrue result ↔ (terms.now ≡ []) }
{
    terms.roots.is_empty()
}

/// Whether a column has this name and kind, and is never null.
fn is_required(column: &Column, name: &[u8], kind: Kind) -> bool
    ensures { IsTrue result ↔ (column.now ≡ required_column name.now kind) }
{
    column.name.as_slice() == name
        && column.kind == kind
        && column.is_strict
        && column.not_null
        && matches!(column.default, Value::Null)
        && column.collation == Collation::Binary
}

/// Whether an index is the one that keeps this key of a table unique.
fn is_guard(index: &Index, name: &[u8], tree: u32, table: u32, key: &[usize]) -> bool
    ensures { IsTrue result ↔ (index.now ≡ guard name.now tree table key.now) }
{
    index.name.as_slice() == name
        && index.tree == tree
        && index.table == table
        && index.columns.as_slice() == key
        && index.order == Order::PLAIN
        && index.is_unique
}
