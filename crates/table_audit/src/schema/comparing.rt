//! Compares the tables and indexes of a database schema with those of the program, which are
//! described by short forms such as `TableForm`. Each comparison returns true if and only if both
//! are equal.
ghost use Rattle.std.specs.Prelude.{◌≡◌, ◌↔◌, [], map, IsTrue};
ghost use Rattle.sqlite_value.specs.Keys.{plain};
ghost use Rattle.table_audit.specs.SchemaForms.{column_of, reference_of, table_of, index_of, no_stamps};

use crate::schema::forms::{ColumnForm, IndexForm, KeyForm, TableForm};
use sqlite_items::Items;
use sqlite_schema::code::Terms;
use sqlite_schema::schema::{Action, Column, Index, Reference, Stamps, Table};
use sqlite_value::keys::{Collation, Order};
use sqlite_value::value::{Bytes, Value};

fn is_column(column: &Column, form: &ColumnForm) -> bool
    ensures { IsTrue result ↔ (column.now ≡ column_of form.now) }
{
    column.name.as_slice() == form.0.as_bytes()
        && column.kind == form.1
        && column.is_strict
        && column.not_null
        && matches!(column.default, Value::Null)
        && column.collation == Collation::Binary
}

fn are_columns(columns: &[Column], forms: &[ColumnForm]) -> bool
    ensures { IsTrue result ↔ (columns.now ≡ map column_of forms.now) }
{
    match (columns, forms) {
        ([], []) => true,
        ([column, columns @ ..], [form, forms @ ..]) => {
            is_column(column, form) && are_columns(columns, forms)
        }
        _ => false,
    }
}

fn is_text(name: &Bytes, text: &str) -> bool
    ensures { IsTrue result ↔ (name.now ≡ text.now) }
{
    name.as_slice() == text.as_bytes()
}

fn are_texts(names: &[Bytes], texts: &[&str]) -> bool
    ensures { IsTrue result ↔ (names.now ≡ map (λ text. text.now) texts.now) }
{
    match (names, texts) {
        ([], []) => true,
        ([name, names @ ..], [text, texts @ ..]) => {
            is_text(name, *text) && are_texts(names, texts)
        }
        _ => false,
    }
}

fn is_reference(reference: &Reference, form: &KeyForm) -> bool
    ensures { IsTrue result ↔ (reference.now ≡ reference_of form.now) }
{
    reference.columns.as_slice() == form.columns
        && reference.parent.as_slice() == form.parent.as_bytes()
        && are_texts(reference.parent_columns.as_slice(), form.parent_columns)
        && reference.on_delete == Action::NoAction
        && reference.on_update == Action::NoAction
        && !reference.is_deferred
}

fn are_references(references: &[Reference], forms: &[KeyForm]) -> bool
    ensures { IsTrue result ↔ (references.now ≡ map reference_of forms.now) }
{
    match (references, forms) {
        ([], []) => true,
        ([reference, references @ ..], [form, forms @ ..]) => {
            is_reference(reference, form) && are_references(references, forms)
        }
        _ => false,
    }
}

// Returns true if the columns of a key equal the expected columns.
fn are_places(places: &Items<usize>, form: &[usize]) -> bool
    ensures { IsTrue result ↔ (places.now ≡ form.now) }
{
    places.as_slice() == form
}

fn are_uniques(uniques: &[Items<usize>], forms: &[&[usize]]) -> bool
    ensures { IsTrue result ↔ (uniques.now ≡ map (λ form. form.now) forms.now) }
{
    match (uniques, forms) {
        ([], []) => true,
        ([places, uniques @ ..], [form, forms @ ..]) => {
            are_places(places, *form) && are_uniques(uniques, forms)
        }
        _ => false,
    }
}

// Returns true if an index sorts its columns in ascending order, and texts by their bytes.
fn is_plain(order: &Order) -> bool
    ensures { IsTrue result ↔ (order.now ≡ plain) }
{
    order.digits == 0
}

// Returns true if the list `orders` has one plain (ascending) order for each UNIQUE constraint of a
// table.
fn are_plain(orders: &[Order], forms: &[&[usize]]) -> bool
    ensures { IsTrue result ↔ (orders.now ≡ map (λ form. plain) forms.now) }
{
    match (orders, forms) {
        ([], []) => true,
        ([order, orders @ ..], [_, forms @ ..]) => is_plain(order) && are_plain(orders, forms),
        _ => false,
    }
}

// Returns true if a table has no CHECK, and no column whose default is the current time.
fn is_empty(checks: &Terms, stamps: &Stamps) -> bool
    ensures { IsTrue result ↔ (checks.now ≡ []) × (stamps.now ≡ no_stamps) }
{
    checks.roots.is_empty()
        && stamps.places.is_empty()
        && stamps.terms.roots.is_empty()
        && stamps.formats.is_empty()
}

/// Returns true if a table equals the table that `form` (a short description of one of the
/// program's tables) describes: in its name, columns, keys and foreign keys.
pub(crate) fn is_table(table: &Table, form: &TableForm) -> bool
    ensures { IsTrue result ↔ (table.now ≡ table_of form.now) }
{
    table.name.as_slice() == form.name.as_bytes()
        && table.tree == form.tree
        && are_columns(table.columns.as_slice(), form.columns)
        && table.key == form.key
        && are_places(&table.primary, form.primary)
        && are_uniques(table.uniques.as_slice(), form.uniques)
        && are_plain(table.orders.as_slice(), form.uniques)
        && is_empty(&table.checks, &table.stamps)
        && are_references(table.references.as_slice(), form.keys)
        && table.computed.is_empty()
        && !table.is_counted
}

fn is_index(index: &Index, form: &IndexForm) -> bool
    ensures { IsTrue result ↔ (index.now ≡ index_of form.now) }
{
    index.name.as_slice() == form.name.as_bytes()
        && index.tree == form.tree
        && index.table == form.table
        && index.columns.as_slice() == form.columns
        && index.order.digits == 0
        && index.is_unique
}

/// Returns true if the indexes of a schema equal the indexes that `forms` describes in a short
/// notation, in the same order.
pub(crate) fn are_indexes(indexes: &[Index], forms: &[IndexForm]) -> bool
    ensures { IsTrue result ↔ (indexes.now ≡ map index_of forms.now) }
{
    match (indexes, forms) {
        ([], []) => true,
        ([index, indexes @ ..], [form, forms @ ..]) => {
            is_index(index, form) && are_indexes(indexes, forms)
        }
        _ => false,
    }
}
