//! The tables that a database file of each version has.
ghost use Rattle.std.specs.Prelude.{◌≡◌, ◌≢◌, ◌↔◌, map, IsTrue, IfSome, IfNone};
ghost use Rattle.sqlite.specs.Table.{Table};
ghost use Rattle.store_tables.specs.declared.layouts.Layout.{Layout};
ghost use Rattle.store_tables.specs.Layouts.{version_of, IsNamedAs};

use sqlite_schema::schema::{Schema, Table};

/// The layout of a database file: which tables it has. Version 1 lacks `ranges` and `voids`,
/// version 2 lacks `voids`, and version 3 has all tables.
#[derive(Clone, Copy)]
pub enum Layout {
    First,
    Second,
    Third,
}

impl Layout {
    /// Returns the version number that `meta` stores in a file of this layout (the set of its
    /// tables).
    pub fn version(self) -> u64
        ensures { result ≡ version_of self }
    {
        match self {
            Layout::First => 1,
            Layout::Second => 2,
            Layout::Third => 3,
        }
    }
}

/// The tables of a version 3 file, in the order in which they are created.
const NAMES: [&str; 13] = [
    "meta",
    "devices",
    "points",
    "registers",
    "installations",
    "entries",
    "polls",
    "holds",
    "outcomes",
    "intervals",
    "replies",
    "ranges",
    "voids",
];

/// Returns true if the tables have the given names, in the given order.
fn are_named(tables: &[Table], names: &[&str]) -> bool
    ensures { IsTrue result ↔ (map (λ (t : Table). t.name) tables.now
        ≡ map (λ name. name.now) names.now) }
{
    if tables.len() != names.len() {
        return false;
    }
    for (at, table) in tables.iter().enumerate() {
        if table.name.as_slice() != names[at].as_bytes() {
            return false;
        }
    }
    true
}

/// Returns the layout (version of a file's tables) whose table names equal those of a schema, or
/// None if no version has these names.
pub fn layout_of(schema: &Schema) -> Option<Layout>
    ensures found { IfSome result (IsNamedAs schema.now) }
    ensures none { IfNone result ((layout : Layout) → ¬ IsNamedAs schema.now layout) }
{
    let tables = schema.tables.as_slice();
    if are_named(tables, &NAMES) {
        return Some(Layout::Third);
    }
    if are_named(tables, &NAMES[..12]) {
        return Some(Layout::Second);
    }
    if are_named(tables, &NAMES[..11]) {
        return Some(Layout::First);
    }
    None
}
