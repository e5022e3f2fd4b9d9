//! Short descriptions of the tables and indexes that the program creates.
use crate::schema::SchemaFault;
use sqlite_schema::schema::Kind;

/// A column of a STRICT table: its name and type. It is NOT NULL and has no default.
pub type ColumnForm = (&'static str, Kind);

/// A foreign key of a table. Its columns are indices into a row, which begins with the rowid.
#[derive(Clone, Copy)]
pub struct KeyForm {
    pub columns: &'static [usize],
    pub parent: &'static str,
    pub parent_columns: &'static [&'static str],
}

/// A STRICT table. `fault` is the fault of a file in which this table differs. `tree` is the number
/// of the table's B-tree, and `key` the index of the INTEGER PRIMARY KEY among the columns.
/// `primary` and `uniques` are indices into a row, which begins with the rowid.
#[derive(Clone, Copy)]
pub struct TableForm {
    pub fault: SchemaFault,
    pub name: &'static str,
    pub tree: u32,
    pub columns: &'static [ColumnForm],
    pub key: Option<usize>,
    pub primary: &'static [usize],
    pub uniques: &'static [&'static [usize]],
    pub keys: &'static [KeyForm],
}

/// An index that SQLite creates for a UNIQUE or a PRIMARY KEY. `tree` and `table` are the numbers
/// of two B-trees: that of the index and that of its table.
#[derive(Clone, Copy)]
pub struct IndexForm {
    pub name: &'static str,
    pub tree: u32,
    pub table: u32,
    pub columns: &'static [usize],
}
