//! Compares the schema of a file with the schema that the program creates. A schema is the
//! definitions of the tables with their columns, keys and foreign keys, and the indexes. In a file
//! with another schema, rows could occur twice, or could reference a missing row.
ghost use Rattle.std.specs.Prelude.{◌≡◌, ◌≢◌, ◌↔◌, false, OnOk, IfErr, IsTrue};
ghost use Rattle.store_tables.specs.Content.{Content};
ghost use Rattle.store_tables.specs.Schema.{books_schema};
ghost use Rattle.table_audit.specs.Looking.{HoldsRows, HoldsTables};
ghost use Rattle.table_audit.specs.SchemaForms.{NamesDifference};

mod comparing;
mod forms;
mod program_tables;

use crate::schema::comparing::are_indexes;
use crate::schema::forms::IndexForm;
use crate::schema::program_tables::check_program_tables;
use sqlite::{Alter, Connection};
use sqlite_schema::schema::{Index, Schema};

/// The first difference between the schema of a file and the schema that the program creates.
#[derive(Clone, Copy, Debug, PartialEq, Eq)]
pub enum SchemaFault {
    /// The table `meta` of a file differs from the program's definition. Each of the next faults,
    /// up to `Voids`, means that another table differs.
    Meta,
    Devices,
    Points,
    Registers,
    Installations,
    Entries,
    Polls,
    Holds,
    Outcomes,
    Intervals,
    Replies,
    Ranges,
    Voids,
    /// The file has another number of tables than the program creates, other indexes, a view or a
    /// trigger.
    Objects,
}

impl SchemaFault {
    /// Returns the name of the table that differs from the program's definition, or `None` if
    /// another object differs.
    pub fn table(self) -> Option<&'static str> {
        match self {
            SchemaFault::Meta => Some("meta"),
            SchemaFault::Devices => Some("devices"),
            SchemaFault::Points => Some("points"),
            SchemaFault::Registers => Some("registers"),
            SchemaFault::Installations => Some("installations"),
            SchemaFault::Entries => Some("entries"),
            SchemaFault::Polls => Some("polls"),
            SchemaFault::Holds => Some("holds"),
            SchemaFault::Outcomes => Some("outcomes"),
            SchemaFault::Intervals => Some("intervals"),
            SchemaFault::Replies => Some("replies"),
            SchemaFault::Ranges => Some("ranges"),
            SchemaFault::Voids => Some("voids"),
            SchemaFault::Objects => None,
        }
    }
}

/// The indexes that SQLite creates for the keys of the program's tables, in the order of their
/// creation.
const INDEXES: [IndexForm; 9] = [
    IndexForm {
        name: "sqlite_autoindex_devices_1",
        tree: 2,
        table: 1,
        columns: &[2],
    },
    IndexForm {
        name: "sqlite_autoindex_points_1",
        tree: 4,
        table: 3,
        columns: &[1, 2],
    },
    IndexForm {
        name: "sqlite_autoindex_registers_1",
        tree: 6,
        table: 5,
        columns: &[2],
    },
    IndexForm {
        name: "sqlite_autoindex_installations_1",
        tree: 8,
        table: 7,
        columns: &[2],
    },
    IndexForm {
        name: "sqlite_autoindex_entries_1",
        tree: 10,
        table: 9,
        columns: &[1, 2],
    },
    IndexForm {
        name: "sqlite_autoindex_intervals_1",
        tree: 15,
        table: 14,
        columns: &[1, 2],
    },
    IndexForm {
        name: "sqlite_autoindex_replies_1",
        tree: 17,
        table: 16,
        columns: &[1, 2],
    },
    IndexForm {
        name: "sqlite_autoindex_ranges_1",
        tree: 19,
        table: 18,
        columns: &[1],
    },
    IndexForm {
        name: "sqlite_autoindex_voids_1",
        tree: 21,
        table: 20,
        columns: &[1, 2],
    },
];

// Returns true if the indexes of a schema equal the indexes that the program creates.
fn are_program_indexes(indexes: &[Index]) -> bool
    ensures { IsTrue result ↔ (indexes.now ≡ books_schema.indexes) }
{
    are_indexes(indexes, &INDEXES)
}

// Returns Ok if and only if a schema equals the schema that the program creates in a new file.
fn check_schema(schema: &Schema) -> Result<(), SchemaFault>
    ensures same { OnOk result (schema.now ≡ books_schema) }
    ensures other { IfErr result (λ fault. schema.now ≢ books_schema) }
    ensures named { IfErr result (NamesDifference schema.now.tables) }
{
    check_program_tables(schema.tables.as_slice())?;
    if are_program_indexes(schema.indexes.as_slice()) && schema.views.is_empty() {
        Ok(())
    } else {
        Err(SchemaFault::Objects)
    }
}

/// Returns Ok if and only if a database has the schema that the program creates in a new file. The
/// error names the first table that differs. With the program's schema, SQLite itself has checked
/// the keys of all rows. The connection must have no open transaction.
pub fn check_definitions<S: Alter>(conn: &Connection<S>) -> Result<(), SchemaFault>
    requires { conn.now.in_transaction ≡ false }
    ensures ours { OnOk result ((content : Content) → HoldsRows S.Store conn.now content
        → HoldsTables S.Store conn.now content) }
    ensures other { IfErr result (λ fault. conn.now.schema ≢ books_schema) }
    ensures named { IfErr result (NamesDifference conn.now.schema.tables) }
{
    let _settled = conn.is_autocommit();
    check_schema(conn.schema())
}
