//! The tables that the program creates in a file, in the order of their creation.
ghost use Rattle.std.specs.Prelude.{◌≡◌, ◌≢◌, map, OnOk, IfErr};
ghost use Rattle.store_tables.specs.Schema.{books_schema};
ghost use Rattle.table_audit.specs.SchemaForms.{NamesDifference, NamesFirst, table_of};

use crate::schema::SchemaFault;
use crate::schema::comparing::is_table;
use crate::schema::forms::{KeyForm, TableForm};
use sqlite_schema::schema::{Kind, Table};

/// The tables that the program creates.
const TABLES: [TableForm; 13] = [
    TableForm {
        fault: SchemaFault::Meta,
        name: "meta",
        tree: 0,
        columns: &[
            ("id", Kind::Integer),
            ("version", Kind::Integer),
            ("zone", Kind::Text),
        ],
        key: Some(0),
        primary: &[0],
        uniques: &[],
        keys: &[],
    },
    TableForm {
        fault: SchemaFault::Devices,
        name: "devices",
        tree: 1,
        columns: &[
            ("place", Kind::Integer),
            ("name", Kind::Text),
            ("unit", Kind::Integer),
            ("timeout", Kind::Integer),
            ("window", Kind::Integer),
        ],
        key: Some(0),
        primary: &[0],
        uniques: &[&[2]],
        keys: &[],
    },
    TableForm {
        fault: SchemaFault::Points,
        name: "points",
        tree: 3,
        columns: &[
            ("device", Kind::Text),
            ("place", Kind::Integer),
            ("name", Kind::Text),
            ("function", Kind::Integer),
            ("area", Kind::Integer),
            ("address", Kind::Integer),
            ("kind", Kind::Text),
            ("scale", Kind::Text),
        ],
        key: None,
        primary: &[1, 2],
        uniques: &[&[1, 2]],
        keys: &[KeyForm {
            columns: &[1],
            parent: "devices",
            parent_columns: &["name"],
        }],
    },
    TableForm {
        fault: SchemaFault::Registers,
        name: "registers",
        tree: 5,
        columns: &[
            ("place", Kind::Integer),
            ("name", Kind::Text),
            ("device", Kind::Text),
            ("function", Kind::Integer),
            ("address", Kind::Integer),
            ("scale_kind", Kind::Integer),
            ("scale", Kind::Integer),
        ],
        key: Some(0),
        primary: &[0],
        uniques: &[&[2]],
        keys: &[KeyForm {
            columns: &[3],
            parent: "devices",
            parent_columns: &["name"],
        }],
    },
    TableForm {
        fault: SchemaFault::Installations,
        name: "installations",
        tree: 7,
        columns: &[
            ("place", Kind::Integer),
            ("meter", Kind::Text),
            ("register", Kind::Text),
            ("ceiling", Kind::Integer),
            ("ended", Kind::Integer),
            ("last_moment", Kind::Integer),
            ("last_raw", Kind::Integer),
            ("last_sf", Kind::Integer),
            ("total", Kind::Integer),
        ],
        key: Some(0),
        primary: &[0],
        uniques: &[&[2]],
        keys: &[KeyForm {
            columns: &[3],
            parent: "registers",
            parent_columns: &["name"],
        }],
    },
    TableForm {
        fault: SchemaFault::Entries,
        name: "entries",
        tree: 9,
        columns: &[
            ("meter", Kind::Text),
            ("place", Kind::Integer),
            ("kind", Kind::Integer),
            ("moment", Kind::Integer),
            ("raw", Kind::Integer),
            ("rolls", Kind::Integer),
            ("after", Kind::Integer),
            ("sf", Kind::Integer),
        ],
        key: None,
        primary: &[1, 2],
        uniques: &[&[1, 2]],
        keys: &[KeyForm {
            columns: &[1],
            parent: "installations",
            parent_columns: &["meter"],
        }],
    },
    TableForm {
        fault: SchemaFault::Polls,
        name: "polls",
        tree: 11,
        columns: &[
            ("poll", Kind::Integer),
            ("device", Kind::Text),
            ("unit", Kind::Integer),
            ("started", Kind::Integer),
            ("tid", Kind::Integer),
            ("function", Kind::Integer),
            ("address", Kind::Integer),
            ("count", Kind::Integer),
        ],
        key: Some(0),
        primary: &[0],
        uniques: &[],
        keys: &[KeyForm {
            columns: &[2],
            parent: "devices",
            parent_columns: &["name"],
        }],
    },
    TableForm {
        fault: SchemaFault::Holds,
        name: "holds",
        tree: 12,
        columns: &[
            ("place", Kind::Integer),
            ("meter", Kind::Text),
            ("poll", Kind::Integer),
            ("moment", Kind::Integer),
            ("raw", Kind::Integer),
            ("sf", Kind::Integer),
            ("cause", Kind::Integer),
        ],
        key: Some(0),
        primary: &[0],
        uniques: &[],
        keys: &[
            KeyForm {
                columns: &[2],
                parent: "installations",
                parent_columns: &["meter"],
            },
            KeyForm {
                columns: &[3],
                parent: "polls",
                parent_columns: &["poll"],
            },
        ],
    },
    TableForm {
        fault: SchemaFault::Outcomes,
        name: "outcomes",
        tree: 13,
        columns: &[
            ("poll", Kind::Integer),
            ("moment", Kind::Integer),
            ("outcome", Kind::Integer),
            ("code", Kind::Integer),
        ],
        key: Some(0),
        primary: &[0],
        uniques: &[],
        keys: &[KeyForm {
            columns: &[0],
            parent: "polls",
            parent_columns: &["poll"],
        }],
    },
    TableForm {
        fault: SchemaFault::Intervals,
        name: "intervals",
        tree: 14,
        columns: &[
            ("meter", Kind::Text),
            ("start", Kind::Integer),
            ("mwh", Kind::Integer),
        ],
        key: None,
        primary: &[1, 2],
        uniques: &[&[1, 2]],
        keys: &[KeyForm {
            columns: &[1],
            parent: "installations",
            parent_columns: &["meter"],
        }],
    },
    TableForm {
        fault: SchemaFault::Replies,
        name: "replies",
        tree: 16,
        columns: &[
            ("caller", Kind::Text),
            ("number", Kind::Integer),
            ("request", Kind::Blob),
            ("kind", Kind::Text),
            ("moment", Kind::Integer),
        ],
        key: None,
        primary: &[1, 2],
        uniques: &[&[1, 2]],
        keys: &[],
    },
    TableForm {
        fault: SchemaFault::Ranges,
        name: "ranges",
        tree: 18,
        columns: &[("meter", Kind::Text), ("range", Kind::Integer)],
        key: None,
        primary: &[1],
        uniques: &[&[1]],
        keys: &[KeyForm {
            columns: &[1],
            parent: "installations",
            parent_columns: &["meter"],
        }],
    },
    TableForm {
        fault: SchemaFault::Voids,
        name: "voids",
        tree: 20,
        columns: &[
            ("meter", Kind::Text),
            ("place", Kind::Integer),
            ("moment", Kind::Integer),
        ],
        key: None,
        primary: &[1, 2],
        uniques: &[&[1, 2]],
        keys: &[KeyForm {
            columns: &[1, 2],
            parent: "entries",
            parent_columns: &["meter", "place"],
        }],
    },
];

// Compares the tables of a schema with the tables that `forms` (short descriptions of the program's
// tables) describe. The error names the first table that differs.
fn check_tables(tables: &[Table], forms: &[TableForm]) -> Result<(), SchemaFault>
    ensures same { OnOk result (tables.now ≡ map table_of forms.now) }
    ensures other { IfErr result (λ fault. tables.now ≢ map table_of forms.now) }
    ensures named { IfErr result (NamesFirst tables.now (map table_of forms.now)
        (map (λ form. form.fault) forms.now)) }
{
    match forms {
        [] => {
            if tables.is_empty() {
                Ok(())
            } else {
                Err(SchemaFault::Objects)
            }
        }
        [form, forms @ ..] => match tables {
            [] => Err(SchemaFault::Objects),
            [table, tables @ ..] => {
                if is_table(table, form) {
                    check_tables(tables, forms)
                } else {
                    Err(form.fault)
                }
            }
        },
    }
}

/// Compares the tables of a schema with the program's tables. The error names the first table that
/// differs.
pub(crate) fn check_program_tables(tables: &[Table]) -> Result<(), SchemaFault>
    ensures same { OnOk result (tables.now ≡ books_schema.tables) }
    ensures other { IfErr result (λ fault. tables.now ≢ books_schema.tables) }
    ensures named { IfErr result (NamesDifference tables.now) }
{
    check_tables(tables, &TABLES)
}
