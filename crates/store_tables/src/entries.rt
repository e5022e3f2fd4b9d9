//! SQL statements on the tables `entries` and `voids`: the entries of meters (readings and
//! corrections), and the cancelled entries.

mod columns;
mod entries;
mod latest;
mod rows;
mod voids;

pub use columns::{read_entry, read_void};
pub use entries::{entry_at, entry_rows, insert_entry, last_entry_rows, set_rollovers};
pub use latest::{latest_entry, latest_void};
pub use rows::{EntryKind, EntryRow};
pub use voids::{insert_void, void_rows};
