//! SQL statements on the tables `installations` and `ranges`: meters, and how many values their
//! counters have.

mod columns;
mod installations;
mod ranges;
mod rows;

pub use columns::{read_installation, read_range};
pub use installations::{
    close_installation, insert_installation, installation_at, installation_of, installation_rows,
    last_installation, last_installation_rows, update_last,
};
pub use ranges::{insert_range, range_of, range_rows};
pub use rows::{Installation, InstallationRow, LastRow};
