//! The queries and deletions of rows that voiding a meter's entry (cancelling a false reading)
//! needs.

mod entries;
mod neighbours;
mod withdrawal;

pub use entries::entry_at;
pub use neighbours::{place_after, place_before};
pub use withdrawal::{drop_rows_from, take_step};
