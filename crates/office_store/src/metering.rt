//! Queries for meters, their entries, their energy by quarter hours, and rejected readings.

mod around;
mod entries;
mod held_readings;
mod installations;
mod journal;
mod listing;
mod meters;
mod places;
mod register_meters;
mod rows;
mod streams;

pub use around::entry_near;
pub use entries::entry;
pub use held_readings::holds;
pub use listing::meter_entries;
pub use meters::{installation, installation_count, meter};
pub use register_meters::meters_at;
pub use streams::{intervals, register_intervals};
