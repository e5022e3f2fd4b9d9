//! Stores metering records in a SQLite database: creates and opens a store, writes records, and
//! answers queries.
#![tactic(auto)]

mod bookings;
mod books;
mod database;
mod fault_counts;
mod finding;
mod interval_rows;
mod laws;
mod meter_rows;
mod metering;
mod names;
mod points;
mod rejected_rows;
mod rows;
mod stops;
mod streams;
mod tables;
mod voids;

pub use bookings::book_facts;
pub use books::{SqlBooks, Unopened};
pub(crate) use finding::{
    devices, latest, list, pending, poll, poll_count, read_count, reads, register, register_count,
    registers, registers_read, repeat,
};
pub(crate) use interval_rows::book_step;
pub(crate) use meter_rows::register_meter_rows;
pub use metering::holds;
pub(crate) use metering::{
    entry, entry_near, installation, installation_count, intervals, meter, meter_entries,
    meters_at, register_intervals,
};
pub(crate) use names::{name, text};
pub(crate) use points::points_at;
pub(crate) use rows::{
    begun_row, counter_after, device_row, entry_row, hold_row, is_scale, is_sound_opening,
    last_row, opening_row, outcome_row, poll_row, register_row,
};
pub use store_tables::OpenFault;
pub(crate) use voids::{drop_rows_from, entry_at, place_after, place_before, take_step};
