//! Reads and writes the energy of meters by quarter hours, in the table `intervals`.

mod columns;
mod step_shares;
mod streams;

pub use step_shares::book_step;
pub use streams::{
    meter_intervals, meter_intervals_between, register_intervals, register_intervals_between,
};
