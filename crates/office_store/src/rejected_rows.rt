//! Streams a meter's rejected readings from the table `holds`, without keeping them in memory.

mod columns;
mod streams;

pub use streams::{meter_holds, meter_holds_between};
