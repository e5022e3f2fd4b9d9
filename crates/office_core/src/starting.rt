//! Starts Modbus reads on the Modbus session of a device.

mod output;
mod starts;

pub use output::Outgoing;
pub use starts::{polls_on, start_on};
