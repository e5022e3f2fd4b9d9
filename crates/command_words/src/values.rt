//! Parses option values: numbers and lists of devices.

mod devices;
mod list_fault;
mod numbers;

pub use devices::{Device, MOST_DEVICES, MOST_PORT, devices_in};
pub use list_fault::{DeviceFault, ListFault};
pub use numbers::number_up_to;
