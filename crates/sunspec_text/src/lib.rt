//! Prints the chain of SunSpec models in Modbus registers, which come from lines of text or from a
//! live device. Also prints the read plan of a point list.
#![tactic(auto)]

mod chains;
mod lists;
mod scans;

pub use chains::chain_text;
pub use lists::{plan_text, print_plan};
pub use scans::{ScanForm, Site, scan_text};
