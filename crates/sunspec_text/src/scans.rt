//! Prints the chain of SunSpec models of a live device.

mod scan_printout;
mod setup_lines;

pub use scan_printout::{ScanForm, scan_text};
pub use setup_lines::Site;
