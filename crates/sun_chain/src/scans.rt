//! Scans a device over a live link for its chain of SunSpec models, and reads single counters.

mod asking;
mod client;
mod counter;
mod fault;
mod hearing;
mod known;
mod scan;
mod scanning;
mod stage;
mod tries;
mod words;

pub use counter::{CounterScale, Shown, read_counter};
pub use fault::ScanFault;
pub use hearing::MOST_TAKES;
pub use scan::Scan;
pub use scanning::{MOST_READS, ScanObserver, scan_over};
pub use words::words_of_bytes;
