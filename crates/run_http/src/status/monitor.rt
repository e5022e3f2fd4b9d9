//! Observes the program's events. Keeps counts, the state of each device and the frames to send,
//! and formats log lines.

mod device_state;
mod line_queue;
mod lines;
mod output;
mod run_monitor;

pub use line_queue::{LineQueue, MOST_WAITING};
pub use lines::{write_head, write_lines, write_sum};
pub use run_monitor::RunMonitor;
