//! Builds the texts that the program reports while it polls: the JSON of `/status`, log lines, and
//! messages for operators.

mod advice;
mod monitor;
mod status;

pub use advice::{
    DeviceLack, Lack, MOST_REPORTED, Reported, ReportedNumber, Topic, add_lacks, append_refusal,
    write_held, write_lack,
};
pub use monitor::{LineQueue, MOST_WAITING, RunMonitor, write_head, write_lines, write_sum};
pub use status::{
    Counts, DeviceState, append_bytes, append_name, write_number, write_scale, write_status,
    write_word,
};
