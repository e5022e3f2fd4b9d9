//! Counts events since the program started, and formats the counts and device states as the JSON of
//! `/status`.

mod counts;
mod lacking;
mod pieces;
mod status;

pub use counts::Counts;
pub use pieces::{append_bytes, write_number, write_scale, write_word};
pub use status::{DeviceState, append_name, write_status};
