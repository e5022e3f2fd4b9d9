//! Messages on standard error after a round of polls, or after the command `enter`. They report
//! missing parts of the device's setup, and explain refusals and rejected readings.

mod ends;
mod lacking;
mod printed_lines;
mod remarks;
mod unaccepted;

pub use ends::may_be_ahead;
pub use lacking::say_lacks;
pub use printed_lines::say_remarks;
pub use unaccepted::say_unaccepted;
