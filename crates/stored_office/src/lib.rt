//! The commands that work on a database file: reporting, entering, polling and serving. They work
//! with any store, clock, sockets and writer.
#![tactic(auto)]

mod advice;
mod runs;
mod tasks;

pub use advice::{may_be_ahead, say_lacks, say_remarks, say_unaccepted};
pub use tasks::{Done, Task, carry_out_stored, ending_of_done};
