//! The tasks of commands that work on a database file, and the results of the tasks.

mod ends;
mod tasks;

pub use ends::ending_of_done;
pub use tasks::{Done, Task, carry_out_stored};
