//! Sets up a new office (a new database file) from the database file of an old one (a file
//! rollover).
//!
//! The new database file has the devices, point lists and accounting registers (named counters) of
//! the old one. Each open meter continues in the new file from its last valid (not voided) entry.

mod carried;
mod commands;
mod faults;
mod feeding;
mod laws;
mod openings;
mod plans;
mod standings;

pub use carried::carry_books;
pub use faults::CarryFault;
pub use laws::{commands_record_the_same, meters_continue_from_their_last_state};
