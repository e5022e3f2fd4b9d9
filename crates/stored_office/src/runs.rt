//! Functions that run an office (the part of the program that checks and records events) over a
//! store in a database. Their contracts are the main theorem about an office: the store has the
//! records of all accepted events.

mod runs;

pub use runs::{run_created, run_stored};
