//! Defines the exit statuses of commands, and the messages that report how a command ended.

mod ending;
mod failure;
mod named;

pub use ending::{Ending, ending_of, say};
pub use failure::Failure;
pub use named::Named;
