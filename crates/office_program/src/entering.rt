//! Enters the lines of an input into an office, the engine that records meters' energy. Each input
//! line is a request, with the caller's name and a number as idempotency key.

mod asking;
mod doubts;
mod entered;
mod entries;
mod file_line;
mod files;
mod laws;
mod marks;
mod progress;
mod read_line;
mod reading;
mod wanted;

pub use entered::enter_books;
pub use files::{MOST_FILE, NamedFiles, Shown};
pub use laws::{inputs_act_once, requests_are_repeated};
