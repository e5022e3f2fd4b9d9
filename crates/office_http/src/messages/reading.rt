//! Reads an HTTP request from a client's connection: first its head, then its body.

mod head_and_body;
mod inbox;

pub use head_and_body::{read_body, read_head};
pub use inbox::{Inbox, MOST_TAKES, TakeFault};
