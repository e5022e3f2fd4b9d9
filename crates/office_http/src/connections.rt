//! Serves HTTP connections from accepted hosts, one connection after the other.

mod connections;
mod named;
mod time;

pub use connections::{MOST_SECONDS, serve_connections, serve_on};
pub use named::{handle_named, write_misdirected};
