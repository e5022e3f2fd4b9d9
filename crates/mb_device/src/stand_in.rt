//! Serves a simulated device on a listening socket.

mod connections;

pub use connections::{MOST_TURNS, answer_all, answer_one};
