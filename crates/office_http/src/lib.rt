//! Executes queries and commands on one store by HTTP, one request after the other. The module
//! `messages` reads the requests and writes the responses.
#![tactic(auto)]

mod answers;
mod connections;
mod exchange;
mod fault;
mod laws;
pub mod messages;
mod rows;
mod wants;

pub use connections::{handle_named, serve_connections, serve_on, write_misdirected};
pub use exchange::handle;
pub use fault::HandleFault;
pub use laws::replies_are_one;
