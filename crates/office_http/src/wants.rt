//! Parses a request into a query or command, or into an error response.

mod kinds;
mod laws;
mod requests;

pub use kinds::Want;
pub use laws::bodies_give_one_command;
pub use requests::wanted;
