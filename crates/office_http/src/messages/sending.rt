//! Formats HTTP responses, and sends them to the client's connection. No function in this module
//! allocates.

mod bodies;
mod outbox;
mod reply;
mod writer;

pub use bodies::{Text, fault_body, refused_body};
pub use reply::{write_json, write_text_head};
pub use writer::ResponseWriter;
