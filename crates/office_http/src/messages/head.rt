//! Finds the head of an HTTP request in bytes, and reads the headers in it.

mod head;
mod headers;
mod lines;

pub use head::{Head, HeadState, MOST_BYTES, MOST_HEADERS, parse_head};
pub(crate) use headers::same_name;
pub use headers::{Given, header_value};
pub use lines::has_head_end;
