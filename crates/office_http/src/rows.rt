//! Streams the rows of energy reports as HTTP responses. No function in this module allocates.

mod lines;

pub use lines::{Replied, RowLines};
