//! Opens an existing store for the program, and records the store's pending polls (without an
//! outcome) as lost.

mod opened_office;

pub use opened_office::{book_opening, opening_refusal};
