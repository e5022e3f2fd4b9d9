//! Splits a script line into words, and parses the values that the words spell.

mod fields;
mod meanings;
mod values;
mod words;

pub use fields::{
    end_of_words, next_moment, next_name, next_number, next_range, next_scale, next_signed,
};
pub(crate) use meanings::meaning_in;
pub use values::{hex_bytes, number};
pub use words::Words;
