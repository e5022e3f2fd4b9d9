//! Prints the chain of SunSpec models in Modbus registers, which are read from lines of text.

mod chain_printout;
mod image_lines;

pub use chain_printout::chain_text;
pub(crate) use chain_printout::{print_image, print_lack};
