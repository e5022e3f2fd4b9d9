//! The web page of `sunreg run`: its files, their request targets and their content types.
#![tactic(auto)]

mod files;
mod parts;

pub use parts::{PagePart, part_of};
