//! The meaning, the usual cause and the remedy of each numeric code that the program prints, such
//! as 12 in `refused 12`.
#![tactic(auto)]

mod kind;
mod meaning;
mod tables;

pub use kind::{Kind, kind_named, kinds};
pub use meaning::{Meaning, meaning_of};
