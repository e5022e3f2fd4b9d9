//! Tables of a program's commands and options, and a parser that passes these tables to `clap`.

mod clap_command;
mod clap_matches;
mod tables;

pub use clap_matches::matches_of;
pub use tables::{CommandText, OptionText, ProgramText, Value};
