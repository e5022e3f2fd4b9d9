//! Parses the command line of `sunreg`: its commands, its options, and their values.
#![tactic(auto)]

mod choices;
mod clap_table;
mod faults;
mod line;
mod lines;
mod options;
mod table;
mod values;
mod words;

pub use crate::values::Device;
pub use clap_table::{CommandText, OptionText, ProgramText, Value};
pub use faults::WordsFault;
pub use line::{CommandLine, FormWords, Sealing};
pub use table::program;
pub use values::{DeviceFault, ListFault};
pub use words::command_of;
