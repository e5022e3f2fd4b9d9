//! The input, the output and the exit status of a command.
#![tactic(auto)]

mod buffer;
mod calls;
mod end;
mod input;
mod lines;
mod printer;
mod status;

pub use buffer::Buffered;
pub use end::print_end;
pub use input::{MOST_BYTES, ReadFault, read_input, read_whole};
pub use lines::{InputLine, InputLines};
pub use printer::{NotedWriter, Printer};
pub use status::ExitStatus;
