//! Runs scripts whose devices are simulated in this process.

mod answers;
mod lines;
mod loopback;
mod stand_in_lines;
mod text_run;
mod wires;

pub use loopback::Loopback;
pub use text_run::loop_text;
pub use wires::{Connects, Ends};
