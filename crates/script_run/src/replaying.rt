//! Runs scripts (texts of commands, events and queries) over a store in memory.

mod events;
mod lines;
mod questions;
mod replayed_script;
mod text_run;

pub use events::feed;
pub use lines::carry_out;
pub use replayed_script::{Replayed, replay};
