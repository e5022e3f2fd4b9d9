//! Runs scripts (texts of commands, events and queries) over a store in memory, over any other
//! store, and with simulated devices.
#![tactic(auto)]

mod any_books;
mod bank;
mod looping;
mod replaying;

pub use any_books::replay_books;
pub use bank::{Setup, SetupParts, set_up};
pub use looping::{Connects, Ends, Loopback, loop_text};
pub use replaying::{Replayed, replay};
