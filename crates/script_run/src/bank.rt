//! Sets up a simulated device from the lines of a text.

mod setup;
mod setup_lines;

pub use setup::{Setup, SetupParts, add_in, empty_bank, set_in};
pub use setup_lines::set_up;
