//! The polling rounds of several devices, and the event that each round generates next. A polling
//! round makes one poll for each Modbus read of its device's plan.

mod polls;
mod round;
mod stage;
mod table;

pub use polls::{MOST_WAITING, Sum};
pub use round::Round;
pub use stage::Stage;
pub use table::{apply_notes_to_all, find_requesting};
