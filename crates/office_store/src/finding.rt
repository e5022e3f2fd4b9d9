//! Queries for devices, point lists, accounting registers (named energy counters), polls, stored
//! requests (kept to detect retries) and the latest timestamp.

mod device_rows;
mod kept;
mod last_moment;
mod memory;
mod point_lists;
mod point_rows;
mod poll_rows;
mod register_rows;

pub use device_rows::devices;
pub use kept::repeat;
pub use last_moment::latest;
pub(crate) use memory::{push_item, want_of_memory};
pub use point_lists::{list, read_count, reads};
pub use poll_rows::{pending, poll, poll_count};
pub use register_rows::{register, register_count, registers, registers_read};
