//! Writes metering records to the tables of the store, in one transaction.

mod books;
mod corrections;
mod devices;
mod lists;
mod meter_entries;
mod meter_state;
mod meters;
mod places;
mod polls;
mod registers;
mod surroundings;
mod voids;

pub use books::book_facts;
pub use devices::enter_device;
pub use lists::enter_list;
pub use meter_entries::enter_entry;
pub use meters::enter_opening;
pub use polls::{enter_hold, enter_outcome, enter_poll, enter_reply};
pub use registers::enter_register;
pub use voids::enter_void;
