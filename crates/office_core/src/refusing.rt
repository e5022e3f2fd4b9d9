//! Finds the reason to refuse an event, and recognizes retries.

mod arrivals;
mod commands;
mod corrections;
mod devices;
mod entries;
mod events;
mod exchanges;
mod faults;
mod given;
mod installs;
mod limits;
mod meters;
mod names;
mod registers;
mod requests;
mod sessions;
mod starts;
mod voids;

pub use events::refusal;
pub use requests::kept;
