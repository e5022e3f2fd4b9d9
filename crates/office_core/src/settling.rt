//! Finds the polls that a device event ends, and records all outcomes and readings of the event in
//! one write.

mod drafts;
mod events;
mod following;
mod outcomes;
mod readings;
mod sessions;
mod slots;

pub use events::settle_event;
