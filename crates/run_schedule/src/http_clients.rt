//! The slots of the HTTP connections that the server has open at the same time.

mod choice;
mod client_slots;
mod clients;
mod held_replies;
mod place;
mod turn_share;

pub use choice::choose_slot;
pub use client_slots::{Admission, ClientSlots, MOST_CLIENTS};
pub use clients::{clients_for, needed_limit, wanted_descriptors};
pub use held_replies::{little_is_held, may_reply};
pub use place::Place;
pub use turn_share::{TurnShare, place_at, replies_are_few, turns_go_round};
