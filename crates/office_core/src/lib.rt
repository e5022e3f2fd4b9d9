//! The part of the program that accepts events, polls devices, and records the energy of their
//! meters.
#![tactic(auto)]

mod commands;
mod day_range;
mod day_sink;
mod decisions;
mod event_run;
mod laws;
mod office;
mod opening;
mod questions;
mod refusing;
mod reopened_office;
mod results;
mod sessions;
mod settling;
mod site;
mod starting;

pub(crate) use commands::{carry_out, puts_planned};
pub use day_range::span_around;
pub use event_run::run;
pub use laws::{events_are_left_whole, runs_are_left_whole};
pub use office::Office;
pub use office_books::{Books, BooksFault, RowSink, StoreFault};
pub use office_events::{
    AddDevice, AddRegister, Answer, Asked, Close, Command, CommandKind, Event, Exchange,
    GivenScale, Install, Installation, Manual, Name, Note, Piece, PollRow, PutList, Refusal,
    Rescale, Reset, StartPoll, StartRound, StoreCause, VoidEntry,
};
pub(crate) use opening::{book_opening, opening_refusal};
pub use results::Run;
pub(crate) use sessions::{Slot, has_device, is_connected, place_of};
pub(crate) use settling::settle_event;
pub use site::SiteRow;
pub(crate) use starting::Outgoing;
