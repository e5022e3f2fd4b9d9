//! The types of the events that the program processes, and of its answers, notifications and
//! records. The program polls devices, and records the energy of their meters in one store.
#![tactic(auto)]

mod answers;
mod commands;
mod events;
mod facts;
mod limits;
mod names;
mod observer;
mod questions;
mod refusals;
mod terms;

pub use answers::{Answer, CommandKind, Note};
pub use commands::{
    AddDevice, AddRegister, Close, Command, Exchange, GivenScale, Install, Manual, PutList,
    Rescale, Reset, StartPoll, StartRound, VoidEntry,
};
pub use events::{Asked, Event, Piece};
pub use facts::{
    BookedEntry, Device, DeviceList, EndedPoll, Fact, HeldReading, Opening, Poll, Register, Reply,
    ScaleSource, VoidedEntry,
};
pub use limits::{
    LAST_ADDRESS, LAST_COUNTER, LAST_UNIT, MAX_DEVICES, MAX_INSTALLATIONS, MAX_NAME, MAX_POLLS,
    MAX_REGISTERS, MAX_REQUEST, MAX_ROLLS,
};
pub use meter_journal::{EntryKind, EntryRow};
pub use names::Name;
pub use observer::Observer;
pub use questions::{EntryContext, Installation, PollRow};
pub use read_plan::PlannedList;
pub use refusals::{Refusal, StoreCause};
pub use terms::{Timeout, Window};
