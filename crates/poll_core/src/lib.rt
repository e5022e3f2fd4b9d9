//! Tracks the pending polls of one device over Modbus TCP. Each started poll has exactly one
//! outcome, or is pending.
#![tactic(auto)]

mod answers;
mod fault_texts;
mod inner;
mod laws;
mod limits;
mod outcome;
mod poll;
mod session;
mod table;

pub use answers::{ClockBack, Ready, Settled, StartFault, Turn};
pub use laws::{
    each_once, longer_pieces_settle, one_event_more, over_for_good, pending_waits, whole_answers,
};
pub use limits::{LAST_MOMENT, MAX_TIMEOUT, MAX_WINDOW};
pub use outcome::{Call, Closing, LostCause, Malformation, Outcome};
pub use session::Session;
