//! SQL statements on the tables `polls`, `outcomes`, `holds` (rejected readings) and `replies`
//! (requests that are stored to detect retries).

mod columns;
mod holds;
mod kinds;
mod latest;
mod outcomes;
mod polls;
mod replies;
mod rows;

pub use columns::read_poll;
pub use holds::{insert_rejected, last_hold_rows};
pub use latest::{latest_hold, latest_outcome, latest_reply, latest_start};
pub use outcomes::{insert_outcome, outcome_of};
pub use polls::{insert_poll, last_poll, pending_rows, poll_at};
pub use replies::{insert_kept_request, repeat_of};
pub use rows::{OutcomeRow, Poll, PollRow, RejectedRow, Repeat};
