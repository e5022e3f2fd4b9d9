//! Decides when to connect to devices and poll them, how long operations may take, and which
//! timestamp an event gets. Times are whole seconds since 1970-01-01 UTC, and durations are
//! seconds.

mod grid;
mod limits;
mod onward_time;
mod pauses;
mod run_time;
mod steady_clock;
mod timing;

pub use grid::next_due;
pub use limits::{CLIENT_SECONDS, CONNECT_SECONDS, LEAST_ROUND, MOST_EVERY, round_until, until};
pub use onward_time::OnwardTime;
pub use pauses::{MOST_PAUSE, next_pause, retry_at};
pub use run_time::RunTime;
pub use steady_clock::{ClockReading, SteadyClock};
pub use timing::{Phase, Timing};
