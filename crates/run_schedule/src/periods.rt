//! Calendar periods (days, months, years): when a period ends, the file name of a period, and the
//! file in which energy is recorded.

mod courses;
mod ends;
mod folders;
mod led;
mod names;
mod plans;

pub use courses::{Course, Rollover, course_at};
pub use ends::{last_round, period_end};
pub use folders::{active_period, periods_before};
pub use led::ActivePeriod;
pub use names::{file_of_period, period_of_file};
pub use plans::{Plan, next_try, nothing_goes_back, period_until, plan_of};
